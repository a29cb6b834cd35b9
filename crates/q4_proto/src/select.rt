ghost use Rattle.q4_proto.specs.declared.keyword.Keyword.TheVariants as word;
ghost use Rattle.q4_proto.specs.Commands.{ReadsFields};

use crate::fields::Fields;
use crate::number::number_up_to;
use crate::{Command, CommandFault};
use q4_def::Defs;
use q4_value::is_escaped;

// A select asks for at most so many rows.
const MOST_ROWS: u32 = 1_000;

// Reads the two fields of a select.
pub(crate) fn read_select(args: &Fields, defs: &Defs) -> Result<Command, CommandFault>
    ensures { ReadsFields defs.now word.Select args.now result }
{
    let Some((name, digits)) = args.pair() else {
        return Err(CommandFault::Fields);
    };
    let Some(most) = number_up_to(digits, MOST_ROWS) else {
        return Err(CommandFault::Number(2));
    };
    if !is_escaped(name) {
        return Err(CommandFault::Escape(1));
    }
    match defs.find(name) {
        Some(place) => Ok(Command::Select(place, most)),
        None => Err(CommandFault::NoTable(1)),
    }
}
