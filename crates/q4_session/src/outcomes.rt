ghost use Rattle.std.specs.Prelude.{◌≡◌};
ghost use Rattle.q4_machine.specs.Parts.{insert_answer, wait_answer, mode_answer, row_answer, fault_answer, mode_fault_answer};
ghost use Rattle.q4_proto.specs.Told.{Refused, told};
ghost use Rattle.q4_proto.specs.Text.{code, code_at, IsOutcome};
ghost use Rattle.q4_session.specs.Exchanges.{answer_outcome, fault_outcome};

use q4_machine::{DeskFault, InsertFault, ModeFault};
use q4_proto::{Code, CommandFault, Outcome, refusal_of};
use q4_table::Added;

/// A refusal whose line has no number.
pub fn refused(number: u16) -> Outcome<'static>
    ensures { told result ≡ Refused (code number) }
{
    Outcome::Refused(Code {
        number,
        first: None,
        second: None,
    })
}

fn refused_at(number: u16, first: u64) -> Outcome<'static>
    ensures { told result ≡ Refused (code_at number first) }
{
    Outcome::Refused(Code {
        number,
        first: Some(first),
        second: None,
    })
}

/// What a line is answered where its call, or the opening of its session, was refused so.
pub fn desk_refusal(fault: DeskFault) -> Outcome<'static>
    ensures told { told result ≡ answer_outcome (fault_answer fault) }
    ensures listed { IsOutcome (told result) }
{
    match fault {
        DeskFault::Worn(count) => refused_at(70, count),
        DeskFault::Memory => refused(90),
    }
}

pub(crate) fn insert_outcome(answer: Result<Added, InsertFault>) -> Outcome<'static>
    ensures told { told result ≡ answer_outcome (insert_answer answer) }
    ensures listed { IsOutcome (told result) }
{
    match answer {
        Ok(Added::New(number)) => Outcome::Number(number),
        Ok(Added::Seen(mark)) => Outcome::Seen(mark),
        Err(InsertFault::Spent) => refused(44),
        Err(InsertFault::Rows) => refused(41),
        Err(InsertFault::Bytes(sum)) => refused_at(42, sum),
        Err(InsertFault::Desk(fault)) => desk_refusal(fault),
    }
}

pub(crate) fn wait_outcome(answer: Result<Option<u32>, DeskFault>) -> Outcome<'static>
    ensures told { told result ≡ answer_outcome (wait_answer answer) }
    ensures listed { IsOutcome (told result) }
{
    match answer {
        Ok(Some(place)) => Outcome::Number(u64::from(place)),
        Ok(None) => Outcome::Number(0),
        Err(fault) => desk_refusal(fault),
    }
}

pub(crate) fn row_outcome(answer: Result<u64, ModeFault>) -> Outcome<'static>
    ensures told { told result ≡ answer_outcome (row_answer answer) }
    ensures listed { IsOutcome (told result) }
{
    match answer {
        Ok(number) => Outcome::Number(number),
        Err(fault) => mode_refusal(fault),
    }
}

// The outcome of an end or an abort.
pub(crate) fn mode_outcome(answer: Result<(), ModeFault>) -> Outcome<'static>
    ensures told { told result ≡ answer_outcome (mode_answer answer) }
    ensures listed { IsOutcome (told result) }
{
    match answer {
        Ok(()) => Outcome::Ok,
        Err(fault) => mode_refusal(fault),
    }
}

fn mode_refusal(fault: ModeFault) -> Outcome<'static>
    ensures told { told result ≡ answer_outcome (mode_fault_answer fault) }
    ensures listed { IsOutcome (told result) }
{
    match fault {
        ModeFault::NotOwner => refused(31),
        ModeFault::NoRow => refused(32),
        ModeFault::Desk(fault) => desk_refusal(fault),
    }
}

pub(crate) fn fault_outcome(fault: CommandFault) -> Outcome<'static>
    ensures told { told result ≡ fault_outcome fault }
    ensures listed { IsOutcome (told result) }
{
    Outcome::Refused(refusal_of(fault))
}
