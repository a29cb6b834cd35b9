//! Goes over a condition's text from its first byte to its last.
ghost use Rattle.std.specs.Prelude.{◌≡◌, ◌≢◌, ◌<◌, ◌≤◌, [], ◌∷◌, ◌++◌, Some, None, OnOk, IfOk, IfErr, MatchOption, length, slice_index};
ghost use Rattle.q4_cond.specs.Machine.{Wants, state_of, finished};
ghost use Rattle.q4_cond.specs.Tokens.{names_of};
ghost use Rattle.q4_cond.specs.Reading.{atom_here, unknown_here, IsFault};
ghost use Rattle.q4_cond.specs.Scanned.{Scanned, first_of};

use crate::CondFault;
use crate::reader::{Reader, Step};
use crate::token::front;
use crate::tree::{Atom, Token};
use q4_value::{Column, NoMemory};
use std::alloc::Global;

/// What was read so far.
#[derive(Drop)]
pub struct Scan {
    pub reader: Reader,
    /// The places of the atoms.
    pub atoms: Vec<u32>,
    /// The place of the first word that names no column.
    pub unknown: Option<u32>,
}

impl Scan {
    fn new(alloc: Global) -> Scan
        ensures reader { state_of result.reader.wants result.reader.frames result.reader.nodes.items ≡ Wants [] [] }
        ensures atoms { result.atoms.items ≡ [] }
        ensures unknown { result.unknown ≡ None }
    {
        Scan {
            reader: Reader::new(alloc),
            atoms: Vec::new(alloc),
            unknown: None,
        }
    }

    /// Keeps what is asked of a token besides the grammar.
    fn note(&mut self, place: u32, columns: usize, token: &Token) -> Result<(), NoMemory>
        ensures reader { self.new.reader ≡ self.old.reader }
        ensures atoms { OnOk result (self.new.atoms.items ≡ self.old.atoms.items ++ atom_here place token.now) }
        ensures unknown { OnOk result (self.new.unknown ≡ first_of self.old.unknown (unknown_here columns place token.now None)) }
    {
        let Token::Operand(atom) = token else {
            return Ok(());
        };
        if self.atoms.push(place).is_err() {
            return Err(NoMemory);
        }
        if self.unknown.is_none()
            && let Atom::Column(column) = atom
            && *column >= columns
        {
            self.unknown = Some(place);
        }
        Ok(())
    }

    /// Takes the token at the place, and answers where it ends.
    fn advance(
        &mut self,
        alloc: Global,
        columns: &[Column],
        text: &[u8],
        place: usize,
    ) -> Result<usize, CondFault>
        requires short { length text.now ≤ 1024 }
        requires within { place < length text.now }
        requires no_space { slice_index text.now place ≢ 32 }
        requires scanned { Scanned columns.now text.now place (state_of self.old.reader.wants self.old.reader.frames self.old.reader.nodes.items) self.old.atoms.items self.old.unknown }
        ensures scanned { IfOk result (λ next. Scanned columns.now text.now next (state_of self.new.reader.wants self.new.reader.frames self.new.reader.nodes.items) self.new.atoms.items self.new.unknown) }
        ensures further { IfOk result (λ next. place < next) }
        ensures in_range { IfOk result (λ next. next ≤ length text.now) }
        ensures fault { IfErr result (λ fault. IsFault columns.now text.now fault) }
    {
        let front = front(alloc, columns, &text[place..])?;
        let size = front.size;
        self.note(place as u32, columns.len(), &front.token)?;
        match self.reader.take(front.token)? {
            Step::Taken => Ok(place + size),
            Step::Refused => Err(CondFault::At(place as u32)),
            Step::TooDeep => Err(CondFault::Deep(place as u32)),
        }
    }
}

/// Reads all tokens of a text.
pub fn scan_text(alloc: Global, columns: &[Column], text: &[u8]) -> Result<Scan, CondFault>
    requires { length text.now ≤ 1024 }
    ensures scanned { IfOk result (λ scan. Scanned columns.now text.now (length text.now) (state_of scan.reader.wants scan.reader.frames scan.reader.nodes.items) scan.atoms.items scan.unknown) }
    ensures fault { IfErr result (λ fault. IsFault columns.now text.now fault) }
{
    let mut scan = Scan::new(alloc);
    let mut place = 0;
    while place < text.len() {
        if text[place] == b' ' {
            place += 1;
        } else {
            place = scan.advance(alloc, columns, text, place)?;
        }
    }
    Ok(scan)
}
