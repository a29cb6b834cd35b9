ghost use Rattle.std.specs.Prelude.{◌≡◌, ◌==◌, [], find, IfOk, OnOk, OnErr};
ghost use Rattle.std.specs.Option.{ForSome, option_map};
ghost use Rattle.q4_table.specs.Adding.{IsOrigin, with_origin};
ghost use Rattle.q4_table.specs.Marks.{mark_of, with_mark};
ghost use Rattle.q4_table.specs.Valid.{IsMark};
ghost use Rattle.q4_table.specs.Place.{IsPlace};

use crate::Origin;
use q4_value::NoMemory;
use std::alloc::Global;
use std::marker::Model;

/// The mark of a source: the number that its last row had there.
#[derive(Clone, Copy, Debug, PartialEq, Eq)]
pub struct Mark {
    pub source: u8,
    pub number: u64,
}

/// The marks of a table, by rising source. A contract sees the list.
#[derive(Drop)]
pub struct Marks {
    marks: Vec<Mark>,
}

impl Model for Marks {
    ghost use Rattle.std.specs.Prelude.{List};
    ghost use Rattle.q4_table.specs.declared.marks.Mark.{Mark as Element};
    ghost use Rattle.q4_table.specs.Valid.{IsMarks};

    ghost Value = { List Element };

    ghost view = { λ m. m.marks.items };

    ghost invariant = { λ m. IsMarks m.marks.items };
}

impl Marks {
    /// No marks. It takes no memory.
    pub fn new(alloc: Global) -> Marks
        ensures { result ≡ [] }
    {
        Marks {
            marks: Vec::new(alloc),
        }
    }

    // How many marks have lesser sources.
    fn place_of(&self, source: u8) -> usize
        ensures { IsPlace (λ m. m.source) self.now source result }
    {
        self.marks.partition_point(|mark| mark.source < source)
    }

    /// The mark of the source, 0 where it has none.
    pub fn of(&self, source: u8) -> u64
        ensures { result ≡ mark_of self.now source }
    {
        number_of(&self.marks, source).unwrap_or(0)
    }

    /// Sets the mark of a source. A refusal leaves the marks.
    pub fn set(&mut self, mark: Mark) -> Result<(), NoMemory>
        requires { IsMark mark }
        ensures set { OnOk result (self.new ≡ with_mark mark.source mark.number self.old) }
        ensures kept { OnErr result (self.new ≡ self.old) }
    {
        let place = self.place_of(mark.source);
        if place < self.marks.len() && self.marks[place].source == mark.source {
            self.marks[place] = mark;
            return Ok(());
        }
        match self.marks.insert(place, mark) {
            Ok(()) => Ok(()),
            Err(_) => Err(NoMemory),
        }
    }

    /// Notes the origin of a row, whose number becomes the mark of its source. A refusal leaves the marks.
    pub fn note(&mut self, origin: Option<Origin>) -> Result<(), NoMemory>
        requires { ForSome origin IsOrigin }
        ensures noted { OnOk result (self.new ≡ with_origin origin self.old) }
        ensures kept { OnErr result (self.new ≡ self.old) }
    {
        match origin {
            Some(origin) => self.set(Mark {
                source: origin.source,
                number: origin.number,
            }),
            None => Ok(()),
        }
    }

    /// The same marks, in memory of their own.
    pub fn copy(&self, alloc: Global) -> Result<Marks, NoMemory>
        ensures { IfOk result (λ marks. marks ≡ self.now) }
    {
        let mut marks = Vec::new(alloc);
        match marks.extend_from_slice(&self.marks) {
            Ok(()) => Ok(Marks { marks }),
            Err(_) => Err(NoMemory),
        }
    }
}

// The number of the first mark of the source, if there is one.
fn number_of(marks: &[Mark], source: u8) -> Option<u64>
    ensures { result ≡ option_map (λ m. m.number) (find (λ m. m.source == source) marks.now) }
{
    let mark = marks.iter().find(|mark| mark.source == source)?;
    Some(mark.number)
}
