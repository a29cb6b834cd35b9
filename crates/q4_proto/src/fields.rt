ghost use Rattle.std.specs.Prelude.{◌≡◌, ◌≢◌, ◌<◌, ◌^◌, [], ◌∷◌, ◌++◌, All, length, IfSome, IfNone};
ghost use Rattle.q4_proto.specs.Fields.{fields_of, IsSpelled, IsFirst};

use memchr::{memchr, memrchr};
use q4_value::is_escaped;
use std::marker::Model;

/// The fields of a line that are not yet taken. A contract sees the list.
#[derive(Drop)]
pub(crate) struct Fields<'a> {
    /// What stands behind the last TAB that was passed; none where the line had no further TAB.
    rest: Option<&'a str>,
}

impl<'a> Model for Fields<'a> {
    ghost use Rattle.std.specs.Prelude.{ℕ, List};
    ghost use Rattle.std.specs.Option.{option_copied};
    ghost use Rattle.q4_proto.specs.Fields.{fields_behind};

    ghost Value = { List (List ℕ) };

    ghost view = { λ f. fields_behind (option_copied f.rest) };
}

/// The first field of a line, and those behind it.
pub(crate) fn split_line(line: &str) -> (&str, Fields<'_>)
    ensures { fields_of line.now ≡ result.0.now ∷ result.1 }
{
    match memchr(b'\t', line.as_bytes()) {
        Some(tab) => {
            let (field, back) = line.split_at(tab);
            let (_, rest) = back.split_at(1);
            (field, Fields { rest: Some(rest) })
        }
        None => (line, Fields { rest: None }),
    }
}

impl<'a> Fields<'a> {
    /// The same fields once more.
    pub(crate) fn again(&self) -> Fields<'a>
        ensures { result ≡ self.now }
    {
        Fields { rest: self.rest }
    }

    /// Takes the next field.
    pub(crate) fn next(&mut self) -> Option<&'a str>
        ensures some { IfSome result (λ field. self.old ≡ field.now ∷ self.new) }
        ensures none { IfNone result ((self.old ≡ []) × (self.new ≡ [])) }
    {
        let line = self.rest?;
        let (field, rest) = split_line(line);
        self.rest = rest.rest;
        Some(field)
    }

    /// The fields, where there are two.
    pub(crate) fn pair(&self) -> Option<(&'a str, &'a str)>
        ensures two { IfSome result (λ pair. self.now ≡ pair.0.now ∷ pair.1.now ∷ []) }
        ensures other { IfNone result (length self.now ≢ 2) }
    {
        let mut rest = self.again();
        let first = rest.next()?;
        let second = rest.next()?;
        match rest.next() {
            Some(_) => None,
            None => Some((first, second)),
        }
    }

    /// The last field, and those before it.
    pub(crate) fn split_last(&self) -> Option<(Fields<'a>, &'a str)>
        ensures cut { IfSome result (λ cut. self.now ≡ cut.0 ++ cut.1.now ∷ []) }
        ensures none { IfNone result (self.now ≡ []) }
    {
        let line = self.rest?;
        match memrchr(b'\t', line.as_bytes()) {
            Some(tab) => {
                let (front, back) = line.split_at(tab);
                let (_, last) = back.split_at(1);
                Some((Fields { rest: Some(front) }, last))
            }
            None => Some((Fields { rest: None }, line)),
        }
    }

    /// How many fields there are.
    pub(crate) fn count(&self) -> usize
        requires { length self.now < 2 ^ 32 }
        ensures { result ≡ length self.now }
    {
        let mut rest = self.again();
        let mut count = 0;
        while let Some(_field) = rest.next() {
            count += 1;
        }
        count
    }

    /// The place, from 1, of the first field that is the spelling of no text.
    pub(crate) fn bad_escape(&self) -> Option<u32>
        requires { length self.now < 2 ^ 32 }
        ensures some { IfSome result (λ place. IsFirst (λ f. IsSpelled f → ⊥) self.now place) }
        ensures none { IfNone result (All IsSpelled self.now) }
    {
        let mut rest = self.again();
        let mut place = 0;
        while let Some(field) = rest.next() {
            place += 1;
            if !is_escaped(field) {
                return Some(place);
            }
        }
        None
    }
}
