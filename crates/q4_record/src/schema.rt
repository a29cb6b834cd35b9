ghost use Rattle.std.specs.Prelude.{◌≡◌, ◌<◌, [], ◌∷◌, ◌++◌, ℕ, false, List, Some, length, slice_get, slice_set, unwrap_or, IfOk, IfErr, OnOk, IfSome, IfNone};
ghost use Rattle.std.specs.Option.{option_copied};
ghost use Rattle.q4_value.specs.declared.column.Column.{Column as Header};
ghost use Rattle.q4_record.specs.Schema.{MayHave, kind_number, kind_byte, column_bytes};
ghost use Rattle.q4_record.specs.SideParts.{HasLikeness, ToldSoFar, SchemaRead, SchemaFailed};

use crate::header::Format;
use crate::side::SideFault;
use q4_value::{Column, Columns, Kind, NoMemory};
use std::alloc::Global;

// What a column takes, as a schema tells it.
#[derive(Clone, Copy)]
struct Sort {
    kind: Kind,
    optional: bool,
}

// What a schema tells of a side.
#[derive(Drop)]
pub(crate) struct Schema<'a> {
    // The side's own columns.
    pub(crate) own: Columns,
    // The columns given, where they are wider than those.
    pub(crate) wider: Option<Columns>,
    // What follows the schema.
    pub(crate) records: &'a [u8],
}

// Reads the schema at the front of a base of this format, which begins at this place. The columns given have to be those
// that it tells, or wider ones. They are copied where they are wider.
pub(crate) fn read_schema(
    alloc: Global,
    format: Format,
    columns: Columns,
    base: &[u8],
    at: u64,
) -> Result<Schema<'_>, SideFault>
    ensures read { IfOk result (λ schema. SchemaRead format columns base.now
        schema.own schema.wider schema.records.now) }
    ensures fault { IfErr result (SchemaFailed format columns base.now at) }
{
    let Some((count, told)) = read_count(base) else {
        return Err(SideFault::Damaged(at));
    };
    let mut rest = told;
    let mut so_far = ToldColumns::new(columns);
    for place in 0..count as usize {
        let Some((sort, name, after)) = read_column(format, rest) else {
            return Err(SideFault::Damaged(at));
        };
        so_far.tell(alloc, place, sort, name)?;
        rest = after;
    }
    let ToldColumns {
        own,
        wider,
        differs,
    } = so_far;
    match differs {
        Some(number) => Err(SideFault::Schema(number)),
        None => {
            if (count as usize) < own.len() {
                Err(SideFault::Schema(count as u32 + 1))
            } else {
                Ok(Schema {
                    own,
                    wider,
                    records: rest,
                })
            }
        }
    }
}

// The number of columns at the front of a schema, and what follows it.
fn read_count(bytes: &[u8]) -> Option<(u8, &[u8])>
    ensures fits { IfSome result (λ found. found.0 < 256) }
    ensures read { IfSome result (λ found. bytes.now ≡ 7 ∷ found.0 ∷ found.1.now) }
    ensures none { IfNone result ((count : ℕ) (told : List ℕ) → bytes.now ≡ 7 ∷ count ∷ told → ⊥) }
{
    match bytes {
        [7, count, told @ ..] => Some((*count, told)),
        _ => None,
    }
}

// How a column given stands to the one that is told for its place.
#[derive(Clone, Copy)]
enum Likeness {
    // It is the same.
    Same,
    // It takes null, and is the same otherwise.
    Wider,
    // It is another, or there is none.
    Other,
}

// The columns of a side, as far as they were told.
#[derive(Drop)]
struct ToldColumns {
    // Those that were told, and behind them those given.
    own: Columns,
    // The columns given, where one of them is wider than that told.
    wider: Option<Columns>,
    // The first column given, counted from 1, that is another than that told.
    differs: Option<u32>,
}

impl ToldColumns {
    // No column was told yet.
    fn new(columns: Columns) -> ToldColumns
        ensures { ToldSoFar columns [] result }
    {
        ToldColumns {
            own: columns,
            wider: None,
            differs: None,
        }
    }

    // Takes the column that is told for this place.
    fn tell(&mut self, alloc: Global, place: usize, sort: Sort, name: &[u8]) -> Result<(), NoMemory>
        requires { place < 256 }
        ensures { OnOk result ((columns told : List Header) → length told ≡ place
            → ToldSoFar columns told self.old
            → ToldSoFar columns (told ++ record { name = name.now; kind = sort.kind; optional = sort.optional } ∷ [])
            self.new) }
    {
        if self.differs.is_some() {
            return Ok(());
        }
        match likeness_of(self.own.at(place), sort, name) {
            Likeness::Same => Ok(()),
            Likeness::Wider => self.narrow(alloc, place),
            Likeness::Other => {
                self.differs = Some(place as u32 + 1);
                Ok(())
            }
        }
    }

    // Has the column at this place take no null. The columns given are kept.
    fn narrow(&mut self, alloc: Global, place: usize) -> Result<(), NoMemory>
        requires { place < length self.old.own }
        ensures own { OnOk result ((column : Header) → slice_get self.old.own place ≡ Some column
            → self.new.own ≡ slice_set self.old.own place (record column { optional = false })) }
        ensures given { OnOk result (self.new.wider ≡ Some (unwrap_or self.old.wider self.old.own)) }
        ensures differs { OnOk result (self.new.differs ≡ self.old.differs) }
    {
        if self.wider.is_none() {
            self.wider = Some(self.own.copy(alloc)?);
        }
        self.own.require(place);
        Ok(())
    }
}

// How the column given stands to the one that is told, of this sort and name.
fn likeness_of(column: Option<&Column>, sort: Sort, name: &[u8]) -> Likeness
    ensures { HasLikeness result (option_copied column.entry)
        (record { name = name.now; kind = sort.kind; optional = sort.optional }) }
{
    let Some(column) = column else {
        return Likeness::Other;
    };
    if column.kind != sort.kind || column.name.as_str().as_bytes() != name {
        return Likeness::Other;
    }
    match (column.optional, sort.optional) {
        (true, false) => Likeness::Wider,
        (false, true) => Likeness::Other,
        (false, false) | (true, true) => Likeness::Same,
    }
}

// The sort and the name of the column at the front of those that a schema of this format tells, and what follows it.
fn read_column(format: Format, bytes: &[u8]) -> Option<(Sort, &[u8], &[u8])>
    ensures name { IfSome result (λ found. length found.1.now < 256) }
    ensures may { IfSome result (λ found. MayHave format
        (record { name = found.1.now; kind = found.0.kind; optional = found.0.optional })) }
    ensures read { IfSome result (λ found. bytes.now ≡ column_bytes
        (record { name = found.1.now; kind = found.0.kind; optional = found.0.optional }) ++ found.2.now) }
    ensures none { IfNone result ((column : Header) (rest : List ℕ) → length column.name < 256 → MayHave format column
        → bytes.now ≡ column_bytes column ++ rest → ⊥) }
{
    let [byte, len, rest @ ..] = bytes else {
        return None;
    };
    let sort = read_sort(format, *byte)?;
    let len = *len as usize;
    if rest.len() < len {
        return None;
    }
    let (name, rest) = rest.split_at(len);
    Some((sort, name, rest))
}

// What a column takes, as this byte tells it in a schema of this format.
fn read_sort(format: Format, byte: u8) -> Option<Sort>
    ensures kind { IfSome result (λ sort. byte ≡ kind_number sort.optional sort.kind) }
    ensures may { IfSome result (λ sort. (name : List ℕ)
        → MayHave format (record { name = name; kind = sort.kind; optional = sort.optional })) }
    ensures none { IfNone result ((column : Header) → MayHave format column → byte ≡ kind_byte column → ⊥) }
{
    let (kind, optional) = match (byte, format) {
        (1, _) => (Kind::Int, false),
        (2, _) => (Kind::Words, false),
        (3, Format::Second) => (Kind::Int, true),
        (4, Format::Second) => (Kind::Words, true),
        _ => return None,
    };
    Some(Sort { kind, optional })
}
