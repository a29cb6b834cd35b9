//! What holds of spellings whatever a call does. These functions do nothing: their contracts are
//! the laws.

ghost use Rattle.std.specs.Prelude.{◌≡◌, ◌+◌, ◌++◌, ℕ, List, length, All};
ghost use Rattle.q4_value.specs.declared.column.Column.{Column as Header};
ghost use Rattle.q4_value.specs.declared.fit.RowFault.{RowFault as Misfit};
ghost use Rattle.q4_value.specs.declared.reading.RowBytes.{RowBytes as ReadFault};
ghost use Rattle.q4_value.specs.declared.row.Value.{Value as Field};
ghost use Rattle.q4_value.specs.Row.{IsRowOf, AreWider, row_size as size_of, Fits};
ghost use Rattle.q4_value.specs.Names.{AreColumns};
ghost use Rattle.q4_value.specs.Fit.{Misfits};
ghost use Rattle.q4_value.specs.Spelling.{row_bytes, optional_count};
ghost use Rattle.q4_value.specs.Reading.{FirstUnreadable};
ghost use Rattle.q4_value.specs.Escape.{escaped, IsFieldByte, BadAt};

/// Laws of rows and columns.
pub fn fit_laws()
    // A row that fits has no fault.
    ensures apart { (columns : List Header) (row : List Field) (why : Misfit) → Fits columns row → Misfits columns row why → ⊥ }
    // A row has one fault at most.
    ensures one_fault { (columns : List Header) (row : List Field) (one other : Misfit) → Misfits columns row one → Misfits columns row other → one ≡ other }
{}

/// Laws of columns that take what other columns take.
pub fn wider_laws()
    // Columns are as wide as themselves.
    ensures same { (columns : List Header) → AreWider columns columns }
    // A row of columns is a row of wider ones.
    ensures rows { (wide narrow : List Header) (row : List Field) → AreWider wide narrow
        → IsRowOf narrow row → IsRowOf wide row }
    // A row that fits columns fits wider ones.
    ensures fit { (wide narrow : List Header) (row : List Field) → AreWider wide narrow
        → Fits narrow row → Fits wide row }
    // What is narrower than columns of a table is columns of a table too.
    ensures columns { (wide narrow : List Header) → AreWider wide narrow
        → AreColumns wide → AreColumns narrow }
{}

/// Laws of rows as bytes.
pub fn row_laws()
    // A row's spelling is longer than its size by one byte for each optional column.
    ensures length { (columns : List Header) (row : List Field)
        → length (row_bytes columns row) ≡ size_of row + optional_count columns }
    // No two rows of the same columns stand at the front of the same bytes.
    ensures once { (columns : List Header) (one other : List Field) (more rest : List ℕ) → IsRowOf columns one → IsRowOf columns other
        → row_bytes columns one ++ more ≡ row_bytes columns other ++ rest → (one ≡ other) × (more ≡ rest) }
    // Where a row stands at the front no value is unreadable.
    ensures apart { (columns : List Header) (row : List Field) (more : List ℕ) (why : ReadFault) → IsRowOf columns row
        → FirstUnreadable columns (row_bytes columns row ++ more) why → ⊥ }
    // There is one first unreadable value at most, and one fault of it.
    ensures one_fault { (columns : List Header) (bytes : List ℕ) (one other : ReadFault) → FirstUnreadable columns bytes one
        → FirstUnreadable columns bytes other → one ≡ other }
{}

/// Laws of escaped texts.
pub fn escape_laws()
    // No escaped text holds a TAB, newline or byte 13, so that lines and fields can be cut by them.
    ensures in_field { (text : List ℕ) → All IsFieldByte (escaped text) }
    // No two texts have one spelling.
    ensures once { (one other : List ℕ) → escaped one ≡ escaped other → one ≡ other }
    // An escaped text has no place that spells nothing.
    ensures apart { (text : List ℕ) (place : ℕ) → BadAt (escaped text) place → ⊥ }
    // There is one such place at most.
    ensures one_place { (bytes : List ℕ) (place other : ℕ) → BadAt bytes place → BadAt bytes other → place ≡ other }
{}
