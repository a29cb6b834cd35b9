//! What holds of two sides, of contents and of lengths whatever a call does. These functions do nothing: their contracts
//! are the laws.

ghost use Rattle.std.specs.Prelude.{◌≡◌, ◌==◌, ◌≤◌, ◌<◌, ◌+◌, ◌++◌, ◌⊎◌, ℕ, List, [], ◌∷◌, Option, None, All, length, map};
ghost use Rattle.q4_value.specs.declared.column.Column.{Column as Header};
ghost use Rattle.q4_value.specs.declared.row.Value.{Value as Field};
ghost use Rattle.q4_value.specs.Names.{AreColumns};
ghost use Rattle.q4_table.specs.declared.origin.Origin.{Origin as RowOrigin};
ghost use Rattle.q4_table.specs.TableState.{TableState};
ghost use Rattle.q4_table.specs.Rows.{without_row, IsThere};
ghost use Rattle.q4_table.specs.Owners.{without_owners};
ghost use Rattle.q4_table.specs.Adding.{add_row};
ghost use Rattle.q4_table.specs.Valid.{IsValidTable};
ghost use Rattle.q4_record.specs.Record.{Record as Change, record_bytes, records_bytes};
ghost use Rattle.q4_record.specs.Schema.{schema_bytes};
ghost use Rattle.q4_record.specs.Side.{OwnSide, HasRoom, base_at, side_limit, generation_limit};
ghost use Rattle.q4_record.specs.Written.{row_record, side_bytes};
ghost use Rattle.q4_disk.specs.Told.{Sides};
ghost use Rattle.q4_store.specs.declared.fault.OpenFault.{OpenFault as Fault};
ghost use Rattle.q4_store.specs.declared.fault.OpenFault.TheVariants as fault;
ghost use Rattle.q4_store.specs.Reading.{Reads, ReadsOwn, Opens, MayLeave};
ghost use Rattle.q4_store.specs.Opening.{OpenFails, IsOutside};
ghost use Rattle.q4_store.specs.Content.{Content, row_added, row_ended, table_of, table_with, with_change, all_committed, IsPrefix, IsPrefixOrNew};
ghost use Rattle.q4_store.specs.Copied.{IsCopied, IsFinished, rows_below, cursor_after, taken, rest_records, copy_bytes, piece_bytes};
ghost use Rattle.q4_store.specs.Looking.{header_bytes};
ghost use Rattle.q4_store.specs.Lengths.{change_size, waiting_size, change_cost};
ghost use Rattle.q4_store.specs.Store.{pending_length, batch_size};

/// Laws of what opening gives of two sides.
pub fn opening_laws()
    // They read as one table at most, with one generation.
    ensures once { (columns : List Header) (sides : Sides) (one other : TableState) (g h : ℕ) → Reads columns sides one g → Reads columns sides other h → (one ≡ other) × (g ≡ h) }
    // Opening gives one table at most, with one generation.
    ensures opens_once { (columns : List Header) (sides : Sides) (one other : TableState) (g h : ℕ) → Opens columns sides one g → Opens columns sides other h → (one ≡ other) × (g ≡ h) }
    // What a crash inside an opening leaves is opened as what was there would have been.
    ensures again { (columns : List Header) (one two : Sides) (table : TableState) (g : ℕ) → MayLeave columns one two → Opens columns two table g → Opens columns one table g }
    // Where they read as a table there is no fault but that of the disk and want of memory.
    ensures apart { (columns : List Header) (sides : Sides) (table : TableState) (g : ℕ) (why : Fault) → AreColumns columns → Reads columns sides table g → OpenFails columns sides why
        → (why ≡ fault.Disk) ⊎ (why ≡ fault.Memory) }
    // They have one fault at most.
    ensures one_fault { (columns : List Header) (sides : Sides) (why other : Fault) → AreColumns columns → OpenFails columns sides why → OpenFails columns sides other
        → (why ≡ other) ⊎ IsOutside why ⊎ IsOutside other }
{}

/// Laws of what a store stands for.
pub fn content_laws()
    // A row that was appended is added as the table adds it, and one that was ended is removed as the table removes it.
    ensures added { (content : Content) (columns : List Header) (number : ℕ) (row : List Field) (origin : Option RowOrigin) → number ≡ (table_of content).next
        → table_of (with_change content (row_added columns number row origin)) ≡ add_row (table_of content) row origin }
    ensures ended { (content : Content) (number : ℕ)
        → table_of (with_change content (row_ended number)) ≡ record (table_of content) { rows = without_row number (table_of content).rows } }
    // A commit leaves the table.
    ensures committed { (content : Content) → table_of (all_committed content) ≡ table_of content }
    // What opening gives again is what is committed and a prefix of what waits, with the store's generation.
    ensures reopened { (content : Content) (generation again : ℕ) (sides : Sides) (table : TableState) → IsPrefix content generation sides → Opens content.committed.columns sides table again
        → (count : ℕ) × (count ≤ length content.pending) × (table ≡ table_with content count) × (again ≡ generation) }
    // Behind a finish that is unsure it may be all of it too, with the next generation.
    ensures reopened_unsure { (content : Content) (generation again : ℕ) (sides : Sides) (table : TableState) → IsPrefixOrNew content generation sides → Opens content.committed.columns sides table again
        → ((count : ℕ) × (count ≤ length content.pending) × (table ≡ table_with content count) × (again ≡ generation)) ⊎ ((table ≡ table_of content) × (again ≡ generation + 1)) }
    // A change leaves what was there before it.
    ensures earlier { (content : Content) (change : Change) (count : ℕ) → count ≤ length content.pending → table_with (with_change content change) count ≡ table_with content count }
    // Where nothing waits, what opening gives is all that is committed.
    ensures nothing_waits { (content : Content) (generation : ℕ) (sides : Sides) → content.pending ≡ [] → IsPrefix content generation sides
        → ReadsOwn content.committed.columns sides content.committed generation }
{}

/// Laws of how long changes make a side.
pub fn length_laws()
    ensures change { (change : Change) → length (record_bytes change) ≡ change_size change }
    ensures waiting { (changes : List Change) → pending_length (records_bytes changes) ≡ waiting_size changes }
    ensures cost { (changes : List Change) (size : ℕ) → batch_size (records_bytes changes) size ≡ change_cost changes size }
{}

/// Laws of copies, whatever pieces and changes made them: the records that a copy has, with those that wait for it, lead
/// to the rows below its cursor.
pub fn copy_laws()
    ensures begun { (table : TableState) → IsValidTable table → IsCopied table 1 [] }
    // A row that is added, and the end of one from the cursor on, are nothing to it. An end below the cursor is one record more.
    ensures added { (table : TableState) (cursor : ℕ) (copied : List Change) (row : List Field) (origin : Option RowOrigin) → IsCopied table cursor copied → IsCopied (add_row table row origin) cursor copied }
    ensures ended_above { (table : TableState) (cursor number : ℕ) (copied : List Change) → cursor ≤ number → IsCopied table cursor copied → IsCopied (record table { rows = without_row number table.rows }) cursor copied }
    ensures ended_below { (table : TableState) (cursor number : ℕ) (copied : List Change) → IsValidTable table → number < cursor → IsThere table.rows number → IsCopied table cursor copied
        → IsCopied (record table { rows = without_row number table.rows }) cursor (copied ++ row_ended number ∷ []) }
    // The next rows, at most so many.
    ensures piece { (table : TableState) (cursor most : ℕ) (copied : List Change) → IsValidTable table → All (λ r. r.owner ≡ None) table.rows → IsCopied table cursor copied
        → IsCopied table (cursor_after cursor (taken most cursor table)) (copied ++ map (row_record table.columns) (taken most cursor table)) }
    // Below the cursor behind them are the rows that were below it, and these.
    ensures below { (table : TableState) (cursor most : ℕ) → IsValidTable table
        → rows_below (cursor_after cursor (taken most cursor table)) table.rows ≡ rows_below cursor table.rows ++ taken most cursor table }
    // What a piece writes goes behind what the copy has, at its end: the ends that wait, and the rows. None waits before the
    // first record is written.
    ensures behind { (columns : List Header) (had waiting rows : List Change) (at : ℕ) → at ≡ base_at + length (copy_bytes columns had) → (had ≡ [] → waiting ≡ [])
        → copy_bytes columns ((had ++ waiting) ++ rows) ≡ copy_bytes columns had ++ piece_bytes (at == base_at) columns (records_bytes waiting) rows }
    // With what is left it is a base of the table, which is read as the table, whatever generation its header has.
    ensures finished { (table : TableState) (cursor : ℕ) (copied : List Change) → IsValidTable table → All (λ r. r.owner ≡ None) table.rows → IsCopied table cursor copied
        → IsFinished table (copied ++ rest_records cursor table) }
    ensures header { (generation : ℕ) (base behind : List ℕ) → side_bytes generation base behind ≡ 1 ∷ (header_bytes generation (length base) ++ (base ++ behind)) }
    ensures read { (table : TableState) (copied : List Change) (generation : ℕ) → IsFinished table copied → 1 ≤ generation → generation ≤ generation_limit
        → length (side_bytes generation (schema_bytes table.columns ++ records_bytes copied) (0 ∷ [])) ≤ side_limit → HasRoom table (base_at + length (schema_bytes table.columns ++ records_bytes copied) + 1)
        → OwnSide table.columns (side_bytes generation (schema_bytes table.columns ++ records_bytes copied) (0 ∷ [])) table generation (base_at + length (schema_bytes table.columns ++ records_bytes copied) + 1) }
    // Neither the records of a piece, nor the cursor behind it, nor what is left see an owner.
    ensures owners_of_piece { (table : TableState) (cursor most : ℕ) → map (row_record table.columns) (taken most cursor (without_owners table)) ≡ map (row_record table.columns) (taken most cursor table) }
    ensures owners_of_cursor { (table : TableState) (cursor most : ℕ) → cursor_after cursor (taken most cursor (without_owners table)) ≡ cursor_after cursor (taken most cursor table) }
    ensures owners { (table : TableState) (cursor : ℕ) → rest_records cursor (without_owners table) ≡ rest_records cursor table }
{}
