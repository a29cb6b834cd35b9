//! What holds of sides whatever a call does. These functions do nothing: their contracts are the laws.

ghost use Rattle.std.specs.Prelude.{◌≡◌, ◌<◌, ◌⊎◌, ℕ, List, [], Option};
ghost use Rattle.std.specs.Option.{ForSome};
ghost use Rattle.q4_value.specs.declared.column.Column.{Column as Header};
ghost use Rattle.q4_value.specs.declared.row.Value.{Value as Field};
ghost use Rattle.q4_value.specs.Row.{Fits};
ghost use Rattle.q4_table.specs.declared.adding.Check.TheVariants as check;
ghost use Rattle.q4_table.specs.declared.origin.Origin.{Origin as RowOrigin};
ghost use Rattle.q4_table.specs.TableState.{TableState};
ghost use Rattle.q4_table.specs.Rows.{IsThere, without_row};
ghost use Rattle.q4_table.specs.Adding.{IsOrigin, check_of, add_row};
ghost use Rattle.q4_table.specs.Valid.{IsColumns, IsValidTable};
ghost use Rattle.q4_record.specs.declared.head.Head.TheVariants as head;
ghost use Rattle.q4_record.specs.declared.header.Format.{Format as SideFormat};
ghost use Rattle.q4_record.specs.declared.side.SideFault.{SideFault as Fault};
ghost use Rattle.q4_record.specs.declared.side.SideFault.TheVariants as fault;
ghost use Rattle.q4_record.specs.Record.{Record as SideRecord};
ghost use Rattle.q4_record.specs.Schema.{IsSchema};
ghost use Rattle.q4_record.specs.Replay.{Stands, replayed, at_batches};
ghost use Rattle.q4_record.specs.Side.{generation_limit, IsBase, OwnSide, Side, IsNarrow};
ghost use Rattle.q4_record.specs.Faults.{SideFails};
ghost use Rattle.q4_record.specs.Written.{IsSound, IsWritten, written, written_table, written_length};
ghost use Rattle.q4_record.specs.Parted.{BaseParts};

/// Laws of sides and their faults.
pub fn side_laws()
    // Bytes are one side at most: they stand for one table, with one generation and one length.
    ensures once { (columns : List Header) (bytes : List ℕ) (one other : TableState) (g h m n : ℕ) → Side columns bytes one g m → Side columns bytes other h n
        → (one ≡ other) × (g ≡ h) × (m ≡ n) }
    // Bytes that are a side have no fault.
    ensures apart { (columns : List Header) (bytes : List ℕ) (table : TableState) (g n : ℕ) (why : Fault) → IsSchema columns → Side columns bytes table g n
        → SideFails columns bytes why → why ≡ fault.Memory }
    // Bytes have one fault at most.
    ensures one_fault { (columns : List Header) (bytes : List ℕ) (why way : Fault) → IsSchema columns → SideFails columns bytes why → SideFails columns bytes way
        → (why ≡ way) ⊎ (why ≡ fault.Memory) ⊎ (way ≡ fault.Memory) }
{}

/// Laws of sides whose schema is narrower than the columns.
pub fn narrow_laws()
    // A side whose schema is of the columns is a side of these.
    ensures own { (columns : List Header) (bytes : List ℕ) (table : TableState) (generation len : ℕ)
        → OwnSide columns bytes table generation len → Side columns bytes table generation len }
    // Its schema is no narrower one.
    ensures apart { (columns : List Header) (bytes : List ℕ) (table : TableState) (generation len : ℕ)
        → OwnSide columns bytes table generation len → IsNarrow columns bytes → ⊥ }
    // A side whose schema is not narrower is one whose schema is of the columns.
    ensures same { (columns : List Header) (bytes : List ℕ) (table : TableState) (generation len : ℕ)
        → Side columns bytes table generation len → (IsNarrow columns bytes → ⊥)
        → OwnSide columns bytes table generation len }
    // Where it is narrower there is a greater generation.
    ensures limit { (columns : List Header) (bytes : List ℕ) (table : TableState) (generation len : ℕ)
        → Side columns bytes table generation len → IsNarrow columns bytes → generation < generation_limit }
{}

/// A law: whatever valid table is written as a base, with a schema, a record for each row and mark and a next record,
/// and with any batches behind it that stand, is read again.
pub fn written_sides_are_read()
    ensures { (table : TableState) (generation : ℕ) (batches : List (List SideRecord)) (closing : ℕ) (ignored : List ℕ) → IsWritten table generation batches closing ignored
        → OwnSide table.columns (written table generation batches closing ignored) (written_table table batches) generation (written_length table batches) }
{}

/// Laws: the record of a change that a table takes stands in a batch behind the table, and leads to the changed table.
pub fn changes_stand()
    ensures added { (table : TableState) (row : List Field) (origin : Option RowOrigin)
        → IsValidTable table → Fits table.columns row → ForSome origin IsOrigin
        → check_of table row origin ≡ check.New
        → Stands (at_batches table)
        (record { head = head.Insert table.next origin; columns = table.columns; row = row }) }
    ensures added_leads { (table : TableState) (row : List Field) (origin : Option RowOrigin)
        → replayed (at_batches table)
        (record { head = head.Insert table.next origin; columns = table.columns; row = row })
        ≡ at_batches (add_row table row origin) }
    ensures ended { (table : TableState) (number : ℕ) → IsValidTable table → IsThere table.rows number
        → Stands (at_batches table) (record { head = head.End number; columns = []; row = [] }) }
    ensures ended_leads { (table : TableState) (number : ℕ)
        → replayed (at_batches table) (record { head = head.End number; columns = []; row = [] })
        ≡ at_batches (record table { rows = without_row number table.rows }) }
{}

/// A law: a base is a schema, then inserts and ends, then marks by rising source, then one next record.
pub fn bases_have_their_order()
    ensures { (format : SideFormat) (columns : List Header) (base : List ℕ) (table : TableState)
        → IsBase format columns base table → BaseParts columns base }
{}

/// A law: a side of columns stands for a valid table of these columns, which nobody owns a row of.
pub fn sides_are_sound()
    ensures { (columns : List Header) (bytes : List ℕ) (table : TableState) (generation len : ℕ) → IsColumns columns → Side columns bytes table generation len
        → IsSound columns table }
{}
