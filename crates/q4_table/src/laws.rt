//! What holds of tables whatever a call does. These functions do nothing: their contracts are the laws.

ghost use Rattle.std.specs.Prelude.{◌≡◌, ◌≢◌, ◌≤◌, ℕ, true, List, Option, None, Some, All, length};
ghost use Rattle.std.specs.Option.{ForSome};
ghost use Rattle.q4_value.specs.declared.row.Value.{Value as Field};
ghost use Rattle.q4_value.specs.Row.{Fits};
ghost use Rattle.q4_cond.specs.Tree.{Tree};
ghost use Rattle.q4_table.specs.declared.adding.Check.TheVariants as check;
ghost use Rattle.q4_table.specs.declared.marks.Mark.{Mark as SourceMark};
ghost use Rattle.q4_table.specs.declared.origin.Origin.{Origin as RowOrigin};
ghost use Rattle.q4_table.specs.TableState.{TableState};
ghost use Rattle.q4_table.specs.Marks.{mark_of, with_mark};
ghost use Rattle.q4_table.specs.Rows.{values_in, with_owner, without_row, least_from, bytes_of};
ghost use Rattle.q4_table.specs.Cursors.{Cursor, is_kept, with_each_kept};
ghost use Rattle.q4_table.specs.Owners.{without_owners};
ghost use Rattle.q4_table.specs.Adding.{IsOrigin, check_of, add_row};
ghost use Rattle.q4_table.specs.Oldest.{oldest_meeting, TakesOldest};
ghost use Rattle.q4_table.specs.Valid.{IsValidTable};

/// Laws: what the calls do to a valid table leaves it valid.
pub fn changes_keep_tables_valid()
    ensures added { (table : TableState) (row : List Field) (origin : Option RowOrigin) → IsValidTable table → Fits table.columns row → ForSome origin IsOrigin
        → check_of table row origin ≡ check.New → IsValidTable (add_row table row origin) }
    ensures owned { (table : TableState) (number : ℕ) (owner : Option ℕ) → IsValidTable table → IsValidTable (record table { rows = with_owner number owner table.rows }) }
    ensures removed { (table : TableState) (number : ℕ) → IsValidTable table → IsValidTable (record table { rows = without_row number table.rows }) }
{}

/// A law: the least number is that of the oldest row that is free, and there is none only where no row is free.
pub fn oldest_is_taken()
    ensures { (table : TableState) (tree : Option Tree) → IsValidTable table → TakesOldest table.rows tree (oldest_meeting table.rows tree) }
{}

/// Laws of marks: setting one sets it, and leaves those of the other sources.
pub fn marks_are_set()
    ensures set { (marks : List SourceMark) (source number : ℕ) → mark_of (with_mark source number marks) source ≡ number }
    ensures others { (marks : List SourceMark) (source other number : ℕ) → other ≢ source → mark_of (with_mark source number marks) other ≡ mark_of marks other }
{}

/// A law: where at most 64 conditions are kept in order, each of them is kept then.
pub fn conditions_stay_kept()
    ensures { (trees : List (Option Tree)) (kept : List Cursor) → length trees ≤ 64 → All (λ tree. is_kept (with_each_kept trees kept) tree ≡ true) trees }
{}

/// Laws: with its owners left out a table takes and loses rows as before, and nothing is seen of owning and giving
/// back. Checks, values, numbers and sizes are the same, and a valid table stays valid.
pub fn owners_make_no_difference()
    ensures added { (table : TableState) (row : List Field) (origin : Option RowOrigin) → without_owners (add_row table row origin) ≡ add_row (without_owners table) row origin }
    ensures removed { (table : TableState) (number : ℕ) → without_owners (record table { rows = without_row number table.rows })
        ≡ record (without_owners table) { rows = without_row number (without_owners table).rows } }
    ensures owned { (table : TableState) (number : ℕ) (owner : Option ℕ) → without_owners (record table { rows = with_owner number owner table.rows }) ≡ without_owners table }
    ensures checks { (table : TableState) (row : List Field) (origin : Option RowOrigin) → check_of (without_owners table) row origin ≡ check_of table row origin }
    ensures values { (table : TableState) (number : ℕ) → values_in (without_owners table).rows number ≡ values_in table.rows number }
    ensures numbers { (table : TableState) (number : ℕ) → least_from (without_owners table).rows number ≡ least_from table.rows number }
    ensures sizes { (table : TableState) → bytes_of (without_owners table).rows ≡ bytes_of table.rows }
    ensures valid { (table : TableState) → IsValidTable table → IsValidTable (without_owners table) }
{}
