// A whole table is written onto a side that counts for nothing: a new one, or that of a side of a narrower schema.

ghost use Rattle.std.specs.Prelude.{◌≡◌, ◌⊎◌, ℕ, [], IsTrue, IfOk, OnOk};
ghost use Rattle.q4_table.specs.TableState.{TableState};
ghost use Rattle.q4_record.specs.Schema.{IsSchema};
ghost use Rattle.q4_record.specs.Written.{IsWritten};
ghost use Rattle.q4_disk.specs.Told.{Sides, Told};
ghost use Rattle.q4_disk.specs.Images.{on, other, Within};
ghost use Rattle.q4_disk.specs.Time.{LeavesOnly, OtherStays};
ghost use Rattle.q4_disk.specs.Calls.{CountsFault};
ghost use Rattle.q4_store.specs.Reading.{IsBehind, ReadsAs, ReadsOwn};
ghost use Rattle.q4_store.specs.Parts.{IsReady};
ghost use Rattle.q4_store.specs.Store.{IsSettled};
ghost use Rattle.q4_store.specs.Looking.{IsDraft, draft_length};
ghost use Rattle.q4_store.specs.Device.{Makes, write_calls};

use crate::copying::{Progress, gather_rest, header_of};
use crate::limit::BASE_AT;
use crate::parts::{fill, prepare, switch};
use q4_disk::{Disk, DiskFailed, Side};
use q4_table::{Table, tables_are_valid};
use q4_value::{Bytes, NoMemory};
use std::alloc::Global;

/// The bytes of a table as they are written.
#[derive(Drop)]
pub(crate) struct Draft {
    /// The base and the closing gate.
    pub base: Bytes,
    /// What stands between the gate and the base.
    pub header: [u8; 20],
}

/// Makes the bytes of a table, with this generation.
pub(crate) fn make_draft(alloc: Global, table: &Table, generation: u64) -> Result<Draft, NoMemory>
    requires { IsSchema table.now.state.columns }
    ensures { IfOk result (λ draft. IsDraft table.now.state generation draft.base draft.header) }
{
    tables_are_valid(table);
    let start = Progress {
        cursor: 1,
        at: BASE_AT,
    };
    let base = gather_rest(alloc, table, start, &[])?;
    // the base but for the closing gate
    let header = header_of(generation, base.as_slice().len() as u64 - 1);
    Ok(Draft { base, header })
}

/// Writes a table onto a side that counts for nothing, in the parts prepare, fill and switch.
pub(crate) fn write_draft<D: Disk>(
    disk: &mut D,
    side: Side,
    known: bool,
    draft: &Draft,
) -> Result<(), DiskFailed>
    requires { IsTrue (D.told disk.old).honest → Within (D.told disk.old).images (IsReady known side) }
    ensures honest { (D.told disk.new).honest ≡ (D.told disk.old).honest }
    ensures faults { CountsFault result (D.told disk.old).faults (D.told disk.new).faults }
    // At each moment inside it each image reads as one that there was, or as the table.
    ensures any_moment { (table : TableState) (generation : ℕ) → IsWritten table generation [] 0 [] → IsDraft table generation draft.now.base draft.now.header
        → IsTrue (D.told disk.old).honest → Within (D.told disk.old).images (λ c. IsBehind generation (on (other side) c))
        → LeavesOnly (D.told disk.old) (D.told disk.new) (λ c. ReadsAs table.columns (D.told disk.old).images c ⊎ ReadsOwn table.columns c table generation) }
    // After success the side is the table in each image.
    ensures done { OnOk result ((table : TableState) (generation : ℕ) → IsWritten table generation [] 0 [] → IsDraft table generation draft.now.base draft.now.header
        → IsTrue (D.told disk.old).honest → Within (D.told disk.old).images (λ c. IsBehind generation (on (other side) c))
        → IsSettled (D.told disk.new) side table generation (draft_length table)) }
    ensures other { IsTrue (D.told disk.old).honest → OtherStays side (D.told disk.old) (D.told disk.new) }
    ensures device { (table : TableState) (generation : ℕ) → IsDraft table generation draft.now.base draft.now.header
        → Makes D.told (write_calls side known table generation) result disk.old disk.new }
{
    let mut known = known;
    prepare(disk, side, &mut known)?;
    fill(disk, side, BASE_AT, draft.base.as_slice(), &draft.header)?;
    switch(disk, side)?;
    Ok(())
}
