// The parts in which a table is written onto the side that isn't current, of at most four device calls each: prepare,
// fill and switch.

ghost use Rattle.std.specs.Prelude.{◌≡◌, ◌+◌, ◌++◌, ◌≤◌, ◌⊎◌, ℕ, true, false, List, [], ◌∷◌, IsTrue, OnOk, OnErr, length};
ghost use Rattle.q4_value.specs.declared.column.Column.{Column};
ghost use Rattle.q4_table.specs.TableState.{TableState};
ghost use Rattle.q4_record.specs.Side.{OwnSide};
ghost use Rattle.q4_disk.specs.Told.{Sides, Told};
ghost use Rattle.q4_disk.specs.Images.{on, other, size, written, Within};
ghost use Rattle.q4_disk.specs.Time.{LeavesOnly, OtherStays};
ghost use Rattle.q4_disk.specs.Calls.{CountsFault};
ghost use Rattle.q4_store.specs.Reading.{ReadsOwn, ReadsAs, IsBehind};
ghost use Rattle.q4_store.specs.Parts.{IsShut, IsBlank, IsSpare, IsReady, IsFilled, opened};
ghost use Rattle.q4_store.specs.Device.DeviceCall.{Write};
ghost use Rattle.q4_store.specs.Device.{Makes, BrokeOff, extend_calls, close_calls, blank_calls, prepare_calls, fill_calls, switch_calls};

use q4_disk::{Disk, DiskFailed, Side};

/// The side that isn't this one.
pub(crate) fn other_of(side: Side) -> Side
    ensures { result ≡ other side }
{
    match side {
        Side::A => Side::B,
        Side::B => Side::A,
    }
}

/// Sees to it that the gate of a side is there, closed and synced. Where that is known it does nothing.
pub(crate) fn close<D: Disk>(disk: &mut D, side: Side, known: bool) -> Result<(), DiskFailed>
    ensures honest { (D.told disk.new).honest ≡ (D.told disk.old).honest }
    ensures faults { CountsFault result (D.told disk.old).faults (D.told disk.new).faults }
    // At each moment inside it each image reads as one that there was.
    ensures any_moment { (columns : List Column) → IsTrue (D.told disk.old).honest → Within (D.told disk.old).images (IsReady known side)
        → LeavesOnly (D.told disk.old) (D.told disk.new) (ReadsAs columns (D.told disk.old).images) }
    ensures shut { OnOk result (IsTrue (D.told disk.old).honest → Within (D.told disk.old).images (IsReady known side)
        → Within (D.told disk.new).images (λ c. IsShut (on side c))) }
    // Where it fails the side counts for nothing with any gate, as before.
    ensures spare { OnErr result (IsTrue (D.told disk.old).honest → Within (D.told disk.old).images (IsReady known side)
        → Within (D.told disk.new).images (IsSpare side)) }
    ensures other { IsTrue (D.told disk.old).honest → OtherStays side (D.told disk.old) (D.told disk.new) }
    ensures device { Makes D.told (close_calls side known) result disk.old disk.new }
{
    if known {
        return Ok(());
    }
    disk.write(side, 0, &[0])?;
    disk.sync(side)?; // the closed gate, before bytes behind it change
    Ok(())
}

/// Cuts a side, whose gate is closed, to that gate, and writes zeros for its header. The gate stays closed, whether it
/// fails or not.
pub(crate) fn blank<D: Disk>(disk: &mut D, side: Side) -> Result<(), DiskFailed>
    requires { IsTrue (D.told disk.old).honest → 1 ≤ size side (D.told disk.old).bytes }
    ensures honest { (D.told disk.new).honest ≡ (D.told disk.old).honest }
    ensures faults { CountsFault result (D.told disk.old).faults (D.told disk.new).faults }
    // At each moment inside it each image reads as one that there was.
    ensures any_moment { (columns : List Column) → IsTrue (D.told disk.old).honest → Within (D.told disk.old).images (λ c. IsShut (on side c))
        → LeavesOnly (D.told disk.old) (D.told disk.new) (ReadsAs columns (D.told disk.old).images) }
    ensures shut { IsTrue (D.told disk.old).honest → Within (D.told disk.old).images (λ c. IsShut (on side c))
        → Within (D.told disk.new).images (λ c. IsShut (on side c)) }
    ensures bytes { OnOk result (IsTrue (D.told disk.old).honest → IsShut (on side (D.told disk.old).bytes) → IsBlank (on side (D.told disk.new).bytes)) }
    ensures other { IsTrue (D.told disk.old).honest → OtherStays side (D.told disk.old) (D.told disk.new) }
    ensures device { Makes D.told (blank_calls side) result disk.old disk.new }
{
    disk.cut(side, 1)?;
    disk.write(side, 1, &[0; 20])?;
    Ok(())
}

/// Makes a side ready for a table: closes its gate and writes zeros behind it, by at most four device calls. The gate is
/// known to be closed from then on; where it fails that is so if it was known before or the calls that close it were made.
pub(crate) fn prepare<D: Disk>(disk: &mut D, side: Side, known: &mut bool) -> Result<(), DiskFailed>
    requires { IsTrue (D.told disk.old).honest → Within (D.told disk.old).images (IsReady known.old side) }
    ensures honest { (D.told disk.new).honest ≡ (D.told disk.old).honest }
    ensures faults { CountsFault result (D.told disk.old).faults (D.told disk.new).faults }
    // At each moment inside it each image reads as one that there was, and so does each one then, whether it fails or not.
    ensures any_moment { (columns : List Column) → IsTrue (D.told disk.old).honest → LeavesOnly (D.told disk.old) (D.told disk.new) (ReadsAs columns (D.told disk.old).images) }
    ensures reads { (columns : List Column) → IsTrue (D.told disk.old).honest → Within (D.told disk.new).images (ReadsAs columns (D.told disk.old).images) }
    // After success the gate is closed in each image, and what is read is that gate and zeros.
    ensures shut { OnOk result (IsTrue (D.told disk.old).honest → Within (D.told disk.new).images (λ c. IsShut (on side c))) }
    ensures blank { OnOk result (IsTrue (D.told disk.old).honest → IsBlank (on side (D.told disk.new).bytes)) }
    ensures other { IsTrue (D.told disk.old).honest → OtherStays side (D.told disk.old) (D.told disk.new) }
    // What is known of the gate then holds, so that a later try may begin with it.
    ensures ready { IsTrue (D.told disk.old).honest → Within (D.told disk.new).images (IsReady known.new side) }
    ensures known { OnOk result (known.new ≡ true) }
    ensures kept { known.old ≡ true → known.new ≡ true }
    ensures unknown { known.new ≡ false → BrokeOff D.told (close_calls side false) disk.old disk.new }
    ensures device { Makes D.told (prepare_calls side known.old) result disk.old disk.new }
{
    close(disk, side, *known)?;
    *known = true;
    blank(disk, side)?;
    Ok(())
}

/// Writes more of a table behind what a side has, whose gate is closed. Nothing is synced, and the gate stays closed,
/// whether it fails or not.
pub(crate) fn extend<D: Disk>(
    disk: &mut D,
    side: Side,
    at: u64,
    more: &[u8],
) -> Result<(), DiskFailed>
    requires behind { 1 ≤ at }
    requires place { IsTrue (D.told disk.old).honest → at ≤ size side (D.told disk.old).bytes }
    ensures honest { (D.told disk.new).honest ≡ (D.told disk.old).honest }
    ensures faults { CountsFault result (D.told disk.old).faults (D.told disk.new).faults }
    // At each moment inside it each image reads as one that there was.
    ensures any_moment { (columns : List Column) → IsTrue (D.told disk.old).honest → Within (D.told disk.old).images (λ c. IsShut (on side c))
        → LeavesOnly (D.told disk.old) (D.told disk.new) (ReadsAs columns (D.told disk.old).images) }
    ensures shut { IsTrue (D.told disk.old).honest → Within (D.told disk.old).images (λ c. IsShut (on side c))
        → Within (D.told disk.new).images (λ c. IsShut (on side c)) }
    ensures bytes { OnOk result (IsTrue (D.told disk.old).honest → on side (D.told disk.new).bytes ≡ written (on side (D.told disk.old).bytes) at more.now) }
    ensures other { IsTrue (D.told disk.old).honest → OtherStays side (D.told disk.old) (D.told disk.new) }
    ensures device { Makes D.told (Write side at more.now ∷ []) result disk.old disk.new }
{
    disk.write(side, at, more)?;
    Ok(())
}

/// The same, without a call where there is nothing to write.
pub(crate) fn extend_by<D: Disk>(
    disk: &mut D,
    side: Side,
    at: u64,
    more: &[u8],
) -> Result<(), DiskFailed>
    requires behind { 1 ≤ at }
    requires place { IsTrue (D.told disk.old).honest → at ≡ size side (D.told disk.old).bytes }
    ensures honest { (D.told disk.new).honest ≡ (D.told disk.old).honest }
    ensures faults { CountsFault result (D.told disk.old).faults (D.told disk.new).faults }
    ensures any_moment { (columns : List Column) → IsTrue (D.told disk.old).honest → Within (D.told disk.old).images (λ c. IsShut (on side c))
        → LeavesOnly (D.told disk.old) (D.told disk.new) (ReadsAs columns (D.told disk.old).images) }
    ensures shut { IsTrue (D.told disk.old).honest → Within (D.told disk.old).images (λ c. IsShut (on side c))
        → Within (D.told disk.new).images (λ c. IsShut (on side c)) }
    ensures bytes { OnOk result (IsTrue (D.told disk.old).honest → on side (D.told disk.new).bytes ≡ on side (D.told disk.old).bytes ++ more.now) }
    ensures other { IsTrue (D.told disk.old).honest → OtherStays side (D.told disk.old) (D.told disk.new) }
    ensures device { Makes D.told (extend_calls side at more.now) result disk.old disk.new }
{
    if more.is_empty() {
        return Ok(());
    }
    extend(disk, side, at, more)
}

/// Writes what is left of a table and the closing gate, and then the header, behind a gate that is closed, and syncs.
/// The gate stays closed, whether it fails or not. It makes at most three device calls.
pub(crate) fn fill<D: Disk>(
    disk: &mut D,
    side: Side,
    at: u64,
    last: &[u8],
    header: &[u8],
) -> Result<(), DiskFailed>
    requires behind { 1 ≤ at }
    requires place { IsTrue (D.told disk.old).honest → at ≤ size side (D.told disk.old).bytes }
    ensures honest { (D.told disk.new).honest ≡ (D.told disk.old).honest }
    ensures faults { CountsFault result (D.told disk.old).faults (D.told disk.new).faults }
    // At each moment inside it each image reads as one that there was.
    ensures any_moment { (columns : List Column) → IsTrue (D.told disk.old).honest → Within (D.told disk.old).images (λ c. IsShut (on side c))
        → LeavesOnly (D.told disk.old) (D.told disk.new) (ReadsAs columns (D.told disk.old).images) }
    ensures shut { IsTrue (D.told disk.old).honest → Within (D.told disk.old).images (λ c. IsShut (on side c))
        → Within (D.told disk.new).images (λ c. IsShut (on side c)) }
    ensures bytes { OnOk result (IsTrue (D.told disk.old).honest → on side (D.told disk.new).bytes ≡ written (written (on side (D.told disk.old).bytes) at last.now) 1 header.now) }
    ensures only { OnOk result (IsTrue (D.told disk.old).honest → Within (D.told disk.new).images (λ c. on side c ≡ on side (D.told disk.new).bytes)) }
    // After success, where the bytes as they are written are with an open gate a side of a table, and the other side is behind it, that
    // table is there but for its gate.
    ensures filled { OnOk result ((columns : List Column) (table : TableState) (generation len : ℕ) → IsTrue (D.told disk.old).honest → Within (D.told disk.old).images (λ c. IsShut (on side c))
        → OwnSide columns (opened (written (written (on side (D.told disk.old).bytes) at last.now) 1 header.now)) table generation len → Within (D.told disk.old).images (λ c. IsBehind generation (on (other side) c))
        → IsFilled (D.told disk.new) side columns table generation len) }
    ensures other { IsTrue (D.told disk.old).honest → OtherStays side (D.told disk.old) (D.told disk.new) }
    ensures device { Makes D.told (fill_calls side at last.now header.now) result disk.old disk.new }
{
    disk.write(side, at, last)?;
    disk.write(side, 1, header)?;
    disk.sync(side)?; // the whole table, before its gate opens
    Ok(())
}

/// Opens the gate of a side, and syncs, by at most two device calls.
pub(crate) fn switch<D: Disk>(disk: &mut D, side: Side) -> Result<(), DiskFailed>
    ensures honest { (D.told disk.new).honest ≡ (D.told disk.old).honest }
    ensures faults { CountsFault result (D.told disk.old).faults (D.told disk.new).faults }
    // At each moment inside it each image reads as one that there was, or as the whole table.
    ensures any_moment { (columns : List Column) (table : TableState) (generation len : ℕ) → IsTrue (D.told disk.old).honest
        → IsFilled (D.told disk.old) side columns table generation len
        → LeavesOnly (D.told disk.old) (D.told disk.new) (λ c. ReadsAs columns (D.told disk.old).images c ⊎ ReadsOwn columns c table generation) }
    // After success each image reads as the table.
    ensures reads { OnOk result ((columns : List Column) (table : TableState) (generation len : ℕ) → IsTrue (D.told disk.old).honest
        → IsFilled (D.told disk.old) side columns table generation len
        → Within (D.told disk.new).images (λ c. ReadsOwn columns c table generation)) }
    // Whether it fails or not, with an open gate the side is the whole table in each image.
    ensures whole { (columns : List Column) (table : TableState) (generation len : ℕ) → IsTrue (D.told disk.old).honest
        → IsFilled (D.told disk.old) side columns table generation len
        → Within (D.told disk.new).images (λ c. OwnSide columns (opened (on side c)) table generation len) }
    ensures bytes { OnOk result (IsTrue (D.told disk.old).honest → on side (D.told disk.new).bytes ≡ opened (on side (D.told disk.old).bytes)) }
    ensures only { OnOk result (IsTrue (D.told disk.old).honest → Within (D.told disk.new).images (λ c. on side c ≡ on side (D.told disk.new).bytes)) }
    ensures other { IsTrue (D.told disk.old).honest → OtherStays side (D.told disk.old) (D.told disk.new) }
    ensures device { Makes D.told (switch_calls side) result disk.old disk.new }
{
    disk.write(side, 0, &[1])?;
    disk.sync(side)?; // the open gate
    Ok(())
}
