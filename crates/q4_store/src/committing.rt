ghost use Rattle.std.specs.Prelude.{◌≡◌, ◌+◌, ◌-◌, ◌≤◌, ℕ, List, [], ◌∷◌, IsTrue, OnOk, length};
ghost use Rattle.q4_disk.specs.Told.{Sides, Told};
ghost use Rattle.q4_disk.specs.Images.{on, other, size, written, Within};
ghost use Rattle.q4_disk.specs.Time.{LeavesOnly, OtherStays};
ghost use Rattle.q4_disk.specs.Calls.{CountsFault};
ghost use Rattle.q4_store.specs.Commit.{EndsBehind, IsOpenBehind, MayHaveBatch, grown};
ghost use Rattle.q4_store.specs.Device.{Makes, commit_calls};

use q4_disk::{Disk, DiskFailed, Side};

/// Writes a batch behind the closing gate of a side, syncs, opens that gate, and syncs. The side ends, up to and with
/// its closing gate, at `end`.
pub(crate) fn commit_batch<D: Disk>(
    disk: &mut D,
    side: Side,
    end: u64,
    batch: &[u8],
) -> Result<(), DiskFailed>
    requires gate { 1 ≤ end }
    requires place { IsTrue (D.told disk.old).honest → end ≤ size side (D.told disk.old).bytes }
    ensures honest { (D.told disk.new).honest ≡ (D.told disk.old).honest }
    ensures faults { CountsFault result (D.told disk.old).faults (D.told disk.new).faults }
    // At each moment inside it the gate is closed in each image, or open with the whole batch behind it.
    ensures any_moment { (front : List ℕ) → IsTrue (D.told disk.old).honest → EndsBehind (D.told disk.old) side front → end ≡ length front + 1
        → LeavesOnly (D.told disk.old) (D.told disk.new) (MayHaveBatch (D.told disk.old).images side front batch.now (grown (D.told disk.old) side end batch.now)) }
    // After success it is open in each.
    ensures done { OnOk result ((front : List ℕ) → IsTrue (D.told disk.old).honest → EndsBehind (D.told disk.old) side front → end ≡ length front + 1
        → IsOpenBehind front batch.now (grown (D.told disk.old) side end batch.now) (on side (D.told disk.new).bytes)) }
    ensures bytes { OnOk result (IsTrue (D.told disk.old).honest → on side (D.told disk.new).bytes ≡ written (written (on side (D.told disk.old).bytes) end batch.now) (end - 1) (1 ∷ [])) }
    ensures only { OnOk result (IsTrue (D.told disk.old).honest → Within (D.told disk.new).images (λ c. on side c ≡ on side (D.told disk.new).bytes)) }
    ensures long { OnOk result (IsTrue (D.told disk.old).honest → end + length batch.now ≤ size side (D.told disk.new).bytes) }
    ensures other { IsTrue (D.told disk.old).honest → OtherStays side (D.told disk.old) (D.told disk.new) }
    ensures there { IsTrue (D.told disk.old).honest → on (other side) (D.told disk.new).bytes ≡ on (other side) (D.told disk.old).bytes }
    ensures device { Makes D.told (commit_calls side end batch.now) result disk.old disk.new }
    ensures calls { (D.told disk.new).calls ≤ (D.told disk.old).calls + 4 }
    ensures writes { (D.told disk.new).writes ≤ (D.told disk.old).writes + 2 }
    ensures syncs { (D.told disk.new).syncs ≤ (D.told disk.old).syncs + 2 }
{
    disk.write(side, end, batch)?;
    disk.sync(side)?; // the batch, before its gate opens
    disk.write(side, end - 1, &[1])?;
    disk.sync(side)?; // the open gate
    Ok(())
}
