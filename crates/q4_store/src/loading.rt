ghost use Rattle.std.specs.Prelude.{◌≡◌, ◌≤◌, ◌<◌, ◌≢◌, ◌∷◌, [], ℕ, List, IsTrue, IfOk, IfErr, OnOk, length};
ghost use Rattle.q4_value.specs.Names.{AreColumns};
ghost use Rattle.q4_record.specs.Side.{IsOpen};
ghost use Rattle.q4_disk.specs.Told.{Sides, Told};
ghost use Rattle.q4_disk.specs.Images.{on, size};
ghost use Rattle.q4_store.specs.Opening.{CountsOpen};
ghost use Rattle.q4_store.specs.Looking.{AddsNone, IsLoaded, LoadFails};
ghost use Rattle.q4_store.specs.Device.{DeviceCall, Read, AllMade, Stops, load_calls};

use crate::fault::OpenFault;
use q4_disk::{Disk, Side};
use q4_record::{SideFault, read_side};
use q4_table::Table;
use q4_value::Columns;
use std::alloc::Global;

// The most bytes of a side.
const SIDE_LIMIT: u64 = 536_870_912;

/// What a side holds.
#[derive(Drop)]
pub(crate) struct Loaded {
    pub table: Table,
    pub generation: u64,
    /// The length up to and with the closing gate.
    pub end: u64,
    /// Whether the side's schema is narrower than the columns.
    pub narrow: bool,
}

/// Reads a side that is open, in one piece.
pub(crate) fn load<D: Disk>(
    alloc: Global,
    disk: &mut D,
    side: Side,
    columns: &Columns,
) -> Result<Loaded, OpenFault>
    requires { AreColumns columns.now }
    ensures honest { (D.told disk.new).honest ≡ (D.told disk.old).honest }
    ensures calm { OnOk result ((D.told disk.new).faults ≡ (D.told disk.old).faults) }
    ensures faults { IfErr result (λ fault. CountsOpen fault (D.told disk.old).faults (D.told disk.new).faults) }
    ensures rests { IsTrue (D.told disk.old).honest → AddsNone (D.told disk.old) (D.told disk.new) }
    ensures writes { (D.told disk.new).writes ≡ (D.told disk.old).writes }
    // It asks for the side's size and then for so many bytes.
    ensures device { IfOk result (λ loaded. (n : ℕ) × (IsTrue (D.told disk.old).honest → n ≡ size side (D.told disk.old).bytes) × AllMade D.told (load_calls side n) disk.old disk.new) }
    ensures device_err { IfErr result (λ fault. (n : ℕ) × (IsTrue (D.told disk.old).honest → n ≡ size side (D.told disk.old).bytes) × Stops D.told (load_calls side n) fault disk.old disk.new) }
    ensures sound { IfOk result (λ loaded. (bytes : List ℕ) × IsLoaded columns.now bytes loaded.table.state loaded.generation loaded.end loaded.narrow) }
    ensures loaded { IfOk result (λ loaded. IsTrue (D.told disk.old).honest → IsLoaded columns.now (on side (D.told disk.old).bytes) loaded.table.state loaded.generation loaded.end loaded.narrow) }
    ensures kept { IfOk result (λ loaded. loaded.table.kept ≡ []) }
    ensures fails { IfErr result (λ fault. IsTrue (D.told disk.old).honest → IsOpen (on side (D.told disk.old).bytes) → LoadFails columns.now (on side (D.told disk.old).bytes) side fault) }
{
    let Ok(size) = disk.size(side) else {
        return Err(OpenFault::Disk);
    };
    if size > SIDE_LIMIT {
        return Err(OpenFault::Large(6));
    }
    let mut bytes = zeros(alloc, size as usize)?;
    load_into(alloc, disk, side, &mut bytes, columns)
}

// The same, by way of bytes that are as long as the side.
fn load_into<D: Disk>(
    alloc: Global,
    disk: &mut D,
    side: Side,
    bytes: &mut [u8],
    columns: &Columns,
) -> Result<Loaded, OpenFault>
    requires columns { AreColumns columns.now }
    requires size { IsTrue (D.told disk.old).honest → length bytes.old ≡ length (on side (D.told disk.old).bytes) }
    ensures honest { (D.told disk.new).honest ≡ (D.told disk.old).honest }
    ensures calm { OnOk result ((D.told disk.new).faults ≡ (D.told disk.old).faults) }
    ensures faults { IfErr result (λ fault. CountsOpen fault (D.told disk.old).faults (D.told disk.new).faults) }
    ensures rests { IsTrue (D.told disk.old).honest → AddsNone (D.told disk.old) (D.told disk.new) }
    ensures writes { (D.told disk.new).writes ≡ (D.told disk.old).writes }
    ensures device { IfOk result (λ loaded. AllMade D.told (Read side 0 (length bytes.old) ∷ []) disk.old disk.new) }
    ensures device_err { IfErr result (λ fault. Stops D.told (Read side 0 (length bytes.old) ∷ []) fault disk.old disk.new) }
    ensures sound { IfOk result (λ loaded. (bytes : List ℕ) × IsLoaded columns.now bytes loaded.table.state loaded.generation loaded.end loaded.narrow) }
    ensures loaded { IfOk result (λ loaded. IsTrue (D.told disk.old).honest → IsLoaded columns.now (on side (D.told disk.old).bytes) loaded.table.state loaded.generation loaded.end loaded.narrow) }
    ensures kept { IfOk result (λ loaded. loaded.table.kept ≡ []) }
    ensures fails { IfErr result (λ fault. IsTrue (D.told disk.old).honest → IsOpen (on side (D.told disk.old).bytes) → LoadFails columns.now (on side (D.told disk.old).bytes) side fault) }
{
    let Ok(count) = disk.read(side, 0, bytes) else {
        return Err(OpenFault::Disk);
    };
    parse(alloc, side, &bytes[..count], columns)
}

fn zeros(alloc: Global, size: usize) -> Result<Vec<u8>, OpenFault>
    ensures size { IfOk result (λ bytes. length bytes.items ≡ size) }
    ensures memory { IfErr result (λ fault. fault ≡ OpenFault.Memory) }
{
    match Vec::from_elem(alloc, 0, size) {
        Ok(bytes) => Ok(bytes),
        Err(_) => Err(OpenFault::Memory),
    }
}

// The table of the bytes of a side that is open.
fn parse(alloc: Global, side: Side, bytes: &[u8], columns: &Columns) -> Result<Loaded, OpenFault>
    requires { AreColumns columns.now }
    ensures side { IfOk result (λ loaded. IsLoaded columns.now bytes.now loaded.table.state loaded.generation loaded.end loaded.narrow) }
    ensures kept { IfOk result (λ loaded. loaded.table.kept ≡ []) }
    ensures no_disk { IfErr result (λ fault. fault ≢ OpenFault.Disk) }
    ensures fails { IfErr result (λ fault. IsOpen bytes.now → LoadFails columns.now bytes.now side fault) }
{
    let Ok(columns) = columns.copy(alloc) else {
        return Err(OpenFault::Memory);
    };
    match read_side(alloc, bytes, columns) {
        Ok((table, generation, end, narrow)) => Ok(Loaded {
            table,
            generation,
            end,
            narrow,
        }),
        Err(SideFault::Closed) => Err(OpenFault::Damaged(side, 0)),
        Err(SideFault::Damaged(place)) => Err(OpenFault::Damaged(side, place)),
        Err(SideFault::Schema(column)) => Err(OpenFault::Schema(column)),
        Err(SideFault::Large(limit)) => Err(OpenFault::Large(limit)),
        Err(SideFault::Memory) => Err(OpenFault::Memory),
    }
}
