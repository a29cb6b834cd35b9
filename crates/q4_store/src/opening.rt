ghost use Rattle.std.specs.Prelude.{◌≡◌, ◌∷◌, ℕ, List, [], IsTrue, IfOk, IfErr, OnOk, length, vec_capacity};
ghost use Rattle.q4_value.specs.Names.{AreColumns};
ghost use Rattle.q4_disk.specs.declared.disk.Side.TheVariants.{A, B};
ghost use Rattle.q4_disk.specs.Told.{Sides, Told};
ghost use Rattle.q4_disk.specs.Calls.{CountsFault};
ghost use Rattle.q4_store.specs.Looking.{AddsNone, IsStill, IsHead, IsChoice};
ghost use Rattle.q4_store.specs.Finding.{HasFound, HasFailed};
ghost use Rattle.q4_store.specs.Device.{DeviceCall, Sync, AllMade, Makes, StopsBehindLook, WritesNew, IsBehindLook, HasOpened, HasStopped, look_calls};
ghost use Rattle.q4_store.specs.Waiting.{IsMemory};

use crate::creating::{make_draft, write_draft};
use crate::fault::OpenFault;
use crate::head::{Choice, Head, choose, read_head};
use crate::holding::{Held, hold};
use crate::limit::BASE_AT;
use crate::loading::load;
use crate::migrating::rewrite;
use q4_disk::{Disk, DiskFailed, Side};
use q4_table::Table;
use q4_value::Columns;
use std::alloc::Global;

/// What opening found, or made.
#[derive(Drop)]
pub(crate) struct Found {
    pub table: Table,
    pub side: Side,
    pub generation: u64,
    /// The length of the side up to and with the closing gate.
    pub end: u64,
    /// Whether the gate of the other side is there and closed.
    pub known: bool,
    pub held: Held,
}

/// Syncs both sides and reads the current one. It rewrites one of a narrower schema, and makes a new table on side A where
/// neither is open. All memory is taken before the first write.
pub(crate) fn find<D: Disk>(
    alloc: Global,
    disk: &mut D,
    columns: &Columns,
) -> Result<Found, OpenFault>
    requires { AreColumns columns.now }
    ensures honest { (D.told disk.new).honest ≡ (D.told disk.old).honest }
    ensures found { IfOk result (λ found. HasFound columns.now D.told disk.old disk.new found.table.state found.side found.generation found.end found.known) }
    ensures kept { IfOk result (λ found. found.table.kept ≡ []) }
    ensures held { IfOk result (λ found. IsMemory columns.now (length found.table.state.rows) found.held.columns found.held.batch found.held.ends.items (vec_capacity found.held.ends)) }
    ensures none { IfErr result (HasFailed columns.now D.told disk.old disk.new) }
    // Its device calls: those of the look, and those behind it.
    ensures device { OnOk result (HasOpened columns.now D.told disk.old disk.new) }
    ensures device_err { IfErr result (λ fault. HasStopped columns.now D.told fault disk.old disk.new) }
{
    let Ok((a, b)) = look(disk) else {
        return Err(OpenFault::Disk);
    };
    find_by(alloc, disk, a, b, columns)
}

// The same, by what stands first on each side, where a crash leaves only what is read.
fn find_by<D: Disk>(
    alloc: Global,
    disk: &mut D,
    a: Head,
    b: Head,
    columns: &Columns,
) -> Result<Found, OpenFault>
    requires columns { AreColumns columns.now }
    requires still { IsTrue (D.told disk.old).honest → IsStill (D.told disk.old) }
    requires head_a { IsTrue (D.told disk.old).honest → IsHead (D.told disk.old).bytes.a a }
    requires head_b { IsTrue (D.told disk.old).honest → IsHead (D.told disk.old).bytes.b b }
    ensures honest { (D.told disk.new).honest ≡ (D.told disk.old).honest }
    ensures found { IfOk result (λ found. HasFound columns.now D.told disk.old disk.new found.table.state found.side found.generation found.end found.known) }
    ensures kept { IfOk result (λ found. found.table.kept ≡ []) }
    ensures held { IfOk result (λ found. IsMemory columns.now (length found.table.state.rows) found.held.columns found.held.batch found.held.ends.items (vec_capacity found.held.ends)) }
    ensures none { IfErr result (HasFailed columns.now D.told disk.old disk.new) }
    ensures device { OnOk result ((calls : List DeviceCall) × IsBehindLook columns.now (D.told disk.old) calls × AllMade D.told calls disk.old disk.new) }
    ensures device_err { IfErr result (λ fault. StopsBehindLook columns.now D.told fault disk.old disk.new) }
{
    match choose(a, b) {
        Ok(Choice::Current { side, known }) => find_current(alloc, disk, side, known, columns),
        Ok(Choice::Neither { a, b }) => make_new(alloc, disk, a, b, columns),
        Err(fault) => Err(fault),
    }
}

// Syncs both sides, and reads what stands first on each. Then what is read is the only image.
fn look<D: Disk>(disk: &mut D) -> Result<(Head, Head), DiskFailed>
    ensures honest { (D.told disk.new).honest ≡ (D.told disk.old).honest }
    ensures faults { CountsFault result (D.told disk.old).faults (D.told disk.new).faults }
    ensures rests { IsTrue (D.told disk.old).honest → AddsNone (D.told disk.old) (D.told disk.new) }
    ensures writes { (D.told disk.new).writes ≡ (D.told disk.old).writes }
    ensures still { OnOk result (IsTrue (D.told disk.old).honest → IsStill (D.told disk.new)) }
    ensures device { Makes D.told look_calls result disk.old disk.new }
    ensures heads { IfOk result (λ heads. IsTrue (D.told disk.old).honest → IsHead (D.told disk.old).bytes.a heads.0 × IsHead (D.told disk.old).bytes.b heads.1) }
{
    sync_both(disk)?;
    let a = read_head(disk, Side::A)?;
    let b = read_head(disk, Side::B)?;
    Ok((a, b))
}

fn sync_both<D: Disk>(disk: &mut D) -> Result<(), DiskFailed>
    ensures honest { (D.told disk.new).honest ≡ (D.told disk.old).honest }
    ensures faults { CountsFault result (D.told disk.old).faults (D.told disk.new).faults }
    ensures rests { IsTrue (D.told disk.old).honest → AddsNone (D.told disk.old) (D.told disk.new) }
    ensures writes { (D.told disk.new).writes ≡ (D.told disk.old).writes }
    ensures still { OnOk result (IsTrue (D.told disk.old).honest → IsStill (D.told disk.new)) }
    ensures device { Makes D.told (Sync A ∷ Sync B ∷ []) result disk.old disk.new }
{
    disk.sync(Side::A)?;
    disk.sync(Side::B)?;
    Ok(())
}

// The table of the side that counts, which is rewritten where its schema is narrower.
fn find_current<D: Disk>(
    alloc: Global,
    disk: &mut D,
    side: Side,
    known: bool,
    columns: &Columns,
) -> Result<Found, OpenFault>
    requires columns { AreColumns columns.now }
    requires still { IsTrue (D.told disk.old).honest → IsStill (D.told disk.old) }
    requires chosen { IsTrue (D.told disk.old).honest → IsChoice (D.told disk.old).bytes (Choice.Current side known) }
    ensures honest { (D.told disk.new).honest ≡ (D.told disk.old).honest }
    ensures found { IfOk result (λ found. HasFound columns.now D.told disk.old disk.new found.table.state found.side found.generation found.end found.known) }
    ensures kept { IfOk result (λ found. found.table.kept ≡ []) }
    ensures held { IfOk result (λ found. IsMemory columns.now (length found.table.state.rows) found.held.columns found.held.batch found.held.ends.items (vec_capacity found.held.ends)) }
    ensures none { IfErr result (HasFailed columns.now D.told disk.old disk.new) }
    ensures device { OnOk result ((calls : List DeviceCall) × IsBehindLook columns.now (D.told disk.old) calls × AllMade D.told calls disk.old disk.new) }
    ensures device_err { IfErr result (λ fault. StopsBehindLook columns.now D.told fault disk.old disk.new) }
{
    let loaded = match load(alloc, disk, side, columns) {
        Ok(loaded) => loaded,
        Err(fault) => return Err(fault),
    };
    let Ok(held) = hold(alloc, columns, loaded.table.count()) else {
        return Err(OpenFault::Memory);
    };
    if loaded.narrow {
        return rewrite(alloc, disk, side, known, loaded, held);
    }
    Ok(Found {
        table: loaded.table,
        side,
        generation: loaded.generation,
        end: loaded.end,
        known,
        held,
    })
}

// A new table on side A.
fn make_new<D: Disk>(
    alloc: Global,
    disk: &mut D,
    known: bool,
    other_known: bool,
    columns: &Columns,
) -> Result<Found, OpenFault>
    requires columns { AreColumns columns.now }
    requires still { IsTrue (D.told disk.old).honest → IsStill (D.told disk.old) }
    requires chosen { IsTrue (D.told disk.old).honest → IsChoice (D.told disk.old).bytes (Choice.Neither known other_known) }
    ensures honest { (D.told disk.new).honest ≡ (D.told disk.old).honest }
    ensures found { IfOk result (λ found. HasFound columns.now D.told disk.old disk.new found.table.state found.side found.generation found.end found.known) }
    ensures kept { IfOk result (λ found. found.table.kept ≡ []) }
    ensures held { IfOk result (λ found. IsMemory columns.now (length found.table.state.rows) found.held.columns found.held.batch found.held.ends.items (vec_capacity found.held.ends)) }
    ensures none { IfErr result (HasFailed columns.now D.told disk.old disk.new) }
    ensures device { OnOk result ((calls : List DeviceCall) × WritesNew columns.now (D.told disk.old) calls × AllMade D.told calls disk.old disk.new) }
    ensures device_err { IfErr result (λ fault. StopsBehindLook columns.now D.told fault disk.old disk.new) }
{
    let Ok(own) = columns.copy(alloc) else {
        return Err(OpenFault::Memory);
    };
    let table = Table::new(alloc, own);
    let Ok(held) = hold(alloc, columns, table.count()) else {
        return Err(OpenFault::Memory);
    };
    let Ok(draft) = make_draft(alloc, &table, 1) else {
        return Err(OpenFault::Memory);
    };
    let Ok(()) = write_draft(disk, Side::A, known, &draft) else {
        return Err(OpenFault::Disk);
    };
    Ok(Found {
        table,
        side: Side::A,
        generation: 1,
        end: BASE_AT + draft.base.as_slice().len() as u64,
        known: other_known,
        held,
    })
}
