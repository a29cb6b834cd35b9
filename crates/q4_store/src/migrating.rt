// A side whose schema is narrower than the columns is rewritten where it is opened.

ghost use Rattle.std.specs.Prelude.{◌≡◌, ◌≢◌, ◌+◌, ℕ, List, true, IsTrue, IfOk, IfErr, OnOk};
ghost use Rattle.q4_value.specs.Names.{AreColumns};
ghost use Rattle.q4_disk.specs.Told.{Sides, Told};
ghost use Rattle.q4_disk.specs.Images.{on, other};
ghost use Rattle.q4_store.specs.Looking.{IsStill, IsChoice, IsLoaded};
ghost use Rattle.q4_store.specs.Finding.{HasFound, HasFailed};
ghost use Rattle.q4_store.specs.Device.{AllMade, BrokeOff, write_calls};

use crate::creating::{make_draft, write_draft};
use crate::fault::OpenFault;
use crate::head::Choice;
use crate::holding::Held;
use crate::limit::BASE_AT;
use crate::loading::Loaded;
use crate::opening::Found;
use crate::parts::other_of;
use q4_disk::{Disk, Side};
use std::alloc::Global;

/// Writes the table of the current side, whose schema is narrower than the columns, onto the other side, with a generation
/// greater by one. Its bytes are made before the first write.
pub(crate) fn rewrite<D: Disk>(
    alloc: Global,
    disk: &mut D,
    side: Side,
    known: bool,
    loaded: Loaded,
    held: Held,
) -> Result<Found, OpenFault>
    requires columns { AreColumns loaded.table.state.columns }
    requires narrow { loaded.narrow ≡ true }
    requires sound { (bytes : List ℕ) × IsLoaded loaded.table.state.columns bytes loaded.table.state loaded.generation loaded.end loaded.narrow }
    requires still { IsTrue (D.told disk.old).honest → IsStill (D.told disk.old) }
    requires chosen { IsTrue (D.told disk.old).honest → IsChoice (D.told disk.old).bytes (Choice.Current side known) }
    requires loaded { IsTrue (D.told disk.old).honest → IsLoaded loaded.table.state.columns (on side (D.told disk.old).bytes) loaded.table.state loaded.generation loaded.end loaded.narrow }
    ensures honest { (D.told disk.new).honest ≡ (D.told disk.old).honest }
    ensures found { IfOk result (λ found. HasFound loaded.table.state.columns D.told disk.old disk.new found.table.state found.side found.generation found.end found.known) }
    ensures same { IfOk result (λ found. (found.table ≡ loaded.table) × (found.held ≡ held)) }
    ensures none { IfErr result (HasFailed loaded.table.state.columns D.told disk.old disk.new) }
    ensures device { OnOk result (AllMade D.told (write_calls (other side) known loaded.table.state (loaded.generation + 1)) disk.old disk.new) }
    ensures device_err { IfErr result (λ fault. fault ≡ OpenFault.Disk → BrokeOff D.told (write_calls (other side) known loaded.table.state (loaded.generation + 1)) disk.old disk.new) }
    // Where memory was wanted it called nothing.
    ensures refused { IfErr result (λ fault. fault ≢ OpenFault.Disk → disk.new ≡ disk.old) }
{
    let generation = loaded.generation + 1;
    let Ok(draft) = make_draft(alloc, &loaded.table, generation) else {
        return Err(OpenFault::Memory);
    };
    let side = other_of(side);
    let Ok(()) = write_draft(disk, side, known, &draft) else {
        return Err(OpenFault::Disk);
    };
    Ok(Found {
        table: loaded.table,
        side,
        generation,
        end: BASE_AT + draft.base.as_slice().len() as u64,
        // its gate is open
        known: false,
        held,
    })
}
