ghost use Rattle.std.specs.Prelude.{◌≡◌, ◌≤◌, ◌⊎◌, Err, IsTrue};
ghost use Rattle.q4_flow.specs.Flow.{Rose};
ghost use Rattle.q4_flow.specs.Lines.{Takes};
ghost use Rattle.q4_flow.specs.All.{ReadsAll};

use crate::{ReadFailed, Source};
use q4_value::Bytes;
use std::alloc::Global;

/// The bytes of one read at most: 64 KiB.
const PIECE_SIZE: usize = 65_536;

/// Why not all bytes of a source were read.
#[derive(Clone, Copy, Debug, PartialEq, Eq)]
pub enum AllFault {
    /// More bytes came than may come.
    TooLong,
    /// The source failed.
    ReadFault,
    /// Memory was wanted and could not be had.
    Memory,
}

/// All bytes that the source gives up to its end, which may be as many as `most`.
pub fn read_all<S: Source>(alloc: Global, source: &mut S, most: u64) -> Result<Bytes, AllFault>
    ensures all { Takes (S.left source.old) (S.left source.new) (λ taken. ReadsAll most (IsTrue (S.ended source.new)) (S.left source.new) taken result) }
    ensures later { S.faults source.old ≤ S.faults source.new }
    ensures cause { result ≡ Err AllFault.ReadFault → Rose (S.faults source.old) (S.faults source.new) }
    ensures stayed { S.faults source.new ≡ S.faults source.old ⊎ (result ≡ Err AllFault.ReadFault) }
{
    let Ok(mut piece) = Vec::from_elem(alloc, 0, PIECE_SIZE) else {
        return Err(AllFault::Memory);
    };
    let mut bytes = Bytes::new(alloc);
    let mut room = most;
    loop {
        let count = match source.read(&mut piece) {
            Err(ReadFailed) => return Err(AllFault::ReadFault),
            Ok(0) => return Ok(bytes),
            Ok(count) => count,
        };
        if count as u64 > room {
            return Err(AllFault::TooLong);
        }
        room -= count as u64;
        let Ok(()) = bytes.push(&piece[..count]) else {
            return Err(AllFault::Memory);
        };
    }
}
