ghost use Rattle.std.specs.Prelude.{◌≡◌, ◌+◌, ◌≤◌, ◌^◌, OnOk, IfErr};
ghost use Rattle.q4_store.specs.Store.{IsOver};

// The most bytes of a side.
const SIDE_LIMIT: u64 = q4_record::SIDE_LIMIT as u64;

// Where the base of a side begins.
pub(crate) const BASE_AT: u64 = q4_record::BASE_AT as u64;

// What the ends of one row, in the side and in a copy of it, add at most.
const ROOM_FOR_ENDS: u64 = 32;

/// Whether a side of this length, with so many bytes pending, has room for a record of this cost behind so many rows,
/// and for the end of each row and of the new one. A refusal tells the length with what is pending. Each number is at
/// most 2^40.
pub fn room(length: u64, pending: u64, cost: u64, live: u64) -> Result<(), u64>
    requires length { length ≤ 2 ^ 40 }
    requires pending { pending ≤ 2 ^ 40 }
    requires cost { cost ≤ 2 ^ 40 }
    requires live { live ≤ 2 ^ 40 }
    ensures has { OnOk result (IsOver (length + pending) cost live → ⊥) }
    ensures full { IfErr result (λ taken. (taken ≡ length + pending) × IsOver (length + pending) cost live) }
{
    let taken = length + pending;
    if taken + cost + ROOM_FOR_ENDS * (live + 1) > SIDE_LIMIT {
        return Err(taken);
    }
    Ok(())
}
