// What a store keeps in memory beside its table.

ghost use Rattle.std.specs.Prelude.{IfOk, vec_capacity};
ghost use Rattle.q4_store.specs.Waiting.{IsMemory};

use crate::batch::Batch;
use q4_value::{Columns, NoMemory};
use std::alloc::Global;

/// The size of the record of a row's end.
pub(crate) const END_SIZE: usize = 9;

/// The columns by which rows are spelled, the batch, and memory for the ends that a copy of the table will want.
#[derive(Drop)]
pub(crate) struct Held {
    pub columns: Columns,
    pub batch: Batch,
    pub ends: Vec<u8>,
}

/// Memory for a store of so many rows of these columns.
pub(crate) fn hold(alloc: Global, columns: &Columns, rows: u32) -> Result<Held, NoMemory>
    ensures { IfOk result (λ held. IsMemory columns.now rows held.columns held.batch held.ends.items (vec_capacity held.ends)) }
{
    let columns = columns.copy(alloc)?;
    let size = END_SIZE * rows as usize;
    let batch = Batch::new(alloc, size)?;
    match Vec::with_capacity(alloc, size) {
        Ok(ends) => Ok(Held {
            columns,
            batch,
            ends,
        }),
        Err(_) => Err(NoMemory),
    }
}
