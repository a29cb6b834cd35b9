ghost use Rattle.std.specs.Prelude.{◌≡◌, ◌<◌, ◌^◌, [], ◌∷◌, ◌++◌, length, IfOk, IfErr, OnOk, OnErr};

use q4_cond::Cond;
use q4_value::NoMemory;
use std::alloc::Global;
use std::marker::Model;

/// One entry of a wait's list: the place of a table, from 0, and a condition on its rows.
#[derive(Drop)]
pub struct Listed {
    pub table: u32,
    pub cond: Cond,
}

impl Listed {
    /// The same entry, in memory of its own.
    pub fn copy(&self, alloc: Global) -> Result<Listed, NoMemory>
        ensures { IfOk result (λ listed. listed ≡ self.now) }
    {
        Ok(Listed {
            table: self.table,
            cond: self.cond.copy(alloc)?,
        })
    }
}

/// The list of a wait. A contract sees the list.
#[derive(Drop)]
pub struct Looks {
    list: Vec<Listed>,
}

impl Model for Looks {
    ghost use Rattle.std.specs.Prelude.{◌<◌, List, vec_len};
    ghost use Rattle.q4_machine.specs.declared.looks.Listed.{Listed as Element};
    ghost use Rattle.q4_machine.specs.contracts.looks.Listed as listed;
    ghost use Rattle.std.specs.Coded.{coded_list};

    ghost Value = { List Element };

    ghost coded = { coded_list listed.the_row.coded };

    ghost view = { λ l. l.list.items };

    ghost invariant = { λ l. vec_len l.list < 4294967296 };
}

impl Looks {
    /// No entry. It takes no memory.
    pub fn new(alloc: Global) -> Looks
        ensures { result ≡ [] }
    {
        Looks {
            list: Vec::new(alloc),
        }
    }

    /// Puts an entry at the end. A refusal gives the condition back, and leaves the list. It also wants memory
    /// behind 2^32 - 1 entries.
    pub fn push(&mut self, table: u32, cond: Cond) -> Result<(), (Cond, NoMemory)>
        ensures pushed { OnOk result (self.new ≡ self.old ++ record { table = table; cond = cond } ∷ []) }
        ensures kept { OnErr result (self.new ≡ self.old) }
        ensures given_back { IfErr result (λ fault. fault.0 ≡ cond) }
    {
        if self.list.len() as u64 >= u64::from(u32::MAX) {
            return Err((cond, NoMemory));
        }
        match self.list.push(Listed { table, cond }) {
            Ok(()) => Ok(()),
            Err(refused) => Err((refused.value.cond, NoMemory)),
        }
    }

    /// The entries in order.
    pub fn as_slice(&self) -> &[Listed]
        ensures list { result.now ≡ self.now }
        ensures short { length result.now < 2 ^ 32 }
    {
        self.list.as_slice()
    }

    /// The same list, in memory of its own.
    pub fn copy(&self, alloc: Global) -> Result<Looks, NoMemory>
        ensures { IfOk result (λ list. list ≡ self.now) }
    {
        let mut list = Looks::new(alloc);
        for listed in &self.list {
            let listed = listed.copy(alloc)?;
            if let Err((_, fault)) = list.push(listed.table, listed.cond) {
                return Err(fault);
            }
        }
        Ok(list)
    }
}
