//! The conditions that a table keeps, and where a look for each begins.
ghost use Rattle.std.specs.Prelude.{◌≡◌, ◌<◌, [], ◌∷◌, false, Some, length, slice_get, IfOk, OnOk, OnErr};
ghost use Rattle.std.specs.List.{position, remove};
ghost use Rattle.q4_table.specs.Cursors.{Cursor, is_for, is_kept, begin_of, with_kept, with_moved, lowered_to, with_lowered};

use q4_cond::Cond;
use q4_value::NoMemory;
use std::alloc::Global;
use std::marker::Model;

// The most conditions that are kept.
const KEPT_LIMIT: usize = 64;

// A kept condition, and the row number that a look for it begins at.
#[derive(Drop)]
struct Watched {
    cond: Cond,
    from: u64,
}

impl Model for Watched {
    ghost use Rattle.std.specs.Coded.{coded_list};
    ghost use Rattle.q4_cond.specs.contracts.tree.Node as node;
    ghost use Rattle.q4_table.specs.Cursors.{Cursor, cursor_code};

    ghost Value = { Cursor };

    ghost coded = { cursor_code (coded_list node.the_row.coded) };

    ghost view = { λ w. record { tree = w.cond.tree; from = w.from } };
}

impl Watched {
    fn lower(&mut self, number: u64)
        ensures { self.new ≡ lowered_to number self.old }
    {
        if number < self.from {
            self.from = number;
        }
    }

    fn copy(&self, alloc: Global) -> Result<Watched, NoMemory>
        ensures { IfOk result (λ watched. watched ≡ self.now) }
    {
        Ok(Watched {
            cond: self.cond.copy(alloc)?,
            from: self.from,
        })
    }
}

/// The conditions that a table keeps, at most 64, the newest first. A contract sees their trees and cursors.
#[derive(Drop)]
pub struct Cursors {
    list: Vec<Watched>,
}

impl Model for Cursors {
    ghost use Rattle.std.specs.Prelude.{◌≤◌, List, length};
    ghost use Rattle.q4_table.specs.Cursors.{Cursor, kept_limit};
    ghost use Rattle.q4_table.specs.contracts.cursors.Watched as watched;
    ghost use Rattle.std.specs.Coded.{codes};

    ghost Value = { List Cursor };

    ghost coded = { Prim.hlevel (codes, watched.the_row.coded) };

    ghost view = { λ c. c.list.items };

    ghost invariant = { λ c. length c.list.items ≤ kept_limit };
}

impl Cursors {
    /// No condition. It takes no memory.
    pub fn new(alloc: Global) -> Cursors
        ensures { result ≡ [] }
    {
        Cursors {
            list: Vec::new(alloc),
        }
    }

    // The place of a condition, from 0, where it is kept.
    fn place(&self, cond: &Cond) -> Option<usize>
        ensures { result ≡ position (is_for cond.now.tree) self.now }
    {
        self.list
            .iter()
            .position(|watched| watched.cond.has_tree_of(cond))
    }

    /// Whether the condition is kept.
    pub fn has(&self, cond: &Cond) -> bool
        ensures { result ≡ is_kept self.now cond.now.tree }
    {
        self.place(cond).is_some()
    }

    /// The row number that a look for the condition begins at.
    pub fn begin_of(&self, cond: &Cond) -> u64
        ensures { result ≡ begin_of self.now cond.now.tree }
    {
        match self.place(cond) {
            Some(place) => self.list[place].from,
            None => 1,
        }
    }

    /// Keeps the condition, as the newest. Of 65 the oldest goes. A refusal changes nothing, and a condition that is kept
    /// is not refused.
    pub fn keep(&mut self, cond: &Cond) -> Result<(), NoMemory>
        ensures kept { OnOk result (self.new ≡ with_kept cond.now.tree self.old) }
        ensures unchanged { OnErr result (self.new ≡ self.old) }
        ensures again { OnErr result (is_kept self.old cond.now.tree ≡ false) }
    {
        let _ = &self.list;
        match self.place(cond) {
            Some(place) => {
                self.bring_forward(place);
                Ok(())
            }
            None => self.keep_new(cond),
        }
    }

    // Brings the condition at this place to the front.
    fn bring_forward(&mut self, place: usize)
        requires { place < length self.old }
        ensures { (c : Cursor) → slice_get self.old place ≡ Some c → self.new ≡ c ∷ remove self.old place }
    {
        let watched = self.list.remove(place);
        if self.list.insert(0, watched).is_err() {
            unreachable!()
        }
    }

    // Keeps a condition that is not kept yet.
    fn keep_new(&mut self, cond: &Cond) -> Result<(), NoMemory>
        requires { is_kept self.old cond.now.tree ≡ false }
        ensures kept { OnOk result (self.new ≡ with_kept cond.now.tree self.old) }
        ensures unchanged { OnErr result (self.new ≡ self.old) }
    {
        let alloc = *self.list.allocator();
        let cond = cond.copy(alloc)?;
        let watched = Watched { cond, from: 1 };
        if self.list.insert(0, watched).is_err() {
            return Err(NoMemory);
        }
        self.list.truncate(KEPT_LIMIT);
        Ok(())
    }

    /// Moves the cursor of the condition, where it is kept.
    pub fn move_to(&mut self, cond: &Cond, number: u64)
        ensures { self.new ≡ with_moved cond.now.tree number self.old }
    {
        if let Some(place) = self.place(cond) {
            self.list[place].from = number;
        }
    }

    /// Lowers each cursor above the number to it.
    pub fn lower(&mut self, number: u64)
        ensures { self.new ≡ with_lowered number self.old }
    {
        for watched in self.list.iter_mut() {
            watched.lower(number);
        }
    }

    /// The same conditions with their cursors, in memory of their own.
    pub fn copy(&self, alloc: Global) -> Result<Cursors, NoMemory>
        ensures { IfOk result (λ cursors. cursors ≡ self.now) }
    {
        let mut list = Vec::new(alloc);
        for watched in &self.list {
            let watched = watched.copy(alloc)?;
            if list.push(watched).is_err() {
                return Err(NoMemory);
            }
        }
        Ok(Cursors { list })
    }
}
