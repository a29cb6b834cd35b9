ghost use Rattle.std.specs.Prelude.{◌≡◌, ◌≤◌, ◌⊎◌, ℕ, List, Option, Some, None, All, IsSome, length, IfOk, IfErr};
ghost use Rattle.q4_machine.specs.declared.entry.Call.TheVariants as call;
ghost use Rattle.q4_machine.specs.Definitions.{definitions, IsListed};
ghost use Rattle.q4_machine.specs.Machine.{mode_of};
ghost use Rattle.q4_machine.specs.Step.{look_reply, abort_reply, row_reply};
ghost use Rattle.q4_machine.specs.Kept.{AreKept, KeepSame};
ghost use Rattle.q4_machine.specs.Parts.{Replied, IsInOrder, Grows, IsPart, wait_answer, mode_answer, row_answer, Waits};
ghost use Rattle.q4_machine.specs.History.{state_after, definitions_of, is_owner, IsOpenFor, IsSettled, SyncsAreOwed};
ghost use Rattle.q4_machine.specs.Patience.{Looked};
ghost use Rattle.q4_machine.specs.Recorded.{HasRoom, IsSound, entry_limit, ended_first, LookedUntil};
ghost use Rattle.q4_machine.specs.OneDesk.{IsNew, BeginsNew};

use crate::recorded::RecordedMachine;
use crate::{
    Desk, DeskFault, Entry, InsertFault, Looks, Machine, ModeFault, Patience, Refusal, Rows, Seats,
    SessionMode,
};
use q4_def::Defs;
use q4_table::Added;
use q4_value::{NoMemory, Row};
use std::alloc::Global;
use std::marker::Model;

/// A desk in memory. It stores its history.
#[derive(Drop)]
pub struct OneDesk {
    alloc: Global,
    recorded: RecordedMachine,
    defs: Defs,
    current: Option<u64>,
}

impl Model for OneDesk {
    ghost use Rattle.q4_machine.specs.Recorded.{DeskState};
    ghost use Rattle.q4_machine.specs.contracts.entry.Entry as entry;
    ghost use Rattle.q4_table.specs.contracts.cursors.Cursors as cursors;
    ghost use Rattle.std.specs.Coded.{codes};

    ghost Value = { DeskState };

    ghost coded = { Prim.hlevel (codes, entry.the_row.coded, cursors.the_row.coded) };

    ghost use Rattle.q4_machine.specs.OneDesk.{IsOneDesk};

    ghost view = { λ d. record { seen = d.recorded.log.seen; current = d.current; kept = d.recorded.kept } };

    ghost invariant = { λ d. IsOneDesk d.recorded.log d.defs d.current };
}

impl OneDesk {
    /// A desk over empty tables of these definitions, without a session.
    pub fn new(alloc: Global, defs: Defs) -> Result<OneDesk, NoMemory>
        ensures { IfOk result (IsNew defs) }
    {
        let recorded = RecordedMachine::new(alloc, &defs)?;
        Ok(OneDesk {
            alloc,
            recorded,
            defs,
            current: None,
        })
    }

    /// The machine, whose state is the one that the history reaches.
    pub fn machine(&self) -> &Machine
        ensures state { result.now.state ≡ state_after self.now.seen }
        ensures defined { definitions result.now.state.tables ≡ definitions_of self.now.seen }
        ensures kept { result.now.kept ≡ self.now.kept }
    {
        self.recorded.machine()
    }

    /// The whole history, oldest entry first.
    pub fn history(&self) -> &[Entry]
        ensures seen { result.now ≡ self.now.seen }

        // It begins with the empty tables of its definitions. It is legal, and all of it is by caller 0.
        ensures begins { BeginsNew (definitions_of result.now) result.now }
        ensures sound { IsSound result.now }
        ensures settled { (place : ℕ) → IsSettled result.now place }
        ensures owed { SyncsAreOwed result.now }
    {
        self.recorded.history()
    }
}

impl Desk for OneDesk {
    type Leave = ();

    ghost seen = { λ d. d.seen };

    ghost caller = { λ _. 0 };

    ghost current = { λ d. d.current };

    ghost limit = { λ _. entry_limit };

    fn defs(&self) -> &Defs {
        &self.defs
    }

    fn open(&mut self, _leave: &()) -> Result<u64, DeskFault> {
        self.recorded.begin()?;
        let session = self.recorded.open()?;
        self.current = Some(session);
        Ok(session)
    }

    fn insert(&mut self, _leave: &(), table: u32, row: Row) -> Result<Added, InsertFault> {
        let Some(session) = self.current else {
            unreachable!()
        };
        if let Err(fault) = self.recorded.begin() {
            return Err(InsertFault::Desk(fault));
        }
        let Ok(copy) = row.copy(self.alloc) else {
            return Err(InsertFault::Desk(DeskFault::Memory));
        };
        match self.recorded.insert(session, table, row, copy) {
            Ok(Added::New(number)) => {
                self.recorded.sync(session);
                Ok(Added::New(number))
            }
            Ok(Added::Seen(mark)) => Ok(Added::Seen(mark)),
            Err(fault) => Err(fault),
        }
    }

    fn wait<P: Patience>(
        &mut self,
        _leave: &(),
        list: &Looks,
        seconds: u32,
        patience: &mut P,
    ) -> Result<Option<u32>, DeskFault>
        requires is_open { IsSome self.old.current }
        requires listed { All (IsListed (definitions_of self.old.seen)) list.now }
        ensures in_order { IsInOrder self.new.seen 0 self.new.current }
        ensures defined { definitions_of self.new.seen ≡ definitions_of self.old.seen }
        ensures current { self.new.current ≡ self.old.current }
        ensures part { (s : ℕ) → self.old.current ≡ Some s → Grows self.old.seen self.new.seen (λ grown.
            IsPart entry_limit self.old.seen grown 0 s (call.Look list.now) (wait_answer result)) }
        ensures patience { Waits (P.state patience.old) (P.state patience.new) seconds (wait_answer result) }
        ensures kept { IfOk result (λ _. length list.now ≤ 64 → AreKept self.new.kept list.now) }
    {
        let Some(session) = self.current else {
            unreachable!()
        };
        if let Err(fault) = self.recorded.begin() {
            return Err(fault);
        }
        let Ok(copy) = list.copy(self.alloc) else {
            return Err(DeskFault::Memory);
        };
        if let Err(fault) = self.recorded.keep(list) {
            return Err(fault);
        }
        patience.start(seconds);
        let owes = end_first(&mut self.recorded, session);
        Ok(look_until(&mut self.recorded, session, copy, owes, patience))
    }

    fn end(&mut self, _leave: &()) -> Result<(), ModeFault> {
        let Some(session) = self.current else {
            unreachable!()
        };
        if let Err(fault) = self.recorded.begin() {
            return Err(ModeFault::Desk(fault));
        }
        match self.recorded.end(session) {
            Ok(Some(_)) => {
                self.recorded.sync(session);
                Ok(())
            }
            Ok(None) => Ok(()),
            Err(_) => Err(ModeFault::NotOwner),
        }
    }

    fn abort(&mut self, _leave: &()) -> Result<(), ModeFault> {
        let Some(session) = self.current else {
            unreachable!()
        };
        if let Err(fault) = self.recorded.begin() {
            return Err(ModeFault::Desk(fault));
        }
        abort_result(self.recorded.abort(session))
    }

    fn row_id(&mut self, _leave: &()) -> Result<u64, ModeFault> {
        let Some(session) = self.current else {
            unreachable!()
        };
        if let Err(fault) = self.recorded.begin() {
            return Err(ModeFault::Desk(fault));
        }
        row_result(self.recorded.row_id(session))
    }

    fn select(&mut self, _leave: &(), table: u32, most: u32) -> Result<Rows, DeskFault> {
        let Some(session) = self.current else {
            unreachable!()
        };
        if let Err(fault) = self.recorded.begin() {
            return Err(fault);
        }
        self.recorded.select(self.alloc, session, table, most)
    }

    fn close(&mut self, _leave: &()) {
        if let Some(session) = self.current {
            self.recorded.close(session);
            self.current = None;
        }
    }
}

impl Seats for OneDesk {
    fn choose(&mut self, session: u64) -> bool {
        if !self.recorded.is_open(session) {
            return false;
        }
        self.current = Some(session);
        true
    }

    fn stand_up(&mut self) {
        self.current = None;
    }
}

// What the desk answers to an abort, from what the machine did.
fn abort_result(answer: Result<(), Refusal>) -> Result<(), ModeFault>
    requires { IfErr answer (λ refusal. refusal ≡ Refusal.NotOwner) }
    ensures { mode_answer result ≡ Replied (abort_reply answer) }
{
    match answer {
        Ok(()) => Ok(()),
        Err(_) => Err(ModeFault::NotOwner),
    }
}

// What the desk answers to the question for the owned row.
fn row_result(answer: Result<u64, Refusal>) -> Result<u64, ModeFault>
    requires { IfErr answer (λ refusal. (refusal ≡ Refusal.NotOwner) ⊎ (refusal ≡ Refusal.NoRow)) }
    ensures { row_answer result ≡ Replied (row_reply answer) }
{
    match answer {
        Ok(number) => Ok(number),
        Err(Refusal::NoRow) => Err(ModeFault::NoRow),
        Err(_) => Err(ModeFault::NotOwner),
    }
}

// Ends where the session is in owner mode, and tells whether that is owed a sync.
fn end_first(recorded: &mut RecordedMachine, session: u64) -> bool
    requires room { HasRoom recorded.old.log 1 }
    requires is_open { IsOpenFor recorded.old.log.seen 0 session }
    ensures cursors { recorded.new.kept ≡ recorded.old.kept }
    ensures ended { recorded.new.log ≡ ended_first recorded.old.log session }
    ensures owes { result ≡ is_owner (mode_of (state_after recorded.old.log.seen) session) }
    ensures is_open { IsOpenFor recorded.new.log.seen 0 session }
    ensures mode { mode_of (state_after recorded.new.log.seen) session ≡ Some SessionMode.NonOwner }
    ensures sound { IsSound recorded.new.log.seen }
    ensures defined { definitions_of recorded.new.log.seen ≡ definitions_of recorded.old.log.seen }
{
    match recorded.mode(session) {
        SessionMode::NonOwner => false,
        SessionMode::Empty => {
            let _ = recorded.end(session);
            false
        }
        SessionMode::Owner(_, _) => {
            let _ = recorded.end(session);
            true
        }
    }
}

// Looks until a row is found or the time is over. What is owed a sync gets it before the first pause, or else behind
// the look.
fn look_until<P: Patience>(
    recorded: &mut RecordedMachine,
    session: u64,
    list: Looks,
    owes: bool,
    patience: &mut P,
) -> Option<u32>
    requires room { HasRoom recorded.old.log 3 }
    requires is_open { IsOpenFor recorded.old.log.seen 0 session }
    requires mode { mode_of (state_after recorded.old.log.seen) session ≡ Some SessionMode.NonOwner }
    requires listed { All (IsListed (definitions_of recorded.old.log.seen)) list }
    ensures kept { KeepSame recorded.old.kept recorded.new.kept }
    ensures looked { LookedUntil recorded.old.log recorded.new.log session (call.Look list) (look_reply result) owes }
    ensures is_open { IsOpenFor recorded.new.log.seen 0 session }
    ensures sound { IsSound recorded.new.log.seen }
    ensures defined { definitions_of recorded.new.log.seen ≡ definitions_of recorded.old.log.seen }
    ensures patience { Looked (P.state patience.old) (P.state patience.new) result }
{
    let mut list = list;
    let mut owes = owes;
    loop {
        let over = patience.over();
        match recorded.look(session, list, over) {
            Ok(place) => {
                if owes {
                    recorded.sync(session);
                }
                return place;
            }
            Err(back) => list = back,
        }
        if owes {
            recorded.sync(session);
            owes = false;
        }
    }
}
