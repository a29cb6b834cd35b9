ghost use Rattle.std.specs.Prelude.{◌≡◌, ◌≤◌, ◌<◌, ◌⊎◌, ◌↔◌, ◌||◌, [], ◌∷◌, true, false, Ok, Some, None, All, length, IsTrue, IfOk, IfErr, OnOk, OnErr, is_some};
ghost use Rattle.q4_def.specs.Tables.{AreDefs};
ghost use Rattle.q4_machine.specs.declared.entry.Call.TheVariants as call;
ghost use Rattle.q4_machine.specs.declared.entry.Reply.TheVariants as reply;
ghost use Rattle.q4_machine.specs.Definitions.{definitions, IsRowFor, IsListed};
ghost use Rattle.q4_machine.specs.Machine.{mode_of, IsSessionOpen};
ghost use Rattle.q4_machine.specs.Kept.{keep_all, kept_after};
ghost use Rattle.q4_machine.specs.Step.{look_reply, end_reply, abort_reply, row_reply, insert_reply};
ghost use Rattle.q4_machine.specs.Parts.{IsWorn, insert_answer, select_answer, replied};
ghost use Rattle.q4_machine.specs.History.{state_after, definitions_of, is_owner, IsOpenFor};
ghost use Rattle.q4_machine.specs.Recorded.{pushed, answered, opened_new, entry_limit, IsInsertRefusal, HasRoom, HasBegun, IsSound};

use crate::{
    Call, DeskFault, Entry, InsertFault, Looks, Machine, Refusal, Reply, Rows, SessionMode, Tables,
};
use q4_cond::cond_steps;
use q4_def::Defs;
use q4_table::{AddFault, Added};
use q4_value::{NoMemory, Row};
use std::alloc::Global;
use std::marker::Model;

/// The entries of a history and its open sessions come to no more.
const ENTRY_LIMIT: usize = 1_048_576;

/// A machine that records each call as an entry of caller 0.
#[derive(Drop)]
pub struct RecordedMachine {
    machine: Machine,
    history: Vec<Entry>,
}

impl Model for RecordedMachine {
    ghost use Rattle.std.specs.Prelude.{vec_capacity};
    ghost use Rattle.q4_machine.specs.Recorded.{RecordedView};
    ghost use Rattle.q4_machine.specs.contracts.entry.Entry as entry;
    ghost use Rattle.q4_table.specs.contracts.cursors.Cursors as cursors;
    ghost use Rattle.std.specs.Coded.{codes};

    ghost Value = { RecordedView };

    ghost coded = { Prim.hlevel (codes, entry.the_row.coded, cursors.the_row.coded) };

    ghost use Rattle.q4_machine.specs.Recorded.{IsRecorded};

    ghost view = { λ r. record { log = record { seen = r.history.items; room = vec_capacity r.history }; kept = r.machine.kept } };

    ghost invariant = { λ r. IsRecorded r.machine.state r.history.items };
}

impl RecordedMachine {
    /// A machine over empty tables of these definitions.
    pub fn new(alloc: Global, defs: &Defs) -> Result<RecordedMachine, NoMemory>
        ensures seen { IfOk result (λ recorded. recorded.log.seen ≡ opened_new defs.now ∷ []) }
        ensures sound { IfOk result (λ recorded. IsSound recorded.log.seen) }
        ensures defined { IfOk result (λ recorded. definitions_of recorded.log.seen ≡ defs.now) }
    {
        let _count = defs.len();
        let machine = match Machine::new(alloc, Tables::of_definitions(alloc, defs)?) {
            Ok(machine) => machine,
            Err((_, fault)) => return Err(fault),
        };
        let opened = Entry {
            caller: 0,
            session: 0,
            call: Call::Opened(Tables::of_definitions(alloc, defs)?),
            reply: Reply::Done,
        };
        let mut history = Vec::new(alloc);
        match history.push(opened) {
            Ok(()) => Ok(RecordedMachine { machine, history }),
            Err(_) => Err(NoMemory),
        }
    }

    pub fn history(&self) -> &[Entry]
        ensures { result.now ≡ self.now.log.seen }
    {
        self.history.as_slice()
    }

    /// Makes room for the entries of a call, and for the closing of each open session. It is worn where the limit has none.
    pub fn begin(&mut self) -> Result<(), DeskFault>
        ensures seen { self.new.log.seen ≡ self.old.log.seen }
        ensures kept { self.old.log.room ≤ self.new.log.room }
        ensures cursors { self.new.kept ≡ self.old.kept }
        ensures begun { OnOk result (HasBegun self.old.log.seen self.new.log) }
        ensures worn { IfErr result (λ fault. fault ≡ DeskFault.Memory ⊎ ((fault ≡ DeskFault.Worn (length self.old.log.seen)) × IsWorn entry_limit self.old.log.seen)) }
    {
        let entries = self.history.len();
        let sessions = self.machine.sessions() as usize;
        if sessions > ENTRY_LIMIT || entries + sessions + 4 > ENTRY_LIMIT {
            return Err(DeskFault::Worn(entries as u64));
        }
        match self.history.reserve(sessions + 4) {
            Ok(()) => Ok(()),
            Err(_) => Err(DeskFault::Memory),
        }
    }

    /// The mode of an open session.
    pub fn mode(&self, session: u64) -> SessionMode
        requires { IsOpenFor self.now.log.seen 0 session }
        ensures mode { mode_of (state_after self.now.log.seen) session ≡ Some result }
        ensures sound { IsSound self.now.log.seen }
    {
        self.machine.mode(session)
    }

    pub fn open(&mut self) -> Result<u64, DeskFault>
        requires { HasRoom self.old.log 1 }
        ensures opened { IfOk result (λ s. self.new.log ≡ pushed self.old.log s call.Open (reply.Session s)) }
        ensures is_open { IfOk result (λ s. IsOpenFor self.new.log.seen 0 s) }
        ensures sound { IsSound self.new.log.seen }
        ensures defined { definitions_of self.new.log.seen ≡ definitions_of self.old.log.seen }
        ensures kept { OnErr result (self.new ≡ self.old) }
        ensures memory { IfErr result (λ fault. fault ≡ DeskFault.Memory) }
    {
        match self.machine.open() {
            Ok(session) => {
                self.history
                    .push_reserved(entry(session, Call::Open, Reply::Session(session)));
                Ok(session)
            }
            Err(NoMemory) => Err(DeskFault::Memory),
        }
    }

    /// The copy of the row stands in the history. Want of memory leaves no entry.
    pub fn insert(
        &mut self,
        session: u64,
        table: u32,
        row: Row,
        copy: Row,
    ) -> Result<Added, InsertFault>
        requires room { HasRoom self.old.log 1 }
        requires is_open { IsOpenFor self.old.log.seen 0 session }
        requires row { IsRowFor (definitions_of self.old.log.seen) table row }
        requires copy { copy ≡ row }
        ensures entry { self.new.log ≡ answered self.old.log session (call.Insert table row) (insert_answer result) }
        ensures is_open { IsOpenFor self.new.log.seen 0 session }
        ensures sound { IsSound self.new.log.seen }
        ensures defined { definitions_of self.new.log.seen ≡ definitions_of self.old.log.seen }
        ensures entered { IfErr result IsInsertRefusal }
    {
        let answer = desk_answer(self.machine.insert(session, table, row));
        match reply_of(&answer) {
            Some(reply) => {
                self.history
                    .push_reserved(entry(session, Call::Insert(table, copy), reply));
                answer
            }
            None => answer,
        }
    }

    /// The machine itself, whose state is the one that the history reaches.
    pub fn machine(&self) -> &Machine
        ensures state { result.now.state ≡ state_after self.now.log.seen }
        ensures defined { definitions result.now.state.tables ≡ definitions_of self.now.log.seen }
        ensures kept { result.now.kept ≡ self.now.kept }
    {
        &self.machine
    }

    /// Keeps each listed condition in its table, which is no entry. A refusal leaves some of them kept.
    pub fn keep(&mut self, list: &Looks) -> Result<(), DeskFault>
        requires { All (IsListed (definitions_of self.old.log.seen)) list.now }
        ensures log { self.new.log ≡ self.old.log }
        ensures kept { OnOk result (self.new.kept ≡ keep_all list.now self.old.kept) }
        ensures lists { length self.old.kept ≡ length (definitions_of self.old.log.seen) }
        ensures memory { IfErr result (λ fault. fault ≡ DeskFault.Memory) }
    {
        match self.machine.keep(list) {
            Ok(()) => Ok(()),
            Err(NoMemory) => Err(DeskFault::Memory),
        }
    }

    /// A look of a session in non-owner mode. Where it finds none and the time is not over it is no entry, and gives the
    /// list back.
    pub fn look(&mut self, session: u64, list: Looks, over: bool) -> Result<Option<u32>, Looks>
        requires room { HasRoom self.old.log 1 }
        requires is_open { IsOpenFor self.old.log.seen 0 session }
        requires mode { mode_of (state_after self.old.log.seen) session ≡ Some SessionMode.NonOwner }
        requires listed { All (IsListed (definitions_of self.old.log.seen)) list }
        ensures cursors { self.new.kept ≡ kept_after (state_after self.old.log.seen).tables list self.old.kept }
        ensures looked { IfOk result (λ place. self.new.log ≡ pushed self.old.log session (call.Look list) (look_reply place)) }
        ensures over { result ≡ Ok None → over ≡ true }
        ensures waits { IfErr result (λ back. (self.new.log ≡ self.old.log) × (back ≡ list) × (over ≡ false)) }
        ensures is_open { IsOpenFor self.new.log.seen 0 session }
        ensures sound { IsSound self.new.log.seen }
        ensures defined { definitions_of self.new.log.seen ≡ definitions_of self.old.log.seen }
    {
        let place = self.machine.look(session, &list, over, &mut cond_steps());
        if ends_wait(place, over) {
            self.history
                .push_reserved(entry(session, Call::Look(list), look_outcome(place)));
            Ok(place)
        } else {
            Err(list)
        }
    }

    /// It tells the row that was removed. The session is in non-owner mode then.
    pub fn end(&mut self, session: u64) -> Result<Option<(u32, u64)>, Refusal>
        requires room { HasRoom self.old.log 1 }
        requires is_open { IsOpenFor self.old.log.seen 0 session }
        ensures cursors { self.new.kept ≡ self.old.kept }
        ensures ended { self.new.log ≡ pushed self.old.log session call.End (end_reply result) }
        ensures removed { IfOk result (λ row. is_some row ≡ is_owner (mode_of (state_after self.old.log.seen) session)) }
        ensures refused { OnErr result (mode_of (state_after self.old.log.seen) session ≡ Some SessionMode.NonOwner) }
        ensures refusal { IfErr result (λ refusal. refusal ≡ Refusal.NotOwner) }
        ensures is_open { IsOpenFor self.new.log.seen 0 session }
        ensures mode { mode_of (state_after self.new.log.seen) session ≡ Some SessionMode.NonOwner }
        ensures sound { IsSound self.new.log.seen }
        ensures defined { definitions_of self.new.log.seen ≡ definitions_of self.old.log.seen }
    {
        let ended = self.machine.end(session);
        self.history
            .push_reserved(entry(session, Call::End, end_outcome(&ended)));
        ended
    }

    /// It gives the owned row back.
    pub fn abort(&mut self, session: u64) -> Result<(), Refusal>
        requires room { HasRoom self.old.log 1 }
        requires is_open { IsOpenFor self.old.log.seen 0 session }
        ensures aborted { self.new.log ≡ pushed self.old.log session call.Abort (abort_reply result) }
        ensures refusal { IfErr result (λ refusal. refusal ≡ Refusal.NotOwner) }
        ensures is_open { IsOpenFor self.new.log.seen 0 session }
        ensures sound { IsSound self.new.log.seen }
        ensures defined { definitions_of self.new.log.seen ≡ definitions_of self.old.log.seen }
    {
        let aborted = self.machine.abort(session);
        self.history
            .push_reserved(entry(session, Call::Abort, abort_outcome(&aborted)));
        aborted
    }

    /// The number of the owned row.
    pub fn row_id(&mut self, session: u64) -> Result<u64, Refusal>
        requires room { HasRoom self.old.log 1 }
        requires is_open { IsOpenFor self.old.log.seen 0 session }
        ensures told { self.new.log ≡ pushed self.old.log session call.RowId (row_reply result) }
        ensures refusal { IfErr result (λ refusal. (refusal ≡ Refusal.NotOwner) ⊎ (refusal ≡ Refusal.NoRow)) }
        ensures is_open { IsOpenFor self.new.log.seen 0 session }
        ensures sound { IsSound self.new.log.seen }
        ensures defined { definitions_of self.new.log.seen ≡ definitions_of self.old.log.seen }
    {
        let told = self.machine.row_id(session);
        self.history
            .push_reserved(entry(session, Call::RowId, row_outcome(&told)));
        told
    }

    /// The rows that the session sees, twice: the history keeps a copy. Want of memory leaves no entry.
    pub fn select(
        &mut self,
        alloc: Global,
        session: u64,
        table: u32,
        most: u32,
    ) -> Result<Rows, DeskFault>
        requires room { HasRoom self.old.log 1 }
        requires is_open { IsOpenFor self.old.log.seen 0 session }
        requires inside { table < length (definitions_of self.old.log.seen) }
        ensures shown { self.new.log ≡ answered self.old.log session (call.Select table most) (select_answer result) }
        ensures memory { IfErr result (λ fault. fault ≡ DeskFault.Memory) }
        ensures is_open { IsOpenFor self.new.log.seen 0 session }
        ensures sound { IsSound self.new.log.seen }
        ensures defined { definitions_of self.new.log.seen ≡ definitions_of self.old.log.seen }
    {
        let Ok(rows) = self.machine.select(alloc, session, table, most) else {
            return Err(DeskFault::Memory);
        };
        let Ok(copy) = rows.copy(alloc) else {
            return Err(DeskFault::Memory);
        };
        self.history.push_reserved(entry(session, Call::Select(table, most), Reply::Shown(copy)));
        Ok(rows)
    }

    pub fn close(&mut self, session: u64)
        requires room { HasRoom self.old.log 1 }
        requires is_open { IsOpenFor self.old.log.seen 0 session }
        ensures closed { self.new.log ≡ pushed self.old.log session call.Close reply.Done }
        ensures sound { IsSound self.new.log.seen }
        ensures defined { definitions_of self.new.log.seen ≡ definitions_of self.old.log.seen }
    {
        self.machine.close(session);
        self.history
            .push_reserved(entry(session, Call::Close, Reply::Done));
    }

    /// Whether a session is open.
    pub fn is_open(&self, session: u64) -> bool
        ensures { IsTrue result ↔ IsSessionOpen (state_after self.now.log.seen) session }
    {
        self.machine.is_open(session)
    }

    /// In memory every change is safe at once.
    pub fn sync(&mut self, session: u64)
        requires room { HasRoom self.old.log 1 }
        requires is_open { IsOpenFor self.old.log.seen 0 session }
        ensures cursors { self.new.kept ≡ self.old.kept }
        ensures synced { self.new.log ≡ pushed self.old.log session call.Sync reply.Done }
        ensures is_open { IsOpenFor self.new.log.seen 0 session }
        ensures sound { IsSound self.new.log.seen }
        ensures defined { definitions_of self.new.log.seen ≡ definitions_of self.old.log.seen }
    {
        self.history
            .push_reserved(entry(session, Call::Sync, Reply::Done));
    }
}

fn entry(session: u64, call: Call, reply: Reply) -> Entry
    ensures { result ≡ record { caller = 0; session = session; call = call; reply = reply } }
{
    Entry {
        caller: 0,
        session,
        call,
        reply,
    }
}

// What a desk answers, from what the machine did.
fn desk_answer(answer: Result<Added, (AddFault, Row)>) -> Result<Added, InsertFault>
    ensures reply { replied (insert_answer result) ≡ insert_reply answer }
    ensures entered { IfErr result IsInsertRefusal }
{
    match answer {
        Ok(added) => Ok(added),
        Err((AddFault::Spent, _)) => Err(InsertFault::Spent),
        Err((AddFault::Rows, _)) => Err(InsertFault::Rows),
        Err((AddFault::Bytes(sum), _)) => Err(InsertFault::Bytes(sum)),
        Err((AddFault::Memory, _)) => Err(InsertFault::Desk(DeskFault::Memory)),
    }
}

// The reply that the history keeps of an insert; none where memory was wanted.
fn reply_of(answer: &Result<Added, InsertFault>) -> Option<Reply>
    ensures { result ≡ replied (insert_answer answer.now) }
{
    match answer {
        Ok(Added::New(number)) => Some(Reply::Added(*number)),
        Ok(Added::Seen(mark)) => Some(Reply::Seen(*mark)),
        Err(InsertFault::Spent) => Some(Reply::Refused(Refusal::Spent)),
        Err(InsertFault::Rows) => Some(Reply::Refused(Refusal::Rows)),
        Err(InsertFault::Bytes(sum)) => Some(Reply::Refused(Refusal::Bytes(*sum))),
        Err(InsertFault::Desk(_)) => None,
    }
}

// Whether a look is the last of its wait.
fn ends_wait(place: Option<u32>, over: bool) -> bool
    ensures { result ≡ (is_some place || over) }
{
    place.is_some() || over
}

fn abort_outcome(aborted: &Result<(), Refusal>) -> Reply
    ensures { result ≡ abort_reply aborted.now }
{
    match aborted {
        Ok(()) => Reply::Done,
        Err(refusal) => Reply::Refused(*refusal),
    }
}

fn row_outcome(told: &Result<u64, Refusal>) -> Reply
    ensures { result ≡ row_reply told.now }
{
    match told {
        Ok(number) => Reply::Number(*number),
        Err(refusal) => Reply::Refused(*refusal),
    }
}

fn look_outcome(place: Option<u32>) -> Reply
    ensures { result ≡ look_reply place }
{
    match place {
        Some(place) => Reply::Found(place),
        None => Reply::Nothing,
    }
}

fn end_outcome(ended: &Result<Option<(u32, u64)>, Refusal>) -> Reply
    ensures { result ≡ end_reply ended.now }
{
    match ended {
        Ok(_) => Reply::Done,
        Err(refusal) => Reply::Refused(*refusal),
    }
}
