ghost use Rattle.std.specs.Prelude.{◌≡◌, ◌<◌, ◌≤◌, ◌+◌, ◌^◌, ◌↔◌, ◌||◌, [], true, false, Some, None, All, length, filter, is_none, is_some, map, take, IsTrue, IfSome, IfOk, IfErr, OnOk, OnErr};
ghost use Rattle.std.specs.Option.{option_map, ForSome};
ghost use Rattle.q4_table.specs.Adding.{check_of, IsRefused};
ghost use Rattle.q4_machine.specs.declared.entry.Call.TheVariants as call;
ghost use Rattle.q4_machine.specs.declared.entry.Reply.TheVariants as reply;
ghost use Rattle.q4_machine.specs.Definitions.{definitions, IsRowFor, IsListed};
ghost use Rattle.q4_machine.specs.Machine.{mode_of, in_mode, with_mode, without_session, session_in, table_at, IsSessionOpen};
ghost use Rattle.q4_machine.specs.Kept.{kept_at, keep_all, KeepsSome, kept_after, none_kept, given_back};
ghost use Rattle.q4_machine.specs.Pick.{pick, pick_from, asked_from, most_asked};
ghost use Rattle.q4_machine.specs.Step.{step, look_reply, end_reply, abort_reply, row_reply, insert_reply, owned_row, shown, numbered};
ghost use Rattle.q4_machine.specs.Valid.{AreValidTables, IsValid};
ghost use Rattle.q4_machine.specs.History.{AreUnowned};
ghost use Rattle.q4_machine.specs.Found.{picked_of};

use crate::kept_tables::KeptTables;
use crate::select::{shown_row, unowned_rows};
use crate::{Listed, Looks, OpenSession, Refusal, Rows, SessionMode, Tables};
use q4_cond::Steps;
use q4_table::{AddFault, Added, Check, Table};
use q4_value::{NoMemory, Row};
use std::alloc::Global;
use std::marker::Model;
use std::sync::ledger::Ledger;

/// Session numbers stay below this one.
const SESSION_LIMIT: u64 = 1 << 62;

/// Tables of rows, and the sessions that are open. Each call is one step of the definitions. A contract sees the machine
/// of the rules, `state`, and apart from it what its tables keep, by their places.
#[derive(Drop)]
pub struct Machine {
    tables: KeptTables,
    sessions: Vec<OpenSession>,
    next_session: u64,
}

impl Model for Machine {
    ghost use Rattle.q4_machine.specs.Kept.{MachineView};
    ghost use Rattle.q4_table.specs.contracts.cursors.Cursors as cursors;
    ghost use Rattle.std.specs.Coded.{codes};

    ghost Value = { MachineView };

    ghost coded = { Prim.hlevel (codes, cursors.the_row.coded) };

    ghost use Rattle.q4_machine.specs.Valid.{IsValid};

    ghost view = { λ m. record { state = record { tables = m.tables.tables; sessions = m.sessions.items; next_session = m.next_session }; kept = m.tables.kept } };

    ghost invariant = { λ m. IsValid (record { tables = m.tables.tables; sessions = m.sessions.items; next_session = m.next_session }) };
}

impl Machine {
    /// A machine over these tables, at most 16, without a session.
    pub fn new(alloc: Global, tables: Tables) -> Result<Machine, (Tables, NoMemory)>
        requires few { length tables ≤ 16 }
        requires valid { AreValidTables tables }
        requires unowned { AreUnowned tables }
        ensures made { IfOk result (λ machine. machine ≡ record { state = record { tables = tables; sessions = []; next_session = 1 }; kept = none_kept tables }) }
        ensures given_back { IfErr result (λ fault. fault.0 ≡ tables) }
    {
        match Vec::with_capacity(alloc, 1) {
            Ok(sessions) => Ok(Machine {
                tables: tables.into_kept(),
                sessions,
                next_session: 1,
            }),
            Err(_) => Err((tables, NoMemory)),
        }
    }

    /// Whether a session is open.
    pub fn is_open(&self, session: u64) -> bool
        ensures { IsTrue result ↔ IsSessionOpen self.now.state session }
    {
        mode_in(&self.sessions, session).is_some()
    }

    /// The mode of an open session.
    pub fn mode(&self, session: u64) -> SessionMode
        requires { IsSessionOpen self.now.state session }
        ensures mode { mode_of self.now.state session ≡ Some result }
        ensures valid { IsValid self.now.state }
    {
        match mode_in(&self.sessions, session) {
            Some(mode) => mode,
            None => unreachable!(),
        }
    }

    /// Opens a session in non-owner mode. It also wants memory where the numbers are used up.
    pub fn open(&mut self) -> Result<u64, NoMemory>
        ensures opened { IfOk result (λ session. step self.old.state session call.Open ≡ (self.new.state, reply.Session session)) }
        ensures mode { IfOk result (λ session. mode_of self.new.state session ≡ Some SessionMode.NonOwner) }
        ensures cursors { self.new.kept ≡ self.old.kept }
        ensures kept { OnErr result (self.new ≡ self.old) }
    {
        if self.next_session >= SESSION_LIMIT {
            return Err(NoMemory);
        }
        let session = self.next_session;
        let opened = OpenSession {
            session,
            mode: SessionMode::NonOwner,
        };
        match self.sessions.push(opened) {
            Ok(()) => {
                self.next_session += 1;
                Ok(session)
            }
            Err(_) => Err(NoMemory),
        }
    }

    /// The table at this place, from 0.
    pub fn table(&self, place: u32) -> &Table
        requires { place < length self.now.state.tables }
        ensures state { result.now.state ≡ table_at self.now.state.tables place }
        ensures kept { result.now.kept ≡ kept_at self.now.kept place }
    {
        self.tables.at(place)
    }

    /// What an insert of the row into the table at this place would come to.
    pub fn check(&self, session: u64, table: u32, row: &Row) -> Check
        requires is_open { IsSessionOpen self.now.state session }
        requires row { IsRowFor (definitions self.now.state.tables) table row.now }
        ensures { result ≡ check_of (table_at self.now.state.tables table) row.now None }
    {
        let _ = session;
        self.tables.at(table).check(row, None)
    }

    /// Adds a row to the table at this place. A refusal gives the row back; only want of memory is no step.
    pub fn insert(&mut self, session: u64, table: u32, row: Row) -> Result<Added, (AddFault, Row)>
        requires is_open { IsSessionOpen self.old.state session }
        requires row { IsRowFor (definitions self.old.state.tables) table row }
        ensures step { ForSome (insert_reply result) (λ reply. step self.old.state session (call.Insert table row) ≡ (self.new.state, reply)) }
        ensures refused { IfErr result (λ fault. IsRefused (check_of (table_at self.old.state.tables table) row None) fault.0) }
        ensures kept { OnErr result (self.new ≡ self.old) }
        ensures cursors { self.new.kept ≡ self.old.kept }
        ensures given_back { IfErr result (λ fault. fault.1 ≡ row) }
    {
        self.tables.add(table, row)
    }

    /// Keeps each listed condition in its table, in order. A refusal leaves the first ones kept, and changes nothing else.
    pub fn keep(&mut self, list: &Looks) -> Result<(), NoMemory>
        requires { All (IsListed (definitions self.old.state.tables)) list.now }
        ensures state { self.new.state ≡ self.old.state }
        ensures kept { OnOk result (self.new.kept ≡ keep_all list.now self.old.kept) }
        ensures refused { OnErr result (KeepsSome list.now self.old.kept self.new.kept) }
        ensures lists { length self.old.kept ≡ length self.old.state.tables }
    {
        // The proof alone needs this call: it tells that each table has a list of cursors.
        let _count = self.tables.len();
        keep_listed(&mut self.tables, list.as_slice())
    }

    /// Takes the oldest unowned row that meets the condition of the earliest entry of the list that has one, and tells
    /// that entry's place, from 1. Without one it changes nothing where the time is not `over`; where it is, the session
    /// is in owner mode without a row. In both cases it moves the cursors of the conditions that it looked for.
    pub fn look<L: Ledger>(
        &mut self,
        session: u64,
        list: &Looks,
        over: bool,
        steps: &mut Steps<L>,
    ) -> Option<u32>
        requires mode { mode_of self.old.state session ≡ Some SessionMode.NonOwner }
        requires listed { All (IsListed (definitions self.old.state.tables)) list.now }
        ensures step { (is_some result || over) ≡ true → step self.old.state session (call.Look list.now) ≡ (self.new.state, look_reply result) }
        ensures waits { (is_some result || over) ≡ false → (self.new.state ≡ self.old.state) × (pick self.old.state list.now ≡ None) }
        ensures cursors { self.new.kept ≡ kept_after self.old.state.tables list.now self.old.kept }
        ensures asked { steps.new ≤ steps.old + most_asked self.old list.now }
    {
        match oldest_listed(&mut self.tables, list.as_slice(), steps) {
            Some(found) => {
                self.tables.own(found.table, found.number, session);
                set_mode(
                    &mut self.sessions,
                    session,
                    SessionMode::Owner(found.table, found.number),
                );
                Some(found.place)
            }
            None => {
                if over {
                    set_mode(&mut self.sessions, session, SessionMode::Empty);
                }
                None
            }
        }
    }

    /// Removes the owned row, tells its table and number, and leaves owner mode.
    pub fn end(&mut self, session: u64) -> Result<Option<(u32, u64)>, Refusal>
        requires { IsSessionOpen self.old.state session }
        ensures step { step self.old.state session call.End ≡ (self.new.state, end_reply result) }
        ensures cursors { self.new.kept ≡ self.old.kept }
        ensures removed { IfOk result (λ row. row ≡ owned_row (mode_of self.old.state session)) }
        ensures refused { IfErr result (λ refusal. refusal ≡ Refusal.NotOwner) }
    {
        match self.mode(session) {
            SessionMode::NonOwner => Err(Refusal::NotOwner),
            SessionMode::Empty => {
                set_mode(&mut self.sessions, session, SessionMode::NonOwner);
                Ok(None)
            }
            SessionMode::Owner(place, number) => {
                self.tables.end(place, number);
                set_mode(&mut self.sessions, session, SessionMode::NonOwner);
                Ok(Some((place, number)))
            }
        }
    }

    /// Gives the owned row back to its place, which lowers the cursors of its table, and leaves owner mode.
    pub fn abort(&mut self, session: u64) -> Result<(), Refusal>
        requires { IsSessionOpen self.old.state session }
        ensures step { step self.old.state session call.Abort ≡ (self.new.state, abort_reply result) }
        ensures cursors { self.new.kept ≡ given_back (mode_of self.old.state session) self.old.kept }
        ensures refused { IfErr result (λ refusal. refusal ≡ Refusal.NotOwner) }
    {
        match self.mode(session) {
            SessionMode::NonOwner => Err(Refusal::NotOwner),
            SessionMode::Empty => {
                set_mode(&mut self.sessions, session, SessionMode::NonOwner);
                Ok(())
            }
            SessionMode::Owner(place, number) => {
                self.tables.release(place, number);
                set_mode(&mut self.sessions, session, SessionMode::NonOwner);
                Ok(())
            }
        }
    }

    /// The number of the owned row.
    pub fn row_id(&self, session: u64) -> Result<u64, Refusal>
        requires { IsSessionOpen self.now.state session }
        ensures { step self.now.state session call.RowId ≡ (self.now.state, row_reply result) }
    {
        match self.mode(session) {
            SessionMode::NonOwner => Err(Refusal::NotOwner),
            SessionMode::Empty => Err(Refusal::NoRow),
            SessionMode::Owner(_, number) => Ok(number),
        }
    }

    /// The first rows, at most so many, that the session sees of the table at this place, in memory of their own.
    pub fn select(
        &self,
        alloc: Global,
        session: u64,
        table: u32,
        most: u32,
    ) -> Result<Rows, NoMemory>
        requires is_open { IsSessionOpen self.now.state session }
        requires inside { table < length self.now.state.tables }
        ensures { IfOk result (λ rows. step self.now.state session (call.Select table most) ≡ (self.now.state, reply.Shown rows)) }
    {
        match self.mode(session) {
            SessionMode::NonOwner => unowned_rows(alloc, self.table(table), most),
            SessionMode::Empty => Ok(Rows::new(alloc)),
            SessionMode::Owner(own, number) => {
                if own != table {
                    return Ok(Rows::new(alloc));
                }
                shown_row(alloc, self.table(table), number, most)
            }
        }
    }

    /// How many sessions are open.
    pub fn sessions(&self) -> u64
        ensures count { result ≡ length self.now.state.sessions }
        ensures valid { IsValid self.now.state }
    {
        self.sessions.len() as u64
    }

    /// Gives the owned row back to its place, which lowers the cursors of its table. The session is no longer open.
    pub fn close(&mut self, session: u64)
        requires { IsSessionOpen self.old.state session }
        ensures step { step self.old.state session call.Close ≡ (self.new.state, reply.Done) }
        ensures cursors { self.new.kept ≡ given_back (mode_of self.old.state session) self.old.kept }
    {
        match self.mode(session) {
            SessionMode::NonOwner => remove_session(&mut self.sessions, session),
            SessionMode::Empty => remove_session(&mut self.sessions, session),
            SessionMode::Owner(place, owned) => {
                self.tables.release(place, owned);
                remove_session(&mut self.sessions, session);
            }
        }
    }
}

// The mode of a session, where it is open.
fn mode_in(sessions: &[OpenSession], session: u64) -> Option<SessionMode>
    ensures { result ≡ option_map (λ s. s.mode) (session_in sessions.now session) }
{
    let open = sessions.iter().find(|open| open.session == session)?;
    Some(open.mode)
}

// Changes the mode of one session.
fn set_mode(sessions: &mut Vec<OpenSession>, session: u64, mode: SessionMode)
    ensures { sessions.new.items ≡ with_mode session mode sessions.old.items }
{
    for entry in sessions.iter_mut() {
        set_if_session(entry, session, mode);
    }
}

fn set_if_session(entry: &mut OpenSession, session: u64, mode: SessionMode)
    ensures { entry.new ≡ in_mode session mode entry.old }
{
    if entry.session == session {
        entry.mode = mode;
    }
}

fn remove_session(sessions: &mut Vec<OpenSession>, session: u64)
    ensures { sessions.new.items ≡ without_session session sessions.old.items }
{
    sessions.retain(|open| open.session != session);
}

// A row that a look takes: the place in the list, from 1, the table's place, and the number.
#[derive(Clone, Copy)]
struct Found {
    place: u32,
    table: u32,
    number: u64,
}

// The oldest unowned row that meets the condition of the earliest entry of the list that has one.
fn oldest_listed<L: Ledger>(
    tables: &mut KeptTables,
    list: &[Listed],
    steps: &mut Steps<L>,
) -> Option<Found>
    requires listed { All (IsListed (definitions tables.old.tables)) list.now }
    requires short { length list.now < 2 ^ 32 }
    ensures found { option_map picked_of result ≡ pick_from tables.old.tables 1 list.now }
    ensures kept { tables.new ≡ record tables.old { kept = kept_after tables.old.tables list.now tables.old.kept } }
    ensures asked { steps.new ≤ steps.old + asked_from tables.old.tables list.now tables.old.kept }
{
    for (i, listed) in list.iter().enumerate() {
        if let Some(number) = tables.oldest(listed.table, &listed.cond, steps) {
            return Some(Found {
                place: i as u32 + 1,
                table: listed.table,
                number,
            });
        }
    }
    None
}

// Keeps each listed condition in its table, in order.
fn keep_listed(tables: &mut KeptTables, list: &[Listed]) -> Result<(), NoMemory>
    requires { All (IsListed (definitions tables.old.tables)) list.now }
    ensures tables { tables.new.tables ≡ tables.old.tables }
    ensures kept { OnOk result (tables.new.kept ≡ keep_all list.now tables.old.kept) }
    ensures refused { OnErr result (KeepsSome list.now tables.old.kept tables.new.kept) }
{
    for listed in list {
        tables.keep(listed.table, &listed.cond)?;
    }
    Ok(())
}
