ghost use Rattle.std.specs.Prelude.{◌≡◌, ◌≢◌, ◌<◌, ℕ, None, Some, IsSome, length};
ghost use Rattle.q4_machine.specs.History.{definitions_of};
ghost use Rattle.q4_machine.specs.Parts.{IsInOrder, Grows};
ghost use Rattle.q4_proto.specs.Told.{Bye, told};
ghost use Rattle.q4_proto.specs.Text.{IsOutcome};
ghost use Rattle.q4_session.specs.Exchanges.{Client, Exchange, IsExchange};
ghost use Rattle.q4_session.specs.Answering.{Answering, Obeying, Writes, TellCause, IsAllowed};

use crate::outcomes::{
    desk_refusal, fault_outcome, insert_outcome, mode_outcome, row_outcome, wait_outcome,
};
use q4_flow::{Sink, WriteFailed};
use q4_machine::{Desk, DeskFault, Patience, Rows};
use q4_proto::{Command, Outcome, put_reply_behind, read_command};
use std::alloc::Global;

/// What the answer to one line leads to.
#[derive(Clone, Copy, Debug, PartialEq, Eq)]
pub enum Answered {
    /// A reply was written, and the session goes on.
    Next,
    /// `bye` was written.
    Quit,
    /// The sink failed, and a front of the reply was written.
    WriteFault,
}

/// Answers one line, without its newline, for the current session. The reply is written when all that it tells is settled.
pub fn answer<K: Desk, W: Sink, P: Patience>(
    leave: &K::Leave,
    alloc: Global,
    desk: &mut K,
    line: &[u8],
    sink: &mut W,
    patience: &mut P,
) -> Answered
    requires is_open { IsSome (K.current desk.old) }
    requires in_order { IsInOrder (K.seen desk.old) (K.caller desk.old) (K.current desk.old) }
    ensures in_order { IsInOrder (K.seen desk.new) (K.caller desk.new) (K.current desk.new) }
    ensures same { (K.caller desk.new ≡ K.caller desk.old) × (K.limit desk.new ≡ K.limit desk.old) }
    ensures defined { definitions_of (K.seen desk.new) ≡ definitions_of (K.seen desk.old) }
    ensures current { K.current desk.new ≡ K.current desk.old }
    ensures answering { (s : ℕ) → K.current desk.old ≡ Some s → Answering
        (record { defs = definitions_of (K.seen desk.old); limit = K.limit desk.old; caller = K.caller desk.old; session = s }) None
        (K.seen desk.old) (K.seen desk.new) (P.state patience.old) (P.state patience.new) line.now (W.written sink.old) (W.written sink.new) result }
    ensures cause { TellCause (W.faults sink.old) (W.faults sink.new) result }
{
    answer_behind(leave, alloc, desk, None, line, sink, patience)
}

/// The same with the label and a space before each line of the reply, where there is a label.
pub fn answer_behind<K: Desk, W: Sink, P: Patience>(
    leave: &K::Leave,
    alloc: Global,
    desk: &mut K,
    label: Option<u8>,
    line: &[u8],
    sink: &mut W,
    patience: &mut P,
) -> Answered
    requires is_open { IsSome (K.current desk.old) }
    requires in_order { IsInOrder (K.seen desk.old) (K.caller desk.old) (K.current desk.old) }
    ensures in_order { IsInOrder (K.seen desk.new) (K.caller desk.new) (K.current desk.new) }
    ensures same { (K.caller desk.new ≡ K.caller desk.old) × (K.limit desk.new ≡ K.limit desk.old) }
    ensures defined { definitions_of (K.seen desk.new) ≡ definitions_of (K.seen desk.old) }
    ensures current { K.current desk.new ≡ K.current desk.old }
    ensures answering { (s : ℕ) → K.current desk.old ≡ Some s → Answering
        (record { defs = definitions_of (K.seen desk.old); limit = K.limit desk.old; caller = K.caller desk.old; session = s }) label
        (K.seen desk.old) (K.seen desk.new) (P.state patience.old) (P.state patience.new) line.now (W.written sink.old) (W.written sink.new) result }
    ensures cause { TellCause (W.faults sink.old) (W.faults sink.new) result }
{
    let defs = desk.defs();
    let _count = defs.len();
    match read_command(alloc, line, defs) {
        Ok(command) => obey(leave, desk, label, command, sink, patience),
        Err(fault) => tell(label, &fault_outcome(fault), sink),
    }
}

// Does what a command asks for.
fn obey<K: Desk, W: Sink, P: Patience>(
    leave: &K::Leave,
    desk: &mut K,
    label: Option<u8>,
    command: Command,
    sink: &mut W,
    patience: &mut P,
) -> Answered
    requires is_open { IsSome (K.current desk.old) }
    requires in_order { IsInOrder (K.seen desk.old) (K.caller desk.old) (K.current desk.old) }
    requires allowed { IsAllowed (definitions_of (K.seen desk.old)) command }
    ensures in_order { IsInOrder (K.seen desk.new) (K.caller desk.new) (K.current desk.new) }
    ensures same { (K.caller desk.new ≡ K.caller desk.old) × (K.limit desk.new ≡ K.limit desk.old) }
    ensures defined { definitions_of (K.seen desk.new) ≡ definitions_of (K.seen desk.old) }
    ensures current { K.current desk.new ≡ K.current desk.old }
    ensures obeying { (s : ℕ) → K.current desk.old ≡ Some s → Obeying
        (record { defs = definitions_of (K.seen desk.old); limit = K.limit desk.old; caller = K.caller desk.old; session = s }) label
        (K.seen desk.old) (K.seen desk.new) (P.state patience.old) (P.state patience.new) command (W.written sink.old) (W.written sink.new) result }
    ensures cause { TellCause (W.faults sink.old) (W.faults sink.new) result }
{
    match command {
        Command::Insert(table, row) => tell(
            label,
            &insert_outcome(desk.insert(leave, table, row)),
            sink,
        ),
        Command::Wait(list, seconds) => {
            let outcome = wait_outcome(desk.wait(leave, &list, seconds, patience));
            tell(label, &outcome, sink)
        }
        Command::RowId => tell(label, &row_outcome(desk.row_id(leave)), sink),
        Command::End => tell(label, &mode_outcome(desk.end(leave)), sink),
        Command::Abort => tell(label, &mode_outcome(desk.abort(leave)), sink),
        Command::Select(table, most) => match desk.select(leave, table, most) {
            Ok(rows) => tell(label, &Outcome::Rows(&rows), sink),
            Err(fault) => tell(label, &desk_refusal(fault), sink),
        },
        Command::Quit => say_bye(label, sink),
    }
}

// Writes the reply to a line after which the session goes on.
fn tell<W: Sink>(label: Option<u8>, reply: &Outcome, sink: &mut W) -> Answered
    requires outcome { IsOutcome (told reply.now) }
    requires goes_on { told reply.now ≢ Bye }
    ensures writes { Writes label (W.written sink.old) (W.written sink.new) (told reply.now) result }
    ensures cause { TellCause (W.faults sink.old) (W.faults sink.new) result }
{
    match put_reply_behind(label, reply, sink) {
        Ok(()) => Answered::Next,
        Err(WriteFailed) => Answered::WriteFault,
    }
}

fn say_bye<W: Sink>(label: Option<u8>, sink: &mut W) -> Answered
    ensures writes { Writes label (W.written sink.old) (W.written sink.new) Bye result }
    ensures cause { TellCause (W.faults sink.old) (W.faults sink.new) result }
{
    match put_reply_behind(label, &Outcome::Bye, sink) {
        Ok(()) => Answered::Quit,
        Err(WriteFailed) => Answered::WriteFault,
    }
}
