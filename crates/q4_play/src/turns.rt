ghost use Rattle.std.specs.Prelude.{◌≡◌, Some, None, IfSome, IfOk};
ghost use Rattle.q4_machine.specs.History.{state_after, definitions_of};
ghost use Rattle.q4_machine.specs.Machine.{IsSessionOpen};
ghost use Rattle.q4_machine.specs.Parts.{IsInOrder, Grows};
ghost use Rattle.q4_proto.specs.Told.{told};
ghost use Rattle.q4_proto.specs.Text.{text_behind, IsOutcome};
ghost use Rattle.q4_play.specs.declared.plays.PlayEnd.TheVariants as end;
ghost use Rattle.q4_play.specs.declared.turns.Turned.TheVariants as turned;
ghost use Rattle.q4_play.specs.Labels.{IsLabel, session_at, with_seat, command_line};
ghost use Rattle.q4_play.specs.Seated.{IsSeated};
ghost use Rattle.q4_play.specs.Turns.{Closes};
ghost use Rattle.q4_play.specs.Plays.{refused_end};
ghost use Rattle.q4_play.specs.Playing.{TurnsTo, SeatsOr, Says, SaysCause, TurnCause};

use crate::PlayEnd;
use crate::labels::{Addressed, address};
use crate::seating::Seating;
use q4_flow::{Sink, WriteFailed};
use q4_machine::{DeskFault, Patience, Seats};
use q4_proto::{Outcome, put_reply_behind};
use q4_session::{Answered, answer_behind, desk_refusal, refused};
use std::alloc::Global;

/// What a line leads to.
#[derive(Clone, Copy, Debug, PartialEq, Eq)]
pub(crate) enum Turned {
    /// The play goes on.
    Next,
    Stops(PlayEnd),
}

/// Takes one line, without its newline.
pub(crate) fn turn<K: Seats, W: Sink, P: Patience>(
    leave: &K::Leave,
    alloc: Global,
    desk: &mut K,
    seating: &mut Seating,
    line: &[u8],
    sink: &mut W,
    patience: &mut P,
) -> Turned
    requires in_order { IsInOrder (K.seen desk.old) (K.caller desk.old) (K.current desk.old) }
    requires seated { IsSeated (K.seen desk.old) (K.caller desk.old) seating.old }
    ensures in_order { IsInOrder (K.seen desk.new) (K.caller desk.new) (K.current desk.new) }
    ensures same { (K.caller desk.new ≡ K.caller desk.old) × (K.limit desk.new ≡ K.limit desk.old) }
    ensures defined { definitions_of (K.seen desk.new) ≡ definitions_of (K.seen desk.old) }
    ensures seated { IsSeated (K.seen desk.new) (K.caller desk.new) seating.new }
    ensures turns { TurnsTo
        (record { defs = definitions_of (K.seen desk.old); limit = K.limit desk.old; caller = K.caller desk.old })
        (record { seen = K.seen desk.old; seating = seating.old; patience = P.state patience.old; written = W.written sink.old })
        (record { seen = K.seen desk.new; seating = seating.new; patience = P.state patience.new; written = W.written sink.new })
        line.now result }
    ensures cause { TurnCause (W.faults sink.old) (W.faults sink.new) result }
{
    match address(line) {
        Addressed::Bad => tell(0, &refused(15), Turned::Next, sink),
        Addressed::Alone(label) => {
            leave_seat(leave, desk, seating, label);
            Turned::Next
        }
        Addressed::Command(label, command) => {
            speak(leave, alloc, desk, seating, label, command, sink, patience)
        }
    }
}

// Closes the label's session, where it has one.
fn leave_seat<K: Seats>(leave: &K::Leave, desk: &mut K, seating: &mut Seating, label: u8)
    requires is_label { IsLabel label }
    requires in_order { IsInOrder (K.seen desk.old) (K.caller desk.old) (K.current desk.old) }
    requires seated { IsSeated (K.seen desk.old) (K.caller desk.old) seating.old }
    ensures in_order { IsInOrder (K.seen desk.new) (K.caller desk.new) (K.current desk.new) }
    ensures same { (K.caller desk.new ≡ K.caller desk.old) × (K.limit desk.new ≡ K.limit desk.old) }
    ensures defined { definitions_of (K.seen desk.new) ≡ definitions_of (K.seen desk.old) }
    ensures seated { IsSeated (K.seen desk.new) (K.caller desk.new) seating.new }
    ensures seating { seating.new ≡ with_seat seating.old label None }
    ensures closes { Grows (K.seen desk.old) (K.seen desk.new) (λ closing. Closes (K.caller desk.old) (session_at seating.old label) closing) }
{
    close_seat(leave, desk, seating.session(label));
    seating.set(label, None);
}

/// Closes the session of a label, where it has one.
pub(crate) fn close_seat<K: Seats>(leave: &K::Leave, desk: &mut K, seat: Option<u64>)
    requires is_open { IfSome seat (λ session. IsSessionOpen (state_after (K.seen desk.old)) session) }
    requires in_order { IsInOrder (K.seen desk.old) (K.caller desk.old) (K.current desk.old) }
    ensures in_order { IsInOrder (K.seen desk.new) (K.caller desk.new) (K.current desk.new) }
    ensures same { (K.caller desk.new ≡ K.caller desk.old) × (K.limit desk.new ≡ K.limit desk.old) }
    ensures defined { definitions_of (K.seen desk.new) ≡ definitions_of (K.seen desk.old) }
    ensures closes { Grows (K.seen desk.old) (K.seen desk.new) (λ closing. Closes (K.caller desk.old) seat closing) }
{
    if let Some(session) = seat {
        desk.choose(session);
        desk.close(leave);
    }
}

// Answers a command behind its label.
fn speak<K: Seats, W: Sink, P: Patience>(
    leave: &K::Leave,
    alloc: Global,
    desk: &mut K,
    seating: &mut Seating,
    label: u8,
    command: &[u8],
    sink: &mut W,
    patience: &mut P,
) -> Turned
    requires is_label { IsLabel label }
    requires in_order { IsInOrder (K.seen desk.old) (K.caller desk.old) (K.current desk.old) }
    requires seated { IsSeated (K.seen desk.old) (K.caller desk.old) seating.old }
    ensures in_order { IsInOrder (K.seen desk.new) (K.caller desk.new) (K.current desk.new) }
    ensures same { (K.caller desk.new ≡ K.caller desk.old) × (K.limit desk.new ≡ K.limit desk.old) }
    ensures defined { definitions_of (K.seen desk.new) ≡ definitions_of (K.seen desk.old) }
    ensures seated { IsSeated (K.seen desk.new) (K.caller desk.new) seating.new }
    ensures turns { TurnsTo
        (record { defs = definitions_of (K.seen desk.old); limit = K.limit desk.old; caller = K.caller desk.old })
        (record { seen = K.seen desk.old; seating = seating.old; patience = P.state patience.old; written = W.written sink.old })
        (record { seen = K.seen desk.new; seating = seating.new; patience = P.state patience.new; written = W.written sink.new })
        (command_line label command.now) result }
    ensures cause { TurnCause (W.faults sink.old) (W.faults sink.new) result }
{
    match take_seat(leave, desk, seating, label) {
        Ok(_session) => match answer_behind(
            leave,
            alloc,
            desk,
            Some(label),
            command,
            sink,
            patience,
        ) {
            Answered::Next => Turned::Next,
            Answered::Quit => {
                desk.close(leave);
                seating.set(label, None);
                Turned::Next
            }
            Answered::WriteFault => Turned::Stops(PlayEnd::WriteFault),
        },
        Err(fault) => tell(
            label,
            &desk_refusal(fault),
            Turned::Stops(refused_end(fault)),
            sink,
        ),
    }
}

// Makes the label's session the current one, and opens it where there is none.
fn take_seat<K: Seats>(
    leave: &K::Leave,
    desk: &mut K,
    seating: &mut Seating,
    label: u8,
) -> Result<u64, DeskFault>
    requires is_label { IsLabel label }
    requires in_order { IsInOrder (K.seen desk.old) (K.caller desk.old) (K.current desk.old) }
    requires seated { IsSeated (K.seen desk.old) (K.caller desk.old) seating.old }
    ensures in_order { IsInOrder (K.seen desk.new) (K.caller desk.new) (K.current desk.new) }
    ensures same { (K.caller desk.new ≡ K.caller desk.old) × (K.limit desk.new ≡ K.limit desk.old) }
    ensures defined { definitions_of (K.seen desk.new) ≡ definitions_of (K.seen desk.old) }
    ensures seated { IsSeated (K.seen desk.new) (K.caller desk.new) seating.new }
    ensures current { IfOk result (λ session. K.current desk.new ≡ Some session) }
    ensures seats { SeatsOr
        (record { defs = definitions_of (K.seen desk.old); limit = K.limit desk.old; caller = K.caller desk.old })
        (K.seen desk.old) (K.seen desk.new) seating.old seating.new label result }
{
    let session = match seating.session(label) {
        Some(session) => {
            desk.choose(session);
            session
        }
        None => {
            desk.stand_up();
            desk.open(leave)?
        }
    };
    seating.set(label, Some(session));
    Ok(session)
}

// The end of a play in which an opening was refused.
fn refused_end(fault: DeskFault) -> PlayEnd
    ensures { result ≡ refused_end fault }
{
    match fault {
        DeskFault::Worn(count) => PlayEnd::Worn(count),
        DeskFault::Memory => PlayEnd::Memory,
    }
}

// Writes a reply behind the label, and hands on what it leads to.
fn tell<W: Sink>(label: u8, reply: &Outcome, how: Turned, sink: &mut W) -> Turned
    requires { IsOutcome (told reply.now) }
    ensures says { Says (W.written sink.old) (W.written sink.new) (text_behind (Some label) (told reply.now)) how (turned.Stops end.WriteFault) result }
    ensures cause { SaysCause (W.faults sink.old) (W.faults sink.new) how (turned.Stops end.WriteFault) result }
{
    match put_reply_behind(Some(label), reply, sink) {
        Ok(()) => how,
        Err(WriteFailed) => Turned::Stops(PlayEnd::WriteFault),
    }
}
