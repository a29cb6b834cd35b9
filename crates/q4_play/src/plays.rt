ghost use Rattle.std.specs.Prelude.{◌≡◌, None, Some, IsTrue};
ghost use Rattle.q4_machine.specs.History.{definitions_of};
ghost use Rattle.q4_machine.specs.Parts.{IsInOrder, Grows};
ghost use Rattle.q4_session.specs.Sessions.{Around};
ghost use Rattle.q4_proto.specs.Told.{told};
ghost use Rattle.q4_proto.specs.Text.{text_behind, IsOutcome};
ghost use Rattle.q4_play.specs.declared.plays.PlayEnd.TheVariants as ended;
ghost use Rattle.q4_play.specs.Labels.{nobody};
ghost use Rattle.q4_play.specs.Seated.{IsSeated};
ghost use Rattle.q4_play.specs.Plays.{Lined, Play, AreClosed, ReadCause, WriteCause};
ghost use Rattle.q4_play.specs.Playing.{Says, SaysCause};

use crate::labels::LAST_LABEL;
use crate::seating::Seating;
use crate::turns::{Turned, close_seat, turn};
use q4_flow::{LineEnd, Lines, Sink, Source, WriteFailed};
use q4_machine::{Patience, Seats};
use q4_proto::{Outcome, put_reply_behind};
use q4_session::refused;
use std::alloc::Global;

/// How a play ended.
#[derive(Clone, Copy, Debug, PartialEq, Eq)]
pub enum PlayEnd {
    /// The source ended after a whole line, or at once.
    Ended,
    /// The source ended this many bytes after the last newline. Code 61 was written behind label 0.
    Partial(u64),
    /// 4,194,304 bytes came without a newline. Code 60 was written behind label 0.
    TooLong,
    ReadFault,
    WriteFault,
    /// An opening was refused since the history of this many entries is full. Code 70 was written behind the label.
    Worn(u64),
    /// An opening or the lines found no memory. Code 90 was written, behind the label or behind label 0.
    Memory,
}

/// Many sessions over one desk. Each line is a label from 1 to 64, a space and a command, or a label alone. A label's first
/// command opens its session, `quit` or the label alone closes it, and a later command opens another. At the end, whatever
/// it is, the sessions that are open close in order of label, and nothing is written for that.
pub fn play<K: Seats, S: Source, W: Sink, P: Patience>(
    leave: &K::Leave,
    alloc: Global,
    desk: &mut K,
    source: &mut S,
    sink: &mut W,
    patience: &mut P,
) -> PlayEnd
    // The history is legal, and each of its syncs was owed.
    ensures in_order { IsInOrder (K.seen desk.new) (K.caller desk.new) (K.current desk.new) }

    ensures same { (K.caller desk.new ≡ K.caller desk.old) × (K.limit desk.new ≡ K.limit desk.old) }
    ensures current { K.current desk.new ≡ None }

    // The definitions that all lines are read for do not change.
    ensures defined { definitions_of (K.seen desk.new) ≡ definitions_of (K.seen desk.old) }

    // What the history grew by, what was read and what was written.
    ensures play { Play (record { defs = definitions_of (K.seen desk.old); limit = K.limit desk.old; caller = K.caller desk.old })
        (record { seen = K.seen desk.old; left = S.left source.old; written = W.written sink.old; patience = P.state patience.old })
        (record { seen = K.seen desk.new; left = S.left source.new; written = W.written sink.new; patience = P.state patience.new })
        (IsTrue (S.ended source.new)) result }

    ensures read_cause { ReadCause (S.faults source.old) (S.faults source.new) result }
    ensures write_cause { WriteCause (W.faults sink.old) (W.faults sink.new) result }
{
    desk.stand_up();
    let mut seating = Seating::new();
    let end = take_lines(leave, alloc, desk, &mut seating, source, sink, patience);
    close_all(leave, desk, &seating);
    desk.stand_up();
    end
}

// Takes the lines of the source.
fn take_lines<K: Seats, S: Source, W: Sink, P: Patience>(
    leave: &K::Leave,
    alloc: Global,
    desk: &mut K,
    seating: &mut Seating,
    source: &mut S,
    sink: &mut W,
    patience: &mut P,
) -> PlayEnd
    requires nobody { seating.old ≡ nobody }
    requires in_order { IsInOrder (K.seen desk.old) (K.caller desk.old) (K.current desk.old) }
    ensures in_order { IsInOrder (K.seen desk.new) (K.caller desk.new) (K.current desk.new) }
    ensures same { (K.caller desk.new ≡ K.caller desk.old) × (K.limit desk.new ≡ K.limit desk.old) }
    ensures defined { definitions_of (K.seen desk.new) ≡ definitions_of (K.seen desk.old) }
    ensures seated { IsSeated (K.seen desk.new) (K.caller desk.new) seating.new }
    ensures lined { Lined (record { defs = definitions_of (K.seen desk.old); limit = K.limit desk.old; caller = K.caller desk.old })
        (record { seen = K.seen desk.old; left = S.left source.old; written = W.written sink.old; patience = P.state patience.old })
        (record { seen = K.seen desk.new; left = S.left source.new; written = W.written sink.new; patience = P.state patience.new })
        seating.new (IsTrue (S.ended source.new)) result }
    ensures read_cause { ReadCause (S.faults source.old) (S.faults source.new) result }
    ensures write_cause { WriteCause (W.faults sink.old) (W.faults sink.new) result }
{
    let Ok(mut lines) = Lines::new(alloc) else {
        return last_reply(&refused(90), PlayEnd::Memory, sink);
    };
    loop {
        match lines.next(source) {
            LineEnd::Line => {
                match turn(leave, alloc, desk, seating, lines.line(), sink, patience) {
                    Turned::Next => {}
                    Turned::Stops(end) => return end,
                }
            }
            LineEnd::End => return PlayEnd::Ended,
            LineEnd::Partial(count) => {
                return last_reply(&refused(61), PlayEnd::Partial(count), sink);
            }
            LineEnd::TooLong => return last_reply(&refused(60), PlayEnd::TooLong, sink),
            LineEnd::ReadFault => return PlayEnd::ReadFault,
            LineEnd::Memory => return last_reply(&refused(90), PlayEnd::Memory, sink),
        }
    }
}

// Closes each session that a label has, in order of label.
fn close_all<K: Seats>(leave: &K::Leave, desk: &mut K, seating: &Seating)
    requires in_order { IsInOrder (K.seen desk.old) (K.caller desk.old) (K.current desk.old) }
    requires seated { IsSeated (K.seen desk.old) (K.caller desk.old) seating.now }
    ensures in_order { IsInOrder (K.seen desk.new) (K.caller desk.new) (K.current desk.new) }
    ensures same { (K.caller desk.new ≡ K.caller desk.old) × (K.limit desk.new ≡ K.limit desk.old) }
    ensures defined { definitions_of (K.seen desk.new) ≡ definitions_of (K.seen desk.old) }
    ensures closed { Grows (K.seen desk.old) (K.seen desk.new) (λ closing. AreClosed (K.caller desk.old) seating.now closing) }
{
    for place in 0..LAST_LABEL {
        close_seat(leave, desk, seating.session(place + 1));
    }
}

// Writes the last words of a play behind label 0, and says how it ended.
fn last_reply<W: Sink>(reply: &Outcome, end: PlayEnd, sink: &mut W) -> PlayEnd
    requires { IsOutcome (told reply.now) }
    ensures says { Says (W.written sink.old) (W.written sink.new) (text_behind (Some 0) (told reply.now)) end ended.WriteFault result }
    ensures cause { SaysCause (W.faults sink.old) (W.faults sink.new) end ended.WriteFault result }
{
    match put_reply_behind(Some(0), reply, sink) {
        Ok(()) => end,
        Err(WriteFailed) => PlayEnd::WriteFault,
    }
}
