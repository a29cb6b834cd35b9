ghost use Rattle.std.specs.Prelude.{◌≡◌, ℕ, Some, None, IsSome, IsTrue};
ghost use Rattle.q4_machine.specs.History.{definitions_of};
ghost use Rattle.q4_machine.specs.Parts.{IsInOrder};
ghost use Rattle.q4_proto.specs.Told.{told};
ghost use Rattle.q4_proto.specs.Text.{text, IsOutcome};
ghost use Rattle.q4_session.specs.Answering.{LastReply, LastCause};
ghost use Rattle.q4_session.specs.Exchanges.{Client};
ghost use Rattle.q4_session.specs.Sessions.{Session, Conversation, Around, ReadCause, WriteCause, refused_end, refused_words};

use crate::outcomes::{desk_refusal, refused};
use crate::{Answered, answer};
use q4_flow::{LineEnd, Lines, Sink, Source, WriteFailed};
use q4_machine::{Desk, DeskFault, Patience};
use q4_proto::{Outcome, put_reply};
use std::alloc::Global;

/// How a session ended.
#[derive(Clone, Copy, Debug, PartialEq, Eq)]
pub enum SessionEnd {
    /// `quit` was answered `bye`.
    Quit,
    /// The source ended after a whole line, or at once.
    Ended,
    /// The source ended this many bytes after the last newline. Code 61 was written.
    Partial(u64),
    /// 4,194,304 bytes came without a newline. Code 60 was written.
    TooLong,
    ReadFault,
    WriteFault,
    /// The opening was refused since the history of this many entries is full. Code 70 was written, and nothing was read.
    Worn(u64),
    /// The opening or a line found no memory. Code 90 was written.
    Memory,
}

/// One session, over any desk, source, sink and patience: it opens, answers each line and closes. Where the opening is
/// refused, code 70 or 90 is all that is written, and nothing is read.
pub fn session<K: Desk, S: Source, W: Sink, P: Patience>(
    leave: &K::Leave,
    alloc: Global,
    desk: &mut K,
    source: &mut S,
    sink: &mut W,
    patience: &mut P,
) -> SessionEnd
    requires { K.current desk.old ≡ None }

    // The history is legal, and each of its syncs was owed.
    ensures in_order { IsInOrder (K.seen desk.new) (K.caller desk.new) (K.current desk.new) }

    ensures same { (K.caller desk.new ≡ K.caller desk.old) × (K.limit desk.new ≡ K.limit desk.old) }
    ensures current { K.current desk.new ≡ None }

    // The definitions that all lines are read for do not change.
    ensures defined { definitions_of (K.seen desk.new) ≡ definitions_of (K.seen desk.old) }

    // What the history grew by, what was read and what was written.
    ensures session { Session (definitions_of (K.seen desk.old)) (K.limit desk.old) (K.caller desk.old)
        (record { seen = K.seen desk.old; left = S.left source.old; written = W.written sink.old; patience = P.state patience.old })
        (record { seen = K.seen desk.new; left = S.left source.new; written = W.written sink.new; patience = P.state patience.new })
        (IsTrue (S.ended source.new)) (source.new ≡ source.old) result }

    ensures read_cause { ReadCause (S.faults source.old) (S.faults source.new) result }
    ensures write_cause { WriteCause (W.faults sink.old) (W.faults sink.new) result }
{
    match desk.open(leave) {
        Ok(_) => {
            let end = converse(leave, alloc, desk, source, sink, patience);
            desk.close(leave);
            end
        }
        Err(fault) => last_reply(&desk_refusal(fault), refused_end(fault), sink),
    }
}

// Answers the lines of the source.
fn converse<K: Desk, S: Source, W: Sink, P: Patience>(
    leave: &K::Leave,
    alloc: Global,
    desk: &mut K,
    source: &mut S,
    sink: &mut W,
    patience: &mut P,
) -> SessionEnd
    requires is_open { IsSome (K.current desk.old) }
    requires in_order { IsInOrder (K.seen desk.old) (K.caller desk.old) (K.current desk.old) }
    ensures in_order { IsInOrder (K.seen desk.new) (K.caller desk.new) (K.current desk.new) }
    ensures same { (K.caller desk.new ≡ K.caller desk.old) × (K.limit desk.new ≡ K.limit desk.old) }
    ensures defined { definitions_of (K.seen desk.new) ≡ definitions_of (K.seen desk.old) }
    ensures current { K.current desk.new ≡ K.current desk.old }
    ensures conversation { (s : ℕ) → K.current desk.old ≡ Some s → Conversation
        (record { defs = definitions_of (K.seen desk.old); limit = K.limit desk.old; caller = K.caller desk.old; session = s })
        (record { seen = K.seen desk.old; left = S.left source.old; written = W.written sink.old; patience = P.state patience.old })
        (record { seen = K.seen desk.new; left = S.left source.new; written = W.written sink.new; patience = P.state patience.new })
        (IsTrue (S.ended source.new)) result }
    ensures read_cause { ReadCause (S.faults source.old) (S.faults source.new) result }
    ensures write_cause { WriteCause (W.faults sink.old) (W.faults sink.new) result }
{
    let Ok(mut lines) = Lines::new(alloc) else {
        return last_reply(&refused(90), SessionEnd::Memory, sink);
    };
    loop {
        match lines.next(source) {
            LineEnd::Line => match answer(leave, alloc, desk, lines.line(), sink, patience) {
                Answered::Next => {}
                Answered::Quit => return SessionEnd::Quit,
                Answered::WriteFault => return SessionEnd::WriteFault,
            },
            LineEnd::End => return SessionEnd::Ended,
            LineEnd::Partial(count) => {
                return last_reply(&refused(61), SessionEnd::Partial(count), sink);
            }
            LineEnd::TooLong => return last_reply(&refused(60), SessionEnd::TooLong, sink),
            LineEnd::ReadFault => return SessionEnd::ReadFault,
            LineEnd::Memory => return last_reply(&refused(90), SessionEnd::Memory, sink),
        }
    }
}

// The end of a session whose opening was refused.
fn refused_end(fault: DeskFault) -> SessionEnd
    ensures { result ≡ refused_end fault }
{
    match fault {
        DeskFault::Worn(count) => SessionEnd::Worn(count),
        DeskFault::Memory => SessionEnd::Memory,
    }
}

// Writes the last words of a session, and says how it ended.
fn last_reply<W: Sink>(reply: &Outcome, end: SessionEnd, sink: &mut W) -> SessionEnd
    requires { IsOutcome (told reply.now) }
    ensures reply { LastReply (W.written sink.old) (W.written sink.new) (text (told reply.now)) end result }
    ensures cause { LastCause (W.faults sink.old) (W.faults sink.new) end result }
{
    match put_reply(reply, sink) {
        Ok(()) => end,
        Err(WriteFailed) => SessionEnd::WriteFault,
    }
}
