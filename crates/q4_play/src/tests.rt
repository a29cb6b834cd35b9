ghost use Rattle.std.specs.Prelude.{Some, length};

use super::*;
use q4_def::read_defs;
use q4_flow::{MemorySink, MemorySource, ReadFailed, Source};
use q4_machine::{Call, Entry, Never, OneDesk, Turns};
use std::alloc::Global;
use std::process::Abort;
use std::test::*;

// Hands on what a source in memory gives, at most so many bytes by one read.
#[derive(Drop)]
struct Pieces {
    inner: MemorySource,
    most: usize,
}

impl Source for Pieces {
    ghost left = { λ p. Some p.inner.left };

    ghost ended = { λ p. p.inner.ended };

    ghost faults = { λ p. p.inner.faults };

    ghost reads = { λ p. length p.inner.left };

    fn read(&mut self, into: &mut [u8]) -> Result<usize, ReadFailed> {
        let room = into.len().min(self.most.max(1));
        self.inner.read(&mut into[..room])
    }
}

fn in_pieces(rt: &impl Abort, alloc: Global, bytes: &[u8], failing: &[u64], most: usize) -> Pieces {
    let inner = MemorySource::new(alloc, bytes, failing).expect(rt, "memory");
    Pieces { inner, most }
}

fn new_desk(rt: &impl Abort, alloc: Global) -> OneDesk {
    let defs = read_defs(alloc, b"").expect(rt, "definitions");
    OneDesk::new(alloc, defs).expect(rt, "memory")
}

fn append(rt: &impl Abort, bytes: &mut Vec<u8>, more: &[u8]) {
    assert!(rt; bytes.extend_from_slice(more).is_ok());
}

// An input, what is written, and the end.
const PLAYS: [(&[u8], &[u8], PlayEnd); 11] = [
    (b"", b"", PlayEnd::Ended),
    // Conditions, and a row that goes back before another session takes it.
    (
        b"1 insert\tjobs\t1\ta\n1 insert\tjobs\t1\tb\n1 wait\tjobs:body='a'\t=0\n2 wait\tjobs:body='a'\t=0\n1 abort\n2 wait\tjobs\t=0\n2 rowid\n",
        b"1 ok\t1\n1 ok\t2\n1 ok\t1\n2 ok\t0\n1 ok\n2 ok\t1\n2 ok\t1\n",
        PlayEnd::Ended,
    ),
    // A label that ends alone gives its row back.
    (
        b"1 insert\tjobs\t7\ta\n1 wait\tjobs\t=0\n1\n2 wait\tjobs\t=0\n2 rowid\n",
        b"1 ok\t1\n1 ok\t1\n2 ok\t1\n2 ok\t1\n",
        PlayEnd::Ended,
    ),
    (
        b"0 end\n1 end\n1 quit\n1\n65 end\n",
        b"0 err\t15\tbad label\n1 err\t31\tnot in owner mode\n1 bye\n0 err\t15\tbad label\n",
        PlayEnd::Ended,
    ),
    // Each line of a reply has the label.
    (
        b"64 insert\tjobs\t1\ta\n64 insert\tjobs\t-2\tb\\tc\n64 select\tjobs\t10\n",
        b"64 ok\t1\n64 ok\t2\n64 rows\t2\n64 row\t1\t1\ta\n64 row\t2\t-2\tb\\tc\n",
        PlayEnd::Ended,
    ),
    // Two wait for one row, and the second one gets it only after the first one ended.
    (
        b"3 insert\tjobs\t1\ta\n1 wait\tjobs\n2 wait\tjobs\n1 rowid\n2 rowid\n1 end\n2 wait\tjobs\n2 end\n",
        b"3 ok\t1\n1 ok\t1\n2 ok\t0\n1 ok\t1\n2 err\t32\tno owned row\n1 ok\n2 ok\t0\n2 ok\n",
        PlayEnd::Ended,
    ),
    // A label's second session does not have the row of its first one.
    (
        b"1 insert\tjobs\t1\ta\n1 wait\tjobs\n1 quit\n1 rowid\n2 wait\tjobs\n2 rowid\n",
        b"1 ok\t1\n1 ok\t1\n1 bye\n1 err\t31\tnot in owner mode\n2 ok\t1\n2 ok\t1\n",
        PlayEnd::Ended,
    ),
    (b"1", b"0 err\t61\tpartial line\n", PlayEnd::Partial(1)),
    (
        b"7 end\n7 quit",
        b"7 err\t31\tnot in owner mode\n0 err\t61\tpartial line\n",
        PlayEnd::Partial(6),
    ),
    // An empty command opens the session, and so does a line that spells none.
    (
        b"1 \n2  end\n3 \xff\n",
        b"1 err\t11\tunknown command\n2 err\t11\tunknown command\n3 err\t10\tnot UTF-8\n",
        PlayEnd::Ended,
    ),
    (
        b"\nend\n1\tend\n 1 end\n1end\n+1 end\n01 end\n001\n0\n065\n18446744073709551617 end\n\xff\n",
        b"0 err\t15\tbad label\n0 err\t15\tbad label\n0 err\t15\tbad label\n0 err\t15\tbad label\n0 err\t15\tbad label\n0 err\t15\tbad label\n0 err\t15\tbad label\n0 err\t15\tbad label\n0 err\t15\tbad label\n0 err\t15\tbad label\n0 err\t15\tbad label\n0 err\t15\tbad label\n",
        PlayEnd::Ended,
    ),
];

// By pieces of one byte and of all bytes, and with a patience of some turns.
#[test]
fn plays(rt: HostRuntime) {
    let alloc = rt.alloc();
    for (input, replies, wanted) in PLAYS {
        for most in [1, 100_000_000] {
            let mut desk = new_desk(&rt, alloc);
            let mut source = in_pieces(&rt, alloc, input, &[], most);
            let mut sink = MemorySink::new(alloc, &[]).expect(&rt, "memory");
            let mut patience = Turns::new(3);
            let end = play(&(), alloc, &mut desk, &mut source, &mut sink, &mut patience);
            assert_eq!(rt; sink.bytes(), replies);
            assert_eq!(rt; end, wanted);
        }
    }
}

fn name(call: &Call) -> &'static str {
    match call {
        Call::Opened(_) => "Opened",
        Call::Open => "Open",
        Call::Insert(_, _) => "Insert",
        Call::Look(_) => "Look",
        Call::End => "End",
        Call::Abort => "Abort",
        Call::RowId => "RowId",
        Call::Select(_, _) => "Select",
        Call::Close => "Close",
        Call::Sync => "Sync",
    }
}

// All entries are of caller 0.
fn check_history(rt: &impl Abort, history: &[Entry], wanted: &[(u64, &str)]) {
    assert_eq!(rt; history.len(), wanted.len());
    for (entry, (session, wanted)) in history.iter().zip(wanted) {
        assert_eq!(rt; name(&entry.call), *wanted);
        assert_eq!(rt; entry.session, *session);
        assert_eq!(rt; entry.caller, 0);
    }
}

// The reads of at most 20 bytes and the writes with these numbers fail. The history tells which sessions were opened and
// closed, in order.
#[derive(Clone, Copy)]
struct Case {
    input: &'static [u8],
    reads: &'static [u64],
    writes: &'static [u64],
    replies: &'static [u8],
    end: PlayEnd,
    history: &'static [(u64, &'static str)],
}

const CASES: [Case; 8] = [
    Case {
        input: b"",
        reads: &[],
        writes: &[],
        replies: b"",
        end: PlayEnd::Ended,
        history: &[(0, "Opened")],
    },
    // The sessions that are open at the end close by label, and not as they were opened.
    Case {
        input: b"9 end\n2 end\n64 quit\n3 end\n2\n1 \n2 rowid\n5\n",
        reads: &[],
        writes: &[],
        replies: b"9 err\t31\tnot in owner mode\n2 err\t31\tnot in owner mode\n64 bye\n3 err\t31\tnot in owner mode\n1 err\t11\tunknown command\n2 err\t31\tnot in owner mode\n",
        end: PlayEnd::Ended,
        history: &[
            (0, "Opened"),
            (1, "Open"),
            (1, "End"),
            (2, "Open"),
            (2, "End"),
            (3, "Open"),
            (3, "Close"),
            (4, "Open"),
            (4, "End"),
            (2, "Close"),
            (5, "Open"),
            (6, "Open"),
            (6, "RowId"),
            (5, "Close"),
            (6, "Close"),
            (4, "Close"),
            (1, "Close"),
        ],
    },
    // Lines of no label leave nothing.
    Case {
        input: b"0 quit\n65 end\n1\n01 end\n",
        reads: &[],
        writes: &[],
        replies: b"0 err\t15\tbad label\n0 err\t15\tbad label\n0 err\t15\tbad label\n",
        end: PlayEnd::Ended,
        history: &[(0, "Opened")],
    },
    Case {
        input: b"2 end\n1 end\n1 qui",
        reads: &[],
        writes: &[],
        replies: b"2 err\t31\tnot in owner mode\n1 err\t31\tnot in owner mode\n0 err\t61\tpartial line\n",
        end: PlayEnd::Partial(5),
        history: &[
            (0, "Opened"),
            (1, "Open"),
            (1, "End"),
            (2, "Open"),
            (2, "End"),
            (2, "Close"),
            (1, "Close"),
        ],
    },
    Case {
        input: b"2 insert\tjobs\t7\taaaaa\n1 wait\tjobs\n",
        reads: &[2],
        writes: &[],
        replies: b"",
        end: PlayEnd::ReadFault,
        history: &[(0, "Opened")],
    },
    // The session whose `bye` was not written closes with the others.
    Case {
        input: b"2 end\n3 quit\n1 end\n",
        reads: &[],
        writes: &[2],
        replies: b"2 err\t31\tnot in owner mode\n",
        end: PlayEnd::WriteFault,
        history: &[
            (0, "Opened"),
            (1, "Open"),
            (1, "End"),
            (2, "Open"),
            (1, "Close"),
            (2, "Close"),
        ],
    },
    Case {
        input: b"2 end\n66\n1 end\n",
        reads: &[],
        writes: &[2],
        replies: b"2 err\t31\tnot in owner mode\n",
        end: PlayEnd::WriteFault,
        history: &[(0, "Opened"), (1, "Open"), (1, "End"), (1, "Close")],
    },
    Case {
        input: b"1",
        reads: &[],
        writes: &[1],
        replies: b"",
        end: PlayEnd::WriteFault,
        history: &[(0, "Opened")],
    },
];

#[test]
fn histories(rt: HostRuntime) {
    let alloc = rt.alloc();
    for case in CASES {
        let mut desk = new_desk(&rt, alloc);
        let mut source = in_pieces(&rt, alloc, case.input, case.reads, 20);
        let mut sink = MemorySink::new(alloc, case.writes).expect(&rt, "memory");
        let mut patience = Never::new();
        let end = play(&(), alloc, &mut desk, &mut source, &mut sink, &mut patience);
        assert_eq!(rt; sink.bytes(), case.replies);
        assert_eq!(rt; end, case.end);
        check_history(&rt, desk.history(), case.history);
    }
}

// 64 sessions are open at once, and all of them close.
#[test]
fn all_labels(rt: HostRuntime) -> Result<(), Fail> {
    let alloc = rt.alloc();
    let mut input = Vec::new(alloc);
    let mut replies = Vec::new(alloc);
    for label in 1..65_u8 {
        let line = format!(in alloc; "{label} insert\tjobs\t{label}\ta\n{label} wait\tjobs\n")?;
        append(&rt, &mut input, line.as_bytes());
        let reply = format!(in alloc; "{label} ok\t{label}\n{label} ok\t1\n")?;
        append(&rt, &mut replies, reply.as_bytes());
    }
    for label in 1..65_u8 {
        let line = format!(in alloc; "{label} rowid\n")?;
        append(&rt, &mut input, line.as_bytes());
        let reply = format!(in alloc; "{label} ok\t{label}\n")?;
        append(&rt, &mut replies, reply.as_bytes());
    }
    let mut desk = new_desk(&rt, alloc);
    let mut source = in_pieces(&rt, alloc, &input, &[], 4096);
    let mut sink = MemorySink::new(alloc, &[]).expect(&rt, "memory");
    let mut patience = Never::new();
    let end = play(&(), alloc, &mut desk, &mut source, &mut sink, &mut patience);
    assert!(rt; sink.bytes() == replies.as_slice());
    assert_eq!(rt; end, PlayEnd::Ended);
    let history = desk.history();
    assert_eq!(rt; history.len(), 1 + 64 * 6);
    for (entry, session) in history.iter().skip(1 + 64 * 5).zip(1..65_u64) {
        assert_eq!(rt; name(&entry.call), "Close");
        assert_eq!(rt; entry.session, session);
    }
    Ok(())
}

const FULL: &[u8] = b"1 err\t70\thistory full\t1048572\n2 err\t70\thistory full\t1048572\n";

// A command on a full history is refused and the play goes on; an opening that is refused ends it.
#[test]
fn full_histories(rt: HostRuntime) {
    let alloc = rt.alloc();
    let mut input = Vec::new(alloc);
    for _ in 0..1_048_571 {
        append(&rt, &mut input, b"1 rowid\n");
    }
    append(&rt, &mut input, b"2 end\n1 end\n");
    let mut desk = new_desk(&rt, alloc);
    let mut source = in_pieces(&rt, alloc, &input, &[], 100_000_000);
    let mut sink = MemorySink::new(alloc, &[]).expect(&rt, "memory");
    let mut patience = Never::new();
    let end = play(&(), alloc, &mut desk, &mut source, &mut sink, &mut patience);
    assert_eq!(rt; end, PlayEnd::Worn(1_048_572));
    let written = sink.bytes();
    assert!(rt; written.len() > FULL.len());
    let start = written.len() - FULL.len();
    assert_eq!(rt; &written[start..], FULL);
    let history = desk.history();
    assert_eq!(rt; history.len(), 1_048_573);
}

// 4,194,304 bytes without a newline, and one less.
#[test]
fn long_lines(rt: HostRuntime) {
    let alloc = rt.alloc();
    for (count, replies, wanted) in [
        (
            4_194_304,
            b"0 err\t60\tline too long\n".as_slice(),
            PlayEnd::TooLong,
        ),
        (
            4_194_303,
            b"0 err\t61\tpartial line\n",
            PlayEnd::Partial(4_194_303),
        ),
    ] {
        let input = Vec::from_elem(alloc, b'1', count).expect(&rt, "memory");
        let mut desk = new_desk(&rt, alloc);
        let mut source = in_pieces(&rt, alloc, &input, &[], 100_000_000);
        let mut sink = MemorySink::new(alloc, &[]).expect(&rt, "memory");
        let mut patience = Never::new();
        let end = play(&(), alloc, &mut desk, &mut source, &mut sink, &mut patience);
        assert_eq!(rt; sink.bytes(), replies);
        assert_eq!(rt; end, wanted);
    }
}
