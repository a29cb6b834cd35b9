ghost use Rattle.std.specs.Prelude.{◌≡◌, Some, None, length};

use super::*;
use q4_def::read_defs;
use q4_flow::{MemorySink, MemorySource, ReadFailed, Source};
use q4_machine::{Call, Entry, Never, OneDesk, Patience, Turns};
use std::alloc::Global;
use std::process::Abort;
use std::test::*;

// Hands on what a source in memory gives, at most so many bytes by one read.
#[derive(Drop)]
struct Pieces {
    inner: MemorySource,
    most: usize,
}

impl Source for Pieces {
    ghost left = { λ p. Some p.inner.left };

    ghost ended = { λ p. p.inner.ended };

    ghost faults = { λ p. p.inner.faults };

    ghost reads = { λ p. length p.inner.left };

    fn read(&mut self, into: &mut [u8]) -> Result<usize, ReadFailed> {
        let room = into.len().min(self.most.max(1));
        self.inner.read(&mut into[..room])
    }
}

fn in_pieces(rt: &impl Abort, alloc: Global, bytes: &[u8], failing: &[u64], most: usize) -> Pieces {
    let inner = MemorySource::new(alloc, bytes, failing).expect(rt, "memory");
    Pieces { inner, most }
}

// What one session leaves: its desk, what it wrote, and how it ended.
#[derive(Drop)]
struct Past {
    desk: OneDesk,
    sink: MemorySink,
    end: SessionEnd,
}

// One session over empty tables of these definitions, into a sink of which these writes fail.
fn hold<P: Patience>(
    rt: &impl Abort,
    alloc: Global,
    definitions: &[u8],
    source: &mut Pieces,
    failing: &[u64],
    patience: &mut P,
) -> Past
    ensures { result.desk.current ≡ None }
{
    let defs = read_defs(alloc, definitions).expect(rt, "definitions");
    let mut desk = OneDesk::new(alloc, defs).expect(rt, "memory");
    let mut sink = MemorySink::new(alloc, failing).expect(rt, "memory");
    let end = session(&(), alloc, &mut desk, source, &mut sink, patience);
    Past { desk, sink, end }
}

// An input, and what comes of it over these definitions.
#[derive(Clone, Copy)]
struct Talk<'a> {
    definitions: &'a [u8],
    input: &'a [u8],
    replies: &'a [u8],
    end: SessionEnd,
}

fn check_pieces<P: Patience>(
    rt: &impl Abort,
    alloc: Global,
    talk: &Talk,
    most: usize,
    patience: &mut P,
) {
    let mut source = in_pieces(rt, alloc, talk.input, &[], most);
    let past = hold(rt, alloc, talk.definitions, &mut source, &[], patience);
    assert_eq!(rt; past.sink.bytes(), talk.replies);
    assert_eq!(rt; past.end, talk.end);
}

// By pieces of one byte, of 4,096 and of all bytes, with no patience and with one of some turns.
fn check_all(rt: &impl Abort, alloc: Global, talk: &Talk) {
    for most in [1, 4096, 100_000_000] {
        check_pieces(rt, alloc, talk, most, &mut Never::new());
    }
    check_pieces(rt, alloc, talk, 4096, &mut Turns::new(3));
}

const CONVERSATIONS: [(&[u8], &[u8], SessionEnd); 12] = [
    (b"", b"", SessionEnd::Ended),
    (
        b"insert\tjobs\t7\tresize a.png\nwait\tjobs\nrowid\nselect\tjobs\t10\nend\nquit\n",
        b"ok\t1\nok\t1\nok\t1\nrows\t1\nrow\t1\t7\tresize a.png\nok\nbye\n",
        SessionEnd::Quit,
    ),
    (b"end\n", b"err\t31\tnot in owner mode\n", SessionEnd::Ended),
    (
        b"wait\tjobs\t=0\nrowid\nend\nend\n",
        b"ok\t0\nerr\t32\tno owned row\nok\nerr\t31\tnot in owner mode\n",
        SessionEnd::Ended,
    ),
    (
        b"insert\tjobs\t1\ta\ninsert\tjobs\t9\tb\ninsert\tjobs\t5\tc\nwait\tjobs:prio>=5\t=0\nrowid\n",
        b"ok\t1\nok\t2\nok\t3\nok\t1\nok\t2\n",
        SessionEnd::Ended,
    ),
    (
        b"insert\tjobs\t1\ta\ninsert\tjobs\t2\tb\nwait\tjobs\nwait\tjobs\nrowid\nquit\n",
        b"ok\t1\nok\t2\nok\t1\nok\t1\nok\t2\nbye\n",
        SessionEnd::Quit,
    ),
    (
        b"insert\tjobs\t1\ta\nwait\tjobs\nabort\nrowid\nabort\nwait\tjobs\nrowid\nend\nwait\tjobs\t=3600\n",
        b"ok\t1\nok\t1\nok\nerr\t31\tnot in owner mode\nerr\t31\tnot in owner mode\nok\t1\nok\t1\nok\nok\t0\n",
        SessionEnd::Ended,
    ),
    (
        b"wait\tjobs\t=1\nabort\nabort\n",
        b"ok\t0\nok\nerr\t31\tnot in owner mode\n",
        SessionEnd::Ended,
    ),
    (b"quit\nend\nquit\n\xff", b"bye\n", SessionEnd::Quit),
    (b"end", b"err\t61\tpartial line\n", SessionEnd::Partial(3)),
    (
        b"wait\tjobs\nquit",
        b"ok\t0\nerr\t61\tpartial line\n",
        SessionEnd::Partial(4),
    ),
    (
        b"insert\tjobs\t-1\t\\\\\\t\\n\\r\nselect\tjobs\t1\nselect\tjobs\t0\nquit\n",
        b"ok\t1\nrows\t1\nrow\t1\t-1\t\\\\\\t\\n\\r\nrows\t0\nbye\n",
        SessionEnd::Quit,
    ),
];

#[test]
fn conversations(rt: HostRuntime) {
    for (input, replies, end) in CONVERSATIONS {
        let talk = Talk {
            definitions: b"",
            input,
            replies,
            end,
        };
        check_all(&rt, rt.alloc(), &talk);
    }
}

const TWO_TABLES: &[u8] =
    b"[[table]]\nname = \"jobs\"\ncolumns = [\"prio int\", \"body text\"]\n\n[[table]]\nname = \"hot\"\ncolumns = [\"prio int\"]\n";

const ONE_NUMBER: &[u8] = b"[[table]]\nname = \"t\"\ncolumns = [\"n int\"]\n";

const NOT_TEXT: &[u8] = b"err\t10\tnot UTF-8\n";

const UNKNOWN: &[u8] = b"err\t11\tunknown command\n";

const FIELDS: &[u8] = b"err\t12\twrong number of fields\n";

const NOT_BUILT: &[u8] = b"err\t19\tnot built\n";

const MANY_ENTRIES: &[u8] = b"err\t25\ttoo many entries\n";

const NOT_OWNER: &[u8] = b"err\t31\tnot in owner mode\n";

// Lines of one session in non-owner mode, each with its reply: every code at every command. Many a refused line has a
// later fault too.
const REFUSALS: [(&[u8], &[u8]); 76] = [
    (b"\xff", NOT_TEXT),
    (b"insert\tjobs\t\xff\xfe", NOT_TEXT),
    (b"wait\tjobs\t=\xff", NOT_TEXT),
    (b"select\t\xff\t1", NOT_TEXT),
    (b"rowid\t\xff", NOT_TEXT),
    (b"end\t\xff", NOT_TEXT),
    (b"abort\xff", NOT_TEXT),
    (b"quit\xff", NOT_TEXT),
    (b"", UNKNOWN),
    (b"waitjobs", UNKNOWN),
    (b" end\t1", UNKNOWN),
    (b"Rowid", UNKNOWN),
    (b"srcid\t1\ta\t1", NOT_BUILT),
    (b"srcid", NOT_BUILT),
    (b"compact\tjobs", NOT_BUILT),
    (b"compact\t\\q\t1", NOT_BUILT),
    (b"insert", FIELDS),
    (b"wait", FIELDS),
    (b"wait\t=5", FIELDS),
    (b"wait\t=x", FIELDS),
    (b"rowid\t", FIELDS),
    (b"end\t", FIELDS),
    (b"end\t1", FIELDS),
    (b"abort\t\\q", FIELDS),
    (b"select", FIELDS),
    (b"select\tjobs", FIELDS),
    (b"select\tjobs\t1\t2", FIELDS),
    (b"quit\tx", FIELDS),
    (b"wait\tjobs\t=3601", b"err\t13\tbad number\t2\n"),
    (b"wait\tjobs\t=00", b"err\t13\tbad number\t2\n"),
    (b"wait\tjobs\t=", b"err\t13\tbad number\t2\n"),
    (b"wait\t\\q\tmail\t=x", b"err\t13\tbad number\t3\n"),
    (
        b"wait\tjobs\t=18446744073709551616",
        b"err\t13\tbad number\t2\n",
    ),
    (b"select\tjobs\t1001", b"err\t13\tbad number\t2\n"),
    (b"select\t\\q\t-1", b"err\t13\tbad number\t2\n"),
    (b"select\tmail\t", b"err\t13\tbad number\t2\n"),
    (b"insert\tmail\t\\q", b"err\t14\tbad escape\t2\n"),
    (b"insert\tjobs\tx\ta\\", b"err\t14\tbad escape\t3\n"),
    (b"insert\tjobs\t1\ta\r", b"err\t14\tbad escape\t3\n"),
    (b"insert\t\\q\t\\q", b"err\t14\tbad escape\t1\n"),
    (b"wait\tmail\tjobs\\q\t=5", b"err\t14\tbad escape\t2\n"),
    (b"select\tjo\\bs\t5", b"err\t14\tbad escape\t1\n"),
    (
        b"wait\ta\tb\tc\td\te\tf\tg\th\ti\tj\tk\tl\tm\tn\to\tp\tq",
        MANY_ENTRIES,
    ),
    (
        b"wait\tjobs\tjobs\tjobs\tjobs\tjobs\tjobs\tjobs\tjobs\tjobs\tjobs\tjobs\tjobs\tjobs\tjobs\tjobs\tjobs\tjobs\t=0",
        MANY_ENTRIES,
    ),
    (b"insert\t", b"err\t21\tno table\t1\n"),
    (b"insert\tmail\tx", b"err\t21\tno table\t1\n"),
    (b"wait\tjobs:prio<2<3\tmail", b"err\t21\tno table\t2\n"),
    (b"wait\t=5\tjobs", b"err\t21\tno table\t1\n"),
    (b"select\tmail\t1", b"err\t21\tno table\t1\n"),
    (
        b"wait\tjobs:(((((((((((((((((((((((((((((((((1",
        b"err\t27\tcondition too deep\t1\t32\n",
    ),
    (b"wait\tjobs:prio<2<3", b"err\t24\tbad condition\t1\t6\n"),
    (
        b"wait\thot\tjobs:prio<2<3\tjobs:size>1",
        b"err\t24\tbad condition\t2\t6\n",
    ),
    (b"wait\tjobs:size>1", b"err\t28\tno column\t1\t0\n"),
    (b"wait\thot:body=''\t=1", b"err\t28\tno column\t1\t0\n"),
    (b"wait\tjobs:prio=body", b"err\t29\twrong kinds\t1\t5\n"),
    (
        b"wait\tjobs\tjobs\tjobs:prio=body",
        b"err\t29\twrong kinds\t3\t5\n",
    ),
    (b"insert\tjobs\t1", b"err\t20\twrong number of values\t2\n"),
    (b"insert\tjobs", b"err\t20\twrong number of values\t2\n"),
    (b"insert\tjobs\tx", b"err\t20\twrong number of values\t2\n"),
    (
        b"insert\thot\tx\ta",
        b"err\t20\twrong number of values\t1\n",
    ),
    (b"insert\tjobs\tx\ta", b"err\t22\tbad value\t1\n"),
    (b"insert\tjobs\t07\ta", b"err\t22\tbad value\t1\n"),
    (
        b"insert\thot\t9223372036854775808",
        b"err\t22\tbad value\t1\n",
    ),
    (b"insert\tjobs\t-0\t", b"err\t22\tbad value\t1\n"),
    (b"insert\tjobs\t1\\t\t", b"err\t22\tbad value\t1\n"),
    (b"rowid", NOT_OWNER),
    (b"end", NOT_OWNER),
    (b"abort", NOT_OWNER),
    (b"select\tjobs\t0", b"rows\t0\n"),
    (b"select\tjobs\t1000", b"rows\t0\n"),
    (b"wait\tjobs:prio=0\thot\t=0", b"ok\t0\n"),
    (b"rowid", b"err\t32\tno owned row\n"),
    (b"select\thot\t5", b"rows\t0\n"),
    (b"end", b"ok\n"),
    (
        b"wait\tjobs\tjobs\tjobs\tjobs\tjobs\tjobs\tjobs\tjobs\tjobs\tjobs\tjobs\tjobs\tjobs\tjobs\tjobs\tjobs\t=0",
        b"ok\t0\n",
    ),
    (b"abort", b"ok\n"),
];

// A wait takes the first entry of its list that any row meets, and tells its place.
const LISTS: [(&[u8], &[u8]); 16] = [
    (b"insert\tjobs\t2\ta", b"ok\t1\n"),
    (b"wait\thot\tjobs:prio>3\tjobs\t=0", b"ok\t3\n"),
    (b"rowid", b"ok\t1\n"),
    (b"abort", b"ok\n"),
    (b"insert\thot\t5", b"ok\t1\n"),
    (b"wait\tjobs:prio>3\thot:prio=5\tjobs", b"ok\t2\n"),
    (b"select\tjobs\t9", b"rows\t0\n"),
    (b"select\thot\t1", b"rows\t1\nrow\t1\t5\n"),
    (b"select\thot\t0", b"rows\t0\n"),
    (b"insert\thot\t6", b"ok\t2\n"),
    (b"select\thot\t9", b"rows\t1\nrow\t1\t5\n"),
    (b"abort", b"ok\n"),
    (b"select\thot\t9", b"rows\t2\nrow\t1\t5\nrow\t2\t6\n"),
    (b"select\thot\t1", b"rows\t1\nrow\t1\t5\n"),
    (b"select\tjobs\t9", b"rows\t1\nrow\t1\t2\ta\n"),
    (b"quit", b"bye\n"),
];

// The rows of each table have numbers of their own, and a wait looks in its tables alone.
const TWO_TABLES_OF_ROWS: [(&[u8], &[u8]); 12] = [
    (b"insert\thot\t1", b"ok\t1\n"),
    (b"insert\tjobs\t2\ta", b"ok\t1\n"),
    (b"insert\thot\t3", b"ok\t2\n"),
    (b"wait\thot:prio=3", b"ok\t1\n"),
    (b"wait\tjobs:prio<>2", b"ok\t0\n"),
    (b"wait\thot:prio=3", b"ok\t0\n"),
    (b"wait\tjobs", b"ok\t1\n"),
    (b"wait\tjobs", b"ok\t0\n"),
    (b"wait\thot", b"ok\t1\n"),
    (b"wait\thot", b"ok\t0\n"),
    (b"insert\thot\t4", b"ok\t3\n"),
    (b"quit", b"bye\n"),
];

// The oldest row that meets the condition is taken, and an older row stays where it is.
const BY_PRIORITY: [(&[u8], &[u8]); 10] = [
    (b"insert\tjobs\t1\ta", b"ok\t1\n"),
    (b"insert\tjobs\t9\tb", b"ok\t2\n"),
    (b"insert\tjobs\t5\tc", b"ok\t3\n"),
    (b"wait\tjobs:prio>=5", b"ok\t1\n"),
    (b"wait\tjobs:prio=9", b"ok\t0\n"),
    (b"wait\tjobs:prio>=5", b"ok\t1\n"),
    (b"wait\tjobs:prio>=5", b"ok\t0\n"),
    (b"wait\tjobs:prio=1", b"ok\t1\n"),
    (b"end", b"ok\n"),
    (b"quit", b"bye\n"),
];

const VALUES: [(&[u8], &[u8]); 9] = [
    (b"insert\tjobs\t-9223372036854775808\t", b"ok\t1\n"),
    (
        b"insert\tjobs\t9223372036854775807\t\\\\\\t\\n\\r",
        b"ok\t2\n",
    ),
    (b"insert\tjobs\t0\t'", b"ok\t3\n"),
    (
        b"wait\tjobs:body='\\\\\\t\\n\\r' and prio=9223372036854775807",
        b"ok\t1\n",
    ),
    (b"wait\tjobs:prio=0 and body=''''", b"ok\t1\n"),
    (b"wait\tjobs:", b"ok\t1\n"),
    (b"end", b"ok\n"),
    (b"wait\tjobs", b"ok\t0\n"),
    (b"quit", b"bye\n"),
];

// Neither a quotient without a value nor a product past 128 bits meets a condition.
const ABSENT: [(&[u8], &[u8]); 9] = [
    (b"insert\tt\t3", b"ok\t1\n"),
    (b"wait\tt:10/(n-3)>0\t=0", b"ok\t0\n"),
    (b"wait\tt:not (10/(n-3)>0)\t=0", b"ok\t0\n"),
    (b"wait\tt\t=0", b"ok\t1\n"),
    (b"end", b"ok\n"),
    (b"insert\tt\t9223372036854775807", b"ok\t2\n"),
    (b"wait\tt:n*n*n>0\t=0", b"ok\t0\n"),
    (b"wait\tt:n*n>0\t=0", b"ok\t1\n"),
    (b"quit", b"bye\n"),
];

fn append(rt: &impl Abort, bytes: &mut Vec<u8>, more: &[u8]) {
    assert!(rt; bytes.extend_from_slice(more).is_ok());
}

// Lines of one session, each with its reply, the last of which is `bye`.
fn check_lines(
    rt: &impl Abort,
    alloc: Global,
    definitions: &[u8],
    first: &[(&[u8], &[u8])],
    lines: &[(&[u8], &[u8])],
) {
    let mut input = Vec::new(alloc);
    let mut replies = Vec::new(alloc);
    for (line, reply) in first.iter().chain(lines) {
        append(rt, &mut input, line);
        append(rt, &mut input, b"\n");
        append(rt, &mut replies, reply);
    }
    let talk = Talk {
        definitions,
        input: &input,
        replies: &replies,
        end: SessionEnd::Quit,
    };
    check_all(rt, alloc, &talk);
}

#[test]
fn replies(rt: HostRuntime) {
    for lines in [
        LISTS.as_slice(),
        TWO_TABLES_OF_ROWS.as_slice(),
        BY_PRIORITY.as_slice(),
        VALUES.as_slice(),
    ] {
        // No refused line changes what comes of those behind it.
        check_lines(&rt, rt.alloc(), TWO_TABLES, &REFUSALS, lines);
    }
    check_lines(&rt, rt.alloc(), ONE_NUMBER, &[], &ABSENT);
}

// These bytes, so many of the letter a, and the last bytes.
fn long_input(rt: &impl Abort, alloc: Global, front: &[u8], count: usize, last: &[u8]) -> Vec<u8> {
    let mut input = Vec::new(alloc);
    append(rt, &mut input, front);
    let letters = Vec::from_elem(alloc, b'a', count).expect(rt, "memory");
    append(rt, &mut input, &letters);
    append(rt, &mut input, last);
    input
}

const INSERT: &[u8] = b"insert\tjobs\t1\t";

const TOO_LONG: &[u8] = b"err\t60\tline too long\n";

const PARTIAL: &[u8] = b"err\t61\tpartial line\n";

// What stands before the letters, how many there are, what stands behind them, and what comes of it.
const LONG: [(&[u8], usize, &[u8], &[u8], SessionEnd); 10] = [
    (INSERT, 65_535, b"\n", b"ok\t1\n", SessionEnd::Ended),
    (
        INSERT,
        65_536,
        b"\n",
        b"err\t22\tbad value\t2\n",
        SessionEnd::Ended,
    ),
    (
        b"wait\tjobs:body='",
        1_017,
        b"'\n",
        b"ok\t0\n",
        SessionEnd::Ended,
    ),
    (
        b"wait\tjobs:body='",
        1_018,
        b"'\n",
        b"err\t30\tcondition too long\t1\t1024\n",
        SessionEnd::Ended,
    ),
    (b"", 4_194_304, b"", TOO_LONG, SessionEnd::TooLong),
    (b"", 4_194_303, b"\n", UNKNOWN, SessionEnd::Ended),
    (b"", 4_194_303, b"", PARTIAL, SessionEnd::Partial(4_194_303)),
    (b"", 4_194_304, b"\n", TOO_LONG, SessionEnd::TooLong),
    (
        b"",
        4_194_304,
        b"\nend\nquit\n",
        TOO_LONG,
        SessionEnd::TooLong,
    ),
    (
        b"insert\tjobs\tx\t\\q",
        4_194_200,
        b"\n",
        b"err\t14\tbad escape\t3\n",
        SessionEnd::Ended,
    ),
];

#[test]
fn long_lines(rt: HostRuntime) {
    for (front, count, last, replies, end) in LONG {
        let alloc = rt.alloc();
        let input = long_input(&rt, alloc, front, count, last);
        let talk = Talk {
            definitions: b"",
            input: &input,
            replies,
            end,
        };
        for most in [4096, 100_000_000] {
            check_pieces(&rt, alloc, &talk, most, &mut Never::new());
        }
    }
}

const ONE_TEXT: &[u8] = b"[[table]]\nname = \"notes\"\ncolumns = [\"note text\"]\n";

// A text alone in its row may be as long as in any other row, and is shown whole.
#[test]
fn long_texts_alone(rt: HostRuntime) {
    let alloc = rt.alloc();
    let input = long_input(
        &rt,
        alloc,
        b"insert\tnotes\t",
        65_535,
        b"\nselect\tnotes\t1\nquit\n",
    );
    let replies = long_input(&rt, alloc, b"ok\t1\nrows\t1\nrow\t1\t", 65_535, b"\nbye\n");
    let talk = Talk {
        definitions: ONE_TEXT,
        input: &input,
        replies: &replies,
        end: SessionEnd::Quit,
    };
    check_pieces(&rt, alloc, &talk, 4096, &mut Never::new());
}

const SIXTEEN_TEXTS: &[u8] =
    b"[[table]]\nname = \"texts\"\ncolumns = [\"a text\", \"b text\", \"c text\", \"d text\", \"e text\", \"f text\", \"g text\", \"h text\", \"i text\", \"j text\", \"k text\", \"l text\", \"m text\", \"n text\", \"o text\", \"p text\"]\n";

// An insert of fifteen texts of 65,535 bytes and one of so many more.
fn append_row(rt: &impl Abort, input: &mut Vec<u8>, letters: &[u8], last: usize) {
    append(rt, input, b"insert\ttexts");
    for _ in 0..15 {
        append(rt, input, b"\t");
        append(rt, input, &letters[..65_535.min(letters.len())]);
    }
    append(rt, input, b"\t");
    append(rt, input, &letters[..last.min(letters.len())]);
    append(rt, input, b"\n");
}

const FULL: &[u8] =
    b"err\t23\trow too long\nerr\t22\tbad value\t16\nerr\t42\ttable bytes\t33554432\nok\t1\nok\nok\t33\nerr\t42\ttable bytes\t33554432\n";

// 32 rows of 1,048,576 bytes are all that a table takes, and one that ended makes room for another.
#[test]
fn full_tables(rt: HostRuntime) -> Result<(), Fail> {
    let alloc = rt.alloc();
    let letters = Vec::from_elem(alloc, b'a', 65_536)?;
    let mut input = Vec::new(alloc);
    let mut replies = Vec::new(alloc);
    for number in 1..=32 {
        append_row(&rt, &mut input, &letters, 65_487);
        let reply = format!(in alloc; "ok\t{number}\n")?;
        append(&rt, &mut replies, reply.as_bytes());
    }
    append_row(&rt, &mut input, &letters, 65_488);
    append_row(&rt, &mut input, &letters, 65_536);
    append_row(&rt, &mut input, &letters, 0);
    append(&rt, &mut input, b"wait\ttexts\nend\n");
    append_row(&rt, &mut input, &letters, 65_487);
    append_row(&rt, &mut input, &letters, 0);
    append(&rt, &mut replies, FULL);
    let talk = Talk {
        definitions: SIXTEEN_TEXTS,
        input: &input,
        replies: &replies,
        end: SessionEnd::Ended,
    };
    check_pieces(&rt, alloc, &talk, 4096, &mut Never::new());
    Ok(())
}

fn name(call: &Call) -> &'static str {
    match call {
        Call::Opened(_) => "Opened",
        Call::Open => "Open",
        Call::Insert(_, _) => "Insert",
        Call::Look(_) => "Look",
        Call::End => "End",
        Call::Abort => "Abort",
        Call::RowId => "RowId",
        Call::Select(_, _) => "Select",
        Call::Close => "Close",
        Call::Sync => "Sync",
    }
}

// All entries are of caller 0, and all but the first of session 1.
fn check_history(rt: &impl Abort, history: &[Entry], wanted: &[&str]) {
    assert_eq!(rt; history.len(), wanted.len());
    for (entry, wanted) in history.iter().zip(wanted) {
        let session = if *wanted == "Opened" { 0 } else { 1 };
        assert_eq!(rt; name(&entry.call), *wanted);
        assert_eq!(rt; entry.caller, 0);
        assert_eq!(rt; entry.session, session);
    }
}

const HISTORIES: [(&[u8], &[&str]); 4] = [
    (b"", &["Opened", "Open", "Close"]),
    (
        b"insert\tjobs\t7\ta\ninsert\tjobs\t8\tb\nwait\tjobs\nwait\tjobs\nrowid\nquit\n",
        &[
            "Opened", "Open", "Insert", "Sync", "Insert", "Sync", "Look", "End", "Look", "Sync",
            "RowId", "Close",
        ],
    ),
    (
        b"wait\tjobs\nwait\tjobs\nend\nend\njump\nrow",
        &[
            "Opened", "Open", "Look", "End", "Look", "End", "End", "Close",
        ],
    ),
    (
        b"insert\tjobs\t7\ta\nwait\tjobs\nabort\nselect\tjobs\t1\nselect\tmail\t1\nwait\tjobs\nend\nabort\n",
        &[
            "Opened", "Open", "Insert", "Sync", "Look", "Abort", "Select", "Look", "End", "Sync",
            "Abort", "Close",
        ],
    ),
];

#[test]
fn histories(rt: HostRuntime) {
    let alloc = rt.alloc();
    for (input, wanted) in HISTORIES {
        let mut source = in_pieces(&rt, alloc, input, &[], 4096);
        let past = hold(&rt, alloc, b"", &mut source, &[], &mut Turns::new(5));
        check_history(&rt, past.desk.history(), wanted);
    }
}

// The reads of at most 20 bytes and the writes with these numbers fail.
#[derive(Clone, Copy)]
struct Faulty {
    input: &'static [u8],
    reads: &'static [u64],
    writes: &'static [u64],
    replies: &'static [u8],
    end: SessionEnd,
    history: &'static [&'static str],
}

const FAULTY: [Faulty; 5] = [
    Faulty {
        input: b"insert\tjobs\t7\ta\nwait\tjobs\n",
        reads: &[2],
        writes: &[],
        replies: b"ok\t1\n",
        end: SessionEnd::ReadFault,
        history: &["Opened", "Open", "Insert", "Sync", "Close"],
    },
    Faulty {
        input: b"quit\n",
        reads: &[1],
        writes: &[],
        replies: b"",
        end: SessionEnd::ReadFault,
        history: &["Opened", "Open", "Close"],
    },
    Faulty {
        input: b"insert\tjobs\t7\ta\nend\n",
        reads: &[],
        writes: &[1],
        replies: b"",
        end: SessionEnd::WriteFault,
        history: &["Opened", "Open", "Insert", "Sync", "Close"],
    },
    Faulty {
        input: b"wait\tjobs\nend",
        reads: &[],
        writes: &[2],
        replies: b"ok\t0\n",
        end: SessionEnd::WriteFault,
        history: &["Opened", "Open", "Look", "Close"],
    },
    Faulty {
        input: b"quit\n",
        reads: &[],
        writes: &[1],
        replies: b"",
        end: SessionEnd::WriteFault,
        history: &["Opened", "Open", "Close"],
    },
];

#[test]
fn faults(rt: HostRuntime) {
    let alloc = rt.alloc();
    for case in FAULTY {
        let mut source = in_pieces(&rt, alloc, case.input, case.reads, 20);
        let mut patience = Never::new();
        let past = hold(&rt, alloc, b"", &mut source, case.writes, &mut patience);
        assert_eq!(rt; past.end, case.end);
        assert_eq!(rt; past.sink.bytes(), case.replies);
        check_history(&rt, past.desk.history(), case.history);
    }
}

const ROW_ID: &[u8] = b"rowid\n";

const FULL_HISTORY: &[u8] = b"err\t70\thistory full\t1048572\n";

// Each command but to quit is refused alike, and a line that spells none by its code.
const LINES_WHEN_FULL: [(&[u8], &[u8]); 9] = [
    (b"rowid", FULL_HISTORY),
    (b"insert\tjobs\t1\ta", FULL_HISTORY),
    (b"wait\tjobs\t=0", FULL_HISTORY),
    (b"end", FULL_HISTORY),
    (b"abort", FULL_HISTORY),
    (b"select\tjobs\t1", FULL_HISTORY),
    (b"insert\tmail\t1", b"err\t21\tno table\t1\n"),
    (b"rowid", FULL_HISTORY),
    (b"quit", b"bye\n"),
];

const FULL_BEFORE: &[u8] = b"err\t70\thistory full\t1048573\n";

// No session is opened on a full history: its input is not read, and it leaves no entry.
fn check_refused(
    rt: &impl Abort,
    alloc: Global,
    desk: &mut OneDesk,
    failing: &[u64],
    written: &[u8],
    end: SessionEnd,
)
    requires { desk.old.current ≡ None }
    ensures { desk.new.current ≡ None }
{
    let mut source = in_pieces(rt, alloc, b"quit\n", &[1], 20);
    let mut sink = MemorySink::new(alloc, failing).expect(rt, "memory");
    let ended = session(&(), alloc, desk, &mut source, &mut sink, &mut Never::new());
    assert_eq!(rt; ended, end);
    assert_eq!(rt; sink.bytes(), written);
    assert_eq!(rt; desk.history().len(), 1_048_573);
}

// A history takes 1,048,570 such lines behind an opening, and the next one is refused.
#[test]
fn full_histories(rt: HostRuntime) {
    let alloc = rt.alloc();
    let mut input = Vec::new(alloc);
    let mut replies = Vec::new(alloc);
    for _ in 0..1_048_570 {
        append(&rt, &mut input, ROW_ID);
        append(&rt, &mut replies, NOT_OWNER);
    }
    for (line, reply) in LINES_WHEN_FULL {
        append(&rt, &mut input, line);
        append(&rt, &mut input, b"\n");
        append(&rt, &mut replies, reply);
    }
    let mut source = in_pieces(&rt, alloc, &input, &[], 100_000_000);
    let past = hold(&rt, alloc, b"", &mut source, &[], &mut Never::new());
    assert!(rt; past.sink.bytes() == replies.as_slice());
    assert_eq!(rt; past.end, SessionEnd::Quit);
    let Past { mut desk, .. } = past;
    let end = SessionEnd::Worn(1_048_573);
    check_refused(&rt, alloc, &mut desk, &[], FULL_BEFORE, end);
    check_refused(&rt, alloc, &mut desk, &[1], b"", SessionEnd::WriteFault);
}
