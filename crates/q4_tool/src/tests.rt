ghost use Rattle.std.specs.Prelude.{Some, length};

use super::*;
use q4_flow::{MemorySink, MemorySource, ReadFailed, Source};
use std::alloc::Global;
use std::process::Abort;
use std::test::*;

// Hands on what a source in memory gives, at most so many bytes by one read.
#[derive(Drop)]
struct Pieces {
    inner: MemorySource,
    most: usize,
}

impl Source for Pieces {
    ghost left = { λ p. Some p.inner.left };

    ghost ended = { λ p. p.inner.ended };

    ghost faults = { λ p. p.inner.faults };

    ghost reads = { λ p. length p.inner.left };

    fn read(&mut self, into: &mut [u8]) -> Result<usize, ReadFailed> {
        let room = into.len().min(self.most.max(1));
        self.inner.read(&mut into[..room])
    }
}

fn at_once(rt: &impl Abort, alloc: Global, bytes: &[u8]) -> MemorySource {
    MemorySource::new(alloc, bytes, &[]).expect(rt, "memory")
}

fn in_pieces(rt: &impl Abort, alloc: Global, bytes: &[u8], failing: &[u64], most: usize) -> Pieces {
    let inner = MemorySource::new(alloc, bytes, failing).expect(rt, "memory");
    Pieces { inner, most }
}

// What the tool leaves: what it wrote, and its status.
#[derive(Drop)]
struct Done {
    sink: MemorySink,
    status: u8,
}

// The tool, with an output of which these writes fail.
fn run_tool<S: Source, F: Source>(
    rt: &impl Abort,
    alloc: Global,
    words: &[&str],
    source: &mut S,
    definitions: &mut F,
    failing: &[u64],
) -> Done {
    let mut owned = Vec::new(alloc);
    for word in words {
        let word = String::from_str(alloc, word).expect(rt, "memory");
        assert!(rt; owned.push(word).is_ok());
    }
    let mut sink = MemorySink::new(alloc, failing).expect(rt, "memory");
    let status = tool(alloc, &owned, source, definitions, &mut sink);
    Done { sink, status }
}

fn check_done(rt: &impl Abort, done: &Done, written: &[u8], status: u8) {
    assert_eq!(rt; done.sink.bytes(), written);
    assert_eq!(rt; done.status, status);
}

const TWO_TABLES: &[u8] =
    b"[[table]]\nname = \"jobs\"\ncolumns = [\"prio int\", \"body text\"]\n\n[[table]]\nname = \"hot\"\ncolumns = [\"prio int\"]\n";

fn append(rt: &impl Abort, bytes: &mut Vec<u8>, more: &[u8]) {
    assert!(rt; bytes.extend_from_slice(more).is_ok());
}

const BAD_KIND: &[u8] =
    b"[[table]]\nname = \"jobs\"\ncolumns = [\"prio integer\", \"body text\"]\n\n[[table]]\nname = \"hot\"\ncolumns = [\"prio int\"]\n";

// A file of definitions, and the line of its fault.
const FAULTS: [(&[u8], &[u8]); 8] = [
    (BAD_KIND, b"definitions: bad kind 1 1\n"),
    (b"\xff", b"definitions: not toml\n"),
    (b"# no table\n", b"definitions: shape 0\n"),
    (
        b"table = [{name = 't', columns = ['n int'], key = 1}]",
        b"definitions: shape 1\n",
    ),
    (
        b"table = [{name = 't', columns = ['n int']}, {name = 'u', columns = []}]",
        b"definitions: count 2\n",
    ),
    (
        b"table = [{name = 't', columns = ['n int', 'and text']}]",
        b"definitions: bad name 1 2\n",
    ),
    (
        b"table = [{name = 't', columns = ['n int']}, {name = 't', columns = ['n']}]",
        b"definitions: twice 2 0\n",
    ),
    (
        b"table = [{name = 't', columns = ['n  int']}]",
        b"definitions: bad kind 1 1\n",
    ),
];

// The tool writes the line, or nothing where its write fails, and reads nothing of its input.
fn check_fault(
    rt: &impl Abort,
    alloc: Global,
    bytes: &[u8],
    failing: &[u64],
    line: &[u8],
    status: u8,
) {
    for most in [20, 4096] {
        let mut source = in_pieces(rt, alloc, b"quit\n", &[1], 20);
        let mut definitions = in_pieces(rt, alloc, bytes, failing, most);
        let done = run_tool(rt, alloc, &["run"], &mut source, &mut definitions, &[]);
        check_done(rt, &done, line, status);
    }
    let mut source = in_pieces(rt, alloc, b"quit\n", &[1], 20);
    let mut definitions = in_pieces(rt, alloc, bytes, failing, 20);
    let done = run_tool(rt, alloc, &["run"], &mut source, &mut definitions, &[1]);
    check_done(rt, &done, b"", 7);
}

#[test]
fn faults_of_definitions(rt: HostRuntime) {
    for (bytes, line) in FAULTS {
        check_fault(&rt, rt.alloc(), bytes, &[], line, 3);
    }
    // Of two reads or more the second fails, also where the first gave a fault.
    for (bytes, failing) in [(TWO_TABLES, 2), (b"\xff".as_slice(), 2), (b"", 1)] {
        check_fault(&rt, rt.alloc(), bytes, &[failing], b"read fault\n", 8);
    }
}

// These bytes, so many of the letter a, and the last bytes.
fn long_input(rt: &impl Abort, alloc: Global, front: &[u8], count: usize, last: &[u8]) -> Vec<u8> {
    let mut input = Vec::new(alloc);
    append(rt, &mut input, front);
    let letters = Vec::from_elem(alloc, b'a', count).expect(rt, "memory");
    append(rt, &mut input, &letters);
    append(rt, &mut input, last);
    input
}

// A comment makes the file as long as it may be, or a byte longer.
#[test]
fn long_definitions(rt: HostRuntime) {
    let alloc = rt.alloc();
    let letters = 1_048_576 - TWO_TABLES.len() - 2;
    for (more, replies, status) in [
        (0, b"bye\n".as_slice(), 0),
        (1, b"definitions: too long\n", 3),
    ] {
        let mut bytes = long_input(&rt, alloc, b"#", letters + more, b"\n");
        append(&rt, &mut bytes, TWO_TABLES);
        let mut source = at_once(&rt, alloc, b"quit\n");
        let mut definitions = in_pieces(&rt, alloc, &bytes, &[], 1_000_000);
        let done = run_tool(&rt, alloc, &["run"], &mut source, &mut definitions, &[]);
        check_done(&rt, &done, replies, status);
    }
}

// What stands before the letters, how many there are, what stands behind them, what is written, and the status.
const RUNS: [(&[u8], usize, &[u8], &[u8], u8); 8] = [
    (b"", 0, b"", b"", 0),
    (
        b"insert\tjobs\t7\t",
        3,
        b"\nwait\tjobs\nrowid\nselect\tjobs\t10\nend\nquit\nend\n",
        b"ok\t1\nok\t1\nok\t1\nrows\t1\nrow\t1\t7\taaa\nok\nbye\n",
        0,
    ),
    // No time is waited.
    (
        b"wait\tjobs\t=3600\n",
        0,
        b"end\nabort\n",
        b"ok\t0\nok\nerr\t31\tnot in owner mode\n",
        0,
    ),
    (b"", 2, b"\n", b"err\t11\tunknown command\n", 0),
    (b"end", 0, b"", b"err\t61\tpartial line\n", 6),
    (b"quit\nend", 0, b"", b"bye\n", 0),
    (b"", 4_194_304, b"", b"err\t60\tline too long\n", 6),
    (b"", 4_194_303, b"", b"err\t61\tpartial line\n", 6),
];

const OPTIONAL: &[u8] = b"[[table]]\nname = \"t\"\ncolumns = [\"n int null\", \"s text null\"]\n";

// A line over the table of optional columns, and its reply.
const NULLS: [(&[u8], &[u8]); 14] = [
    (b"insert\tt\t\\N\ta\n", b"ok\t1\n"),
    (b"insert\tt\t0\t\\N\n", b"ok\t2\n"),
    (b"wait\tt:not n>5\t=0\n", b"ok\t1\n"),
    (b"rowid\n", b"ok\t2\n"),
    (b"select\tt\t9\n", b"rows\t1\nrow\t2\t0\t\\N\n"),
    (b"abort\n", b"ok\n"),
    (b"wait\tt:s='a' and n=n\t=0\n", b"ok\t0\n"),
    (b"wait\tt:s<>'a' or n<0\t=0\n", b"ok\t0\n"),
    (b"insert\tt\t\\N\t\\Nx\n", b"err\t14\tbad escape\t3\n"),
    (b"insert\tt\t1\t\\\\N\n", b"ok\t3\n"),
    (b"insert\tt\t\\N\t\\N\n", b"ok\t4\n"),
    (b"insert\tt\t\tx\n", b"err\t22\tbad value\t1\n"),
    (b"abort\n", b"ok\n"),
    (
        b"select\tt\t9\n",
        b"rows\t4\nrow\t1\t\\N\ta\nrow\t2\t0\t\\N\nrow\t3\t1\t\\\\N\nrow\t4\t\\N\t\\N\n",
    ),
];

#[test]
fn nulls(rt: HostRuntime) {
    let alloc = rt.alloc();
    let mut input = Vec::new(alloc);
    let mut replies = Vec::new(alloc);
    for (line, reply) in NULLS {
        append(&rt, &mut input, line);
        append(&rt, &mut replies, reply);
    }
    let mut source = at_once(&rt, alloc, &input);
    let mut definitions = at_once(&rt, alloc, OPTIONAL);
    let done = run_tool(&rt, alloc, &["run"], &mut source, &mut definitions, &[]);
    check_done(&rt, &done, &replies, 0);
    // No column of the built-in table takes null.
    let mut source = at_once(&rt, alloc, b"insert\tjobs\t\\N\ta\n");
    let mut definitions = at_once(&rt, alloc, b"");
    let done = run_tool(&rt, alloc, &["run"], &mut source, &mut definitions, &[]);
    check_done(&rt, &done, b"err\t22\tbad value\t1\n", 0);
}

#[test]
fn runs(rt: HostRuntime) {
    let alloc = rt.alloc();
    for (front, count, last, replies, status) in RUNS {
        let input = long_input(&rt, alloc, front, count, last);
        for most in [4096, 100_000_000] {
            let mut source = in_pieces(&rt, alloc, &input, &[], most);
            let mut definitions = at_once(&rt, alloc, b"");
            let done = run_tool(&rt, alloc, &["run"], &mut source, &mut definitions, &[]);
            check_done(&rt, &done, replies, status);
        }
    }
}

const NOT_OWNER: &[u8] = b"err\t31\tnot in owner mode\n";

// The history takes so many lines behind the opening, and the next one is refused. The run ends as any other.
#[test]
fn full_history(rt: HostRuntime) {
    let alloc = rt.alloc();
    let mut input = Vec::new(alloc);
    let mut replies = Vec::new(alloc);
    for _ in 0..1_048_570 {
        append(&rt, &mut input, b"rowid\n");
        append(&rt, &mut replies, NOT_OWNER);
    }
    append(&rt, &mut input, b"rowid\n");
    append(&rt, &mut replies, b"err\t70\thistory full\t1048572\n");
    let mut source = at_once(&rt, alloc, &input);
    let mut definitions = at_once(&rt, alloc, b"");
    let done = run_tool(&rt, alloc, &["run"], &mut source, &mut definitions, &[]);
    assert!(rt; done.sink.bytes() == replies.as_slice());
    assert_eq!(rt; done.status, 0);
}

const FULL: &[u8] =
    b"ok\t249999\nok\t250000\nerr\t41\ttable full\nok\t1\nok\nok\t250001\nerr\t41\ttable full\nbye\n";

// A table takes 250,000 rows and refuses the next one, until a row was ended.
#[test]
fn full_table(rt: HostRuntime) {
    let alloc = rt.alloc();
    let mut input = Vec::new(alloc);
    for _ in 0..250_001 {
        append(&rt, &mut input, b"insert\tjobs\t1\ta\n");
    }
    append(
        &rt,
        &mut input,
        b"wait\tjobs\nend\ninsert\tjobs\t2\tb\ninsert\tjobs\t3\tc\nquit\n",
    );
    let mut source = at_once(&rt, alloc, &input);
    let mut definitions = at_once(&rt, alloc, b"");
    let done = run_tool(&rt, alloc, &["run"], &mut source, &mut definitions, &[]);
    assert!(rt; done.sink.bytes().ends_with(FULL));
    assert_eq!(rt; done.status, 0);
}

// The reads of at most 20 bytes and the writes with these numbers fail.
const FAULTY: [(&[u8], &[u64], &[u64], &[u8], u8); 5] = [
    (
        b"insert\tjobs\t7\ta\nwait\tjobs\n",
        &[2],
        &[],
        b"ok\t1\n",
        8,
    ),
    (b"quit\n", &[1], &[], b"", 8),
    (b"insert\tjobs\t7\ta\nend\n", &[], &[1], b"", 7),
    (b"wait\tjobs\nend", &[], &[2], b"ok\t0\n", 7),
    (b"quit\n", &[], &[1], b"", 7),
];

#[test]
fn faults(rt: HostRuntime) {
    let alloc = rt.alloc();
    for (input, reads, writes, replies, status) in FAULTY {
        let mut source = in_pieces(&rt, alloc, input, reads, 20);
        let mut definitions = at_once(&rt, alloc, b"");
        let done = run_tool(&rt, alloc, &["run"], &mut source, &mut definitions, writes);
        check_done(&rt, &done, replies, status);
    }
}

// Neither the input nor the definitions are read.
#[test]
fn other_words(rt: HostRuntime) {
    let alloc = rt.alloc();
    let cases: [&[&str]; 8] = [
        &[],
        &["run", "x"],
        &["Run"],
        &["run "],
        &[""],
        &["play", "x"],
        &["run", "play"],
        &["plays"],
    ];
    for words in cases {
        for (failing, written, status) in [
            ([].as_slice(), b"words\n".as_slice(), 2),
            (&[1], b"", 7),
        ] {
            let mut source = in_pieces(&rt, alloc, b"quit\n", &[1], 20);
            let mut definitions = in_pieces(&rt, alloc, b"\xff", &[1], 20);
            let done = run_tool(&rt, alloc, words, &mut source, &mut definitions, failing);
            check_done(&rt, &done, written, status);
        }
    }
}

// What `play` reads and writes, and its status. The last two are the scenarios of the program's data folder, byte by byte.
const PLAYS: [(&[u8], &[u8], u8); 9] = [
    (b"", b"", 0),
    (
        b"1 insert\tjobs\t1\ta\n1 insert\tjobs\t1\tb\n1 wait\tjobs:body='a'\t=0\n2 wait\tjobs:body='a'\t=0\n1 abort\n2 wait\tjobs\t=0\n2 rowid\n",
        b"1 ok\t1\n1 ok\t2\n1 ok\t1\n2 ok\t0\n1 ok\n2 ok\t1\n2 ok\t1\n",
        0,
    ),
    (
        b"1 insert\tjobs\t7\ta\n1 wait\tjobs\t=0\n1\n2 wait\tjobs\t=0\n2 rowid\n",
        b"1 ok\t1\n1 ok\t1\n2 ok\t1\n2 ok\t1\n",
        0,
    ),
    (
        b"0 end\n1 end\n1 quit\n1\n65 end\n",
        b"0 err\t15\tbad label\n1 err\t31\tnot in owner mode\n1 bye\n0 err\t15\tbad label\n",
        0,
    ),
    (
        b"1 end\n1 ",
        b"1 err\t31\tnot in owner mode\n0 err\t61\tpartial line\n",
        6,
    ),
    // Rows of two tables, seen by their owners and by others.
    (
        b"1 insert\thot\t4\n1 insert\tjobs\t2\tb\n2 wait\thot:prio>4\tjobs\thot\t=0\n3 wait\tjobs\thot\t=0\n2 select\tjobs\t9\n3 select\thot\t9\n1 select\thot\t9\n2 abort\n1 select\tjobs\t9\n",
        b"1 ok\t1\n1 ok\t1\n2 ok\t2\n3 ok\t2\n2 rows\t1\n2 row\t1\t2\tb\n3 rows\t1\n3 row\t1\t4\n1 rows\t0\n2 ok\n1 rows\t1\n1 row\t1\t2\tb\n",
        0,
    ),
    // No time is waited.
    (b"7 wait\tjobs\t=3600\n", b"7 ok\t0\n", 0),
    (
        b"1 insert\tjobs\t2\tpaint\n1 insert\tjobs\t9\trepair\n2 wait\tjobs:prio>=5\t=0\n2 rowid\n3 wait\tjobs:body='paint'\tjobs\t=0\n3 rowid\n2 end\n3 end\n1 select\tjobs\t10\n",
        b"1 ok\t1\n1 ok\t2\n2 ok\t1\n2 ok\t2\n3 ok\t1\n3 ok\t1\n2 ok\n3 ok\n1 rows\t0\n",
        0,
    ),
    (
        b"1 insert\tjobs\t5\tresize a.png\n2 wait\tjobs\n3 wait\tjobs\t=0\n2\n3 wait\tjobs\t=0\n3 rowid\n3 end\n1 select\tjobs\t10\n",
        b"1 ok\t1\n2 ok\t1\n3 ok\t0\n3 ok\t1\n3 ok\t1\n3 ok\n1 rows\t0\n",
        0,
    ),
];

#[test]
fn plays(rt: HostRuntime) {
    let alloc = rt.alloc();
    for (input, replies, status) in PLAYS {
        for most in [1, 4096] {
            let mut source = in_pieces(&rt, alloc, input, &[], most);
            let mut definitions = at_once(&rt, alloc, TWO_TABLES);
            let done = run_tool(&rt, alloc, &["play"], &mut source, &mut definitions, &[]);
            check_done(&rt, &done, replies, status);
        }
    }
    let input = long_input(&rt, alloc, b"1 ", 4_194_302, b"");
    let mut source = in_pieces(&rt, alloc, &input, &[], 100_000_000);
    let mut definitions = at_once(&rt, alloc, b"");
    let done = run_tool(&rt, alloc, &["play"], &mut source, &mut definitions, &[]);
    check_done(&rt, &done, b"0 err\t60\tline too long\n", 6);
}

// The reads of at most 20 bytes and the writes with these numbers fail.
const FAULTY_PLAYS: [(&[u8], &[u64], &[u64], &[u8], u8); 3] = [
    (
        b"1 insert\tjobs\t7\ta\n1 wait\tjobs\n",
        &[2],
        &[],
        b"1 ok\t1\n",
        8,
    ),
    (b"1 insert\tjobs\t7\ta\n2 end\n", &[], &[2], b"1 ok\t1\n", 7),
    (b"1", &[], &[1], b"", 7),
];

#[test]
fn faulty_plays(rt: HostRuntime) {
    let alloc = rt.alloc();
    for (input, reads, writes, replies, status) in FAULTY_PLAYS {
        let mut source = in_pieces(&rt, alloc, input, reads, 20);
        let mut definitions = at_once(&rt, alloc, b"");
        let done = run_tool(&rt, alloc, &["play"], &mut source, &mut definitions, writes);
        check_done(&rt, &done, replies, status);
    }
    // Definitions with a fault: nothing is played.
    let mut source = in_pieces(&rt, alloc, b"1 quit\n", &[1], 20);
    let mut definitions = at_once(&rt, alloc, BAD_KIND);
    let done = run_tool(&rt, alloc, &["play"], &mut source, &mut definitions, &[]);
    check_done(&rt, &done, b"definitions: bad kind 1 1\n", 3);
}
