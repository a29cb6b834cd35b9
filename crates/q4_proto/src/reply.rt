ghost use Rattle.std.specs.Prelude.{◌≡◌, ◌≤◌, ◌+◌, ◌++◌, OnOk, OnErr, IsSome, length, codes, decimal};
ghost use Rattle.std.specs.Option.{IsSomeAnd};
ghost use Rattle.q4_flow.specs.Flow.{Took, TookFront, Counts};
ghost use Rattle.q4_proto.specs.Told as told;
ghost use Rattle.q4_proto.specs.Told.{told as seen_as};
ghost use Rattle.q4_proto.specs.Text.{text, text_behind, label_front, code, code_at, code_within, refusal_words, tab_number, fault_code, IsCode, IsOutcome};

use crate::CommandFault;
use crate::rows::put_rows;
use crate::short_line::ShortLine;
use itoa::Buffer;
use q4_cond::CondFault;
use q4_flow::{Sink, WriteFailed};
use q4_machine::Rows;

/// A refusal: its code, and the numbers that the code's line names. The codes stand in docs/PROTOCOL.md.
#[derive(Clone, Copy, Debug, PartialEq, Eq)]
pub struct Code {
    pub number: u16,
    pub first: Option<u64>,
    pub second: Option<u64>,
}

/// What a line is answered.
#[derive(Clone, Copy)]
pub enum Outcome<'a> {
    Ok,
    Number(u64),
    Seen(u64),
    /// The rows that a select shows.
    Rows(&'a Rows),
    Bye,
    Refused(Code),
}

/// The code of a line that spells no command.
pub fn refusal_of(fault: CommandFault) -> Code
    ensures code { result ≡ fault_code fault }
    ensures listed { IsCode result }
{
    match fault {
        CommandFault::NotText => bare(10),
        CommandFault::Unknown => bare(11),
        CommandFault::NotBuilt => bare(19),
        CommandFault::Fields => bare(12),
        CommandFault::Number(field) => at(13, field),
        CommandFault::Escape(field) => at(14, field),
        CommandFault::Entries => bare(25),
        CommandFault::NoTable(field) => at(21, field),
        CommandFault::Cond(entry, fault) => cond_refusal(entry, fault),
        CommandFault::Count(columns) => at(20, columns),
        CommandFault::Value(column) => at(22, column),
        CommandFault::Long => bare(23),
        CommandFault::Memory => bare(90),
    }
}

fn cond_refusal(entry: u32, fault: CondFault) -> Code
    ensures code { result ≡ fault_code (CommandFault.Cond entry fault) }
    ensures listed { IsCode result }
{
    match fault {
        CondFault::Long => within(30, entry, 1024),
        CondFault::At(place) => within(24, entry, place),
        CondFault::Deep(place) => within(27, entry, place),
        CondFault::NoColumn(place) => within(28, entry, place),
        CondFault::Kinds(place) => within(29, entry, place),
        CondFault::Memory => bare(90),
    }
}

fn bare(number: u16) -> Code
    ensures { result ≡ code number }
{
    Code {
        number,
        first: None,
        second: None,
    }
}

fn at(number: u16, first: u32) -> Code
    ensures { result ≡ code_at number first }
{
    Code {
        number,
        first: Some(u64::from(first)),
        second: None,
    }
}

fn within(number: u16, first: u32, second: u32) -> Code
    ensures { result ≡ code_within number first second }
{
    Code {
        number,
        first: Some(u64::from(first)),
        second: Some(u64::from(second)),
    }
}

/// Writes the reply, and takes no memory. A reply of up to 4,096 bytes is one write, and a longer one is written in pieces
/// of 4,096. After a failure a front of it was written.
pub fn put_reply<W: Sink>(outcome: &Outcome, sink: &mut W) -> Result<(), WriteFailed>
    requires { IsOutcome (seen_as outcome.now) }
    ensures all { OnOk result (Took (W.written sink.old) (W.written sink.new) (text (seen_as outcome.now))) }
    ensures front { OnErr result (TookFront (W.written sink.old) (W.written sink.new) (text (seen_as outcome.now))) }
    ensures cause { Counts (W.faults sink.old) (W.faults sink.new) result }
{
    put_reply_behind(None, outcome, sink)
}

/// The same with the label and a space before each line of the reply, where there is a label.
pub fn put_reply_behind<W: Sink>(
    label: Option<u8>,
    outcome: &Outcome,
    sink: &mut W,
) -> Result<(), WriteFailed>
    requires { IsOutcome (seen_as outcome.now) }
    ensures all { OnOk result (Took (W.written sink.old) (W.written sink.new) (text_behind label (seen_as outcome.now))) }
    ensures front { OnErr result (TookFront (W.written sink.old) (W.written sink.new) (text_behind label (seen_as outcome.now))) }
    ensures cause { Counts (W.faults sink.old) (W.faults sink.new) result }
{
    match outcome {
        Outcome::Ok => sink.write(word_line(label, b"ok\n").as_slice()),
        Outcome::Number(number) => sink.write(number_line(label, b"ok\t", *number).as_slice()),
        Outcome::Seen(mark) => sink.write(number_line(label, b"seen\t", *mark).as_slice()),
        Outcome::Rows(rows) => put_rows(label, rows, sink),
        Outcome::Bye => sink.write(word_line(label, b"bye\n").as_slice()),
        Outcome::Refused(code) => sink.write(refusal_line(label, *code).as_slice()),
    }
}

// The label and a space, as the front of a line.
pub(crate) fn label_front(label: Option<u8>) -> ShortLine
    ensures front { result ≡ label_front label }
    ensures short { length result ≤ 21 }
{
    let mut line = ShortLine::new();
    if let Some(label) = label {
        let mut digits = Buffer::new();
        line.put(digits.format(label).as_bytes());
        line.put(b" ");
    }
    line
}

fn word_line(label: Option<u8>, word: &[u8]) -> ShortLine
    requires { length word.now ≤ 8 }
    ensures { result ≡ label_front label ++ word.now }
{
    let mut line = label_front(label);
    line.put(word);
    line
}

pub(crate) fn number_line(label: Option<u8>, word: &[u8], number: u64) -> ShortLine
    requires { length word.now ≤ 8 }
    ensures { result ≡ label_front label ++ word.now ++ decimal number ++ codes "\n" }
{
    let mut digits = Buffer::new();
    let mut line = label_front(label);
    line.put(word);
    line.put(digits.format(number).as_bytes());
    line.put(b"\n");
    line
}

fn refusal_line(label: Option<u8>, code: Code) -> ShortLine
    requires { IsCode code }
    ensures { result ≡ label_front label ++ text (told.Refused code) }
{
    let mut digits = Buffer::new();
    let mut line = label_front(label);
    line.put(b"err\t");
    line.put(digits.format(code.number).as_bytes());
    line.put(b"\t");
    line.put(refusal_words(code.number));
    put_number(&mut line, code.first);
    put_number(&mut line, code.second);
    line.put(b"\n");
    line
}

// Puts a TAB and the number, where there is one.
fn put_number(line: &mut ShortLine, number: Option<u64>)
    requires { length line.old ≤ 96 }
    ensures put { line.new ≡ line.old ++ tab_number number }
    ensures short { length line.new ≤ length line.old + 21 }
{
    if let Some(number) = number {
        let mut digits = Buffer::new();
        line.put(b"\t");
        line.put(digits.format(number).as_bytes());
    }
}

fn refusal_words(number: u16) -> &'static [u8]
    requires { IsSome (refusal_words number) }
    ensures words { IsSomeAnd (refusal_words number) (λ line. line.words ≡ result.now) }
    ensures short { length result.now ≤ 22 }
{
    match number {
        10 => b"not UTF-8",
        11 => b"unknown command",
        12 => b"wrong number of fields",
        13 => b"bad number",
        14 => b"bad escape",
        15 => b"bad label",
        19 => b"not built",
        20 => b"wrong number of values",
        21 => b"no table",
        22 => b"bad value",
        23 => b"row too long",
        24 => b"bad condition",
        25 => b"too many entries",
        27 => b"condition too deep",
        28 => b"no column",
        29 => b"wrong kinds",
        30 => b"condition too long",
        31 => b"not in owner mode",
        32 => b"no owned row",
        41 => b"table full",
        42 => b"table bytes",
        44 => b"numbers used up",
        60 => b"line too long",
        61 => b"partial line",
        70 => b"history full",
        90 => b"out of memory",
        _ => unreachable!(),
    }
}
