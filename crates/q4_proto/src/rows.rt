ghost use Rattle.std.specs.Prelude.{◌≡◌, ◌≤◌, ◌++◌, ◌⊎◌, All, length, decimal, OnOk, OnErr};
ghost use Rattle.std.specs.List.{flat_map};
ghost use Rattle.q4_flow.specs.Flow.{Took, TookFront, Counts};
ghost use Rattle.q4_value.specs.Escape.{escaped, escaped_byte, IsFieldByte};
ghost use Rattle.q4_proto.specs.Commands.{spelled_value};
ghost use Rattle.q4_proto.specs.Told as told;
ghost use Rattle.q4_proto.specs.Text.{tab_value, row_line, label_front, text_behind};
ghost use Rattle.q4_proto.specs.Pieces.{writing, Puts};

use crate::pieces::Pieces;
use crate::reply::{label_front, number_line};
use itoa::Buffer;
use memchr::{memchr, memchr3};
use q4_flow::{Sink, WriteFailed};
use q4_machine::{NumberedRow, Rows};
use q4_value::{Row, Value};

// Writes the line of their number, and a line for each row, each behind the label.
pub(crate) fn put_rows<W: Sink>(
    label: Option<u8>,
    rows: &Rows,
    sink: &mut W,
) -> Result<(), WriteFailed>
    ensures all { OnOk result (Took (W.written sink.old) (W.written sink.new) (text_behind label (told.Rows rows.now))) }
    ensures front { OnErr result (TookFront (W.written sink.old) (W.written sink.new) (text_behind label (told.Rows rows.now))) }
    ensures cause { Counts (W.faults sink.old) (W.faults sink.new) result }
{
    let front = label_front(label);
    let first = number_line(label, b"rows\t", u64::from(rows.len()));
    let mut reply = Pieces::new(first.as_slice());
    for shown in rows.as_slice() {
        put_row(&mut reply, sink, front.as_slice(), shown);
    }
    reply.finish(sink)
}

fn put_row<W: Sink>(reply: &mut Pieces, sink: &mut W, front: &[u8], shown: &NumberedRow)
    ensures { Puts (writing (W.written sink.old) (W.faults sink.old) reply.old) (writing (W.written sink.new) (W.faults sink.new) reply.new) (front.now ++ row_line shown.now) }
{
    let mut digits = Buffer::new();
    reply.put(sink, front);
    reply.put(sink, b"row\t");
    reply.put(sink, digits.format(shown.number).as_bytes());
    put_values(reply, sink, &shown.row);
    reply.put(sink, b"\n");
}

fn put_values<W: Sink>(reply: &mut Pieces, sink: &mut W, row: &Row)
    ensures { Puts (writing (W.written sink.old) (W.faults sink.old) reply.old) (writing (W.written sink.new) (W.faults sink.new) reply.new) (flat_map tab_value row.now) }
{
    for place in 0..row.len() {
        let Some(value) = row.at(place) else {
            unreachable!()
        };
        reply.put(sink, b"\t");
        put_value(reply, sink, value);
    }
}

fn put_value<W: Sink>(reply: &mut Pieces, sink: &mut W, value: &Value)
    ensures { Puts (writing (W.written sink.old) (W.faults sink.old) reply.old) (writing (W.written sink.new) (W.faults sink.new) reply.new) (spelled_value value.now) }
{
    match value {
        Value::Int(number) => {
            let mut digits = Buffer::new();
            reply.put(sink, digits.format(*number).as_bytes());
        }
        Value::Word(words) => put_escaped(reply, sink, words.as_str().as_bytes()),
        Value::Null => reply.put(sink, b"\\N"),
    }
}

// Puts the escaped spelling of a text, run by run.
fn put_escaped<W: Sink>(reply: &mut Pieces, sink: &mut W, text: &[u8])
    ensures { Puts (writing (W.written sink.old) (W.faults sink.old) reply.old) (writing (W.written sink.new) (W.faults sink.new) reply.new) (escaped text.now) }
{
    let mut rest = text;
    while let Some(at) = memchr3(b'\t', b'\n', b'\r', rest) {
        put_run(reply, sink, &rest[..at]);
        reply.put(sink, escape_of(rest[at]));
        rest = &rest[at + 1..];
    }
    put_run(reply, sink, rest);
}

// Puts a run without TAB, newline and byte 13, so that its backslashes are all that is escaped.
fn put_run<W: Sink>(reply: &mut Pieces, sink: &mut W, run: &[u8])
    requires { All IsFieldByte run.now }
    ensures { Puts (writing (W.written sink.old) (W.faults sink.old) reply.old) (writing (W.written sink.new) (W.faults sink.new) reply.new) (escaped run.now) }
{
    let mut rest = run;
    while let Some(at) = memchr(b'\\', rest) {
        reply.put(sink, &rest[..at]);
        reply.put(sink, escape_of(b'\\'));
        rest = &rest[at + 1..];
    }
    reply.put(sink, rest);
}

// The escape of a TAB, newline, byte 13 or backslash.
fn escape_of(byte: u8) -> &'static [u8]
    requires { ((byte ≡ 9) ⊎ (byte ≡ 10)) ⊎ ((byte ≡ 13) ⊎ (byte ≡ 92)) }
    ensures { result.now ≡ escaped_byte byte }
{
    match byte {
        b'\t' => b"\\t",
        b'\n' => b"\\n",
        b'\r' => b"\\r",
        _ => b"\\\\",
    }
}
