ghost use Rattle.std.specs.Prelude.{◌≡◌, ◌≢◌, ◌<◌, ◌≤◌, ◌⊎◌, ◌↔◌, IsTrue, codes};
ghost use Rattle.q4_flow.specs.Flow.{Rose};
ghost use Rattle.q4_tool.specs.declared.definitions.Undefined.TheVariants as undefined;
ghost use Rattle.q4_tool.specs.Definitions.{undefined_line, undefined_status};
ghost use Rattle.q4_tool.specs.Tool.{AreWord, AreRun, ArePlay, Asks, Prints, Ran, Played, Defined, Says, status_of, play_status};

use crate::definitions::{Undefined, fault_line, read_definitions};
use q4_def::Defs;
use q4_flow::{Sink, Source, WriteFailed};
use q4_machine::{Never, OneDesk};
use q4_play::{PlayEnd, play};
use q4_session::{SessionEnd, session};
use q4_value::NoMemory;
use std::alloc::Global;

/// What is written for want of memory.
const OUT_OF_MEMORY: &[u8] = b"out of memory\n";

/// All that `q4` does with these words, this input, this file of definitions and this output. It answers the status, as
/// docs/PROTOCOL.md lists them.
pub fn tool<S: Source, F: Source, W: Sink>(
    alloc: Global,
    words: &[String],
    input: &mut S,
    definitions: &mut F,
    output: &mut W,
) -> u8
    ensures run { AreRun words.now → Defined
        (F.left definitions.old) (F.left definitions.new) (IsTrue (F.ended definitions.new)) (F.faults definitions.old) (F.faults definitions.new)
        (λ defs. Ran defs (S.left input.old) (S.left input.new) (IsTrue (S.ended input.new)) (input.new ≡ input.old) (W.written output.old) (W.written output.new) result)
        (input.new ≡ input.old) (W.written output.old) (W.written output.new) result }
    ensures play { ArePlay words.now → Defined
        (F.left definitions.old) (F.left definitions.new) (IsTrue (F.ended definitions.new)) (F.faults definitions.old) (F.faults definitions.new)
        (λ defs. Played defs (S.left input.old) (S.left input.new) (IsTrue (S.ended input.new)) (W.written output.old) (W.written output.new) result)
        (input.new ≡ input.old) (W.written output.old) (W.written output.new) result }
    ensures other { (AreRun words.now → ⊥) → (ArePlay words.now → ⊥) → Says (codes "words\n") 2 (input.new ≡ input.old) (W.written output.old) (W.written output.new) result }
    ensures unread { (AreRun words.now → ⊥) → (ArePlay words.now → ⊥) → definitions.new ≡ definitions.old }
    ensures read_fault { result ≡ 8 → Rose (S.faults input.old) (S.faults input.new) ⊎ Rose (F.faults definitions.old) (F.faults definitions.new) }
    ensures read_faults { S.faults input.old < S.faults input.new → result ≡ 8 }
    ensures read_later { S.faults input.old ≤ S.faults input.new }
    ensures definitions_faults { F.faults definitions.old < F.faults definitions.new → (result ≡ 8) ⊎ (result ≡ 7) }
    ensures definitions_later { F.faults definitions.old ≤ F.faults definitions.new }
    ensures write_fault { result ≡ 7 → Rose (W.faults output.old) (W.faults output.new) }
    ensures write_faults { W.faults output.old < W.faults output.new → result ≡ 7 }
    ensures write_later { W.faults output.old ≤ W.faults output.new }
{
    let Some(work) = work_of(words) else {
        return say(b"words\n", 2, output);
    };
    let defs = match read_definitions(alloc, definitions) {
        Ok(defs) => defs,
        Err(why) => return refuse(alloc, why, output),
    };
    match work {
        Work::Run => run(alloc, defs, input, output),
        Work::Play => run_play(alloc, defs, input, output),
    }
}

// One session over empty tables of these definitions.
fn run<S: Source, W: Sink>(alloc: Global, defs: Defs, input: &mut S, output: &mut W) -> u8
    ensures ran { Ran defs (S.left input.old) (S.left input.new) (IsTrue (S.ended input.new)) (input.new ≡ input.old) (W.written output.old) (W.written output.new) result
        ⊎ Says (undefined_line undefined.Memory) 9 (input.new ≡ input.old) (W.written output.old) (W.written output.new) result }
    ensures read_fault { result ≡ 8 → Rose (S.faults input.old) (S.faults input.new) }
    ensures read_faults { S.faults input.old < S.faults input.new → result ≡ 8 }
    ensures read_later { S.faults input.old ≤ S.faults input.new }
    ensures write_fault { result ≡ 7 → Rose (W.faults output.old) (W.faults output.new) }
    ensures write_faults { W.faults output.old < W.faults output.new → result ≡ 7 }
    ensures write_later { W.faults output.old ≤ W.faults output.new }
{
    match OneDesk::new(alloc, defs) {
        Ok(mut desk) => {
            let mut patience = Never::new();
            let end = session(&(), alloc, &mut desk, input, output, &mut patience);
            let _history = desk.history();
            status(end)
        }
        Err(NoMemory) => say(OUT_OF_MEMORY, 9, output),
    }
}

// Many sessions over empty tables of these definitions.
fn run_play<S: Source, W: Sink>(alloc: Global, defs: Defs, input: &mut S, output: &mut W) -> u8
    ensures played { Played defs (S.left input.old) (S.left input.new) (IsTrue (S.ended input.new)) (W.written output.old) (W.written output.new) result
        ⊎ Says (undefined_line undefined.Memory) 9 (input.new ≡ input.old) (W.written output.old) (W.written output.new) result }
    ensures read_fault { result ≡ 8 → Rose (S.faults input.old) (S.faults input.new) }
    ensures read_faults { S.faults input.old < S.faults input.new → result ≡ 8 }
    ensures read_later { S.faults input.old ≤ S.faults input.new }
    ensures write_fault { result ≡ 7 → Rose (W.faults output.old) (W.faults output.new) }
    ensures write_faults { W.faults output.old < W.faults output.new → result ≡ 7 }
    ensures write_later { W.faults output.old ≤ W.faults output.new }
{
    match OneDesk::new(alloc, defs) {
        Ok(mut desk) => {
            let mut patience = Never::new();
            let end = play(&(), alloc, &mut desk, input, output, &mut patience);
            let _history = desk.history();
            play_status(end)
        }
        Err(NoMemory) => say(OUT_OF_MEMORY, 9, output),
    }
}

// Says why there are no definitions.
fn refuse<W: Sink>(alloc: Global, why: Undefined, output: &mut W) -> u8
    ensures said { Prints (undefined_line why) (undefined_status why) (W.written output.old) (W.written output.new) result
        ⊎ ((why ≢ undefined.ReadFault) × Prints (undefined_line undefined.Memory) 9 (W.written output.old) (W.written output.new) result) }
    ensures read_fault { result ≡ 8 → why ≡ undefined.ReadFault }
    ensures read_faults { why ≡ undefined.ReadFault → (result ≡ 8) ⊎ (result ≡ 7) }
    ensures write_fault { result ≡ 7 → Rose (W.faults output.old) (W.faults output.new) }
    ensures write_faults { W.faults output.old < W.faults output.new → result ≡ 7 }
    ensures write_later { W.faults output.old ≤ W.faults output.new }
{
    match why {
        Undefined::Faulty(fault) => match fault_line(alloc, fault) {
            Ok(line) => say(line.as_bytes(), 3, output),
            Err(_) => say(OUT_OF_MEMORY, 9, output),
        },
        Undefined::TooLong => say(b"definitions: too long\n", 3, output),
        Undefined::ReadFault => say(b"read fault\n", 8, output),
        Undefined::Memory => say(OUT_OF_MEMORY, 9, output),
    }
}

// Writes the line; after a failed write the status is 7.
fn say<W: Sink>(line: &[u8], status: u8, output: &mut W) -> u8
    requires { status ≢ 7 }
    ensures said { Prints line.now status (W.written output.old) (W.written output.new) result }
    ensures write_fault { result ≡ 7 → Rose (W.faults output.old) (W.faults output.new) }
    ensures write_faults { W.faults output.old < W.faults output.new → result ≡ 7 }
    ensures write_later { W.faults output.old ≤ W.faults output.new }
    ensures status { (result ≡ status) ⊎ (result ≡ 7) }
{
    match output.write(line) {
        Ok(()) => status,
        Err(WriteFailed) => 7,
    }
}

fn status(end: SessionEnd) -> u8
    ensures { result ≡ status_of end }
{
    match end {
        SessionEnd::Quit => 0,
        SessionEnd::Ended => 0,
        SessionEnd::Partial(_) => 6,
        SessionEnd::TooLong => 6,
        SessionEnd::ReadFault => 8,
        SessionEnd::WriteFault => 7,
        SessionEnd::Worn(_) => 10,
        SessionEnd::Memory => 9,
    }
}

fn play_status(end: PlayEnd) -> u8
    ensures { result ≡ play_status end }
{
    match end {
        PlayEnd::Ended => 0,
        PlayEnd::Partial(_) => 6,
        PlayEnd::TooLong => 6,
        PlayEnd::ReadFault => 8,
        PlayEnd::WriteFault => 7,
        PlayEnd::Worn(_) => 10,
        PlayEnd::Memory => 9,
    }
}

/// What the words ask for.
#[derive(Clone, Copy, PartialEq, Eq)]
enum Work {
    /// One session.
    Run,
    /// Many sessions, each behind its label.
    Play,
}

fn work_of(words: &[String]) -> Option<Work>
    ensures { Asks words.now result }
{
    if is_word(words, "run") {
        return Some(Work::Run);
    }
    if is_word(words, "play") {
        return Some(Work::Play);
    }
    None
}

fn is_word(words: &[String], name: &str) -> bool
    ensures { IsTrue result ↔ AreWord name.now words.now }
{
    match words {
        [word] => word.as_str() == name,
        _ => false,
    }
}
