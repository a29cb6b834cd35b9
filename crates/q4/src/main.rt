//! `q4`: a tool over queue tables. `q4 run` is one session from the standard input to the standard output, over the
//! tables that `tables.toml` in the working folder defines. `q4 play` is many sessions on such tables, each behind a label.
#![tactic(auto)]

use q4_flow::{FileSource, StdSink, StdSource};
use q4_tool::tool;
use std::process::ExitCode;
use std::{env, io};

/// Want of memory before there is a tool to tell it.
const NO_MEMORY: u8 = 9;

/// The file of definitions, in the working folder.
const DEFINITIONS: &str = "tables.toml";

// The words after the program's name. Words that are not UTF-8 count as none, which is a faulty command line.
fn words(rt: &HostRuntime) -> io::Result<Vec<String>> {
    let mut words = Vec::new(rt.alloc());
    match env::args(rt) {
        Ok(all) => {
            for word in all.skip(1) {
                words.push(word)?;
            }
            Ok(words)
        }
        Err(fault) if fault.kind() == io::ErrorKind::InvalidData => Ok(words),
        Err(fault) => Err(fault),
    }
}

fn main(rt: HostRuntime) -> ExitCode {
    let Ok(words) = words(&rt) else {
        return ExitCode::from(NO_MEMORY);
    };
    let mut input = StdSource::new(rt.stdin());
    let mut definitions = FileSource::open(&rt, DEFINITIONS);
    let mut output = StdSink::new(rt.stdout());
    let status = tool(
        rt.alloc(),
        &words,
        &mut input,
        &mut definitions,
        &mut output,
    );
    ExitCode::from(status)
}
