//! `tmm`: a script of lines in, a reply for each line out. `run` is the whole program, which is
//! what `tmm_program` does over the map of `map_engine`. Below it, `tmm_drive` cuts a source into
//! lines and writes replies, and `tmm_session` answers a line over a map; with the words `demo N`
//! the lines of `demo_gen` are answered instead. The contract of `run` says what its words, the
//! bytes taken, the bytes written and its status have to do with each other.
#![tactic(auto)]

mod run;
#[cfg(test)]
mod tests;

use crate::run::run;
use std::env;
use std::process::ExitCode;
use tmm_io::{StdSink, StdSource};

/// The status where the runtime doesn't give the words.
const NO_WORDS: u8 = 8;

fn main(rt: HostRuntime) -> ExitCode {
    let Ok(words) = words(&rt) else {
        return ExitCode::from(NO_WORDS);
    };
    let mut source = StdSource::make(rt.stdin());
    let mut sink = StdSink::make(rt.stdout());
    let status = run(rt.alloc(), words.as_slice(), &mut source, &mut sink);
    ExitCode::from(status.number())
}

// The words after the program's name.
fn words(rt: &HostRuntime) -> std::io::Result<Vec<String>> {
    let words = env::args(rt)?.skip(1).collect(rt.alloc())?;
    Ok(words)
}
