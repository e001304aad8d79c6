//! The program: `run` of `pull_run` over standard input and output.
#![tactic(auto)]

pub use byte_streams::{Failed, MemorySource, PlainSource, Source, StdSink, StdSource};
use json_values::{List, Text};
pub use pull_generated::{generated_shelf, pull_generated};
pub use pull_run::{Status, Word, run};
pub use pulled_cases::Report;
use std::alloc::Global;
use std::env::{self, Env};
use std::io;
use std::process::ExitCode;

// The command-line arguments after the program's name.
fn arguments<R: Env + Alloc>(rt: &R, alloc: Global) -> io::Result<List<Text>> {
    let mut words = List::new(alloc);
    for word in env::args(rt)?.skip(1) {
        words.push(Text::new(alloc, word.as_str())?)?;
    }
    Ok(words)
}

// What an exit status other than 0 and 1 means, and what to do.
fn advice(status: u8) -> &'static str {
    match status {
        2 =>
            "usage: pull_program with pull, canon, check, lock, lockcheck, review or mirror, each < INPUT, or gen N with N \
             from 1 to 1000",
        3 =>
            "the input is not a case (see crates/recorded_case/README.md for its members), or not what the subcommand reads",
        4 => "the input could not be read",
        5 => "the output could not be written",
        6 => "out of memory",
        7 => "the input has more than 67108864 bytes",
        _ => "",
    }
}

fn main(rt: HostRuntime) -> ExitCode {
    let alloc = rt.alloc();
    let status = match arguments(&rt, alloc) {
        Ok(words) => {
            let mut source = StdSource::new(rt.stdin());
            let mut sink = StdSink::new(rt.stdout());
            run(alloc, words.as_slice(), &mut source, &mut sink)
        }
        Err(error) if error.kind() == io::ErrorKind::OutOfMemory => Status::WantOfMemory.code(),
        Err(_) => Status::Usage.code(),
    };
    if status > 1 {
        // The exit status says it too, so nothing is lost if the line cannot be written.
        let _ = eprintln!(rt; "{}", advice(status));
    }
    ExitCode::from(status)
}
