//! What the core does for its host: the first frame of its host, what is done for it, and the program over standard
//! input and output, and descriptor 3.
#![tactic(auto)]

mod descriptor;
mod first;
mod whole;

use crate::descriptor::Descriptor;
pub use byte_streams::{StdSink, StdSource};
pub use first::FirstFrame;
pub use live_host::Streams;
pub use live_pull::{Ended, Status};
use std::process::ExitCode;
pub use whole::run;

// What an exit status other than 0 and 1 means, and what to do.
fn advice(status: u8) -> &'static str {
    match status {
        3 => "the settings are malformed: see docs/HOST.md for their members",
        4 => "the host's stream failed, or one of its frames is malformed: see docs/HOST.md",
        5 => "the output could not be written: check whether the host is still running",
        6 => "out of memory",
        _ => "",
    }
}

fn main(rt: HostRuntime) -> ExitCode {
    let streams = Streams {
        source: StdSource::new(rt.stdin()),
        sink: StdSink::new(rt.stdout()),
    };
    let (ended, _bytes) = run(rt.alloc(), streams, Descriptor::new(&rt));
    let status = ended.status.code();
    if status > 1 {
        // The exit status says it too, so nothing is lost if the line cannot be written.
        let _ = eprintln!(rt; "{}", advice(status));
    }
    ExitCode::from(status)
}
