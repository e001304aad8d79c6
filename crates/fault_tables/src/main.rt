//! Pulls the image of a case whose registry is a shelf, once for each request that may fail and once for each piece of
//! a body, until in a pull no fault occurs, and writes a line for each pull: the index of what failed, from 0, the
//! number of requests, and the result as in a report.
//! After these it writes the report of the pull of the generated image with three layers over a script without answers:
//! its two requests and the error.
//!
//! The exit status is 3 if the input is not a case with a shelf, 4 if it could not be read, 5 if the output could not
//! be written, and 6 if memory ran out.
#![tactic(auto)]

mod pulls;
mod tables;
mod unanswered;

ghost use Rattle.std.specs.Prelude.{IfSome};
ghost use Rattle.recorded_case.specs.Case.{IsReady};

use byte_streams::{INPUT_LIMIT, StdSink, StdSource, put_all, read_all};
use json_values::Blob;
use recorded_case::{Case, read_case};
use std::alloc::{AllocError, Global};
use std::process::ExitCode;
use tables::write_tables;
use unanswered::report;

fn tables_of(alloc: Global, case: Option<Case>) -> Result<Option<Blob>, AllocError>
    requires { IfSome case IsReady }
{
    match case {
        Some(case) => write_tables(alloc, &case),
        None => Ok(None),
    }
}

fn main(rt: HostRuntime) -> ExitCode {
    let alloc = rt.alloc();
    let Ok(bytes) = read_all(alloc, &mut StdSource::new(rt.stdin()), INPUT_LIMIT) else {
        return ExitCode::from(4);
    };
    let tables = match read_case(alloc, bytes.as_slice()) {
        Ok(case) => tables_of(alloc, case),
        Err(error) => Err(error),
    };
    match tables {
        Ok(Some(tables)) => {
            if put_all(&mut StdSink::new(rt.stdout()), tables.as_slice()).is_err() {
                return ExitCode::from(5);
            }
            let Ok(bytes) = report(alloc) else {
                return ExitCode::from(6);
            };
            if put_all(&mut StdSink::new(rt.stdout()), bytes.as_slice()).is_err() {
                return ExitCode::from(5);
            }
            ExitCode::from(0)
        }
        Ok(None) => ExitCode::from(3),
        Err(_) => ExitCode::from(6),
    }
}
