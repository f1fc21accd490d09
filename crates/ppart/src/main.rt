//! The program: the top call over the real streams.
#![tactic(auto)]

use pf_io::{StdSink, StdSource};
use pf_top::{Status, run, tell};
use std::alloc::{AllocError, Global};
use std::env::{self, Args};
use std::io::ErrorKind;
use std::process::ExitCode;

/// The code where the system did not hand over the words.
const NO_WORDS: u8 = 7;

// The words after the program's name.
fn keep(alloc: Global, mut args: Args) -> Result<Vec<String>, AllocError> {
    let mut words = Vec::new(alloc);
    let _ = args.next();
    for word in args {
        words.push(word)?;
    }
    Ok(words)
}

// The run over the real streams.
fn run_on(rt: &HostRuntime, words: &[String]) -> Status {
    let mut source = StdSource::new(rt.stdin());
    let mut out = StdSink::new(rt.stdout());
    let mut err = StdSink::new(rt.stderr());
    run(rt.alloc(), words, &mut source, &mut out, &mut err)
}

// Memory for the words was not found.
fn refuse(rt: &HostRuntime) -> Status {
    let mut err = StdSink::new(rt.stderr());
    tell(Status::NoMemory, &mut err)
}

fn main(rt: HostRuntime) -> ExitCode {
    let status = match env::args(&rt) {
        Ok(args) => match keep(rt.alloc(), args) {
            Ok(words) => run_on(&rt, &words),
            Err(_) => refuse(&rt),
        },
        Err(error) => {
            if error.kind() != ErrorKind::OutOfMemory {
                return ExitCode::from(NO_WORDS);
            }
            refuse(&rt)
        }
    };
    ExitCode::from(status.code())
}
