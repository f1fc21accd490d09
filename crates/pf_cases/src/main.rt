//! Tries cases: words and a text, how source and sinks behave, and what the top call has to make of them. The cases are read
//! from standard input, in the form that docs/CASES.md describes. What differs is printed, and last how many hold.
#![tactic(auto)]

mod case;
mod changes;
mod reading;
mod report;
mod trial;
mod turns;

use crate::case::Case;
use crate::changes::{try_bytes, try_changes};
use crate::reading::{split_word, take_line, take_words};
use crate::report::{Kind, Report};
use crate::trial::{is_confirmed, is_wanted, run_case};
use crate::turns::{try_messages, try_prefixes, try_reads, try_writes};
use pf_frame::NoMemory;
use pf_io::{Sink, StdSink, StdSource, read_all, write_whole};
use std::alloc::Global;
use std::process::ExitCode;

/// The most bytes of a file of cases.
const LIMIT: usize = 1 << 24;

// Tries the run of a case, and its tables.
fn try_case(alloc: Global, case: &Case, report: &mut Report) -> Result<(), NoMemory> {
    if case.line == 0 {
        return Ok(());
    }
    let outcome = run_case(alloc, case)?;
    let holds = is_wanted(case, &outcome) && is_confirmed(alloc, case, &outcome)?;
    report.judge(holds, case, Kind::Run, 0, &outcome)?;
    if case.each.prefix {
        try_prefixes(alloc, case, report)?;
    }
    if case.each.read {
        try_reads(alloc, case, report)?;
    }
    if case.each.write {
        try_writes(alloc, case, &outcome, report)?;
    }
    if case.each.message {
        try_messages(alloc, case, &outcome, report)?;
    }
    if case.each.byte {
        try_bytes(alloc, case, report)?;
    }
    if case.each.change {
        try_changes(alloc, case, report)?;
    }
    Ok(())
}

// Takes a line of the file: where a text or a run begins, the case before it is tried.
fn take(
    alloc: Global,
    case: &mut Case,
    line: &[u8],
    number: u64,
    report: &mut Report,
) -> Result<bool, NoMemory> {
    let (word, rest) = split_word(line);
    match word {
        b"text" => {
            try_case(alloc, case, report)?;
            *case = Case::new(alloc);
            case.name.extend_from_slice(rest)?;
            Ok(true)
        }
        b"run" => {
            try_case(alloc, case, report)?;
            case.begin(alloc, number);
            take_words(alloc, &mut case.words, rest)
        }
        _ => take_line(alloc, case, word, rest),
    }
}

// Tries all cases of a file.
fn try_all(alloc: Global, file: &[u8], report: &mut Report) -> Result<(), NoMemory> {
    let mut case = Case::new(alloc);
    let mut number = 0u64;
    for line in file.split(|b| *b == b'\n') {
        number = number.saturating_add(1);
        if !take(alloc, &mut case, line, number, report)? {
            report.refuse(number)?;
        }
    }
    try_case(alloc, &case, report)?;
    report.close()
}

fn main(rt: HostRuntime) -> ExitCode {
    let alloc = rt.alloc();
    let mut source = StdSource::new(rt.stdin());
    let mut out = StdSink::new(rt.stdout());
    let mut report = Report::new(alloc);
    let Ok(file) = read_all(alloc, &mut source, LIMIT) else {
        return ExitCode::from(2);
    };
    if try_all(alloc, &file, &mut report).is_err() {
        return ExitCode::from(3);
    }
    if write_whole(&mut out, report.text()).is_err() || out.flush().is_err() {
        return ExitCode::from(4);
    }
    ExitCode::from(u8::from(report.failed() > 0))
}
