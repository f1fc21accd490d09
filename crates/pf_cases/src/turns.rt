// Tables over one case: every prefix of its text, and every call of its source and sinks, which fail in turn.
use crate::case::Case;
use crate::report::{Kind, Report};
use crate::trial::{Outcome, Turn, is_so, run_on, run_turn};
use pf_frame::NoMemory;
use std::alloc::Global;

// How many calls it takes to hand over so many bytes in pieces, and one more: the end of a source, or the flush of a sink.
fn calls_for(length: usize, piece: usize) -> usize {
    length.div_ceil(piece.max(1)).saturating_add(1)
}

// Whether the prefix of this length is refused, with the message that is wanted.
fn is_prefix_refused(case: &Case, length: usize, outcome: &Outcome) -> bool {
    if case.wanted.prefixes.is_empty() {
        let err = outcome.err.taken();
        return err.starts_with(b"ppart: ") && is_so(outcome, 3, b"", err);
    }
    match case.wanted.prefixes.get(length) {
        Some(message) => is_so(outcome, 3, b"", message),
        None => false,
    }
}

/// Every prefix of the text is refused, but that without its last byte.
pub fn try_prefixes(alloc: Global, case: &Case, report: &mut Report) -> Result<(), NoMemory> {
    let words = case.words.as_str();
    for length in 0..case.text.len().saturating_sub(1) {
        let (front, _) = case.text.split_at(length);
        let outcome = run_on(alloc, words, front, &case.devices, Turn::default())?;
        let holds = is_prefix_refused(case, length, &outcome);
        report.judge(holds, case, Kind::Prefix, length, &outcome)?;
    }
    Ok(())
}

/// Where a read fails, the run ends with a read fault, and no byte goes out.
pub fn try_reads(alloc: Global, case: &Case, report: &mut Report) -> Result<(), NoMemory> {
    let length = case.text.len().saturating_add(case.after.len());
    for read in 1..=calls_for(length, case.devices.read) {
        let turn = Turn {
            read: read as u64,
            ..Turn::default()
        };
        let outcome = run_turn(alloc, case, turn)?;
        let holds = is_so(&outcome, 4, b"", b"ppart: read fault\n");
        report.judge(holds, case, Kind::Read, read, &outcome)?;
    }
    Ok(())
}

/// Where a write or the flush fails, the run ends with a write fault, and a prefix of the answer went out.
pub fn try_writes(
    alloc: Global,
    case: &Case,
    whole: &Outcome,
    report: &mut Report,
) -> Result<(), NoMemory> {
    let answer = whole.out.taken();
    for write in 1..=calls_for(answer.len(), case.devices.write) {
        let turn = Turn {
            write: write as u64,
            ..Turn::default()
        };
        let outcome = run_turn(alloc, case, turn)?;
        let out = outcome.out.taken();
        let holds = answer.starts_with(out) && is_so(&outcome, 5, out, b"ppart: write fault\n");
        report.judge(holds, case, Kind::Write, write, &outcome)?;
    }
    Ok(())
}

/// Where a call of the messages fails, nothing else changes, and a prefix of the message went out.
pub fn try_messages(
    alloc: Global,
    case: &Case,
    whole: &Outcome,
    report: &mut Report,
) -> Result<(), NoMemory> {
    let message = whole.err.taken();
    for call in 1..=calls_for(message.len(), case.devices.write) {
        let turn = Turn {
            message: call as u64,
            ..Turn::default()
        };
        let outcome = run_turn(alloc, case, turn)?;
        let err = outcome.err.taken();
        let holds = message.starts_with(err)
            && is_so(&outcome, whole.status.code(), whole.out.taken(), err);
        report.judge(holds, case, Kind::Message, call, &outcome)?;
    }
    Ok(())
}
