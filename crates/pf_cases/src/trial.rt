// A run over a source and sinks in memory, and whether it is what a case wants.
use crate::case::{Case, Devices};
use pf_frame::NoMemory;
use pf_io::{MemSink, MemSource};
use pf_top::{Status, run};
use std::alloc::Global;

/// What came of a run.
#[derive(Drop)]
pub struct Outcome {
    pub status: Status,
    pub out: MemSink,
    pub err: MemSink,
}

/// Calls that fail beside those of the case: a read, a call of the sink of the answer, and one of the sink of the messages.
/// They are numbered from 1, and 0 is none.
#[derive(Clone, Copy, Default)]
pub struct Turn {
    pub read: u64,
    pub write: u64,
    pub message: u64,
}

/// A line of a verdict.
const YES: &[u8] = b"o check\nyes\nend\n";

// Words with a space between each two, and no word where there is no byte.
fn words_of(alloc: Global, words: &str) -> Result<Vec<String>, NoMemory> {
    let mut owned = Vec::new(alloc);
    if words.is_empty() {
        return Ok(owned);
    }
    for word in words.split(' ') {
        owned.push(String::from_str(alloc, word)?)?;
    }
    Ok(owned)
}

// The numbers, and one more.
fn with_one(alloc: Global, numbers: &[u64], one: u64) -> Result<Vec<u64>, NoMemory> {
    let mut all = Vec::from_slice(alloc, numbers)?;
    all.push(one)?;
    Ok(all)
}

/// Both texts, one after the other.
pub fn joined(alloc: Global, first: &[u8], second: &[u8]) -> Result<Vec<u8>, NoMemory> {
    let mut text = Vec::from_slice(alloc, first)?;
    text.extend_from_slice(second)?;
    Ok(text)
}

/// The run with these words on this text.
pub fn run_on(
    alloc: Global,
    words: &str,
    text: &[u8],
    devices: &Devices,
    turn: Turn,
) -> Result<Outcome, NoMemory> {
    let words = words_of(alloc, words)?;
    let reads = with_one(alloc, &devices.failing_reads, turn.read)?;
    let writes = with_one(alloc, &devices.failing_writes, turn.write)?;
    let messages = with_one(alloc, &devices.failing_messages, turn.message)?;
    let piece = devices.write.max(1);
    let mut source = MemSource::new(alloc, text, devices.read.max(1), &reads)?;
    let mut out = MemSink::new(alloc, devices.room, piece, &writes)?;
    let mut err = MemSink::new(alloc, 256, piece, &messages)?;
    let status = run(alloc, &words, &mut source, &mut out, &mut err);
    Ok(Outcome { status, out, err })
}

/// The run of a case, with a further call that fails.
pub fn run_turn(alloc: Global, case: &Case, turn: Turn) -> Result<Outcome, NoMemory> {
    let text = joined(alloc, &case.text, &case.after)?;
    run_on(alloc, case.words.as_str(), &text, &case.devices, turn)
}

/// The run of a case.
pub fn run_case(alloc: Global, case: &Case) -> Result<Outcome, NoMemory> {
    run_turn(alloc, case, Turn::default())
}

/// Whether the run ended so, and the first sink took this text, all of which was flushed where it is a whole answer.
pub fn is_so(outcome: &Outcome, status: u8, out: &[u8], err: &[u8]) -> bool {
    let flushed = status > 1 || outcome.out.flushed() == out.len();
    flushed
        && outcome.status.code() == status
        && outcome.out.taken() == out
        && outcome.err.taken() == err
}

/// Whether the run is as the case wants it.
pub fn is_wanted(case: &Case, outcome: &Outcome) -> bool {
    let out = outcome.out.taken();
    let wanted = &case.wanted;
    if wanted.begins {
        return out.starts_with(&wanted.out) && is_so(outcome, wanted.status, out, &wanted.err);
    }
    is_so(outcome, wanted.status, &wanted.out, &wanted.err)
}

/// Whether the words of the case, if it has any, confirm the output after the text.
pub fn is_confirmed(alloc: Global, case: &Case, outcome: &Outcome) -> Result<bool, NoMemory> {
    let words = case.wanted.check.as_str();
    if words.is_empty() {
        return Ok(true);
    }
    let text = joined(alloc, &case.text, outcome.out.taken())?;
    let verdict = run_on(alloc, words, &text, &case.devices, Turn::default())?;
    Ok(is_so(&verdict, 0, YES, b""))
}
