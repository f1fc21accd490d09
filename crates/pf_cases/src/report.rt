// What is printed: the trials that differ, and how many hold.
use crate::case::Case;
use crate::trial::Outcome;
use itoa::Buffer;
use pf_frame::NoMemory;
use std::alloc::Global;

/// What a trial is of.
#[derive(Clone, Copy)]
pub enum Kind {
    Run,
    Prefix,
    Read,
    Write,
    Message,
    Byte,
    Field,
    Line,
}

/// The names of the kinds, in their order.
const NAMES: [&[u8]; 8] = [
    b"run", b"prefix", b"read", b"write", b"message", b"byte", b"field", b"line",
];

/// A report on trials.
#[derive(Drop)]
pub struct Report {
    text: Vec<u8>,
    tried: [u64; 8],
    failed: u64,
}

// Adds the decimal text of a number.
fn add_number(text: &mut Vec<u8>, number: u64) -> Result<(), NoMemory> {
    let mut digits = Buffer::new();
    text.extend_from_slice(digits.format(number).as_bytes())?;
    Ok(())
}

// Adds lines with a mark in front of each, and a backslash where the last one does not end.
fn add_marked(text: &mut Vec<u8>, mark: &[u8], bytes: &[u8]) -> Result<(), NoMemory> {
    for line in bytes.split_inclusive(|b| *b == b'\n') {
        text.extend_from_slice(mark)?;
        text.extend_from_slice(line)?;
    }
    if !bytes.is_empty() && !bytes.ends_with(b"\n") {
        text.extend_from_slice(b"\\\n")?;
    }
    Ok(())
}

impl Report {
    /// No trial so far.
    pub fn new(alloc: Global) -> Report {
        Report {
            text: Vec::new(alloc),
            tried: [0; 8],
            failed: 0,
        }
    }

    /// The text of the report.
    pub fn text(&self) -> &[u8] {
        &self.text
    }

    /// How many trials differ.
    pub fn failed(&self) -> u64 {
        self.failed
    }

    // Adds what a trial is of, and what came of it.
    fn describe(
        &mut self,
        case: &Case,
        kind: Kind,
        at: usize,
        outcome: &Outcome,
    ) -> Result<(), NoMemory> {
        let text = &mut self.text;
        text.extend_from_slice(b"line ")?;
        add_number(text, case.line)?;
        text.extend_from_slice(b", ")?;
        text.extend_from_slice(&case.name)?;
        text.extend_from_slice(b", ")?;
        text.extend_from_slice(case.words.as_bytes())?;
        text.extend_from_slice(b", ")?;
        text.extend_from_slice(NAMES[kind as usize])?;
        text.extend_from_slice(b" ")?;
        add_number(text, at as u64)?;
        text.extend_from_slice(b":\nstatus ")?;
        add_number(text, u64::from(outcome.status.code()))?;
        text.extend_from_slice(b"\n")?;
        add_marked(text, b"> ", outcome.out.taken())?;
        add_marked(text, b"! ", outcome.err.taken())
    }

    /// Counts a trial, and describes it where it does not hold.
    pub fn judge(
        &mut self,
        holds: bool,
        case: &Case,
        kind: Kind,
        at: usize,
        outcome: &Outcome,
    ) -> Result<(), NoMemory> {
        let tried = self.tried[kind as usize];
        self.tried[kind as usize] = tried.saturating_add(1);
        if holds {
            return Ok(());
        }
        self.failed = self.failed.saturating_add(1);
        self.describe(case, kind, at, outcome)
    }

    /// Counts a line that no case has.
    pub fn refuse(&mut self, line: u64) -> Result<(), NoMemory> {
        self.failed = self.failed.saturating_add(1);
        self.text.extend_from_slice(b"line ")?;
        add_number(&mut self.text, line)?;
        self.text.extend_from_slice(b": no line of a case\n")?;
        Ok(())
    }

    /// Adds how many trials there were of each kind, and how many hold.
    pub fn close(&mut self) -> Result<(), NoMemory> {
        let mut all = 0u64;
        for i in 0..8 {
            self.text.extend_from_slice(NAMES[i])?;
            self.text.extend_from_slice(b" ")?;
            add_number(&mut self.text, self.tried[i])?;
            self.text.extend_from_slice(b"\n")?;
            all = all.saturating_add(self.tried[i]);
        }
        add_number(&mut self.text, all.saturating_sub(self.failed))?;
        self.text.extend_from_slice(b" passed, ")?;
        add_number(&mut self.text, self.failed)?;
        self.text.extend_from_slice(b" failed\n")?;
        Ok(())
    }
}
