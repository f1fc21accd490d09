// Changes of the text after a problem, which `check` has to answer by `no`.
use crate::case::Case;
use crate::report::{Kind, Report};
use crate::trial::{Turn, is_so, joined, run_on};
use itoa::Buffer;
use pf_frame::NoMemory;
use std::alloc::Global;
use std::str;

/// The answer to a text that certifies nothing.
const NO: &[u8] = b"o check\nno\nend\n";

/// A comment, which no answer has.
const COMMENT: &[u8] = b"c x\n";

// Whether the byte stands between fields.
fn is_gap(byte: u8) -> bool {
    byte == b' ' || byte == b'\n'
}

// The first field, and what follows it.
fn first_field(bytes: &[u8]) -> (&[u8], &[u8]) {
    match bytes.iter().position(|b| is_gap(*b)) {
        Some(at) => bytes.split_at(at),
        None => bytes.split_at(bytes.len()),
    }
}

// The first line with its line feed, and what follows it.
fn first_line(bytes: &[u8]) -> (&[u8], &[u8]) {
    match bytes.iter().position(|b| *b == b'\n') {
        Some(at) => bytes.split_at(at + 1),
        None => bytes.split_at(bytes.len()),
    }
}

// Tries the text that these pieces make after the problem, if it is another one than that of the case.
fn try_pieces(
    alloc: Global,
    case: &Case,
    pieces: [&[u8]; 4],
    kind: Kind,
    at: usize,
    report: &mut Report,
) -> Result<(), NoMemory> {
    let mut after = Vec::new(alloc);
    for piece in pieces {
        after.extend_from_slice(piece)?;
    }
    if after[..] == case.after[..] {
        return Ok(());
    }
    let text = joined(alloc, &case.text, &after)?;
    let outcome = run_on(
        alloc,
        case.words.as_str(),
        &text,
        &case.devices,
        Turn::default(),
    )?;
    let holds = is_so(&outcome, 1, NO, b"");
    report.judge(holds, case, kind, at, &outcome)
}

// A further byte at a place, and the byte there with a 0 for a 1 or the other way round.
fn try_byte(
    alloc: Global,
    case: &Case,
    at: usize,
    front: &[u8],
    back: &[u8],
    report: &mut Report,
) -> Result<(), NoMemory> {
    try_pieces(
        alloc,
        case,
        [front, b"\xFF", back, b""],
        Kind::Byte,
        at,
        report,
    )?;
    match back {
        [b'0', rest @ ..] => try_pieces(
            alloc,
            case,
            [front, b"1", rest, b""],
            Kind::Byte,
            at,
            report,
        ),
        [b'1', rest @ ..] => try_pieces(
            alloc,
            case,
            [front, b"0", rest, b""],
            Kind::Byte,
            at,
            report,
        ),
        _ => Ok(()),
    }
}

/// Each place with a byte more that no text has, and each 0 and 1 turned to the other.
pub fn try_bytes(alloc: Global, case: &Case, report: &mut Report) -> Result<(), NoMemory> {
    for at in 0..=case.after.len() {
        let (front, back) = case.after.split_at(at);
        try_byte(alloc, case, at, front, back, report)?;
    }
    Ok(())
}

// The number of a field, and one more.
fn raised(field: &[u8]) -> Option<i64> {
    let Ok(text) = str::from_utf8(field) else {
        return None;
    };
    match text.parse::<i64>() {
        Ok(number) => number.checked_add(1),
        Err(_) => None,
    }
}

// Tries the text with other bytes in place of a field.
fn try_other(
    alloc: Global,
    case: &Case,
    at: usize,
    front: &[u8],
    other: &[u8],
    rest: &[u8],
    report: &mut Report,
) -> Result<(), NoMemory> {
    try_pieces(
        alloc,
        case,
        [front, other, rest, b""],
        Kind::Field,
        at,
        report,
    )
}

// A zero, a space and a comment in front of a field, the next byte in place of its last one, and the next number.
fn try_field(
    alloc: Global,
    case: &Case,
    at: usize,
    front: &[u8],
    back: &[u8],
    report: &mut Report,
) -> Result<(), NoMemory> {
    let (field, rest) = first_field(back);
    try_other(alloc, case, at, front, b"0", back, report)?;
    try_other(alloc, case, at, front, b" ", back, report)?;
    try_other(alloc, case, at, front, COMMENT, back, report)?;
    if let [head @ .., last] = field {
        let mut other = Vec::from_slice(alloc, head)?;
        other.push(last.wrapping_add(1))?;
        try_other(alloc, case, at, front, &other, rest, report)?;
    }
    if let Some(number) = raised(field) {
        let mut digits = Buffer::new();
        let other = digits.format(number).as_bytes();
        try_other(alloc, case, at, front, other, rest, report)?;
    }
    Ok(())
}

// A comment before a line, the line left out, and the line exchanged with the next.
fn try_line(
    alloc: Global,
    case: &Case,
    at: usize,
    front: &[u8],
    back: &[u8],
    report: &mut Report,
) -> Result<(), NoMemory> {
    let (line, rest) = first_line(back);
    let (next, others) = first_line(rest);
    try_pieces(
        alloc,
        case,
        [front, COMMENT, line, rest],
        Kind::Line,
        at,
        report,
    )?;
    try_pieces(alloc, case, [front, rest, b"", b""], Kind::Line, at, report)?;
    try_pieces(
        alloc,
        case,
        [front, next, line, others],
        Kind::Line,
        at,
        report,
    )
}

/// Each field and each line changed, and a comment after the last line.
pub fn try_changes(alloc: Global, case: &Case, report: &mut Report) -> Result<(), NoMemory> {
    let mut before = b'\n';
    for at in 0..=case.after.len() {
        let (front, back) = case.after.split_at(at);
        if before == b'\n' {
            try_line(alloc, case, at, front, back, report)?;
        }
        if is_gap(before) && !back.is_empty() {
            try_field(alloc, case, at, front, back, report)?;
        }
        if let [byte, ..] = back {
            before = *byte;
        }
    }
    Ok(())
}
