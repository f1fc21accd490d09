// The lines of a file of cases.
ghost use Rattle.std.specs.Prelude.{◌<◌, IfSome};

use crate::case::{Case, Each};
use pf_frame::NoMemory;
use std::alloc::Global;
use std::str;

/// The word that a line begins with, and what stands after the space behind it.
pub fn split_word(line: &[u8]) -> (&[u8], &[u8]) {
    match line.iter().position(|b| *b == b' ') {
        Some(at) => {
            let (word, _) = line.split_at(at);
            let (_, rest) = line.split_at(at + 1);
            (word, rest)
        }
        None => line.split_at(line.len()),
    }
}

// The value of a hexadecimal digit.
fn hex_digit(byte: u8) -> Option<u8>
    ensures { IfSome result (λ value. value < 16) }
{
    match byte {
        b'0'..=b'9' => Some(byte - b'0'),
        b'a'..=b'f' => Some(byte - b'a' + 10),
        _ => None,
    }
}

// The byte of two hexadecimal digits.
fn hex_byte(high: u8, low: u8) -> Option<u8> {
    let Some(high) = hex_digit(high) else {
        return None;
    };
    let Some(low) = hex_digit(low) else {
        return None;
    };
    Some(16 * high + low)
}

// Adds what follows a backslash: the byte of two hexadecimal digits, and the bytes after them.
fn add_escaped(text: &mut Vec<u8>, piece: &[u8]) -> Result<bool, NoMemory> {
    let [high, low, rest @ ..] = piece else {
        return Ok(false);
    };
    let Some(byte) = hex_byte(*high, *low) else {
        return Ok(false);
    };
    text.push(byte)?;
    text.extend_from_slice(rest)?;
    Ok(true)
}

// Adds the bytes, where a backslash and two hexadecimal digits stand for one byte.
fn add_bytes(text: &mut Vec<u8>, bytes: &[u8]) -> Result<bool, NoMemory> {
    let mut first = true;
    for piece in bytes.split(|b| *b == b'\\') {
        if first {
            text.extend_from_slice(piece)?;
            first = false;
        } else if !add_escaped(text, piece)? {
            return Ok(false);
        }
    }
    Ok(true)
}

// Adds the bytes and a line feed, which a backslash at the end leaves out.
fn add_line(text: &mut Vec<u8>, line: &[u8]) -> Result<bool, NoMemory> {
    if let [front @ .., b'\\'] = line {
        return add_bytes(text, front);
    }
    let read = add_bytes(text, line)?;
    text.push(b'\n')?;
    Ok(read)
}

/// Adds the words.
pub fn take_words(alloc: Global, words: &mut String, bytes: &[u8]) -> Result<bool, NoMemory> {
    let mut text = Vec::new(alloc);
    if !add_bytes(&mut text, bytes)? {
        return Ok(false);
    }
    match str::from_utf8(&text) {
        Ok(text) => {
            words.push_str(text)?;
            Ok(true)
        }
        Err(_) => Ok(false),
    }
}

// The number of a field.
fn number(field: &[u8]) -> Option<u64> {
    match str::from_utf8(field) {
        Ok(text) => text.parse::<u64>().ok(),
        Err(_) => None,
    }
}

// Reads one number.
fn take_number(into: &mut usize, field: &[u8]) -> bool {
    match number(field) {
        Some(value) => {
            *into = value as usize;
            true
        }
        None => false,
    }
}

// Adds numbers with a space between each two.
fn take_numbers(into: &mut Vec<u64>, fields: &[u8]) -> Result<bool, NoMemory> {
    for field in fields.split(|b| *b == b' ') {
        match number(field) {
            Some(value) => into.push(value)?,
            None => return Ok(false),
        }
    }
    Ok(true)
}

// A number, and a line that is added so many times.
fn take_repeated(text: &mut Vec<u8>, rest: &[u8]) -> Result<bool, NoMemory> {
    let (field, line) = split_word(rest);
    let Some(count) = number(field) else {
        return Ok(false);
    };
    for _ in 0..count {
        if !add_line(text, line)? {
            return Ok(false);
        }
    }
    Ok(true)
}

// A number, and the message of so many further prefixes.
fn take_prefixes(
    alloc: Global,
    prefixes: &mut Vec<Vec<u8>>,
    rest: &[u8],
) -> Result<bool, NoMemory> {
    let (field, line) = split_word(rest);
    let Some(count) = number(field) else {
        return Ok(false);
    };
    for _ in 0..count {
        let mut message = Vec::from_slice(alloc, line)?;
        message.push(b'\n')?;
        prefixes.push(message)?;
    }
    Ok(true)
}

// The code of a status.
fn take_status(status: &mut u8, field: &[u8]) -> bool {
    match field {
        [digit @ b'0'..=b'6'] => {
            *status = *digit - b'0';
            true
        }
        _ => false,
    }
}

// Names of tables, with a space between each two.
fn take_each(each: &mut Each, names: &[u8]) -> bool {
    for name in names.split(|b| *b == b' ') {
        match name {
            b"prefix" => each.prefix = true,
            b"read" => each.read = true,
            b"write" => each.write = true,
            b"message" => each.message = true,
            b"byte" => each.byte = true,
            b"change" => each.change = true,
            _ => return false,
        }
    }
    true
}

// A line that says how source and sinks behave, or which tables are tried.
fn take_setting(case: &mut Case, word: &[u8], rest: &[u8]) -> Result<bool, NoMemory> {
    match word {
        b"read" => Ok(take_number(&mut case.devices.read, rest)),
        b"write" => Ok(take_number(&mut case.devices.write, rest)),
        b"room" => Ok(take_number(&mut case.devices.room, rest)),
        b"failing-reads" => take_numbers(&mut case.devices.failing_reads, rest),
        b"failing-writes" => take_numbers(&mut case.devices.failing_writes, rest),
        b"failing-messages" => take_numbers(&mut case.devices.failing_messages, rest),
        b"each" => Ok(take_each(&mut case.each, rest)),
        _ => Ok(false),
    }
}

/// Takes a line that is neither `text` nor `run`, by its word and what follows it. The answer is whether it is a line of a case.
pub fn take_line(
    alloc: Global,
    case: &mut Case,
    word: &[u8],
    rest: &[u8],
) -> Result<bool, NoMemory> {
    match word {
        b"" | b"#" => Ok(true),
        b"<" => add_line(&mut case.text, rest),
        b"repeat" => take_repeated(&mut case.text, rest),
        b"+" => add_line(&mut case.after, rest),
        b">" => add_line(&mut case.wanted.out, rest),
        b"!" => add_line(&mut case.wanted.err, rest),
        b"status" => Ok(take_status(&mut case.wanted.status, rest)),
        b"begins" => {
            case.wanted.begins = true;
            Ok(true)
        }
        b"check" => {
            case.wanted.check.push_str("check ")?;
            take_words(alloc, &mut case.wanted.check, rest)
        }
        b"prefix" => take_prefixes(alloc, &mut case.wanted.prefixes, rest),
        _ => take_setting(case, word, rest),
    }
}
