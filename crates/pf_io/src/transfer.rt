// All of a source, and all of a piece.
ghost use Rattle.std.specs.Prelude.{◌≡◌, ◌≢◌, ℕ, ◌+◌, ◌^◌, ◌<◌, ◌≤◌, length, take, drop, Err, IfOk, OnOk, OnErr, IsErrOf, vec_len};
ghost use Rattle.pf_io.specs.Faults.{Rose, HasCause};
ghost use Rattle.pf_io.specs.Told.{Gave, GaveCount, Took, TookPart, NoneLeft};

use crate::device::{Failed, Sink, Source};
use pf_frame::NoMemory;
use pf_steps::Steps;
use std::alloc::Global;
use std::marker::Brand;
use std::sync::ledger::{Blank, Ledger};
use thiserror::Error;

/// Why a source was not read to its end.
#[derive(Clone, Copy, Debug, PartialEq, Eq, Error)]
pub enum ReadEnd {
    /// A read failed.
    #[error("the source failed")]
    Failed,
    /// The source gave one byte more than the limit.
    #[error("the source has too many bytes")]
    TooLong,
    /// Memory for the bytes was not found.
    #[error("no memory")]
    NoMemory,
}

// How many bytes are made ready for reading at a time.
const STEP: usize = 262144;

// Makes room after the used bytes, where there is none. A vector grows its memory by doubling.
fn make_room(bytes: &mut Vec<u8>, used: usize, limit: usize) -> Result<(), NoMemory>
    requires limit { limit < 2 ^ 30 }
    requires few { used ≤ limit }
    requires used { used ≤ vec_len bytes.old }
    requires capped { vec_len bytes.old ≤ limit + 1 }
    ensures front { take used bytes.new.items ≡ take used bytes.old.items }
    ensures room { OnOk result (used < vec_len bytes.new) }
    ensures capped { vec_len bytes.new ≤ limit + 1 }
{
    if used == bytes.len() {
        let end = (used + STEP).min(limit + 1);
        bytes.resize(end, 0)?;
    }
    Ok(())
}

// One read into the room from a place on. No other call reads from a source, and this one counts its read.
fn read_at<S: Source, L: Ledger>(
    source: &mut S,
    room: &mut [u8],
    at: usize,
    reads: &mut Steps<L>,
) -> Result<usize, Failed>
    requires { at < length room.old }
    ensures front { take at room.new ≡ take at room.old }
    ensures fits { IfOk result (λ n. at + n ≤ length room.new) }
    ensures gives { IfOk result (λ n. Gave (S.left source.old) (S.left source.new) (take n (drop at room.new))) }
    ensures end { IfOk result (λ n. n ≡ 0 → NoneLeft (S.left source.new)) }
    ensures failed { OnErr result (S.left source.new ≡ S.left source.old) }
    ensures cause { HasCause (S.faults source.old) (S.faults source.new) result }
    ensures counted { reads.new ≡ reads.old + 1 }
{
    reads.tick();
    source.read(&mut room[at..])
}

// What `read_all` answers, with a counter of its reads. A read that is not the last one gives a byte or more, and before the last
// one there are at most `limit` bytes.
fn read_counted<S: Source, L: Ledger>(
    alloc: Global,
    source: &mut S,
    limit: usize,
    reads: &mut Steps<L>,
) -> Result<Vec<u8>, ReadEnd>
    requires { limit < 2 ^ 30 }
    ensures reads { reads.new ≤ reads.old + limit + 1 }
    ensures whole { IfOk result (λ v. Gave (S.left source.old) (S.left source.new) v.items) }
    ensures end { OnOk result (NoneLeft (S.left source.new)) }
    ensures within { IfOk result (λ v. length v.items ≤ limit) }

    // `TooLong` comes exactly where one byte more than the limit was taken.
    ensures too_long { IsErrOf result ReadEnd.TooLong
        → GaveCount (S.left source.old) (S.left source.new) (λ n. n ≡ limit + 1) }
    ensures others { result ≢ Err ReadEnd.TooLong
        → GaveCount (S.left source.old) (S.left source.new) (λ n. n ≤ limit) }

    ensures failed { IsErrOf result ReadEnd.Failed → Rose (S.faults source.old) (S.faults source.new) }
    ensures later { S.faults source.old ≤ S.faults source.new }
{
    let mut bytes = Vec::new(alloc);
    let mut used = 0;
    'reads: loop {
        if make_room(&mut bytes, used, limit).is_err() {
            return Err(ReadEnd::NoMemory);
        }
        let Ok(count) = read_at(source, bytes.as_mut_slice(), used, reads) else {
            return Err(ReadEnd::Failed);
        };
        if count == 0 {
            bytes.truncate(used);
            return Ok(bytes);
        }
        used += count;
        if used > limit {
            return Err(ReadEnd::TooLong);
        }
    }
}

// The same with a counter that nobody reads.
fn read_uncounted<S: Source, L: Ledger>(
    alloc: Global,
    source: &mut S,
    limit: usize,
    blank: Blank,
) -> Result<Vec<u8>, ReadEnd>
    requires limit { limit < 2 ^ 30 }
    requires name { blank.name ≡ L.name }
    requires parts { blank.parts ≡ L.parts }
    requires some { 0 < blank.parts }
    ensures whole { IfOk result (λ v. Gave (S.left source.old) (S.left source.new) v.items) }
    ensures end { OnOk result (NoneLeft (S.left source.new)) }
    ensures within { IfOk result (λ v. length v.items ≤ limit) }
    ensures too_long { IsErrOf result ReadEnd.TooLong
        → GaveCount (S.left source.old) (S.left source.new) (λ n. n ≡ limit + 1) }
    ensures others { result ≢ Err ReadEnd.TooLong
        → GaveCount (S.left source.old) (S.left source.new) (λ n. n ≤ limit) }
    ensures failed { IsErrOf result ReadEnd.Failed → Rose (S.faults source.old) (S.faults source.new) }
    ensures later { S.faults source.old ≤ S.faults source.new }
{
    let (book, share) = blank.open::<L>();
    let mut reads = Steps::new(book, share);
    read_counted(alloc, source, limit, &mut reads)
}

/// All bytes that the source has left, of which there may be `limit`.
/// Reads until the end, a fault, or `limit + 1` bytes. What was taken before an error is gone.
/// It ends within `limit + 2` reads: `read_counted` promises that there are at most `limit + 1`.
pub fn read_all<S: Source>(alloc: Global, source: &mut S, limit: usize) -> Result<Vec<u8>, ReadEnd>
    requires { limit < 2 ^ 30 }
    ensures whole { IfOk result (λ v. Gave (S.left source.old) (S.left source.new) v.items) }
    ensures end { OnOk result (NoneLeft (S.left source.new)) }
    ensures within { IfOk result (λ v. length v.items ≤ limit) }

    // `TooLong` comes exactly where one byte more than the limit was taken.
    ensures too_long { IsErrOf result ReadEnd.TooLong
        → GaveCount (S.left source.old) (S.left source.new) (λ n. n ≡ limit + 1) }
    ensures others { result ≢ Err ReadEnd.TooLong
        → GaveCount (S.left source.old) (S.left source.new) (λ n. n ≤ limit) }

    ensures failed { IsErrOf result ReadEnd.Failed → Rose (S.faults source.old) (S.faults source.new) }
    ensures later { S.faults source.old ≤ S.faults source.new }
{
    read_uncounted::<S, Brand>(alloc, source, limit, Blank::new(1))
}

/// Hands the whole piece to the sink, in as few writes as the sink allows.
/// `Failed` comes only where the sink's count of faults rose, and the sink then took a prefix of the piece.
pub fn write_whole<K: Sink>(sink: &mut K, piece: &[u8]) -> Result<(), Failed>
    ensures ok { OnOk result (Took (K.taken sink.old) (K.taken sink.new) piece.now) }
    ensures err { OnErr result (TookPart (K.taken sink.old) (K.taken sink.new) piece.now) }
    ensures flushed { K.flushed sink.new ≡ K.flushed sink.old }
    ensures cause { HasCause (K.faults sink.old) (K.faults sink.new) result }
{
    let mut at = 0;
    while at < piece.len() {
        at += sink.write(&piece[at..])?;
    }
    Ok(())
}
