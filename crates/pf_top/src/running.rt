// From the words and the bytes of a source to the bytes of a sink and a status.
ghost use Rattle.std.specs.Prelude.{◌≡◌, ℕ, List, ◌↔◌, ◌≤◌, ◌^◌, Some, None, length};
ghost use Rattle.pf_top.specs.Job.{named, reads};
ghost use Rattle.pf_top.specs.Asked.{command_of};
ghost use Rattle.pf_top.specs.Words.{word_bytes, wanting, text_command_of, command_of_request};
ghost use Rattle.pf_top.specs.Messages.{ErrAfter};
ghost use Rattle.pf_top.specs.Running.{IsEnd, IsRun};

use crate::commands::closure::Closure;
use crate::commands::curve::Curve;
use crate::commands::densest::Densest;
use crate::commands::generate::generate;
use crate::commands::layers::Layers;
use crate::commands::partition::Partition;
use crate::commands::select::Select;
use crate::commands::share::Share;
use crate::commands::strength::Strength;
use crate::job::{Checked, answer, check};
use crate::messages::tell;
use crate::status::Status;
use crate::words::{Name, Request, TextRequest, Wanted, read_words};
use pf_io::{ReadEnd, Sink, Source, read_all};
use pf_text::Refusal;
use std::alloc::Global;

/// The most bytes of an input.
const LIMIT: usize = 1 << 29;

// What is wanted of a job: its answer, or the verdict on one.
fn give<T: Checked, O: Sink>(
    job: &T,
    wanted: Wanted,
    alloc: Global,
    bytes: &[u8],
    out: &mut O,
) -> Status
    requires { length bytes.now ≤ 2 ^ 29 }
    ensures { IsEnd O.Sink out.old out.new (wanting wanted (T.row_of job.now)) bytes.now result }
{
    match wanted {
        Wanted::Answer => answer(job, alloc, bytes, out),
        Wanted::Check => check(job, alloc, bytes, out),
    }
}

// The same of the job of this name.
fn give_named<O: Sink>(
    name: Name,
    wanted: Wanted,
    alloc: Global,
    bytes: &[u8],
    out: &mut O,
) -> Status
    requires { length bytes.now ≤ 2 ^ 29 }
    ensures { IsEnd O.Sink out.old out.new (wanting wanted (named name)) bytes.now result }
{
    match name {
        Name::Curve => give(&Curve, wanted, alloc, bytes, out),
        Name::Closure => give(&Closure, wanted, alloc, bytes, out),
        Name::Densest => give(&Densest, wanted, alloc, bytes, out),
        Name::Strength => give(&Strength, wanted, alloc, bytes, out),
        Name::Select => give(&Select, wanted, alloc, bytes, out),
        Name::Partition => give(&Partition, wanted, alloc, bytes, out),
        Name::Share => give(&Share, wanted, alloc, bytes, out),
    }
}

// The command of a request, from its bytes to its status.
fn run_request<O: Sink>(alloc: Global, request: &TextRequest, bytes: &[u8], out: &mut O) -> Status
    requires { length bytes.now ≤ 2 ^ 29 }
    ensures { IsEnd O.Sink out.old out.new (text_command_of request.now) bytes.now result }
{
    match request {
        TextRequest::At(job) => answer(job, alloc, bytes, out),
        TextRequest::Sweep(job) => answer(job, alloc, bytes, out),
        TextRequest::Trees(job) => answer(job, alloc, bytes, out),
        TextRequest::Reinforce(job) => answer(job, alloc, bytes, out),
        TextRequest::Layers => answer(&Layers, alloc, bytes, out),
        TextRequest::Named(wanted, name) => give_named(*name, *wanted, alloc, bytes, out),
    }
}

// The run with a command over a text, up to its status.
fn work<S: Source, O: Sink>(
    alloc: Global,
    request: &TextRequest,
    source: &mut S,
    out: &mut O,
) -> Status
    ensures { (words : List (List ℕ)) → command_of words ≡ Some (reads (text_command_of request.now))
        → IsRun S.Source source.old source.new O.Sink out.old out.new words result }
{
    let bytes = match read_all(alloc, source, LIMIT) {
        Ok(bytes) => bytes,
        Err(ReadEnd::Failed) => return Status::ReadFault,
        Err(ReadEnd::TooLong) => return Status::Refused(Refusal::TooLong),
        Err(ReadEnd::NoMemory) => return Status::NoMemory,
    };
    run_request(alloc, request, &bytes, out)
}

// The run with a command, up to its status.
fn obey<S: Source, O: Sink>(alloc: Global, request: &Request, source: &mut S, out: &mut O) -> Status
    ensures { (words : List (List ℕ)) → command_of words ≡ Some (command_of_request request.now)
        → IsRun S.Source source.old source.new O.Sink out.old out.new words result }
{
    match request {
        Request::Text(request) => work(alloc, request, source, out),
        Request::Generate(seed) => generate(alloc, *seed, out),
    }
}

// The run up to its status. The sink of messages is not lent to it, so no fault of that sink can change the status, or what the
// source gave and `out` took.
fn decide<S: Source, O: Sink>(
    alloc: Global,
    words: &[String],
    source: &mut S,
    out: &mut O,
) -> Status
    ensures usage { (result ≡ Status.Usage) ↔ (command_of (word_bytes words.now) ≡ None) }
    ensures run { IsRun S.Source source.old source.new O.Sink out.old out.new (word_bytes words.now) result }
{
    match read_words(words) {
        None => Status::Usage,
        Some(request) => obey(alloc, &request, source, out),
    }
}

/// Runs the command of the words on all that the source has left. The answer goes to `out`, or a line to `err` says why
/// there is none. The answer is made whole before its first byte goes out. `generate` reads nothing, and leaves the source as
/// it was.
///
/// - `Done`: `out` took the whole text of a right answer, and it was flushed. `No`: likewise, and the answer is `no`.
/// - `Usage`: exactly where the words are no command. The source is left as it was.
/// - `Refused`: the text is refused, or what the command asks of its problem. This is the first reason against it.
/// - `ReadFault`: only where the source's count of faults rose in this call.
/// - `WriteFault`: only where the count of `out` rose in this call. `out` took a prefix of the text of a right answer.
/// - `NoMemory`: memory was not found, wherever it is taken. With this status, and with `Usage`, `Refused` and
///   `ReadFault`, `out` is left as it was.
///
/// A fault of `err` changes neither the status nor what `out` took: both are settled before `err` is lent to anything, and
/// `tell` hands the status back.
pub fn run<S: Source, O: Sink, E: Sink>(
    alloc: Global,
    words: &[String],
    source: &mut S,
    out: &mut O,
    err: &mut E,
) -> Status
    // The words decide alone whether they are a command.
    ensures usage { (result ≡ Status.Usage) ↔ (command_of (word_bytes words.now) ≡ None) }

    // What the status says, and what source and sink then have; every text that is asked for is answered.
    ensures run { IsRun S.Source source.old source.new O.Sink out.old out.new (word_bytes words.now) result }

    ensures err { ErrAfter E.Sink err.old err.new result }
    ensures err_count { E.faults err.old ≤ E.faults err.new }
{
    tell(decide(alloc, words, source, out), err)
}
