// What every command does, from its bytes to its status.
ghost use Rattle.std.specs.Prelude.{◌≡◌, ◌≢◌, ◌↔◌, ℕ, ◌^◌, ◌≤◌, List, length, true, false, Some, None, Err, IfOk, OnOk, if◌then◌else◌};
ghost use Rattle.pf_text.specs.declared.Refusal.{Refusal};
ghost use Rattle.pf_text.specs.Verdict.{verdict_text};
ghost use Rattle.pf_lines.specs.Places.{lines_left};
ghost use Rattle.pf_lines.specs.Reading.{Agrees};
ghost use Rattle.pf_io.specs.Faults.{HasCause};
ghost use Rattle.pf_io.specs.Told.{IsFrontOf, after_told};
ghost use Rattle.pf_io.specs.Printing.{Adds, is_spent};
ghost use Rattle.pf_top.specs.Job.{Row, job_of, ProblemOf, answer, check};
ghost use Rattle.pf_top.specs.Answering.{IsBadText, IsReadTo, IsRefused, IsProblemOf};
ghost use Rattle.pf_top.specs.Running.{TookWhole, IsEnd};

use crate::status::Status;
use pf_frame::NoMemory;
use pf_io::{Failed, Printer, Sink};
use pf_lines::{Lines, ReadBad};
use pf_text::{Refusal, TextBad};
use std::alloc::Global;

/// Why no answer was made.
#[derive(Clone, Copy, Debug, PartialEq, Eq)]
pub enum Stop {
    Refused(Refusal),
    NoMemory,
}

impl From<NoMemory> for Stop {
    ghost use Rattle.pf_top.specs.declared.job.Stop.TheVariants.{NoMemory};

    ghost from_gives = { λ _ stop. stop ≡ NoMemory };

    fn from(_error: NoMemory) -> Stop {
        Stop::NoMemory
    }
}

impl From<Stop> for Status {
    ghost use Rattle.pf_top.specs.Answering.{status_of};

    ghost from_gives = { λ stop status. status ≡ status_of stop };

    fn from(stop: Stop) -> Status {
        match stop {
            Stop::Refused(refusal) => Status::Refused(refusal),
            Stop::NoMemory => Status::NoMemory,
        }
    }
}

/// A command, which is one row of the table.
pub trait Job {
    /// What its text gives.
    type Problem: Drop;

    /// What it finds, before it is printed.
    type Answer: Drop;

    // Its row.
    ghost row_of: { Self → Row };

    // The problem as the row has it, and the text of an answer.
    ghost problem_of: { (job : Self) → Self.Problem → ProblemOf (row_of job) };

    ghost text_of: { Self → Self.Problem → Self.Answer → List ℕ };

    // What holds of every answer that is found.
    ghost is_found: { Self → Self.Problem → Self.Answer → Type 0 };

    /// Reads the problem, and leaves the reader of lines after its line `end`.
    fn read(&self, alloc: Global, lines: &mut Lines<'_>) -> Result<Self::Problem, ReadBad>
        ensures judged { Agrees ((job_of (row_of self.now)).read (lines_left lines.old))
            (λ p. record { problem = problem_of self.now p; rest = lines.new.rest; line = lines.new.number }) result };

    /// Finds the answer, or the reason against the problem.
    fn solve(&self, alloc: Global, problem: &Self::Problem) -> Result<Self::Answer, Stop>
        ensures found { IfOk result (is_found self.now problem.now) }
        ensures right { IfOk result (λ a. (job_of (row_of self.now)).IsRight (problem_of self.now problem.now) (text_of self.now problem.now a)) }
        ensures passed { IfOk result (λ _. (job_of (row_of self.now)).refusal (problem_of self.now problem.now) ≡ None) }
        ensures refused { (refusal : Refusal) → result ≡ Err (Stop.Refused refusal)
            → (job_of (row_of self.now)).refusal (problem_of self.now problem.now) ≡ Some refusal }
        ensures short { (refusal : Refusal) → result ≡ Err (Stop.Refused refusal) → refusal ≢ Refusal.TooLong };

    /// Prints the answer. It takes no memory.
    fn write<K: Sink>(
        &self,
        out: &mut Printer<'_, K>,
        problem: &Self::Problem,
        answer: &Self::Answer,
    ) -> Result<(), Failed>
        requires usable { is_spent out.old ≡ false }
        requires found { is_found self.now problem.now answer.now }
        ensures { Adds out.old out.new (text_of self.now problem.now answer.now) result };
}

// The problem that the lines give. The reader is left after the line `end`.
fn read_problem<T: Job>(job: &T, alloc: Global, lines: &mut Lines<'_>) -> Result<T::Problem, Stop>
    ensures read { IfOk result (λ p. IsReadTo (T.row_of job.now) lines.old lines.new (T.problem_of job.now p)) }
    ensures refused { (refusal : Refusal) → result ≡ Err (Stop.Refused refusal) → IsBadText (T.row_of job.now) lines.old refusal }
{
    match job.read(alloc, lines) {
        Ok(problem) => Ok(problem),
        Err(ReadBad::Text(bad)) => Err(Stop::Refused(Refusal::Text(bad))),
        Err(ReadBad::NoMemory) => Err(Stop::NoMemory),
    }
}

// The problem of a text with nothing after it.
fn read_alone<T: Job>(job: &T, alloc: Global, bytes: &[u8]) -> Result<T::Problem, Stop>
    requires short { length bytes.now ≤ 2 ^ 29 }
    ensures read { IfOk result (λ p. IsProblemOf (T.row_of job.now) bytes.now (T.problem_of job.now p)) }
    ensures refused { (refusal : Refusal) → result ≡ Err (Stop.Refused refusal) → IsRefused (answer (T.row_of job.now)) bytes.now refusal }
{
    let mut lines = Lines::new(alloc, bytes);
    let problem = read_problem(job, alloc, &mut lines)?;
    match lines.next() {
        None => Ok(problem),
        Some(line) => Err(Stop::Refused(Refusal::Text(TextBad::Syntax(line.number())))),
    }
}

// Hands the text of the answer to the sink.
fn hand_out<T: Job, O: Sink>(
    job: &T,
    problem: &T::Problem,
    answer: &T::Answer,
    out: &mut O,
) -> Result<(), Failed>
    requires { T.is_found job.now problem.now answer.now }
    ensures whole { OnOk result (TookWhole O.Sink out.old out.new (T.text_of job.now problem.now answer.now)) }
    ensures grows { IsFrontOf (O.taken out.old) (O.taken out.new) }
    ensures front { IsFrontOf (O.taken out.new) (after_told (O.taken out.old) (T.text_of job.now problem.now answer.now)) }
    ensures cause { HasCause (O.faults out.old) (O.faults out.new) result }
{
    let mut printer = Printer::new(out);
    job.write(&mut printer, problem, answer)?;
    printer.finish()
}

/// The answer to a command. It is found whole before its first byte goes out.
pub fn answer<T: Job, O: Sink>(job: &T, alloc: Global, bytes: &[u8], out: &mut O) -> Status
    requires short { length bytes.now ≤ 2 ^ 29 }
    ensures { IsEnd O.Sink out.old out.new (answer (T.row_of job.now)) bytes.now result }
{
    let problem = match read_alone(job, alloc, bytes) {
        Ok(problem) => problem,
        Err(stop) => return Status::from(stop),
    };
    let answer = match job.solve(alloc, &problem) {
        Ok(answer) => answer,
        Err(stop) => return Status::from(stop),
    };
    match hand_out(job, &problem, &answer, out) {
        Ok(()) => Status::Done,
        Err(_) => Status::WriteFault,
    }
}

/// A command whose answers can be checked apart from how they were found.
pub trait Checked: Job {
    /// Whether the text certifies the problem's answer.
    fn certifies(
        &self,
        alloc: Global,
        problem: &Self::Problem,
        text: &[u8],
    ) -> Result<bool, NoMemory>
        ensures { IfOk result (λ holds. (holds ≡ true)
            ↔ (job_of (Self.row_of self.now)).Certifies (Self.problem_of self.now problem.now) text.now) };
}

// The text of a verdict.
fn verdict_bytes(holds: bool) -> &'static [u8]
    ensures { result.now ≡ verdict_text holds }
{
    if holds {
        b"o check\nyes\nend\n"
    } else {
        b"o check\nno\nend\n"
    }
}

// Hands the text of the verdict to the sink.
fn hand_verdict<O: Sink>(holds: bool, out: &mut O) -> Result<(), Failed>
    ensures whole { OnOk result (TookWhole O.Sink out.old out.new (verdict_text holds)) }
    ensures grows { IsFrontOf (O.taken out.old) (O.taken out.new) }
    ensures front { IsFrontOf (O.taken out.new) (after_told (O.taken out.old) (verdict_text holds)) }
    ensures cause { HasCause (O.faults out.old) (O.faults out.new) result }
{
    let mut printer = Printer::new(out);
    printer.word(verdict_bytes(holds))?;
    printer.finish()
}

// The status of a verdict that went out.
fn verdict_status(holds: bool) -> Status
    ensures { result ≡ (if holds then Status.Done else Status.No) }
{
    if holds { Status::Done } else { Status::No }
}

/// The verdict on the text after the problem.
pub fn check<T: Checked, O: Sink>(job: &T, alloc: Global, bytes: &[u8], out: &mut O) -> Status
    requires short { length bytes.now ≤ 2 ^ 29 }
    ensures { IsEnd O.Sink out.old out.new (check (T.row_of job.now)) bytes.now result }
{
    let mut lines = Lines::new(alloc, bytes);
    let problem = match read_problem(job, alloc, &mut lines) {
        Ok(problem) => problem,
        Err(stop) => return Status::from(stop),
    };
    let holds = match job.certifies(alloc, &problem, lines.rest()) {
        Ok(holds) => holds,
        Err(_) => return Status::NoMemory,
    };
    match hand_verdict(holds, out) {
        Ok(()) => verdict_status(holds),
        Err(_) => Status::WriteFault,
    }
}
