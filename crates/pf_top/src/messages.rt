// The line that a status writes to the sink of messages.
ghost use Rattle.std.specs.Prelude.{◌≡◌, ◌≤◌, ◌∷◌, [], ◌++◌, false, codes, OnOk, OnErr};
ghost use Rattle.std.specs.Fmt.{decimal};
ghost use Rattle.pf_io.specs.Faults.{HasCause};
ghost use Rattle.pf_io.specs.Told.{Took, IsFrontOf, after_told, told_length};
ghost use Rattle.pf_io.specs.Printing.{Adds, is_spent};
ghost use Rattle.pf_top.specs.Messages.{rule_word, bad_words, refusal_words, status_words, status_line, ErrAfter};

use crate::status::Status;
use pf_io::{Failed, Printer, Sink};
use pf_text::{Refusal, RuleKind, TextBad};

fn rule_text(rule: RuleKind) -> &'static [u8]
    ensures { result.now ≡ rule_word rule }
{
    match rule {
        RuleKind::Repeated => b"repeated",
        RuleKind::Missing => b"missing",
        RuleKind::Ends => b"ends",
        RuleKind::Interval => b"interval",
        RuleKind::Monotone => b"monotone",
        RuleKind::Negative => b"negative",
        RuleKind::Loop => b"loop",
    }
}

fn natural<K: Sink>(out: &mut Printer<'_, K>, number: u64) -> Result<(), Failed>
    requires { is_spent out.old ≡ false }
    ensures { Adds out.old out.new (decimal number) result }
{
    out.num(i128::from(number))
}

fn print_line_number<K: Sink>(
    out: &mut Printer<'_, K>,
    number: u64,
    reason: &[u8],
) -> Result<(), Failed>
    requires { is_spent out.old ≡ false }
    ensures { Adds out.old out.new (codes "line " ++ decimal number ++ reason.now) result }
{
    out.word(b"line ")?;
    natural(out, number)?;
    out.word(reason)
}

fn print_rule<K: Sink>(out: &mut Printer<'_, K>, number: u64, rule: RuleKind) -> Result<(), Failed>
    requires { is_spent out.old ≡ false }
    ensures { Adds out.old out.new (codes "line " ++ decimal number ++ codes ": rule " ++ rule_word rule) result }
{
    print_line_number(out, number, b": rule ")?;
    out.word(rule_text(rule))
}

fn print_bad<K: Sink>(out: &mut Printer<'_, K>, bad: TextBad) -> Result<(), Failed>
    requires { is_spent out.old ≡ false }
    ensures { Adds out.old out.new (bad_words bad) result }
{
    match bad {
        TextBad::Syntax(number) => print_line_number(out, number, b": syntax"),
        TextBad::Range(number) => print_line_number(out, number, b": range"),
        TextBad::Count(number) => print_line_number(out, number, b": count"),
        TextBad::WrongKind(number) => print_line_number(out, number, b": wrong kind"),
        TextBad::Rule(number, rule) => print_rule(out, number, rule),
        TextBad::NoEnd => out.word(b"no end"),
    }
}

fn print_refusal<K: Sink>(out: &mut Printer<'_, K>, refusal: Refusal) -> Result<(), Failed>
    requires { is_spent out.old ≡ false }
    ensures { Adds out.old out.new (refusal_words refusal) result }
{
    match refusal {
        Refusal::Text(bad) => print_bad(out, bad),
        Refusal::TooLong => out.word(b"too long"),
        Refusal::Outside => out.word(b"outside"),
        Refusal::TooFine => out.word(b"too fine"),
    }
}

fn print_words<K: Sink>(out: &mut Printer<'_, K>, status: Status) -> Result<(), Failed>
    requires { is_spent out.old ≡ false }
    ensures { Adds out.old out.new (status_words status) result }
{
    match status {
        Status::Done | Status::No => out.word(b""),
        Status::Usage => out.word(b"usage"),
        Status::Refused(refusal) => print_refusal(out, refusal),
        Status::ReadFault => out.word(b"read fault"),
        Status::WriteFault => out.word(b"write fault"),
        Status::NoMemory => out.word(b"no memory"),
    }
}

fn print_line<K: Sink>(out: &mut Printer<'_, K>, status: Status) -> Result<(), Failed>
    requires { is_spent out.old ≡ false }
    ensures { Adds out.old out.new (status_line status) result }
{
    out.word(b"ppart: ")?;
    print_words(out, status)?;
    out.word(b"\n")
}

// Hands the line of the status to the sink.
fn say<E: Sink>(err: &mut E, status: Status) -> Result<(), Failed>
    ensures ok { OnOk result (Took (E.taken err.old) (E.taken err.new) (status_line status)) }
    ensures flushed { OnOk result (E.flushed err.new ≡ told_length (E.taken err.new)) }
    ensures grows { IsFrontOf (E.taken err.old) (E.taken err.new) }
    ensures front { IsFrontOf (E.taken err.new) (after_told (E.taken err.old) (status_line status)) }
    ensures cause { HasCause (E.faults err.old) (E.faults err.new) result }
{
    let mut printer = Printer::new(err);
    print_line(&mut printer, status)?;
    printer.finish()
}

/// Writes the line of a status that has one, and hands the status back. A fault of the sink is passed over.
pub fn tell<E: Sink>(status: Status, err: &mut E) -> Status
    ensures same { result ≡ status }
    ensures line { ErrAfter E.Sink err.old err.new status }
    ensures count { E.faults err.old ≤ E.faults err.new }
{
    match status {
        Status::Done | Status::No => status,
        other => {
            let _ = say(err, other);
            other
        }
    }
}
