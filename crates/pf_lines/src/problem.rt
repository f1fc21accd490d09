// Reading of a problem, whatever its kind.
ghost use Rattle.std.specs.Prelude.{◌≡◌, ◌≤◌, ◌<◌, ℤ, List, IfOk, IfErr, Ok, Err, MatchResult, length, map};
ghost use Rattle.pf_text.specs.Kinds.{Kind, Fits, header, step, body, problem_of_lines};
ghost use Rattle.pf_lines.specs.Patterns.{pattern_of};
ghost use Rattle.pf_lines.specs.Shapes.{shape_of, form_at};
ghost use Rattle.pf_lines.specs.Places.{Place, lines_left};
ghost use Rattle.pf_lines.specs.Ranges.{header_numbers};
ghost use Rattle.pf_lines.specs.Reading.{Agrees, IsRefusalOf, IsBehindRefusal, HasPassed};
ghost use Rattle.pf_lines.specs.Gathering.{ObeysRules, ComesFromLines, state_of, judged_by, judged_at};

use crate::errors::{LineBad, ReadBad, at_line};
use crate::fields::{Numbers, is_end, is_named, is_wrong_kind, numbers_from, refused};
use crate::forms::{LineForm, Pattern};
use crate::lines::{Lines, TextLine};
use crate::matching::{FoundForm, find_form};
use pf_frame::NoMemory;
use pf_text::TextBad;
use std::alloc::Global;

/// A kind of text: the forms of its lines as data, its rules, and the problem that its texts give.
///
/// The reader of problems does all else: it finds the header and the line `end`, matches each line
/// with a form, tests the numbers' ranges, and counts.
pub trait ProblemKind {
    /// The numbers of the header, and what the lines after it have given so far.
    type State: Drop;

    /// What the whole text gives.
    type Problem: Drop;

    // What the definition gathers, and what it gives.
    ghost Gathered: { Type 0 };

    ghost Value: { Type 0 };

    // The kind of the definition, what a state has of the header and of the lines after it, and the problem.
    ghost kind: { Self → Kind Self.Gathered Self.Value };

    ghost header_of: { Self.State → List ℤ };

    ghost given_of: { Self.State → Self.Gathered };

    ghost value_of: { Self.Problem → Self.Value };

    /// The kind's name in the header.
    fn name(&self) -> &'static [u8]
        ensures { result.now ≡ (kind self.now).name };

    /// What the fields after the name have to be.
    fn header(&self) -> &'static [Pattern]
        ensures are { map pattern_of result.now ≡ (kind self.now).header_patterns }
        ensures few { length result.now ≤ 6 };

    /// What is given before the first line after a header of these numbers.
    fn start(&self, alloc: Global, numbers: &[i64]) -> Result<Self::State, NoMemory>
        requires { Fits (kind self.now).header_patterns numbers.now }
        ensures header { IfOk result (λ state. header_of state ≡ numbers.now) }
        ensures given { IfOk result (λ state. given_of state ≡ (kind self.now).start numbers.now) };

    /// How many counted lines the header asks for.
    fn count(&self, state: &Self::State) -> usize
        ensures { result ≡ (kind self.now).count (header_of state.now) };

    /// The forms of the lines between the header and the line `end`.
    fn forms(&self, alloc: Global, state: &Self::State) -> Result<Vec<LineForm>, NoMemory>
        ensures { IfOk result (λ forms. forms.items ≡ map shape_of ((kind self.now).forms (header_of state.now))) };

    /// Takes a line of the form at this place of the table, from 0, with these numbers, by the rules
    /// of the form.
    fn take(&self, state: &mut Self::State, form: usize, numbers: &[i64]) -> Result<(), LineBad>
        requires there { form < length ((kind self.now).forms (header_of state.old)) }
        requires fits { Fits (form_at ((kind self.now).forms (header_of state.old)) form).patterns numbers.now }
        ensures obeys { ObeysRules ((form_at ((kind self.now).forms (header_of state.old)) form).rules numbers.now (given_of state.old)) (λ _. given_of state.new) result }
        ensures header { header_of state.new ≡ header_of state.old };

    /// The problem that the line `end` makes of what was given.
    fn finish(&self, alloc: Global, state: Self::State) -> Result<Self::Problem, LineBad>
        requires { ComesFromLines (kind self.now) (header_of state) (given_of state) }
        ensures { ObeysRules ((kind self.now).problem (header_of state) (given_of state)) value_of result };
}

// The numbers of a header of this name, with these patterns after it.
fn read_header(
    alloc: Global,
    line: &TextLine<'_>,
    name: &[u8],
    patterns: &[Pattern],
) -> Result<Numbers, TextBad>
    requires { length patterns.now ≤ 6 }
    ensures { let exact = header_numbers name.now (map pattern_of patterns.now) line.now in
        MatchResult result (λ numbers. exact ≡ Ok numbers.items) (λ bad. exact ≡ Err bad) }
{
    if is_wrong_kind(line, name) {
        return Err(TextBad::WrongKind(line.number()));
    }
    if !is_named(line, name) {
        return Err(TextBad::Syntax(line.number()));
    }
    match numbers_from(alloc, line, 2, patterns) {
        Ok(numbers) => Ok(numbers),
        Err(bad) => Err(refused(line.number(), bad)),
    }
}

// What the first line begins, if it is a header.
fn begin<K: ProblemKind>(alloc: Global, kind: &K, line: &TextLine<'_>) -> Result<K::State, ReadBad>
    ensures { Agrees (header (K.kind kind.now) line.now) (λ state. state_of (K.header_of state) 0 (K.given_of state)) result }
{
    let numbers = match read_header(alloc, line, kind.name(), kind.header()) {
        Ok(numbers) => numbers,
        Err(bad) => return Err(ReadBad::Text(bad)),
    };
    match kind.start(alloc, numbers.as_slice()) {
        Ok(state) => Ok(state),
        Err(_) => Err(ReadBad::NoMemory),
    }
}

// Takes the line of this number, whose form was found, and gives how many counted lines there
// were up to it.
fn take_found<K: ProblemKind>(
    kind: &K,
    found: &FoundForm,
    most: usize,
    counted: usize,
    state: &mut K::State,
    line: u64,
) -> Result<usize, ReadBad>
    requires there { found.now.form < length ((K.kind kind.now).forms (K.header_of state.old)) }
    requires is_counted { found.now.is_counted ≡ (form_at ((K.kind kind.now).forms (K.header_of state.old)) found.now.form).is_counted }
    requires fits { Fits (form_at ((K.kind kind.now).forms (K.header_of state.old)) found.now.form).patterns found.now.numbers.items }
    requires most { most ≡ (K.kind kind.now).count (K.header_of state.old) }
    requires room { counted ≤ most }
    ensures judged { Agrees (judged_by (K.kind kind.now) (state_of (K.header_of state.old) counted (K.given_of state.old)) line
        (form_at ((K.kind kind.now).forms (K.header_of state.old)) found.now.form) found.now.numbers.items)
        (λ n. state_of (K.header_of state.new) n (K.given_of state.new)) result }
    ensures header { K.header_of state.new ≡ K.header_of state.old }
    ensures room { IfOk result (λ n. n ≤ most) }
{
    if found.is_counted && counted == most {
        return Err(ReadBad::Text(TextBad::Count(line)));
    }
    match kind.take(state, found.form, found.numbers.as_slice()) {
        Ok(()) => Ok(if found.is_counted {
            counted + 1
        } else {
            counted
        }),
        Err(bad) => Err(at_line(line, bad)),
    }
}

// Takes a line between the header and the line `end`, and gives how many counted lines there were
// up to it.
fn take_line<K: ProblemKind>(
    alloc: Global,
    kind: &K,
    forms: &[LineForm],
    most: usize,
    counted: usize,
    state: &mut K::State,
    line: &TextLine<'_>,
) -> Result<usize, ReadBad>
    requires forms { forms.now ≡ map shape_of ((K.kind kind.now).forms (K.header_of state.old)) }
    requires most { most ≡ (K.kind kind.now).count (K.header_of state.old) }
    requires room { counted ≤ most }
    ensures judged { Agrees (step (K.kind kind.now) (state_of (K.header_of state.old) counted (K.given_of state.old)) line.now)
        (λ n. state_of (K.header_of state.new) n (K.given_of state.new)) result }
    ensures header { K.header_of state.new ≡ K.header_of state.old }
    ensures room { IfOk result (λ n. n ≤ most) }
{
    let found = match find_form(alloc, forms, line) {
        Ok(found) => found,
        Err(bad) => return Err(ReadBad::Text(refused(line.number(), bad))),
    };
    take_found(kind, &found, most, counted, state, line.number())
}

// Takes the lines that have a form of this table, up to and with the line `end`.
fn take_lines<K: ProblemKind>(
    alloc: Global,
    kind: &K,
    forms: &[LineForm],
    state: &mut K::State,
    lines: &mut Lines<'_>,
) -> Result<(), ReadBad>
    requires { forms.now ≡ map shape_of ((K.kind kind.now).forms (K.header_of state.old)) }
    ensures ended { IfOk result (λ _. body (K.kind kind.now) (state_of (K.header_of state.old) 0 (K.given_of state.old)) (lines_left lines.old)
        ≡ judged_at lines.new ((K.kind kind.now).problem (K.header_of state.new) (K.given_of state.new))) }
    ensures judged { IfErr result (IsRefusalOf (body (K.kind kind.now) (state_of (K.header_of state.old) 0 (K.given_of state.old)) (lines_left lines.old))) }
    ensures refused { IfErr result (λ bad. IsBehindRefusal bad lines.new) }
    ensures passed { HasPassed lines.old lines.new }
{
    let most = kind.count(&*state);
    let mut counted = 0;
    'lines: while let Some(line) = lines.next() {
        if is_end(&line) {
            if counted < most {
                return Err(ReadBad::Text(TextBad::Count(line.number())));
            }
            return Ok(());
        }
        counted = take_line(alloc, kind, forms, most, counted, &mut *state, &line)?;
    }
    Err(ReadBad::Text(TextBad::NoEnd))
}

// Takes the lines after the header, up to and with the line `end`.
fn take_body<K: ProblemKind>(
    alloc: Global,
    kind: &K,
    state: &mut K::State,
    lines: &mut Lines<'_>,
) -> Result<(), ReadBad>
    ensures ended { IfOk result (λ _. body (K.kind kind.now) (state_of (K.header_of state.old) 0 (K.given_of state.old)) (lines_left lines.old)
        ≡ judged_at lines.new ((K.kind kind.now).problem (K.header_of state.new) (K.given_of state.new))) }
    ensures judged { IfErr result (IsRefusalOf (body (K.kind kind.now) (state_of (K.header_of state.old) 0 (K.given_of state.old)) (lines_left lines.old))) }
    ensures refused { IfErr result (λ bad. IsBehindRefusal bad lines.new) }
    ensures passed { HasPassed lines.old lines.new }
{
    let forms = kind.forms(alloc, &*state)?;
    take_lines(alloc, kind, &forms, state, lines)
}

// The problem, where the line `end` of this number stands after what was given.
fn finish<K: ProblemKind>(
    alloc: Global,
    kind: &K,
    state: K::State,
    end: u64,
) -> Result<K::Problem, ReadBad>
    requires { ComesFromLines (K.kind kind.now) (K.header_of state) (K.given_of state) }
    ensures { (place : Place) → place.number ≡ end → Agrees (judged_at place ((K.kind kind.now).problem (K.header_of state) (K.given_of state)))
        (λ p. record { problem = K.value_of p; rest = place.rest; line = place.number }) result }
{
    match kind.finish(alloc, state) {
        Ok(problem) => Ok(problem),
        Err(bad) => Err(at_line(end, bad)),
    }
}

/// Reads a text of a kind, up to and with its line `end`: its problem, or the first line that is
/// refused, and why.
///
/// The reader of lines is left after the line that decided: the line `end`, or the one that is
/// refused. Where no line is `end`, it is left after the last one.
pub fn read_problem<K: ProblemKind>(
    alloc: Global,
    kind: &K,
    lines: &mut Lines<'_>,
) -> Result<K::Problem, ReadBad>
    ensures judged { Agrees (problem_of_lines (K.kind kind.now) (lines_left lines.old))
        (λ p. record { problem = K.value_of p; rest = lines.new.rest; line = lines.new.number }) result }
    ensures refused { IfErr result (λ bad. IsBehindRefusal bad lines.new) }
    ensures passed { HasPassed lines.old lines.new }
{
    let Some(first) = lines.next() else {
        return Err(ReadBad::Text(TextBad::NoEnd));
    };
    let mut state = begin(alloc, kind, &first)?;
    take_body(alloc, kind, &mut state, lines)?;
    finish(alloc, kind, state, lines.number())
}
