// Which command words ask for.
ghost use Rattle.std.specs.Prelude.{◌≡◌, ◌+◌, ◌-◌, ◌*◌, ◌^◌, ◌≤◌, ◌==◌, ◌≤ℤ◌, ℕ, pos, true, List, Option, Some, IfSome};
ghost use Rattle.std.specs.List.{position};
ghost use Rattle.std.specs.Option.{option_map, option_and_then, option_or};
ghost use Rattle.pf_model.specs.Fraction.{Fraction, IsBoundedFraction, lowest};
ghost use Rattle.pf_text.specs.Numbers.{is_digit, natural_of, billion};
ghost use Rattle.pf_text.specs.Words.{natural_within, cut_at_slash, fraction_of_parts, parameter_of};
ghost use Rattle.pf_top.specs.Job.{at, sweep, trees, reinforce, named, answer, check, reads, draws};
ghost use Rattle.pf_top.specs.Asked.{beside, names, lone_words, level_of_parts, level_of, first_words, command_of};
ghost use Rattle.pf_top.specs.Words.{word_bytes, command_of_request};

use crate::commands::at::At;
use crate::commands::reinforce::Reinforce;
use crate::commands::sweep::Sweep;
use crate::commands::trees::Trees;
use pf_lines::whole;
use pf_rat::Rat;

/// The jobs that a word alone asks for. `check` with their name tests an answer.
#[derive(Clone, Copy, Debug, PartialEq, Eq)]
pub enum Name {
    /// The whole least-cut function.
    Curve,
    /// The least ratio of a closure.
    Closure,
    /// The densest subgraph.
    Densest,
    /// The strength of a graph.
    Strength,
    /// The best selection at every price.
    Select,
    /// The principal partition of a graph.
    Partition,
    /// The fair shares of several sources.
    Share,
}

/// What is wanted of a job.
#[derive(Clone, Copy, Debug, PartialEq, Eq)]
pub enum Wanted {
    /// Its answer.
    Answer,
    /// Whether a text certifies an answer to it.
    Check,
}

/// What words ask for of a text.
#[derive(Drop)]
pub enum TextRequest {
    /// The answer at one parameter.
    At(At),
    /// The least cuts at the ends of so many equal steps.
    Sweep(Sweep),
    /// So many trees, or what forbids them.
    Trees(Trees),
    /// The least cost of the strength at one level, or what forbids it.
    Reinforce(Reinforce),
    /// The layers of a graph, or of items that need others.
    Layers,
    /// This of the job of this name.
    Named(Wanted, Name),
}

/// What words ask for.
#[derive(Drop)]
pub enum Request {
    /// Something of a text.
    Text(TextRequest),
    /// The summary of the network that this seed draws. No text is read.
    Generate(u64),
}

const BILLION: i64 = 1_000_000_000;

// The greatest number of a level.
const MOST: u64 = 1_000_000_000;

// The fraction in lowest terms.
fn in_lowest_terms(p: i64, q: i64) -> Rat
    requires { IsBoundedFraction (record { p = p; q = q }) }
    ensures { result ≡ lowest (record { p = p; q = q }) }
{
    Rat::new(i128::from(p), i128::from(q))
}

// The fraction of the two numbers, if both are in their ranges.
fn fraction(front: &[u8], back: &[u8]) -> Option<Rat>
    ensures { fraction_of_parts front.now back.now ≡ result }
{
    let Ok(p) = whole(front, -BILLION, BILLION) else {
        return None;
    };
    let Ok(q) = whole(back, 1, BILLION) else {
        return None;
    };
    Some(in_lowest_terms(p, q))
}

// Where the first slash stands.
fn first_slash(bytes: &[u8]) -> Option<usize>
    ensures { result ≡ position (λ b. b == 47) bytes.now }
{
    bytes.iter().position(|b| *b == b'/')
}

// The bytes before the first slash and those after it, if there is one.
fn cut(bytes: &[u8]) -> Option<(&[u8], &[u8])>
    ensures { (read : List ℕ → List ℕ → Option Fraction) → cut_at_slash read bytes.now ≡ option_and_then (λ parts. read parts.0.now parts.1.now) result }
{
    let slash = first_slash(bytes)?;
    let (front, _) = bytes.split_at(slash);
    let (_, back) = bytes.split_at(slash + 1);
    Some((front, back))
}

// The fraction `P/Q`, if both numbers are in their ranges.
fn read_parameter(bytes: &[u8]) -> Option<Rat>
    ensures { parameter_of bytes.now ≡ result }
{
    match cut(bytes) {
        Some((front, back)) => fraction(front, back),
        None => None,
    }
}

// Whether the byte is an ASCII digit.
fn is_digit(byte: u8) -> bool
    ensures { result ≡ is_digit byte }
{
    (48..=57).contains(&byte)
}

// The number with one more digit after it, if it is at most the greatest.
fn with_digit(number: u64, byte: u8, most: u64) -> Option<u64>
    requires { is_digit byte ≡ true }
    ensures { natural_within 0 most (Some (10 * number + (byte - 48))) ≡ result }
{
    let next = u128::from(number) * 10 + u128::from(byte - 48);
    if next > u128::from(most) {
        return None;
    }
    Some(next as u64)
}

// The number of one or more digits, if it lies from the least to the greatest.
fn natural(bytes: &[u8], least: u64, most: u64) -> Option<u64>
    ensures value { natural_within least most (natural_of bytes.now) ≡ result }
    ensures low { IfSome result (λ n. least ≤ n) }
    ensures high { IfSome result (λ n. n ≤ most) }
{
    if bytes.is_empty() {
        return None;
    }
    let mut number: u64 = 0;
    'digits: for byte in bytes {
        if !is_digit(*byte) {
            return None;
        }
        let Some(next) = with_digit(number, *byte, most) else {
            return None;
        };
        number = next;
    }
    if number < least {
        return None;
    }
    Some(number)
}

// The level of the two numbers, in lowest terms.
fn level_of_numbers(p: u64, q: u64) -> Reinforce
    requires high { p ≤ billion }
    requires some { 1 ≤ q }
    requires most { q ≤ billion }
    ensures { result ≡ lowest (record { p = pos p; q = pos q }) }
{
    Reinforce::new(Rat::new(i128::from(p), i128::from(q)))
}

// The level of the two texts of digits, if both numbers are in their ranges.
fn level(front: &[u8], back: &[u8]) -> Option<Reinforce>
    ensures { level_of_parts front.now back.now ≡ result }
{
    let Some(p) = natural(front, 0, MOST) else {
        return None;
    };
    let Some(q) = natural(back, 1, MOST) else {
        return None;
    };
    Some(level_of_numbers(p, q))
}

// The level `P/Q`, if both numbers are in their ranges.
fn read_level(bytes: &[u8]) -> Option<Reinforce>
    ensures { level_of bytes.now ≡ result }
{
    match cut(bytes) {
        Some((front, back)) => level(front, back),
        None => None,
    }
}

// The job of this name.
fn name_of(word: &[u8]) -> Option<Name>
    ensures { beside names word.now ≡ result }
{
    if word == b"curve".as_slice() {
        return Some(Name::Curve);
    }
    if word == b"closure".as_slice() {
        return Some(Name::Closure);
    }
    if word == b"densest".as_slice() {
        return Some(Name::Densest);
    }
    if word == b"strength".as_slice() {
        return Some(Name::Strength);
    }
    if word == b"select".as_slice() {
        return Some(Name::Select);
    }
    if word == b"partition".as_slice() {
        return Some(Name::Partition);
    }
    if word == b"share".as_slice() {
        return Some(Name::Share);
    }
    None
}

// What a word asks for that stands alone, if it is one that `check` does not know.
fn lone_word(first: &[u8]) -> Option<Request>
    ensures { beside lone_words first.now ≡ option_map command_of_request result }
{
    if first == b"layers".as_slice() {
        return Some(Request::Text(TextRequest::Layers));
    }
    None
}

// What one word asks for, if it has the form of a command.
fn one_word(first: &[u8]) -> Option<Request>
    ensures { option_or (option_map (λ name. reads (answer (named name))) (beside names first.now)) (beside lone_words first.now)
        ≡ option_map command_of_request result }
{
    match name_of(first) {
        Some(name) => Some(Request::Text(TextRequest::Named(Wanted::Answer, name))),
        None => lone_word(first),
    }
}

// What `at` asks for with this second word, if it is a parameter.
fn at_word(second: &[u8]) -> Option<Request>
    ensures { option_map (λ x. reads (answer (at x))) (parameter_of second.now) ≡ option_map command_of_request result }
{
    match read_parameter(second) {
        Some(parameter) => Some(Request::Text(TextRequest::At(At { parameter }))),
        None => None,
    }
}

// What `check` asks for with this second word, if it names a job with a certificate.
fn check_word(second: &[u8]) -> Option<Request>
    ensures { option_map (λ name. reads (check (named name))) (beside names second.now) ≡ option_map command_of_request result }
{
    match name_of(second) {
        Some(name) => Some(Request::Text(TextRequest::Named(Wanted::Check, name))),
        None => None,
    }
}

// What `sweep` asks for with this second word, if it is a number of steps.
fn sweep_word(second: &[u8]) -> Option<Request>
    ensures { option_map (λ k. reads (answer (sweep k))) (natural_within 1 100000 (natural_of second.now)) ≡ option_map command_of_request result }
{
    match natural(second, 1, 100000) {
        Some(steps) => Some(Request::Text(TextRequest::Sweep(Sweep::new(steps as u32)))),
        None => None,
    }
}

// What `trees` asks for with this second word, if it is a number of trees.
fn trees_word(second: &[u8]) -> Option<Request>
    ensures { option_map (λ k. reads (answer (trees k))) (natural_within 1 500 (natural_of second.now)) ≡ option_map command_of_request result }
{
    match natural(second, 1, 500) {
        Some(count) => Some(Request::Text(TextRequest::Trees(Trees::new(count as u32)))),
        None => None,
    }
}

// What `reinforce` asks for with this second word, if it is a level.
fn reinforce_word(second: &[u8]) -> Option<Request>
    ensures { option_map (λ x. reads (answer (reinforce x))) (level_of second.now) ≡ option_map command_of_request result }
{
    match read_level(second) {
        Some(job) => Some(Request::Text(TextRequest::Reinforce(job))),
        None => None,
    }
}

// What `generate` asks for with this second word, if it is a seed.
fn generate_word(second: &[u8]) -> Option<Request>
    ensures { option_map draws (natural_within 0 (2 ^ 64 - 1) (natural_of second.now)) ≡ option_map command_of_request result }
{
    match natural(second, 0, u64::MAX) {
        Some(seed) => Some(Request::Generate(seed)),
        None => None,
    }
}

// What two words ask for, if they have the form of a command.
fn two_words(first: &[u8], second: &[u8]) -> Option<Request>
    ensures { option_and_then (λ read. read second.now) (beside first_words first.now) ≡ option_map command_of_request result }
{
    if first == b"at".as_slice() {
        return at_word(second);
    }
    if first == b"check".as_slice() {
        return check_word(second);
    }
    if first == b"sweep".as_slice() {
        return sweep_word(second);
    }
    if first == b"trees".as_slice() {
        return trees_word(second);
    }
    if first == b"reinforce".as_slice() {
        return reinforce_word(second);
    }
    if first == b"generate".as_slice() {
        return generate_word(second);
    }
    None
}

/// What the words ask for, if they have the form of a command.
pub fn read_words(words: &[String]) -> Option<Request>
    ensures { command_of (word_bytes words.now) ≡ option_map command_of_request result }
{
    match words {
        [] => None,
        [first] => one_word(first.as_bytes()),
        [first, second] => two_words(first.as_bytes(), second.as_bytes()),
        _ => None,
    }
}
