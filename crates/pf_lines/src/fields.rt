// The fields of a line, and the numbers in them.
ghost use Rattle.std.specs.Prelude.{◌≡◌, ◌+◌, ◌<◌, ◌≤◌, ◌&&◌, [], ◌∷◌, ℕ, List, length, map, drop, Ok, Err, MatchResult, IsTrue, ◌↔◌, slice_index_or, not, codes};
ghost use Rattle.smallvec.specs.SmallVec.{small_vec_len};
ghost use Rattle.pf_text.specs.Kinds.{FieldPattern, is_end, is_wrong_kind, numbers_by};
ghost use Rattle.pf_lines.specs.Patterns.{pattern_of};
ghost use Rattle.pf_lines.specs.Ranges.{ranged_numbers, ranged_behind, behind_field, number_refusal};

use crate::forms::{MOST_FIELDS, Pattern};
use crate::lines::TextLine;
use crate::numbers::{Bad, whole};
use pf_text::TextBad;
use smallvec::SmallVec;
use std::alloc::Global;

/// The numbers of a line, in the order of its fields.
pub type Numbers = SmallVec<i64, MOST_FIELDS>;

/// The field at this index, from 0.
fn field<'a>(line: &TextLine<'a>, i: usize) -> &'a [u8]
    requires kept { i < 8 }
    requires there { i < length line.now.fields }
    ensures { result.now ≡ slice_index_or line.now.fields i [] }
{
    match line.field(i) {
        Some(field) => field,
        None => unreachable!(),
    }
}

/// Whether the line is `end`.
pub fn is_end(line: &TextLine<'_>) -> bool
    ensures { result ≡ is_end line.now.fields }
{
    line.count() == 1 && field(line, 0) == b"end".as_slice()
}

/// Whether the line is the header of another kind of text than the one of this name.
pub fn is_wrong_kind(line: &TextLine<'_>, name: &[u8]) -> bool
    ensures { result ≡ is_wrong_kind name.now line.now.fields }
{
    line.count() >= 2 && field(line, 0) == b"p".as_slice() && field(line, 1) != name
}

/// Whether the line begins with `p` and this name.
pub fn is_named(line: &TextLine<'_>, name: &[u8]) -> bool
    ensures { IsTrue result ↔ ((2 ≤ length line.now.fields) × (slice_index_or line.now.fields 0 [] ≡ codes "p") × (slice_index_or line.now.fields 1 [] ≡ name.now)) }
{
    line.count() >= 2 && field(line, 0) == b"p".as_slice() && field(line, 1) == name
}

// Takes the number of a field, where it has to have one, and gives whether all numbers so far
// lie in their ranges. There is none where the field has not its pattern.
fn take_field(pattern: &Pattern, field: &[u8], fits: bool, numbers: &mut Numbers) -> Option<bool>
    requires { small_vec_len numbers.old < numbers.old.capacity }
    ensures behind { (patterns : List FieldPattern) (fields : List (List ℕ))
        → ranged_behind fits numbers.old.items (pattern_of pattern.now ∷ patterns) (numbers_by (pattern_of pattern.now ∷ patterns) (field.now ∷ fields))
        ≡ behind_field result numbers.new.items patterns (numbers_by patterns fields) }
    ensures few { small_vec_len numbers.new ≤ small_vec_len numbers.old + 1 }
    ensures room { numbers.new.capacity ≡ numbers.old.capacity }
{
    match pattern {
        Pattern::Word(word) => { if field == *word { Some(fits) } else { None } }
        Pattern::Number(low, high) => match whole(field, *low, *high) {
            Ok(number) => {
                numbers.push_reserved(number);
                Some(fits)
            }
            Err(Bad::OutOfRange) => Some(false),
            Err(Bad::NotNumber) => None,
        },
    }
}

/// The numbers of the fields from this one on, where these fields have the patterns: each in its
/// range. A field that has not its pattern is told before a number out of its range.
pub fn numbers_from(
    alloc: Global,
    line: &TextLine<'_>,
    from: usize,
    patterns: &[Pattern],
) -> Result<Numbers, Bad>
    requires kept { from + length patterns.now ≤ 8 }
    requires there { from ≤ length line.now.fields }
    ensures { let exact = ranged_numbers (map pattern_of patterns.now) (drop from line.now.fields) in
        MatchResult result (λ numbers. exact ≡ Ok numbers.items) (λ bad. exact ≡ Err bad) }
{
    if line.count() != from + patterns.len() {
        return Err(Bad::NotNumber);
    }
    let mut numbers = SmallVec::new(alloc);
    let mut fits = true;
    'fields: for i in 0..patterns.len() {
        match take_field(&patterns[i], field(line, from + i), fits, &mut numbers) {
            Some(still) => fits = still,
            None => return Err(Bad::NotNumber),
        }
    }
    if fits {
        Ok(numbers)
    } else {
        Err(Bad::OutOfRange)
    }
}

/// The refusal of a line with such a field.
pub fn refused(line: u64, bad: Bad) -> TextBad
    ensures { result ≡ number_refusal line bad }
{
    match bad {
        Bad::NotNumber => TextBad::Syntax(line),
        Bad::OutOfRange => TextBad::Range(line),
    }
}
