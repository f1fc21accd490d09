// Pieces of a text with one spelling, taken from its front.
ghost use Rattle.std.specs.Prelude.{◌≡◌, ◌++◌, ◌∷◌, [], ◌≤ℤ◌, ◌≤◌, ◌^◌, ℕ, ℤ, Bool, List, length, map, pos, ◌-◌, All, IfOk, IfErr, IfSome, IfNone, MatchResult};
ghost use Rattle.std.specs.Fmt.{decimal, signed_decimal};
ghost use Rattle.pf_model.specs.Fraction.{Fraction, IsBoundedFraction, IsLowest};
ghost use Rattle.pf_model.specs.Answer.{IsFractionShape, IsWithinSize};
ghost use Rattle.pf_text.specs.Spelling.{side_text, spaced, rest_of_line, fraction_text, numbers_text, head_text, row_line, table_text, fraction_line, side_line, label_line};
ghost use Rattle.pf_lines.specs.Taking.{Finds, Passes, Stops, Takes, IsExcused, IsRow, IsFlowRow, AreLabels, IsValued, valued_line};
ghost use Rattle.pf_lines.specs.declared.taking.Valued.{Valued};

use crate::errors::{AnswerBad, NotThere};
use crate::exact::Exact;
use pf_frame::{FlowTable, Numbers, Side};
use pf_rat::Rat;
use std::alloc::Global;

/// The word.
pub fn take_word(text: &mut Exact<'_>, word: &[u8]) -> Result<(), NotThere>
    ensures taken { IfOk result (λ _. text.old ≡ word.now ++ text.new) }
    ensures found { (rest : List ℕ) → text.old ≡ word.now ++ rest → Passes rest result text.new }
{
    if text.word(word) {
        return Ok(());
    }
    Err(NotThere)
}

/// A space, and a number from `min` to `max`.
pub fn take_number(text: &mut Exact<'_>, min: i128, max: i128) -> Result<i128, NotThere>
    ensures taken { IfOk result (λ n. text.old ≡ (32 ∷ signed_decimal n) ++ text.new) }
    ensures range { IfOk result (λ n. (min ≤ℤ n) × (n ≤ℤ max)) }
    ensures found { (n : ℤ) (rest : List ℕ) → min ≤ℤ n → n ≤ℤ max → Stops rest → text.old ≡ (32 ∷ signed_decimal n) ++ rest → Finds n rest result text.new }
{
    take_word(text, b" ")?;
    match text.num(min, max) {
        Some(number) => Ok(number),
        None => Err(NotThere),
    }
}

/// A space, and this number.
pub fn take_index(text: &mut Exact<'_>, index: usize) -> Result<(), NotThere>
    ensures taken { IfOk result (λ _. text.old ≡ (32 ∷ decimal index) ++ text.new) }
    ensures found { (rest : List ℕ) → Stops rest → text.old ≡ (32 ∷ decimal index) ++ rest → Passes rest result text.new }
{
    take_number(text, index as i128, index as i128)?;
    Ok(())
}

// The fraction of these numbers, if they are in lowest terms.
fn lowest_of(p: i128, q: i128) -> Option<Rat>
    requires { IsBoundedFraction (record { p = p; q = q }) }
    ensures some { IfSome result (λ at. at ≡ record { p = p; q = q }) }
    ensures shape { IfSome result IsFractionShape }
    ensures none { IfNone result (¬ IsLowest (record { p = p; q = q })) }
{
    let at = Rat::new(p, q);
    if at.p() != p {
        return None;
    }
    if at.q() != q {
        return None;
    }
    Some(at)
}

/// A fraction in lowest terms: a space and a number, twice.
pub fn take_fraction(text: &mut Exact<'_>) -> Result<Rat, NotThere>
    ensures taken { IfOk result (λ at. text.old ≡ fraction_text at ++ text.new) }
    ensures shape { IfOk result IsFractionShape }
    ensures found { (at : Fraction) (rest : List ℕ) → IsFractionShape at → Stops rest → text.old ≡ fraction_text at ++ rest → Finds at rest result text.new }
{
    let p = take_number(text, -(1 << 73), 1 << 73)?;
    let q = take_number(text, 1, 1 << 46)?;
    match lowest_of(p, q) {
        Some(at) => Ok(at),
        None => Err(NotThere),
    }
}

// One character of a side.
fn take_node(text: &mut Exact<'_>) -> Result<bool, NotThere>
    ensures taken { IfOk result (λ inside. text.old ≡ side_text (inside ∷ []) ++ text.new) }
    ensures found { (inside : Bool) (rest : List ℕ) → text.old ≡ side_text (inside ∷ []) ++ rest → Finds inside rest result text.new }
{
    if text.word(b"1") {
        return Ok(true);
    }
    take_word(text, b"0")?;
    Ok(false)
}

/// A side of so many nodes: one character for each.
pub fn take_side(alloc: Global, nodes: usize, text: &mut Exact<'_>) -> Result<Side, AnswerBad>
    ensures taken { IfOk result (λ side. text.old ≡ side_text side ++ text.new) }
    ensures count { IfOk result (λ side. length side ≡ nodes) }
    ensures found { (side : List Bool) (rest : List ℕ) → length side ≡ nodes → text.old ≡ side_text side ++ rest → Takes side rest result text.new }
{
    let mut items = Vec::with_capacity(alloc, nodes)?;
    'nodes: for _ in 0..nodes {
        let inside = take_node(text)?;
        items.push(inside)?;
    }
    Ok(Side::from_vec(items))
}

/// So many numbers from `min` to `max`, each with a space in front.
pub fn take_numbers(
    alloc: Global,
    width: usize,
    min: i128,
    max: i128,
    text: &mut Exact<'_>,
) -> Result<Numbers, AnswerBad>
    ensures taken { IfOk result (λ numbers. text.old ≡ numbers_text numbers ++ text.new) }
    ensures shape { IfOk result (IsRow width min max) }
    ensures found { (numbers : List ℤ) (rest : List ℕ) → IsRow width min max numbers → Stops rest
        → text.old ≡ numbers_text numbers ++ rest → Takes numbers rest result text.new }
{
    let mut numbers = Vec::with_capacity(alloc, width)?;
    'numbers: for _i in 0..width {
        let number = take_number(text, min, max)?;
        numbers.push(number)?;
    }
    Ok(Numbers::from_vec(numbers))
}

// The numbers that a line is known by, each with a space in front.
fn take_indices(text: &mut Exact<'_>, indices: &[usize]) -> Result<(), NotThere>
    ensures taken { IfOk result (λ _. text.old ≡ spaced (map decimal indices.now) ++ text.new) }
    ensures found { (rest : List ℕ) → Stops rest → text.old ≡ spaced (map decimal indices.now) ++ rest → Passes rest result text.new }
{
    'items: for index in indices {
        take_index(text, *index)?;
    }
    Ok(())
}

/// What a line begins with: this word, and the numbers that it is known by.
pub fn take_head(text: &mut Exact<'_>, word: &[u8], indices: &[usize]) -> Result<(), NotThere>
    ensures taken { IfOk result (λ _. text.old ≡ head_text word.now indices.now ++ text.new) }
    ensures found { (rest : List ℕ) → Stops rest → text.old ≡ head_text word.now indices.now ++ rest → Passes rest result text.new }
{
    take_word(text, word)?;
    take_indices(text, indices)?;
    Ok(())
}

/// A line of so many numbers from `min` to `max`, as `m M1 .. MN`.
pub fn take_row(
    alloc: Global,
    word: &[u8],
    indices: &[usize],
    width: usize,
    min: i128,
    max: i128,
    text: &mut Exact<'_>,
) -> Result<Numbers, AnswerBad>
    ensures taken { IfOk result (λ numbers. text.old ≡ row_line word.now indices.now numbers ++ text.new) }
    ensures shape { IfOk result (IsRow width min max) }
    ensures found { (numbers : List ℤ) (rest : List ℕ) → IsRow width min max numbers
        → text.old ≡ row_line word.now indices.now numbers ++ rest → Takes numbers rest result text.new }
{
    take_head(text, word, indices)?;
    let numbers = take_numbers(alloc, width, min, max, text)?;
    take_word(text, b"\n")?;
    Ok(numbers)
}

// The least and the greatest number of a flow.
const LEAST: i128 = 1 - (1 << 104);

const GREATEST: i128 = (1 << 104) - 1;

/// A line of so many numbers, each of a size below `2^104`, as `f F1 .. FM`, `f J F1 .. FM` and `r J R X1 .. XM`.
pub fn take_flow_row(
    alloc: Global,
    word: &[u8],
    indices: &[usize],
    width: usize,
    text: &mut Exact<'_>,
) -> Result<Numbers, AnswerBad>
    ensures taken { IfOk result (λ flow. text.old ≡ row_line word.now indices.now flow ++ text.new) }
    ensures shape { IfOk result (IsFlowRow width) }
    ensures found { (flow : List ℤ) (rest : List ℕ) → IsFlowRow width flow
        → text.old ≡ row_line word.now indices.now flow ++ rest → Takes flow rest result text.new }
{
    take_row(alloc, word, indices, width, LEAST, GREATEST, text)
}

/// So many such lines, with the word, and numbered one after the other from `first` on.
pub fn take_flow_rows(
    alloc: Global,
    word: &[u8],
    first: usize,
    width: usize,
    count: usize,
    text: &mut Exact<'_>,
) -> Result<FlowTable, AnswerBad>
    requires { first ≤ 1 }
    ensures taken { IfOk result (λ flows. text.old ≡ table_text word.now first flows ++ text.new) }
    ensures count { IfOk result (λ flows. length flows ≡ count) }
    ensures shape { IfOk result (All (IsFlowRow width)) }
    ensures found { (flows : List (List ℤ)) (rest : List ℕ) → length flows ≡ count → All (IsFlowRow width) flows
        → text.old ≡ table_text word.now first flows ++ rest → Takes flows rest result text.new }
{
    let mut flows = FlowTable::new(alloc);
    'flows: for j in 0..count {
        let flow = take_flow_row(alloc, word, &[first + j], width, text)?;
        flows.push(flow)?;
    }
    Ok(flows)
}

/// A line of a fraction, as `d P Q`, `l J P Q` and `x ID P Q`.
pub fn take_fraction_row(
    text: &mut Exact<'_>,
    word: &[u8],
    indices: &[usize],
) -> Result<Rat, NotThere>
    ensures taken { IfOk result (λ at. text.old ≡ fraction_line word.now indices.now at [] ++ text.new) }
    ensures shape { IfOk result IsFractionShape }
    ensures found { (at : Fraction) (rest : List ℕ) → IsFractionShape at
        → text.old ≡ fraction_line word.now indices.now at [] ++ rest → Finds at rest result text.new }
{
    take_head(text, word, indices)?;
    let at = take_fraction(text)?;
    take_word(text, b"\n")?;
    Ok(at)
}

/// A parameter, and the value that is written of it, in units of `1/q`.
#[derive(Drop)]
pub struct Valued {
    pub at: Rat,
    pub value: i128,
}

// A value of a size below 2^120.
fn take_value(text: &mut Exact<'_>) -> Result<i128, NotThere>
    ensures taken { IfOk result (λ value. text.old ≡ (32 ∷ signed_decimal value) ++ text.new) }
    ensures shape { IfOk result (IsWithinSize (2 ^ 120)) }
    ensures found { (value : ℤ) (rest : List ℕ) → IsWithinSize (2 ^ 120) value → Stops rest
        → text.old ≡ (32 ∷ signed_decimal value) ++ rest → Finds value rest result text.new }
{
    let value = take_number(text, 1 - (1 << 120), (1 << 120) - 1)?;
    Ok(value)
}

/// A line of a fraction and a value there of a size below 2^120, as `b J P Q V`.
pub fn take_valued_row(
    text: &mut Exact<'_>,
    word: &[u8],
    indices: &[usize],
) -> Result<Valued, NotThere>
    ensures taken { IfOk result (λ point. text.old ≡ valued_line word.now indices.now point ++ text.new) }
    ensures shape { IfOk result IsValued }
    ensures found { (point : Valued) (rest : List ℕ) → IsValued point
        → text.old ≡ valued_line word.now indices.now point ++ rest → Finds point rest result text.new }
{
    take_head(text, word, indices)?;
    let at = take_fraction(text)?;
    let value = take_value(text)?;
    take_word(text, b"\n")?;
    Ok(Valued { at, value })
}

/// The rest of a line: a side of so many nodes.
pub fn take_rest_side(alloc: Global, nodes: usize, text: &mut Exact<'_>) -> Result<Side, AnswerBad>
    ensures taken { IfOk result (λ side. text.old ≡ rest_of_line (side_text side ∷ []) ++ text.new) }
    ensures count { IfOk result (λ side. length side ≡ nodes) }
    ensures found { (side : List Bool) (rest : List ℕ) → length side ≡ nodes
        → text.old ≡ rest_of_line (side_text side ∷ []) ++ rest → Takes side rest result text.new }
{
    take_word(text, b" ")?;
    let side = take_side(alloc, nodes, text)?;
    take_word(text, b"\n")?;
    Ok(side)
}

/// A line of a side of so many nodes, as `s SIDE` and `s J SIDE`.
pub fn take_side_row(
    alloc: Global,
    word: &[u8],
    indices: &[usize],
    nodes: usize,
    text: &mut Exact<'_>,
) -> Result<Side, AnswerBad>
    ensures taken { IfOk result (λ side. text.old ≡ side_line word.now indices.now [] side ++ text.new) }
    ensures count { IfOk result (λ side. length side ≡ nodes) }
    ensures found { (side : List Bool) (rest : List ℕ) → length side ≡ nodes
        → text.old ≡ side_line word.now indices.now [] side ++ rest → Takes side rest result text.new }
{
    take_head(text, word, indices)?;
    let side = take_rest_side(alloc, nodes, text)?;
    Ok(side)
}

// The label of this number.
fn label_of(number: i128) -> u32
    requires low { pos 0 ≤ℤ number }
    requires high { number ≤ℤ pos (2 ^ 32 - 1) }
    ensures { pos result ≡ number }
{
    number as u32
}

// So many labels from 1 to `most`, each with a space in front.
fn take_label_fields(
    alloc: Global,
    width: usize,
    most: u32,
    text: &mut Exact<'_>,
) -> Result<Vec<u32>, AnswerBad>
    ensures taken { IfOk result (λ labels. text.old ≡ spaced (map decimal labels.items) ++ text.new) }
    ensures shape { IfOk result (λ labels. AreLabels width most labels.items) }
    ensures found { (labels : List ℕ) (rest : List ℕ) → AreLabels width most labels → Stops rest
        → text.old ≡ spaced (map decimal labels) ++ rest → MatchResult result (λ taken. (taken.items ≡ labels) × (text.new ≡ rest)) IsExcused }
{
    let mut labels = Vec::with_capacity(alloc, width)?;
    'labels: for _i in 0..width {
        let number = take_number(text, 1, i128::from(most))?;
        labels.push(label_of(number))?;
    }
    Ok(labels)
}

/// A line of so many labels from 1 to `most`, as `s L1 .. LN` and `s J L1 .. LN`.
pub fn take_labels(
    alloc: Global,
    word: &[u8],
    indices: &[usize],
    width: usize,
    most: u32,
    text: &mut Exact<'_>,
) -> Result<Vec<u32>, AnswerBad>
    ensures taken { IfOk result (λ labels. text.old ≡ label_line word.now indices.now labels.items ++ text.new) }
    ensures shape { IfOk result (λ labels. AreLabels width most labels.items) }
    ensures found { (labels : List ℕ) (rest : List ℕ) → AreLabels width most labels
        → text.old ≡ label_line word.now indices.now labels ++ rest → MatchResult result (λ taken. (taken.items ≡ labels) × (text.new ≡ rest)) IsExcused }
{
    take_head(text, word, indices)?;
    let labels = take_label_fields(alloc, width, most, text)?;
    take_word(text, b"\n")?;
    Ok(labels)
}

/// A line of a count from `least` on, as `k K`, of no more than bytes stand after it: so what is read for each of what is
/// counted takes no more memory than the text.
pub fn take_count(text: &mut Exact<'_>, word: &[u8], least: usize) -> Result<usize, NotThere>
    ensures taken { IfOk result (λ count. text.old ≡ row_line word.now (count ∷ []) [] ++ text.new) }
    ensures some { IfOk result (λ count. least ≤ count) }
    ensures found { (count : ℕ) (rest : List ℕ) → least ≤ count → count ≤ length rest
        → text.old ≡ row_line word.now (count ∷ []) [] ++ rest → Finds count rest result text.new }
{
    take_word(text, word)?;
    let most = text.rest().len();
    let count = take_number(text, least as i128, most as i128)?;
    take_word(text, b"\n")?;
    Ok(count as usize)
}

/// The end: nothing is left.
pub fn take_end(text: &Exact<'_>) -> Result<(), NotThere>
    ensures taken { IfOk result (λ _. text.now ≡ []) }
    ensures found { text.now ≡ [] → IfErr result (λ _. ⊥) }
{
    if text.rest().is_empty() {
        return Ok(());
    }
    Err(NotThere)
}
