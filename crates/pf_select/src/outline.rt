// The lines of selections and prices of a schedule's text.
ghost use Rattle.std.specs.Prelude.{◌≡◌, ◌++◌, ◌∷◌, [], ◌↔◌, ℕ, Bool, List, length, map, All, IsTrue, IfOk, IfErr, MatchResult};
ghost use Rattle.pf_model.specs.Fraction.{Fraction};
ghost use Rattle.pf_lines.specs.Taking.{Takes, IsExcused};
ghost use Rattle.pf_select.specs.Problem.{worth};
ghost use Rattle.pf_select.specs.Text.{selections_text};
ghost use Rattle.pf_select.specs.Outline.{IsChange, change_lines, outline_text, outline_of, IsOutline, IsOutlineShape, HasWorths, IsSelectionsShape};
ghost use Rattle.pf_select.specs.declared.outline.Change.{Change};

use crate::catalogue::Catalogue;
use crate::worth::worth_at;
use pf_curve::{Points, Sides};
use pf_frame::{Numbers, Side};
use pf_lines::{AnswerBad, Exact, Valued, take_side_row, take_valued_row};
use pf_rat::Rat;
use std::alloc::Global;

/// A price with the number that is written there, and the selection after it.
#[derive(Drop)]
pub struct Change {
    point: Valued,
    set: Side,
}

/// Prices, a selection up to each and one after the last, and the number that is written at each price.
#[derive(Drop)]
pub struct Outline {
    pub prices: Points,
    pub selections: Sides,
    pub values: Numbers,
}

// The lines of price `j`, and of the selection after it.
fn take_change(
    alloc: Global,
    width: usize,
    j: usize,
    text: &mut Exact<'_>,
) -> Result<Change, AnswerBad>
    ensures taken { IfOk result (λ change. text.old ≡ change_lines j change ++ text.new) }
    ensures shape { IfOk result (IsChange width) }
    ensures found { (change : Change) (rest : List ℕ) → IsChange width change → text.old ≡ change_lines j change ++ rest → Takes change rest result text.new }
{
    let point = take_valued_row(text, b"b", &[j])?;
    let set = take_side_row(alloc, b"s", &[j], width, text)?;
    Ok(Change { point, set })
}

// Adds the value.
fn add_value(values: &mut Numbers, value: i128) -> Result<(), AnswerBad>
    ensures added { IfOk result (λ _. values.new ≡ values.old ++ value ∷ []) }
    ensures excused { IfErr result IsExcused }
{
    values.push(value)?;
    Ok(())
}

// One selection, and no price.
fn begin(alloc: Global, first: Side) -> Result<Outline, AnswerBad>
    ensures begun { IfOk result (λ o. o ≡ record { prices = []; selections = first ∷ []; values = [] }) }
    ensures excused { IfErr result IsExcused }
{
    let mut selections = Sides::new(alloc);
    selections.push(first)?;
    let prices = Points::new(alloc);
    let values = Numbers::new(alloc);
    Ok(Outline {
        prices,
        selections,
        values,
    })
}

// Adds the price, the number there, and the selection after it.
fn add_change(outline: &mut Outline, change: Change) -> Result<(), AnswerBad>
    ensures added { IfOk result (λ _. outline.new ≡ record {
      prices = outline.old.prices ++ change.point.at ∷ [];
      selections = outline.old.selections ++ change.set ∷ [];
      values = outline.old.values ++ change.point.value ∷ [];
    }) }
    ensures excused { IfErr result IsExcused }
{
    let Change { point, set } = change;
    let Valued { at, value } = point;
    outline.prices.push(at)?;
    outline.selections.push(set)?;
    add_value(&mut outline.values, value)?;
    Ok(())
}

// The first selection, and so many prices with the selections after them.
fn take_outline(
    alloc: Global,
    width: usize,
    count: usize,
    text: &mut Exact<'_>,
) -> Result<Outline, AnswerBad>
    ensures taken { IfOk result (λ o. IsOutline width count o text.old text.new) }
    ensures found { (first : List Bool) (changes : List Change) (rest : List ℕ) → length first ≡ width → length changes ≡ count
        → All (IsChange width) changes → text.old ≡ outline_text first changes ++ rest → Takes (outline_of first changes) rest result text.new }
{
    let first = take_side_row(alloc, b"s", &[0], width, text)?;
    let mut outline = begin(alloc, first)?;
    'changes: for j in 0..count {
        let change = take_change(alloc, width, j + 1, text)?;
        add_change(&mut outline, change)?;
    }
    Ok(outline)
}

// Whether the selection is worth so much at the price, in units of `1/q`.
fn is_worth(catalogue: &Catalogue, price: &Rat, set: &[bool], written: &i128) -> bool
    requires { length set.now ≡ length catalogue.now.costs }
    ensures { IsTrue result ↔ (written.now ≡ worth catalogue.now price.now set.now) }
{
    let written = *written;
    written == worth_at(catalogue, price, set)
}

// Whether the number at each price is what the selection before it is worth there.
fn values_agree(catalogue: &Catalogue, outline: &Outline) -> bool
    requires { IsOutlineShape catalogue.now outline.now }
    ensures { IsTrue result ↔ HasWorths catalogue.now outline.now (length outline.now.prices) }
{
    let prices = outline.prices.get();
    let sets = outline.selections.get();
    let values = outline.values.get();
    'prices: for j in 0..prices.len() {
        if !is_worth(catalogue, &prices[j], sets[j].get(), &values[j]) {
            return false;
        }
    }
    true
}

/// The first selection, and so many prices, each with what the selection before it is worth there and the selection after it.
pub fn take_selections(
    alloc: Global,
    catalogue: &Catalogue,
    count: usize,
    text: &mut Exact<'_>,
) -> Result<Outline, AnswerBad>
    ensures taken { IfOk result (λ o. text.old ≡ selections_text catalogue.now o.prices o.selections ++ text.new) }
    ensures shape { IfOk result (λ o. IsSelectionsShape catalogue.now count o.prices o.selections) }
    ensures found { (prices : List Fraction) (selections : List (List Bool)) (rest : List ℕ) → IsSelectionsShape catalogue.now count prices selections
        → text.old ≡ selections_text catalogue.now prices selections ++ rest
        → MatchResult result (λ o. (o.prices ≡ prices) × (o.selections ≡ selections) × (text.new ≡ rest)) IsExcused }
{
    let width = catalogue.parts() as usize;
    let outline = take_outline(alloc, width, count, text)?;
    if !values_agree(catalogue, &outline) {
        return Err(AnswerBad::NotText);
    }
    Ok(outline)
}
