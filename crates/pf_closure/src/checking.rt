// The test of a least ratio.
ghost use Rattle.std.specs.Prelude.{◌≡◌, ◌↔◌, IsTrue, ℕ, ◌<◌, ◌≤◌, ◌≤ℤ◌, pos, length, true, IfOk};
ghost use Rattle.std.specs.Bool.{OnTrue};
ghost use Rattle.pf_model.specs.Cut.{at_arc};
ghost use Rattle.pf_frame.specs.Scratch.{Serves, KeepsPlaces};
ghost use Rattle.pf_closure.specs.Problem.{IsLeastRatio};
ghost use Rattle.pf_closure.specs.Certificate.{CertifiesRatio};
ghost use Rattle.pf_closure.specs.Dropping.{AreRouted};
ghost use Rattle.pf_closure.specs.Right.{IsCertifiedRatio};

use crate::dropping::{mark_dropped, write_slacks};
use crate::items::Items;
use crate::ratio::Ratio;
use crate::text::read_ratio;
use pf_frame::{NoMemory, Scratch};
use pf_lines::AnswerBad;
use pf_ratio::{has_some, is_rest};
use std::alloc::Global;

// Whether each number is from 0 to 2^100.
fn is_routing(routing: &[i128]) -> bool
    ensures { IsTrue result ↔ AreRouted routing.now (length routing.now) }
{
    'needs: for k in 0..routing.len() {
        if routing[k] < 0 || 1 << 100 < routing[k] {
            return false;
        }
    }
    true
}

// Whether none of the first numbers is below 0.
fn are_nonneg(sums: &[i128], count: usize) -> bool
    requires { count ≤ length sums.now }
    ensures { IsTrue result ↔ ((i : ℕ) → i < count → pos 0 ≤ℤ at_arc sums.now i) }
{
    'items: for i in 0..count {
        if sums[i] < 0 {
            return false;
        }
    }
    true
}

/// Whether the numbers on the needs certify the ratio and the chosen items, which are then the least ratio and its greatest closure.
/// It takes no memory. The scratch is for as many nodes as there are items and as many arcs as there are needs.
pub fn check_ratio(items: &Items, answer: &Ratio, scratch: &mut Scratch) -> bool
    requires chosen { length answer.now.chosen ≡ length items.now.costs }
    requires routing { length answer.now.routing ≡ length items.now.needs }
    requires room { Serves scratch.old (length items.now.costs) (length items.now.needs) }
    ensures exact { IsTrue result ↔ CertifiesRatio items.now answer.now.ratio answer.now.chosen answer.now.routing }
    ensures places { KeepsPlaces scratch.old scratch.new }
    ensures best { OnTrue result (IsLeastRatio items.now answer.now.ratio answer.now.chosen) }
{
    // They tell the limits of the items, and that the ratio is a fraction.
    let _ = items.items();
    let at = answer.ratio();
    let _ = at.q();
    let routing = answer.routing().get();
    let chosen = answer.chosen().get();
    if !is_routing(routing) {
        return false;
    }
    let sums = scratch.sums.as_mut_slice();
    write_slacks(items, at, routing, sums);
    if !are_nonneg(sums, chosen.len()) {
        return false;
    }
    let marks = scratch.marks.as_mut_slice();
    mark_dropped(items, routing, sums, marks);
    if !is_rest(chosen, marks) {
        return false;
    }
    has_some(chosen)
}

/// Whether the numbers on the needs certify the ratio and the chosen items, as `check_ratio` tests it. The working room is taken
/// and given back here.
pub fn is_certified(alloc: Global, items: &Items, answer: &Ratio) -> Result<bool, NoMemory>
    requires chosen { length answer.now.chosen ≡ length items.now.costs }
    requires routing { length answer.now.routing ≡ length items.now.needs }
    ensures { IfOk result (λ holds. (holds ≡ true) ↔ CertifiesRatio items.now answer.now.ratio answer.now.chosen answer.now.routing) }
{
    let count = items.items() as usize;
    let needs = items.needs() as usize;
    let mut scratch = Scratch::make(alloc, count, needs)?;
    Ok(check_ratio(items, answer, &mut scratch))
}

/// Whether the text is that of an answer for the items whose certificate holds.
pub fn is_certified_text(alloc: Global, items: &Items, text: &[u8]) -> Result<bool, NoMemory>
    ensures { IfOk result (λ holds. (holds ≡ true) ↔ IsCertifiedRatio items.now text.now) }
{
    let answer = match read_ratio(alloc, items, text) {
        Ok(answer) => answer,
        Err(AnswerBad::NotText) => return Ok(false),
        Err(AnswerBad::NoMemory) => return Err(NoMemory),
    };
    is_certified(alloc, items, &answer)
}
