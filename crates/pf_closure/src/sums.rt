// Sums over the items of a side, and their ratio.
ghost use Rattle.std.specs.Prelude.{◌≡◌, ◌≢◌, ℕ, ◌<◌, ◌≤◌, ◌^◌, ◌*ℤ◌, ◌≤ℤ◌, pos, neg_ℤ, length, take, if◌then◌else◌};
ghost use Rattle.pf_model.specs.Answer.{IsFractionShape};
ghost use Rattle.pf_model.specs.Cut.{at_arc};
ghost use Rattle.pf_model.specs.Network.{IsInInterval};
ghost use Rattle.pf_closure.specs.Problem.{IsNonempty, sum_of_side, cost_of, weight_of};
ghost use Rattle.pf_closure.specs.Reduction.{closure_net, items_of, behind_first};

use crate::items::Items;
use pf_rat::Rat;

// The number where it counts, and else 0.
fn pick(counts: bool, number: i64) -> i64
    ensures { result ≡ (if counts then number else pos 0) }
{
    if counts { number } else { 0 }
}

// The sum of the numbers of the items in a side of the network.
fn sum_in(numbers: &[i64], side: &[bool]) -> i128
    requires few { length numbers.now ≤ 1000 }
    requires low { (i : ℕ) → i < length numbers.now → neg_ℤ (pos 1000000) ≤ℤ at_arc numbers.now i }
    requires high { (i : ℕ) → i < length numbers.now → at_arc numbers.now i ≤ℤ pos 1000000 }
    requires nodes { length numbers.now < length side.now }
    ensures { result ≡ sum_of_side (take (length numbers.now) (behind_first side.now)) numbers.now }
{
    let mut sum: i128 = 0;
    'items: for i in 0..numbers.len() {
        sum += i128::from(pick(side[i + 1], numbers[i]));
    }
    sum
}

// The cost over the weight of the items in a side of the network, of which there is one.
pub fn ratio_of(items: &Items, side: &[bool]) -> Rat
    requires full { length items.now.costs < length side.now }
    requires some { IsNonempty (items_of items.now side.now) }
    ensures ratio { result.q *ℤ cost_of items.now (items_of items.now side.now) ≡ result.p *ℤ weight_of items.now (items_of items.now side.now) }
    ensures inside { IsInInterval (closure_net items.now) result }
    ensures small { result.q ≤ℤ pos (2 ^ 44) }
    ensures shape { IsFractionShape result }
{
    // Gives the proof the limits of the items.
    let _ = items.items();
    let cost = sum_in(items.costs(), side);
    let weight = sum_in(items.weights(), side);
    Rat::new(cost, weight)
}
