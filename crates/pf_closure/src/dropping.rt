// What the items may still be brought, and which of them are dropped.
ghost use Rattle.std.specs.Prelude.{◌≡◌, ◌<◌, ◌≤◌, ◌^◌, ◌+◌, length, ℕ, ℤ, ◌+ℤ◌, ◌-ℤ◌, ◌≤ℤ◌, ◌*ℤ◌, pos, neg_ℤ, slice_set, false};
ghost use Rattle.pf_model.specs.Cut.{at_arc, has};
ghost use Rattle.pf_model.specs.Fraction.{Fraction};
ghost use Rattle.pf_model.specs.Flow.{flow_value};
ghost use Rattle.pf_model.specs.Digraph.{IsDigraph};
ghost use Rattle.pf_frame.specs.Numbers.{IsBounded};
ghost use Rattle.pf_closure.specs.Certificate.{IsDropped, IsRouting};
ghost use Rattle.pf_closure.specs.Dropping.{HasSlacks, IsStart, need_link};

use crate::items::Items;
use pf_rat::Rat;
use pf_ratio::{Link, Links, mark_linked};

// The cost of an item less the ratio `p/q` times its weight, in units of `1/q`.
fn reduced_cost(cost: i64, weight: i64, at: &Rat) -> i128
    requires cost_low { neg_ℤ (pos 1000000) ≤ℤ cost }
    requires cost_high { cost ≤ℤ pos 1000000 }
    requires weight_low { pos 1 ≤ℤ weight }
    requires weight_high { weight ≤ℤ pos 1000000 }
    ensures value { result ≡ (at.now.q *ℤ cost) -ℤ (at.now.p *ℤ weight) }
    ensures low { neg_ℤ (pos (2 ^ 100)) ≤ℤ result }
    ensures high { result ≤ℤ pos (2 ^ 100) }
{
    at.q() * i128::from(cost) - at.p() * i128::from(weight)
}

// Adds to one number.
fn raise(sums: &mut [i128], v: usize, amount: i128)
    requires place { v < length sums.old }
    requires low { neg_ℤ (pos (2 ^ 120)) ≤ℤ at_arc sums.old v }
    requires high { at_arc sums.old v ≤ℤ pos (2 ^ 120) }
    requires amount_low { neg_ℤ (pos (2 ^ 120)) ≤ℤ amount }
    requires amount_high { amount ≤ℤ pos (2 ^ 120) }
    ensures { sums.new ≡ slice_set sums.old v (at_arc sums.old v +ℤ amount) }
{
    sums[v] += amount;
}

// Writes into the first places of `sums`, one per item, what the needs take from the item less what they bring to it.
fn write_balance(count: u32, needs: &[(u32, u32)], routing: &[i128], sums: &mut [i128])
    requires few { length needs.now ≤ 32768 }
    requires graph { IsDigraph (record { nodes = count; ends = needs.now }) }
    requires routing { IsBounded (record { nodes = count; ends = needs.now }) routing.now }
    requires places { count ≤ length sums.old }
    ensures full { length sums.new ≡ length sums.old }
    ensures value { (v : ℕ) → v < count → at_arc sums.new v ≡ flow_value needs.now routing.now v }
    ensures low { (v : ℕ) → v < count → neg_ℤ (pos (2 ^ 119)) ≤ℤ at_arc sums.new v }
    ensures high { (v : ℕ) → v < count → at_arc sums.new v ≤ℤ pos (2 ^ 119) }
{
    sums.fill(0);
    'needs: for k in 0..needs.len() {
        let amount = routing[k];
        raise(sums, needs[k].0 as usize, amount);
        raise(sums, needs[k].1 as usize, -amount);
    }
}

/// Writes into the first places of `sums` what each item may still be brought.
pub fn write_slacks(items: &Items, at: &Rat, routing: &[i128], sums: &mut [i128])
    requires routing { IsRouting items.now routing.now }
    requires places { length items.now.costs ≤ length sums.old }
    ensures { HasSlacks items.now at.now routing.now sums.new }
{
    let count = items.items();
    let costs = items.costs();
    let weights = items.weights();
    write_balance(count, items.pairs(), routing, sums);
    'items: for i in 0..costs.len() {
        let more = reduced_cost(costs[i], weights[i], at);
        raise(sums, i, more);
    }
}

// Marks the items that may be brought more.
fn mark_strict(sums: &[i128], count: usize, marks: &mut [bool])
    requires sums { count ≤ length sums.now }
    requires places { count ≤ length marks.old }
    ensures full { length marks.new ≡ length marks.old }
    ensures start { IsStart sums.now count marks.new }
{
    marks.fill(false);
    'items: for i in 0..count {
        marks[i] = 0 < sums[i];
    }
}

// The needs, along which items are dropped.
#[derive(Drop)]
struct Needs<'a> {
    items: &'a Items,
    routing: &'a [i128],
}

impl<'a> Links for Needs<'a> {
    ghost count = { λ s. length s.items.now.needs };

    ghost link = { λ s k. need_link s.items.now s.routing.now k };

    ghost is_ready = { λ s. IsRouting s.items.now s.routing.now };

    fn count(&self) -> usize {
        self.items.needs() as usize
    }

    fn link(&self, k: usize) -> Link {
        link_of(self.items, self.routing, k)
    }
}

// A need as a link.
fn link_of(items: &Items, routing: &[i128], k: usize) -> Link
    requires routing { IsRouting items.now routing.now }
    requires there { k < length items.now.needs }
    ensures { result ≡ need_link items.now routing.now k }
{
    let needs = items.pairs();
    Link {
        first: needs[k].0 as usize,
        second: needs[k].1 as usize,
        to_first: true,
        to_second: 0 < routing[k],
    }
}

/// Marks the dropped items. `sums` holds what each item may still be brought.
pub fn mark_dropped(items: &Items, routing: &[i128], sums: &[i128], marks: &mut [bool])
    requires routing { IsRouting items.now routing.now }
    requires sums { length items.now.costs ≤ length sums.now }
    requires places { length items.now.costs ≤ length marks.old }
    ensures full { length marks.new ≡ length marks.old }
    ensures dropped { (x : Fraction) → HasSlacks items.now x routing.now sums.now → IsDropped items.now x routing.now marks.new }
{
    // Gives the proof that needs name items.
    let _ = items.items();
    mark_strict(sums, items.costs().len(), marks);
    let needs = Needs { items, routing };
    mark_linked(&needs, marks);
}
