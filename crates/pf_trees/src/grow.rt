// The trees grow by one edge at a time.
ghost use Rattle.std.specs.Prelude.{◌≡◌, ◌≢◌, ℕ, pos, ◌+◌, ◌-◌, ◌*◌, ◌^◌, ◌<◌, ◌≤◌, length, true, slice_set};
ghost use Rattle.pf_model.specs.Cut.{at_arc};
ghost use Rattle.pf_trees.specs.Sides.{separates, cut_at};
ghost use Rattle.pf_trees.specs.Slots.{at, edge_at, unplaced, tree_number};
ghost use Rattle.pf_trees.specs.State.{IsClosed};
ghost use Rattle.pf_trees.specs.Search.{IsChain, KeepsOthers, IsLast};
ghost use Rattle.pf_trees.specs.Tables.{IsInstance, IsPacking, HasRoom};

use crate::cuts::{exchange, separates};
use crate::packing::{Instance, Packing};
use crate::search::{Room, search, trace};

// The last edge of the chain, from place `k` on, that crosses the cut of slot `t`.
fn last_crossing(
    instance: Instance<'_>,
    packing: &Packing<'_>,
    t: usize,
    chain: &[usize],
    k: usize,
    len: usize,
) -> usize
    requires instance { IsInstance instance }
    requires row { t * instance.n + instance.n ≤ length packing.now.cuts.now }
    requires some { k < len }
    requires room { len ≤ length chain.now }
    requires edges { (i : ℕ) → k ≤ i → i < len → at chain.now i < length instance.ends.now }
    requires first { separates (cut_at packing.now.cuts.now instance.n t) (edge_at instance.ends.now (at chain.now k)) ≡ true }
    ensures { IsLast instance.entry.ends.now (cut_at packing.now.cuts.now instance.entry.n) chain.now t k len result }
{
    let ends = instance.ends;
    let n = instance.n as usize;
    let mut found = k;
    'chain: for j in k + 1..len {
        let x = chain[j];
        if separates(packing.cuts, n, t, ends[x]) {
            found = j;
        }
    }
    found
}

// Leaves slot `old` free, if it is a slot.
fn vacate(slot: &mut [usize], old: usize, m: usize)
    ensures { slot.new ≡ slice_set slot.old old m }
{
    if old < slot.len() {
        slot[old] = m;
    }
}

// The edge `x` takes the free slot `t`, and leaves its own, which is the result.
fn take_slot(instance: Instance<'_>, packing: &mut Packing<'_>, t: usize, x: usize) -> usize
    requires instance { IsInstance instance }
    requires packing { IsPacking instance packing.old }
    requires slot { t < instance.k * (instance.n - 1) }
    requires free { at packing.old.slot.now t ≡ length instance.ends.now }
    requires edge { x < length instance.ends.now }
    requires crossing { separates (cut_at packing.old.cuts.now instance.n t) (edge_at instance.ends.now x) ≡ true }
    ensures packing { IsPacking instance.entry packing.new }
    ensures result { result ≡ at packing.old.place.now x }
    ensures place { packing.new.place.now ≡ slice_set packing.old.place.now x t }
    ensures others { KeepsOthers instance.entry.n (cut_at packing.old.cuts.now instance.entry.n) (cut_at packing.new.cuts.now instance.entry.n) t }
    ensures free { result < instance.entry.k * (instance.entry.n - 1) → at packing.new.slot.now result ≡ length instance.entry.ends.now }
{
    let width = (instance.n - 1) as usize;
    let lo = t / width * width;
    let edge = instance.ends[x];
    exchange(packing.cuts, instance.n as usize, lo, lo + width, t, edge);
    let old = packing.place[x];
    packing.slot[t] = x;
    packing.place[x] = t;
    vacate(packing.slot, old, instance.ends.len());
    old
}

// Along the chain each edge takes a slot that was left, until one comes that stood in none.
fn insert(instance: Instance<'_>, packing: &mut Packing<'_>, chain: &[usize], len: usize, t: usize)
    requires instance { IsInstance instance }
    requires packing { IsPacking instance packing.old }
    requires slot { t < instance.k * (instance.n - 1) }
    requires free { at packing.old.slot.now t ≡ length instance.ends.now }
    requires chain { IsChain instance.ends.now (cut_at packing.old.cuts.now instance.n) packing.old.place.now (instance.k * (instance.n - 1)) chain.now 0 len }
    requires crossing { separates (cut_at packing.old.cuts.now instance.n t) (edge_at instance.ends.now (at chain.now 0)) ≡ true }
    ensures packing { IsPacking instance.entry packing.new }
    ensures fewer { unplaced (instance.entry.k * (instance.entry.n - 1)) packing.new.place.now < unplaced (instance.entry.k * (instance.entry.n - 1)) packing.old.place.now }
{
    let total = packing.slot.len();
    let mut t = t;
    let mut from = 0;
    'take: while t < total {
        let i = last_crossing(instance, packing, t, chain, from, len);
        let x = chain[i];
        t = take_slot(instance, packing, t, x);
        from = i + 1;
    }
}

// Puts edges in until the search finds no more.
pub(crate) fn grow(
    instance: Instance<'_>,
    packing: &mut Packing<'_>,
    room: &mut Room<'_>,
    chain: &mut [usize],
)
    requires instance { IsInstance instance }
    requires packing { IsPacking instance packing.old }
    requires places { HasRoom (length instance.ends.now) room.old }
    requires chain { length chain.old ≡ length instance.ends.now }
    ensures packing { IsPacking instance.entry packing.new }
    ensures places { HasRoom (length instance.entry.ends.now) room.new }
    ensures closed { IsClosed (instance.entry.k * (instance.entry.n - 1)) instance.entry.ends.now (cut_at packing.new.cuts.now instance.entry.n) packing.new.slot.now packing.new.place.now room.new.mark.now }
{
    let total = packing.slot.len();
    let mut hit = search(instance, packing, room, 0);
    'more: while hit.slot < total {
        let len = trace(instance, packing, room, hit, chain);
        insert(instance, packing, chain, len, hit.slot);
        let first = chain[len - 1];
        hit = search(instance, packing, room, first);
    }
}

// The first slot without an edge, or the number of slots.
pub(crate) fn free_slot(slot: &[usize], m: usize) -> usize
    ensures free { result < length slot.now → at slot.now result ≡ m }
    ensures full { length slot.now ≤ result → (s : ℕ) → s < length slot.now → at slot.now s ≢ m }
{
    'slots: for t in 0..slot.len() {
        if slot[t] == m {
            return t;
        }
    }
    slot.len()
}

// The number of the tree of an edge in slot `p`; 0 for an edge in no slot.
fn tree_of(p: usize, width: usize, total: usize) -> u32
    requires some { 0 < width }
    requires few { total < 2 ^ 32 }
    ensures { result ≡ tree_number width total p }
{
    if p < total { (p / width + 1) as u32 } else { 0 }
}

// Writes beside each edge the number of its tree.
pub(crate) fn number(place: &[usize], width: usize, total: usize, numbers: &mut [i128])
    requires some { 0 < width }
    requires few { total < 2 ^ 32 }
    requires full { length numbers.old ≡ length place.now }
    ensures { (x : ℕ) → x < length place.now → at_arc numbers.new x ≡ pos (tree_number width total (at place.now x)) }
{
    'edges: for x in 0..place.len() {
        let p = place[x];
        numbers[x] = i128::from(tree_of(p, width, total));
    }
}
