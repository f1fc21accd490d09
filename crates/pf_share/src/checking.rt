// The test of shares.
ghost use Rattle.std.specs.Prelude.{◌≡◌, ◌↔◌, IsTrue, ℕ, suc, ◌<◌, ◌≤◌, ◌^◌, ◌+ℤ◌, ◌*ℤ◌, ◌≤ℤ◌, pos, neg_ℤ, nat_lt, length, slice_set};
ghost use Rattle.std.specs.Bool.{OnTrue};
ghost use Rattle.pf_model.specs.Cut.{at_arc};
ghost use Rattle.pf_model.specs.Fraction.{IsBelow};
ghost use Rattle.pf_frame.specs.Scratch.{Serves, KeepsPlaces};
ghost use Rattle.pf_share.specs.Problem.{tail_of, head_of};
ghost use Rattle.pf_share.specs.Certificate.{rank_of, is_lower, node_level, AreLevels, HasSource, CertifiesShares, IsBestShares};
ghost use Rattle.pf_share.specs.Right.{IsSharesShape};
ghost use Rattle.pf_share.specs.Tests.{IsLevel, IsSourceOf, HaveSources, IsRight, whole_of, AreRight, brought, AreOwn, AreBalances, AreKept, AreZero};

use crate::shares::Shares;
use crate::sharing::Sharing;
use pf_frame::Scratch;
use pf_rat::Rat;
use std::cmp::Ordering;

// Whether the one fraction is below the other.
fn is_below(x: &Rat, y: &Rat) -> bool
    ensures { IsTrue result ↔ IsBelow x.now y.now }
{
    match x.cmp(y) {
        Ordering::Less => true,
        Ordering::Equal => false,
        Ordering::Greater => false,
    }
}

// Whether level `j`, from 0, is not below 0, and above the one before it.
fn is_level(levels: &[Rat], j: usize) -> bool
    requires { j < length levels.now }
    ensures { IsTrue result ↔ IsLevel levels.now j }
{
    // Gives the proof that the level is a fraction.
    let _ = levels[j].q();
    if levels[j].p() < 0 {
        return false;
    }
    if j == 0 {
        return true;
    }
    is_below(&levels[j - 1], &levels[j])
}

// Whether the levels are not below 0 and rise strictly.
fn are_levels(levels: &[Rat]) -> bool
    ensures { IsTrue result ↔ AreLevels levels.now }
{
    'levels: for j in 0..levels.len() {
        if !is_level(levels, j) {
            return false;
        }
    }
    true
}

// Whether the one group is lower than the other, where group 0 is the highest.
fn is_below_group(g: usize, h: usize) -> bool
    ensures { (count : ℕ) → g ≤ count → h ≤ count → result ≡ nat_lt (rank_of count g) (rank_of count h) }
{
    if g == 0 {
        return false;
    }
    if h == 0 {
        return true;
    }
    g < h
}

// Whether the group of the node `u` is lower than that of the node `v`.
pub(crate) fn is_lower(sharing: &Sharing, answer: &Shares, u: usize, v: usize) -> bool
    requires shape { IsSharesShape sharing.now answer.now }
    requires first { u < sharing.now.nodes }
    requires second { v < sharing.now.nodes }
    ensures { result ≡ is_lower answer.now.levels answer.now.groups u v }
{
    let first = answer.group(u);
    let second = answer.group(v);
    is_below_group(first, second)
}

// The product of a number of a level with a weight or a capacity.
fn times(k: i128, number: u32) -> i128
    requires low { neg_ℤ (pos (2 ^ 73)) ≤ℤ k }
    requires high { k ≤ℤ pos (2 ^ 73) }
    requires small { number ≤ 1000000000 }
    ensures value { result ≡ k *ℤ pos number }
    ensures low { neg_ℤ (pos (2 ^ 103)) ≤ℤ result }
    ensures high { result ≤ℤ pos (2 ^ 103) }
{
    k * i128::from(number)
}

// The capacity of an arc, in units of `1/q` of the level of a node.
pub(crate) fn whole(sharing: &Sharing, answer: &Shares, i: usize, v: usize) -> i128
    requires shape { IsSharesShape sharing.now answer.now }
    requires arc { i < length sharing.now.ends }
    requires node { v < sharing.now.nodes }
    ensures value { result ≡ whole_of sharing.now answer.now i v }
    ensures low { neg_ℤ (pos (2 ^ 103)) ≤ℤ result }
    ensures high { result ≤ℤ pos (2 ^ 103) }
{
    let group = answer.group(v);
    times(answer.denominator(group), sharing.capacity(i))
}

// The share of a node: its level times its weight.
fn own_share(sharing: &Sharing, answer: &Shares, v: usize) -> i128
    requires shape { IsSharesShape sharing.now answer.now }
    requires node { v < sharing.now.nodes }
    ensures value { result ≡ (node_level answer.now.levels answer.now.groups v).p *ℤ at_arc sharing.now.weights v }
    ensures low { neg_ℤ (pos (2 ^ 103)) ≤ℤ result }
    ensures high { result ≤ℤ pos (2 ^ 103) }
{
    let group = answer.group(v);
    times(answer.numerator(group), sharing.weight(v))
}

// Whether the node is a source of the group.
fn is_source_of(sharing: &Sharing, answer: &Shares, group: usize, v: usize) -> bool
    requires shape { IsSharesShape sharing.now answer.now }
    requires node { v < sharing.now.nodes }
    ensures { IsTrue result ↔ IsSourceOf sharing.now answer.now.groups group v }
{
    if sharing.weight(v) == 0 {
        return false;
    }
    answer.group(v) == group
}

// Whether a source is in the group.
fn has_source(sharing: &Sharing, answer: &Shares, group: usize) -> bool
    requires { IsSharesShape sharing.now answer.now }
    ensures { IsTrue result ↔ HasSource sharing.now answer.now.groups group }
{
    let count = sharing.nodes() as usize;
    'nodes: for v in 0..count {
        if is_source_of(sharing, answer, group, v) {
            return true;
        }
    }
    false
}

// Whether each group but group 0 has a source. Where one has none, at most one more than there are nodes was looked at.
fn have_sources(sharing: &Sharing, answer: &Shares) -> bool
    requires { IsSharesShape sharing.now answer.now }
    ensures { IsTrue result ↔ HaveSources sharing.now (length answer.now.levels) answer.now.groups }
{
    let count = answer.levels().get().len();
    'groups: for j in 0..count {
        if !has_source(sharing, answer, j + 1) {
            return false;
        }
    }
    true
}

// Whether the number is from 0 to the whole capacity, the whole of it upward, and 0 downward.
fn is_right(number: i128, whole: i128, up: bool, down: bool) -> bool
    ensures { IsTrue result ↔ IsRight number whole up down }
{
    if number < 0 || whole < number {
        return false;
    }
    if up && number != whole {
        return false;
    }
    !down || number == 0
}

// Whether the number on the arc fits the groups of its ends.
fn is_arc_right(sharing: &Sharing, answer: &Shares, i: usize) -> bool
    requires shape { IsSharesShape sharing.now answer.now }
    requires arc { i < length sharing.now.ends }
    ensures { IsTrue result ↔ IsRight (at_arc answer.now.flow i) (whole_of sharing.now answer.now i (tail_of sharing.now i))
        (is_lower answer.now.levels answer.now.groups (tail_of sharing.now i) (head_of sharing.now i))
        (is_lower answer.now.levels answer.now.groups (head_of sharing.now i) (tail_of sharing.now i)) }
{
    let tail = sharing.tail(i) as usize;
    let head = sharing.head(i) as usize;
    let number = answer.number(i);
    let full = whole(sharing, answer, i, tail);
    let up = is_lower(sharing, answer, tail, head);
    let down = is_lower(sharing, answer, head, tail);
    is_right(number, full, up, down)
}

// Whether the number on each arc fits the groups of its ends.
fn are_right(sharing: &Sharing, answer: &Shares) -> bool
    requires { IsSharesShape sharing.now answer.now }
    ensures { IsTrue result ↔ AreRight sharing.now answer.now (length sharing.now.ends) }
{
    let count = sharing.arcs() as usize;
    'arcs: for i in 0..count {
        if !is_arc_right(sharing, answer, i) {
            return false;
        }
    }
    true
}

// What an arc brings to its head, in units of `1/q` of the head's level.
fn brought(sharing: &Sharing, answer: &Shares, i: usize) -> i128
    requires shape { IsSharesShape sharing.now answer.now }
    requires arc { i < length sharing.now.ends }
    ensures value { result ≡ brought sharing.now answer.now i }
    ensures low { neg_ℤ (pos (2 ^ 104)) ≤ℤ result }
    ensures high { result ≤ℤ pos (2 ^ 104) }
{
    let tail = sharing.tail(i) as usize;
    let head = sharing.head(i) as usize;
    if is_lower(sharing, answer, tail, head) {
        return whole(sharing, answer, i, head);
    }
    answer.number(i)
}

// Adds to one number.
fn raise(sums: &mut [i128], v: usize, amount: i128)
    requires place { v < length sums.old }
    requires low { neg_ℤ (pos (2 ^ 120)) ≤ℤ at_arc sums.old v }
    requires high { at_arc sums.old v ≤ℤ pos (2 ^ 120) }
    requires amount_low { neg_ℤ (pos (2 ^ 104)) ≤ℤ amount }
    requires amount_high { amount ≤ℤ pos (2 ^ 104) }
    ensures { sums.new ≡ slice_set sums.old v (at_arc sums.old v +ℤ amount) }
{
    sums[v] += amount;
}

// Writes the share of each node into the first places, with its sign turned.
pub(crate) fn write_own(sharing: &Sharing, answer: &Shares, sums: &mut [i128])
    requires shape { IsSharesShape sharing.now answer.now }
    requires places { sharing.now.nodes ≤ length sums.old }
    ensures full { length sums.new ≡ length sums.old }
    ensures own { AreOwn sharing.now answer.now sharing.now.nodes sums.new }
{
    let count = sharing.nodes() as usize;
    'nodes: for v in 0..count {
        sums[v] = -own_share(sharing, answer, v);
    }
}

// Adds what leaves each node and takes away what enters it.
pub(crate) fn add_arcs(sharing: &Sharing, answer: &Shares, sums: &mut [i128])
    requires shape { IsSharesShape sharing.now answer.now }
    requires places { sharing.now.nodes ≤ length sums.old }
    requires own { AreOwn sharing.now answer.now sharing.now.nodes sums.old }
    ensures { AreBalances sharing.now answer.now sums.new }
{
    // Gives the proof what holds of every such network.
    let _ = sharing.nodes();
    let count = sharing.arcs() as usize;
    'arcs: for i in 0..count {
        let number = answer.number(i);
        raise(sums, sharing.tail(i) as usize, number);
        let amount = brought(sharing, answer, i);
        raise(sums, sharing.head(i) as usize, -amount);
    }
}

// Whether the first numbers are 0, save the sink's.
fn are_zero(sums: &[i128], sink: usize, count: usize) -> bool
    requires { count ≤ length sums.now }
    ensures { IsTrue result ↔ AreZero sink sums.now count }
{
    'nodes: for v in 0..count {
        if v != sink && sums[v] != 0 {
            return false;
        }
    }
    true
}

// Whether as much leaves each node as enters it, save the sink. `sums` is working room, with at least one place per node.
fn are_kept(sharing: &Sharing, answer: &Shares, sums: &mut [i128]) -> bool
    requires shape { IsSharesShape sharing.now answer.now }
    requires places { sharing.now.nodes ≤ length sums.old }
    ensures { IsTrue result ↔ AreKept sharing.now answer.now }
{
    write_own(sharing, answer, sums);
    add_arcs(sharing, answer, sums);
    let sink = sharing.sink() as usize;
    let count = sharing.nodes() as usize;
    are_zero(sums, sink, count)
}

// The test, with working room that has at least one place per node.
fn is_certified(sharing: &Sharing, answer: &Shares, sums: &mut [i128]) -> bool
    requires shape { IsSharesShape sharing.now answer.now }
    requires places { sharing.now.nodes ≤ length sums.old }
    ensures { IsTrue result ↔ CertifiesShares sharing.now answer.now }
{
    if !are_levels(answer.levels().get()) {
        return false;
    }
    let sink = sharing.sink() as usize;
    if answer.group(sink) != 0 {
        return false;
    }
    if !have_sources(sharing, answer) {
        return false;
    }
    if !are_right(sharing, answer) {
        return false;
    }
    are_kept(sharing, answer, sums)
}

/// Whether the levels, groups and numbers certify the shares, which are then fair. It is exact, and takes no memory. The scratch is for
/// the nodes and arcs of the network.
pub fn check_shares(sharing: &Sharing, answer: &Shares, scratch: &mut Scratch) -> bool
    requires shape { IsSharesShape sharing.now answer.now }
    requires room { Serves scratch.old sharing.now.nodes (length sharing.now.ends) }
    ensures exact { IsTrue result ↔ CertifiesShares sharing.now answer.now }
    ensures places { KeepsPlaces scratch.old scratch.new }
    ensures best { OnTrue result (IsBestShares sharing.now answer.now) }
{
    // Gives the proof what holds of every such network.
    let _ = sharing.nodes();
    is_certified(sharing, answer, scratch.sums.as_mut_slice())
}
