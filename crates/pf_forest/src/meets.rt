// Tests of the forest condition, part by part. Any numbers may stand in what is tested.
ghost use Rattle.std.specs.Prelude.{◌≡◌, ◌≢◌, ℕ, ◌+◌, ◌<◌, ◌≤◌, ◌^◌, ◌↔◌, ℤ, ◌+ℤ◌, ◌-ℤ◌, ◌*ℤ◌, ◌≤ℤ◌, IsTrue, length, pos, neg_ℤ, slice_set};
ghost use Rattle.pf_model.specs.Cut.{at_arc};
ghost use Rattle.pf_graph.specs.WeightedGraph.{digraph_of, total};
ghost use Rattle.pf_frame.specs.Lending.{row_at};
ghost use Rattle.pf_frame.specs.Numbers.{IsBounded, AreWithin};
ghost use Rattle.pf_frame.specs.Scratch.{Serves, KeepsPlaces};
ghost use Rattle.pf_forest.specs.Forest.{IsInRange, IsSplit, MeetsTotal, AreSplits, given};
ghost use Rattle.pf_forest.specs.Testing.{IsBetween, AreFair};

use pf_frame::{FlowTable, Frame, Scratch};
use pf_graph::{Graph, Partition};
use pf_rat::{Line, Rat};

// A weight in units of `1/q`.
pub(crate) fn times(q: i128, weight: u32) -> i128
    requires low { pos 0 ≤ℤ q }
    requires high { q ≤ℤ pos (2 ^ 46) }
    ensures { result ≡ q *ℤ pos weight }
{
    q * i128::from(weight)
}

// Whether the number is from 0 to the other.
fn is_between(number: i128, most: i128) -> bool
    ensures { IsTrue result ↔ IsBetween number most }
{
    0 <= number && number <= most
}

/// Whether each number of the vector is from 0 to the weight of its edge, in units of `1/q` of the level.
pub fn is_in_range(graph: &Graph, level: &Rat, vector: &[i128]) -> bool
    requires { length vector.now ≡ length graph.now.ends }
    ensures { IsTrue result ↔ IsInRange graph.now level.now vector.now }
{
    let q = level.q();
    'edges: for i in 0..graph.edges() {
        let (_first, _second, weight) = graph.edge(i);
        let most = times(q, weight);
        let number = vector[i as usize];
        if !is_between(number, most) {
            return false;
        }
    }
    true
}

// The sum of the vector.
fn sum_up(frame: &Frame, vector: &[i128]) -> i128
    requires { IsBounded frame.now vector.now }
    ensures { result ≡ total frame.now.ends vector.now }
{
    let mut sum: i128 = 0;
    'edges: for i in 0..frame.arcs() {
        sum += vector[i as usize];
    }
    sum
}

/// Whether the sum of the vector is `q crossing + p (vertices - parts)` at the level `p/q`.
pub fn has_total(graph: &Graph, level: &Rat, vector: &[i128], partition: &Partition) -> bool
    requires vector { IsInRange graph.now level.now vector.now }
    requires partition { length partition.now ≡ graph.now.nodes }
    ensures { IsTrue result ↔ MeetsTotal graph.now level.now vector.now partition.now }
{
    let frame = graph.frame();
    let q = level.q();
    prove!(q >= 1);
    let parts = partition.parts();
    let joined = i128::from(graph.vertices()) - i128::from(parts);
    let most = Line::new(graph.crossing(partition), joined).at(level);
    sum_up(frame, vector) == most
}

// Whether each share is from 0 to its number.
fn are_within(vector: &[i128], shares: &[i128]) -> bool
    requires { length shares.now ≡ length vector.now }
    ensures { IsTrue result ↔ AreWithin vector.now shares.now (length vector.now) }
{
    'edges: for i in 0..shares.len() {
        if shares[i] < 0 || vector[i] < shares[i] {
            return false;
        }
    }
    true
}

// Adds to one number.
fn add(sums: &mut [i128], v: usize, amount: i128)
    requires place { v < length sums.old }
    requires low { neg_ℤ (pos (2 ^ 120)) ≤ℤ at_arc sums.old v }
    requires high { at_arc sums.old v ≤ℤ pos (2 ^ 120) }
    requires amount_low { pos 0 ≤ℤ amount }
    requires amount_high { amount ≤ℤ pos (2 ^ 120) }
    ensures { sums.new ≡ slice_set sums.old v (at_arc sums.old v +ℤ amount) }
{
    sums[v] += amount;
}

// Leaves in the first places of `sums`, one per vertex, what each vertex is given.
fn give(frame: &Frame, vector: &[i128], shares: &[i128], sums: &mut [i128])
    requires vector { IsBounded frame.now vector.now }
    requires shares { length shares.now ≡ length frame.now.ends }
    requires within { AreWithin vector.now shares.now (length vector.now) }
    requires places { frame.now.nodes ≤ length sums.old }
    ensures { (v : ℕ) → v < frame.now.nodes → at_arc sums.new v ≡ given frame.now.ends vector.now shares.now v }
{
    sums.fill(0);
    'edges: for i in 0..frame.arcs() {
        let share = shares[i as usize];
        let rest = vector[i as usize] - share;
        add(sums, frame.tail(i) as usize, share);
        add(sums, frame.head(i) as usize, rest);
    }
}

// Whether the root has nothing, and no vertex more than the limit.
fn are_fair(sums: &[i128], nodes: u32, limit: i128, root: u32) -> bool
    requires places { nodes ≤ length sums.now }
    requires root { root < nodes }
    ensures { IsTrue result ↔ AreFair sums.now limit root nodes }
{
    if sums[root as usize] != 0 {
        return false;
    }
    'vertices: for v in 0..nodes {
        if limit < sums[v as usize] {
            return false;
        }
    }
    true
}

// Whether the shares are a split of the vector for the root.
fn is_split(
    frame: &Frame,
    limit: i128,
    vector: &[i128],
    shares: &[i128],
    root: u32,
    sums: &mut [i128],
) -> bool
    requires vector { IsBounded frame.now vector.now }
    requires shares { length shares.now ≡ length frame.now.ends }
    requires root { root < frame.now.nodes }
    requires places { frame.now.nodes ≤ length sums.old }
    ensures { IsTrue result ↔ IsSplit frame.now limit vector.now shares.now root }
{
    if !are_within(vector, shares) {
        return false;
    }
    give(frame, vector, shares, sums);
    are_fair(sums, frame.nodes(), limit, root)
}

/// Whether the rows of the table from `first` on, one for each vertex as a root, are splits of the vector at the level.
pub fn are_splits(
    graph: &Graph,
    level: &Rat,
    vector: &[i128],
    splits: &FlowTable,
    first: usize,
    scratch: &mut Scratch,
) -> bool
    requires vector { IsInRange graph.now level.now vector.now }
    requires rows { first + graph.now.nodes ≤ length splits.now }
    requires full { (r : ℕ) → r < graph.now.nodes → length (row_at splits.now (first + r)) ≡ length graph.now.ends }
    requires room { Serves scratch.old graph.now.nodes (length graph.now.ends) }
    ensures exact { IsTrue result ↔ AreSplits graph.now level.now vector.now splits.now first graph.now.nodes }
    ensures places { KeepsPlaces scratch.old scratch.new }
{
    let frame = graph.frame();
    let limit = level.p();
    let q = level.q();
    prove!(q >= 1);
    // Gives the proof that the numbers of the rows fit.
    let _rows = splits.rows();
    'roots: for r in 0..graph.vertices() {
        let shares = splits.row(first + r as usize);
        if !is_split(frame, limit, vector, shares, r, &mut scratch.sums) {
            return false;
        }
    }
    true
}
