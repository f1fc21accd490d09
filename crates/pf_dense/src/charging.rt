// What edges charge their ends, and what vertices may be charged.
ghost use Rattle.std.specs.Prelude.{◌≡◌, ◌<◌, ◌≤◌, ◌^◌, ℕ, ◌↔◌, IsTrue, length, ◌+ℤ◌, ◌*ℤ◌, ◌≤ℤ◌, pos, neg_ℤ, slice_set};
ghost use Rattle.pf_model.specs.Cut.{at_arc};
ghost use Rattle.pf_graph.specs.WeightedGraph.{WeightedGraph};
ghost use Rattle.pf_dense.specs.Certificate.{whole_charge, AreCharges, AreWithin};
ghost use Rattle.pf_dense.specs.Dropping.{AreChargesTo, HasCharged, AreAllowed};

use pf_graph::Graph;
use pf_rat::Rat;

// The half of what an edge of this weight charges its two ends together at the density `p/q`, in units of `1/(2q)`.
pub fn half_charge(weight: u32, at: &Rat) -> i128
    requires { weight ≤ 1000000 }
    ensures value { result ≡ at.now.q *ℤ pos weight }
    ensures low { pos 0 ≤ℤ result }
    ensures high { result ≤ℤ pos (2 ^ 69) }
{
    at.q() * i128::from(weight)
}

// What an edge of this weight charges its two ends together at the density `p/q`, in units of `1/(2q)`.
pub fn whole_charge(weight: u32, at: &Rat) -> i128
    requires { weight ≤ 1000000 }
    ensures value { result ≡ whole_charge at.now (pos weight) }
    ensures low { pos 0 ≤ℤ result }
    ensures high { result ≤ℤ pos (2 ^ 70) }
{
    let share = at.q() * i128::from(weight);
    2 * share
}

// What a vertex of this cost may be charged.
pub fn allowance(cost: u32, at: &Rat) -> i128
    requires { cost ≤ 1000000 }
    ensures value { result ≡ pos 2 *ℤ (at.now.p *ℤ pos cost) }
    ensures low { neg_ℤ (pos (2 ^ 100)) ≤ℤ result }
    ensures high { result ≤ℤ pos (2 ^ 100) }
{
    let share = at.p() * i128::from(cost);
    2 * share
}

// Whether no edge charges an end less than 0.
pub fn are_charges(graph: &Graph, at: &Rat, charges: &[i128]) -> bool
    requires { length charges.now ≡ length graph.now.ends }
    ensures { IsTrue result ↔ AreChargesTo graph.now at.now charges.now (length graph.now.ends) }
{
    // Gives the proof the limits of the graph.
    let _ = graph.vertices();
    'edges: for i in 0..graph.edges() {
        let (_, _, weight) = graph.edge(i);
        if charges[i as usize] < 0 || whole_charge(weight, at) < charges[i as usize] {
            return false;
        }
    }
    true
}

// Adds to one number.
fn raise(sums: &mut [i128], v: u32, amount: i128)
    requires place { v < length sums.old }
    requires low { pos 0 ≤ℤ at_arc sums.old v }
    requires high { at_arc sums.old v ≤ℤ pos (2 ^ 120) }
    requires amount_low { pos 0 ≤ℤ amount }
    requires amount_high { amount ≤ℤ pos (2 ^ 120) }
    ensures { sums.new ≡ slice_set sums.old v (at_arc sums.old v +ℤ amount) }
{
    sums[v as usize] += amount;
}

// Writes into the first places of `sums` what each vertex is charged.
pub fn write_charged(graph: &Graph, at: &Rat, charges: &[i128], sums: &mut [i128])
    requires charges { AreCharges graph.now at.now charges.now }
    requires places { graph.now.nodes ≤ length sums.old }
    ensures { HasCharged graph.now at.now charges.now sums.new }
{
    // Gives the proof the limits of the graph.
    let _ = graph.vertices();
    sums.fill(0);
    'edges: for i in 0..graph.edges() {
        let (first, second, weight) = graph.edge(i);
        let charge = charges[i as usize];
        let rest = whole_charge(weight, at) - charge;
        raise(sums, first, charge);
        raise(sums, second, rest);
    }
}

// Whether no vertex is charged more than it may be. `sums` holds what each is charged.
pub fn are_within(graph: &Graph, at: &Rat, sums: &[i128]) -> bool
    requires { graph.now.nodes ≤ length sums.now }
    ensures { IsTrue result ↔ AreAllowed graph.now at.now sums.now graph.now.nodes }
{
    'vertices: for v in 0..graph.vertices() {
        if allowance(graph.cost(v), at) < sums[v as usize] {
            return false;
        }
    }
    true
}
