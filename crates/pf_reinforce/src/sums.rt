// What is added to the edges, and what it costs.
ghost use Rattle.std.specs.Prelude.{◌≡◌, ◌≤◌, ◌<◌, ℕ, ◌≤ℤ◌, ◌-ℤ◌, ◌*ℤ◌, ◌^◌, pos, length, IfOk};
ghost use Rattle.pf_model.specs.Cut.{at_arc};
ghost use Rattle.pf_reinforce.specs.Reinforcement.{cost_of_added};
ghost use Rattle.pf_reinforce.specs.Raising.{IsGain, AreSmall};

use pf_frame::NoMemory;
use pf_graph::Graph;
use std::alloc::Global;

// One number less another.
fn gain_at(first: &i128, second: &i128) -> i128
    requires low { pos 0 ≤ℤ first.now }
    requires more { first.now ≤ℤ second.now }
    ensures { result ≡ second.now -ℤ first.now }
{
    let low = *first;
    let high = *second;
    high - low
}

// Edge by edge, what the second has more than the first.
pub(crate) fn gain(alloc: Global, first: &[i128], second: &[i128]) -> Result<Vec<i128>, NoMemory>
    requires full { length first.now ≡ length second.now }
    requires low { (i : ℕ) → i < length second.now → pos 0 ≤ℤ at_arc first.now i }
    requires more { (i : ℕ) → i < length second.now → at_arc first.now i ≤ℤ at_arc second.now i }
    ensures { IfOk result (λ added. IsGain first.now second.now added.items) }
{
    let mut added = Vec::with_capacity(alloc, second.len())?;
    'edges: for i in 0..second.len() {
        let number = gain_at(&first[i], &second[i]);
        added.push(number)?;
    }
    Ok(added)
}

// A number times a price.
fn pay(number: i128, price: u32) -> i128
    requires low { pos 0 ≤ℤ number }
    requires high { number ≤ℤ pos (2 ^ 80) }
    ensures { result ≡ pos price *ℤ number }
{
    i128::from(price) * number
}

// The sum of price times number.
pub(crate) fn cost_of(graph: &Graph, added: &[i128]) -> i128
    requires { AreSmall graph.now added.now }
    ensures { result ≡ cost_of_added graph.now.prices added.now }
{
    // Gives the proof the limits.
    let _ = graph.frame();
    let mut sum: i128 = 0;
    'edges: for i in 0..graph.edges() {
        let price = graph.price(i);
        let number = added[i as usize];
        sum += pay(number, price);
    }
    sum
}
