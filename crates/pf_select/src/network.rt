// The network of a selection problem.
ghost use Rattle.std.specs.Prelude.{◌≡◌, ℕ, ◌<◌, ◌≤◌, ◌++◌, [], pos, IfOk, length, map, true, slice_index_or};
ghost use Rattle.pf_select.specs.Problem.{sum_of};
ghost use Rattle.pf_select.specs.Reduction.{part_arc, need_arc, product_arc, part_arcs, product_arcs, select_net};

use crate::catalogue::Catalogue;
use pf_frame::NoMemory;
use pf_net::{AffineArc, Net};
use pf_rat::Rat;
use std::alloc::Global;

// From the source to a part.
fn part_arc(i: u32, cost: u32) -> AffineArc
    requires { i < 500 }
    ensures { result ≡ part_arc i (pos cost) }
{
    AffineArc {
        tail: 0,
        head: i + 1,
        a: 0,
        b: i64::from(cost),
    }
}

// From a part to a product that needs it.
fn need_arc(parts: u32, need: (u32, u32)) -> AffineArc
    requires parts { parts ≤ 500 }
    requires product { need.0 < 5000 }
    requires part { need.1 < 500 }
    ensures { result ≡ need_arc parts need }
{
    AffineArc {
        tail: need.1 + 1,
        head: parts + need.0 + 1,
        a: 1 << 56,
        b: 0,
    }
}

// From a product to the sink.
fn product_arc(sink: u32, parts: u32, j: u32, gain: u32) -> AffineArc
    requires parts { parts ≤ 500 }
    requires product { j < 5000 }
    ensures { result ≡ product_arc sink parts j (pos gain) }
{
    AffineArc {
        tail: parts + j + 1,
        head: sink,
        a: i64::from(gain),
        b: 0,
    }
}

// The arcs of the parts.
fn push_parts(costs: &[u32], arcs: &mut Vec<AffineArc>) -> Result<(), NoMemory>
    requires few { length costs.now ≤ 500 }
    requires none { arcs.old.items ≡ [] }
    ensures { IfOk result (λ _. arcs.new.items ≡ part_arcs 0 (map pos costs.now)) }
{
    'parts: for i in 0..costs.len() {
        arcs.push(part_arc(i as u32, costs[i]))?;
    }
    Ok(())
}

// The arcs of the needs, after them.
fn push_needs(catalogue: &Catalogue, arcs: &mut Vec<AffineArc>) -> Result<(), NoMemory>
    ensures { IfOk result (λ _. arcs.new.items ≡ arcs.old.items ++ map (need_arc (length catalogue.now.costs)) catalogue.now.needs) }
{
    let parts = catalogue.parts();
    let needs = catalogue.pairs();
    'needs: for k in 0..needs.len() {
        arcs.push(need_arc(parts, needs[k]))?;
    }
    Ok(())
}

// The arcs of the products, after both.
fn push_products(
    sink: u32,
    parts: u32,
    gains: &[u32],
    arcs: &mut Vec<AffineArc>,
) -> Result<(), NoMemory>
    requires few { length gains.now ≤ 5000 }
    requires parts { parts ≤ 500 }
    ensures { IfOk result (λ _. arcs.new.items ≡ arcs.old.items ++ product_arcs sink parts 0 (map pos gains.now)) }
{
    'products: for j in 0..gains.len() {
        arcs.push(product_arc(sink, parts, j as u32, gains[j]))?;
    }
    Ok(())
}

// The sum of all gains.
fn whole_gain(gains: &[u32]) -> u64
    requires few { length gains.now ≤ 5000 }
    requires small { (j : ℕ) → j < length gains.now → slice_index_or gains.now j 0 ≤ 1000000 }
    ensures sum { pos result ≡ sum_of (λ j. true) (map pos gains.now) }
    ensures small { result ≤ 5000000000 }
{
    let mut sum: u64 = 0;
    'products: for j in 0..gains.len() {
        sum += u64::from(gains[j]);
    }
    sum
}

/// The rising network whose least cut at a price, from 0 to one more than the sum of all gains, leaves out a best selection of
/// parts. Node 0 is the source; node `i + 1` stands for part `i`; the products follow; the last node is the sink.
pub fn select_net(alloc: Global, catalogue: &Catalogue) -> Result<Net, NoMemory>
    ensures { IfOk result (λ net. net ≡ select_net catalogue.now) }
{
    let parts = catalogue.parts();
    let sink = parts + catalogue.products() + 1;
    let gains = catalogue.gains();
    let mut arcs = Vec::new(alloc);
    push_parts(catalogue.costs(), &mut arcs)?;
    push_needs(catalogue, &mut arcs)?;
    push_products(sink, parts, gains, &mut arcs)?;
    let low = Rat::from_integer(0);
    let high = Rat::from_integer(i128::from(whole_gain(gains) + 1));
    Net::from_arcs(alloc, sink + 1, 0, sink, low, high, arcs)
}
