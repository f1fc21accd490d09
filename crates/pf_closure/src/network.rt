// The network of a closure problem.
ghost use Rattle.std.specs.Prelude.{◌≡◌, ◌<◌, ◌≤◌, ◌++◌, ◌∷◌, [], pos, neg_ℤ, ◌≤ℤ◌, IfOk, length, map, ◌^◌};
ghost use Rattle.pf_closure.specs.Reduction.{source_arc, sink_arc, need_arc, item_arcs, sink_node, closure_net};

use crate::items::Items;
use pf_frame::NoMemory;
use pf_net::{AffineArc, Net};
use pf_rat::Rat;
use std::alloc::Global;

// From the source to an item.
fn source_arc(i: u32, weight: i64) -> AffineArc
    requires few { i < 1000 }
    requires weight_low { pos 1 ≤ℤ weight }
    requires weight_high { weight ≤ℤ pos 1000000 }
    ensures { result ≡ source_arc i weight }
{
    AffineArc {
        tail: 0,
        head: i + 1,
        a: 1000001 * weight,
        b: weight,
    }
}

// From an item to the sink.
fn sink_arc(sink: u32, i: u32, cost: i64, weight: i64) -> AffineArc
    requires few { i < 1000 }
    requires cost_low { neg_ℤ (pos 1000000) ≤ℤ cost }
    requires cost_high { cost ≤ℤ pos 1000000 }
    requires weight_low { pos 1 ≤ℤ weight }
    requires weight_high { weight ≤ℤ pos 1000000 }
    ensures { result ≡ sink_arc sink i cost weight }
{
    AffineArc {
        tail: i + 1,
        head: sink,
        a: 1000001 * weight + cost,
        b: 0,
    }
}

// From an item to one that it needs.
fn need_arc(need: (u32, u32)) -> AffineArc
    requires needing { need.0 < 1000 }
    requires needed { need.1 < 1000 }
    ensures { result ≡ need_arc need }
{
    AffineArc {
        tail: need.0 + 1,
        head: need.1 + 1,
        a: 1 << 56,
        b: 0,
    }
}

// The arcs of the items.
fn push_items(sink: u32, items: &Items, arcs: &mut Vec<AffineArc>) -> Result<(), NoMemory>
    requires { arcs.old.items ≡ [] }
    ensures { IfOk result (λ _. arcs.new.items ≡ item_arcs sink 0 items.now.costs items.now.weights) }
{
    // Gives the proof the limits of the items.
    let _ = items.items();
    let costs = items.costs();
    let weights = items.weights();
    'items: for i in 0..costs.len() {
        arcs.push(source_arc(i as u32, weights[i]))?;
        arcs.push(sink_arc(sink, i as u32, costs[i], weights[i]))?;
    }
    Ok(())
}

// The arcs of the needs, after them.
fn push_needs(items: &Items, arcs: &mut Vec<AffineArc>) -> Result<(), NoMemory>
    ensures { IfOk result (λ _. arcs.new.items ≡ arcs.old.items ++ map need_arc items.now.needs) }
{
    // Gives the proof that needs name items.
    let _ = items.items();
    let needs = items.pairs();
    'needs: for k in 0..needs.len() {
        arcs.push(need_arc(needs[k]))?;
    }
    Ok(())
}

/// The rising network whose least cut at a parameter of its interval, from -1000001 to 1000001, is the closure whose cost less the
/// parameter times its weight is least. Node 0 is the source, node `i + 1` stands for item `i`, and the last node is the sink.
///
/// The line of a closure's cut is told by the law `closures_are_cuts`; every other cut is dear, by `least_cuts_are_closures`.
pub fn closure_net(alloc: Global, items: &Items) -> Result<Net, NoMemory>
    ensures { IfOk result (λ net. net ≡ closure_net items.now) }
{
    let sink = items.items() + 1;
    let mut arcs = Vec::new(alloc);
    push_items(sink, items, &mut arcs)?;
    push_needs(items, &mut arcs)?;
    let low = Rat::from_integer(-1000001);
    let high = Rat::from_integer(1000001);
    Net::from_arcs(alloc, sink + 1, 0, sink, low, high, arcs)
}
