// The arcs of a core, gathered from the network's rows at the core's inner nodes alone.
ghost use Rattle.std.specs.Prelude.{◌≡◌, ℕ, ◌+◌, ◌++◌, ◌<◌, length, slice_index_or, map, IfOk};
ghost use Rattle.pf_piece.specs.Piece.{arcs_between, renamed};
ghost use Rattle.pf_piece.specs.Held.{arc_at, placed};
ghost use Rattle.pf_piece.specs.Cores.{IsGathered, arcs_entering};

use pf_frame::NoMemory;
use pf_net::{AffineArc, Net};
use std::alloc::Global;

// The arc of the number `i` between the nodes that stand for its ends.
fn arc_between(net: &Net, places: &[u32], i: u32) -> AffineArc
    requires arc { i < length net.now.arcs }
    requires places { length places.now ≡ net.now.nodes }
    ensures { result ≡ renamed (placed places.now) (arc_at net.now.arcs i) }
{
    let frame = net.frame();
    let arc = net.arc(i);
    let tail = places[frame.tail(i) as usize];
    let head = places[frame.head(i) as usize];
    AffineArc {
        tail,
        head,
        a: arc.a,
        b: arc.b,
    }
}

// Adds the arcs of this row between the nodes that stand for their ends, but those that become loops.
fn add_outs(
    net: &Net,
    places: &[u32],
    row: &[u32],
    arcs: &mut Vec<AffineArc>,
) -> Result<(), NoMemory>
    requires places { length places.now ≡ net.now.nodes }
    requires known { (k : ℕ) → k < length row.now → slice_index_or row.now k 0 < length net.now.arcs }
    ensures { IfOk result (λ _. arcs.new.items ≡ arcs.old.items ++ arcs_between (placed places.now) (map (λ i. arc_at net.now.arcs i) row.now)) }
{
    'row: for k in 0..row.len() {
        let arc = arc_between(net, places, row[k]);
        if arc.tail != arc.head {
            arcs.push(arc)?;
        }
    }
    Ok(())
}

// Adds the arcs of this row that enter from the source or the sink, between the nodes that stand for their ends.
fn add_ins(
    net: &Net,
    places: &[u32],
    row: &[u32],
    arcs: &mut Vec<AffineArc>,
) -> Result<(), NoMemory>
    requires places { length places.now ≡ net.now.nodes }
    requires known { (k : ℕ) → k < length row.now → slice_index_or row.now k 0 < length net.now.arcs }
    ensures { IfOk result (λ _. arcs.new.items ≡ arcs.old.items ++ arcs_entering (placed places.now) (map (λ i. arc_at net.now.arcs i) row.now)) }
{
    'row: for k in 0..row.len() {
        let arc = arc_between(net, places, row[k]);
        if arc.tail < 2 {
            arcs.push(arc)?;
        }
    }
    Ok(())
}

// Adds the arcs that belong to the node `v`: none if it is no inner one, else all that leave it, and those that enter it from the source
// or the sink.
fn add_at(net: &Net, places: &[u32], v: u32, arcs: &mut Vec<AffineArc>) -> Result<(), NoMemory>
    requires places { length places.now ≡ net.now.nodes }
    requires node { v < net.now.nodes }
    requires before { IsGathered (placed places.now) v net.now.arcs arcs.old.items }
    ensures { IfOk result (λ _. IsGathered (placed places.now) (v + 1) net.now.arcs arcs.new.items) }
{
    if places[v as usize] < 2 {
        return Ok(());
    }
    let frame = net.frame();
    add_outs(net, places, frame.outs(v), arcs)?;
    add_ins(net, places, frame.ins(v), arcs)?;
    Ok(())
}

/// The arcs that have an end beside 0 and 1 and do not become loops, node after node. It looks at the arcs of these nodes alone.
pub fn gathered(alloc: Global, net: &Net, places: &[u32]) -> Result<Vec<AffineArc>, NoMemory>
    requires { length places.now ≡ net.now.nodes }
    ensures { IfOk result (λ arcs. IsGathered (placed places.now) net.now.nodes net.now.arcs arcs.items) }
{
    let mut arcs = Vec::new(alloc);
    'nodes: for v in 0..net.frame().nodes() {
        add_at(net, places, v, &mut arcs)?;
    }
    Ok(arcs)
}
