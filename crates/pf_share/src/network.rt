// The network of a sharing.
ghost use Rattle.std.specs.Prelude.{◌≡◌, ◌<◌, ◌≤◌, ◌++◌, [], ◌≤ℤ◌, pos, IfOk, length};
ghost use Rattle.pf_model.specs.Cut.{at_arc};
ghost use Rattle.pf_share.specs.Problem.{tail_of, head_of};
ghost use Rattle.pf_share.specs.Reduction.{flow_arc, source_arc, flow_arcs, source_arcs, share_net};

use crate::sharing::Sharing;
use pf_frame::NoMemory;
use pf_net::{AffineArc, Net};
use pf_rat::Rat;
use std::alloc::Global;

// Above all levels: more than all capacities together, for a weight of at least 1.
const HIGHEST: i128 = 10_000_000_000_001;

// An arc of the sharing.
fn flow_arc(sharing: &Sharing, i: usize) -> AffineArc
    requires { i < length sharing.now.ends }
    ensures { result ≡ flow_arc (tail_of sharing.now i, head_of sharing.now i) (at_arc sharing.now.capacities i) }
{
    AffineArc {
        tail: sharing.tail(i),
        head: sharing.head(i),
        a: i64::from(sharing.capacity(i)),
        b: 0,
    }
}

// From the source to a node, by its weight.
fn source_arc(sharing: &Sharing, v: u32) -> AffineArc
    requires { v < sharing.now.nodes }
    ensures { result ≡ source_arc sharing.now.nodes v (at_arc sharing.now.weights v) }
{
    AffineArc {
        tail: sharing.nodes(),
        head: v,
        a: 0,
        b: i64::from(sharing.weight(v as usize)),
    }
}

// The arcs of the sharing.
fn push_flows(sharing: &Sharing, arcs: &mut Vec<AffineArc>) -> Result<(), NoMemory>
    requires { arcs.old.items ≡ [] }
    ensures { IfOk result (λ _. arcs.new.items ≡ flow_arcs sharing.now.ends sharing.now.capacities) }
{
    // Gives the proof what holds of every such network.
    let _ = sharing.nodes();
    let count = sharing.arcs() as usize;
    'arcs: for i in 0..count {
        arcs.push(flow_arc(sharing, i))?;
    }
    Ok(())
}

// The arcs of the source, after them.
fn push_sources(sharing: &Sharing, arcs: &mut Vec<AffineArc>) -> Result<(), NoMemory>
    ensures { IfOk result (λ _. arcs.new.items ≡ arcs.old.items ++ source_arcs sharing.now.nodes 0 sharing.now.weights) }
{
    let count = sharing.nodes();
    'nodes: for v in 0..count {
        arcs.push(source_arc(sharing, v))?;
    }
    Ok(())
}

/// The rising network whose least cut at a level holds the nodes that sources of at most that level fill. The nodes keep their numbers,
/// and the source follows them; the arcs keep their numbers, and one from the source to each node follows them.
pub fn share_net(alloc: Global, sharing: &Sharing) -> Result<Net, NoMemory>
    ensures { IfOk result (λ net. net ≡ share_net sharing.now) }
{
    let nodes = sharing.nodes();
    let sink = sharing.sink();
    let mut arcs = Vec::new(alloc);
    push_flows(sharing, &mut arcs)?;
    push_sources(sharing, &mut arcs)?;
    let low = Rat::from_integer(0);
    let high = Rat::from_integer(HIGHEST);
    Net::from_arcs(alloc, nodes + 1, nodes, sink, low, high, arcs)
}
