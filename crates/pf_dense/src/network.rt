// The network of a graph, whose cuts are the sets of its vertices.
ghost use Rattle.std.specs.Prelude.{◌≡◌, ◌<◌, ◌≤◌, ◌^◌, ◌++◌, [], ◌+ℤ◌, ◌≤ℤ◌, pos, neg_ℤ, IfOk, length, slice_set};
ghost use Rattle.pf_model.specs.Cut.{at_arc};
ghost use Rattle.pf_dense.specs.Reduction.{total_weight, weight_at, source_arc, sink_arc, edge_arc, vertex_arcs, edge_arcs, sink_node, dense_net};
ghost use Rattle.pf_dense.specs.Weighing.{HasWeights};

use pf_frame::NoMemory;
use pf_graph::Graph;
use pf_net::{AffineArc, Net};
use pf_rat::Rat;
use std::alloc::Global;

// From the source to a vertex.
fn source_arc(v: u32, rest: i64, cost: u32) -> AffineArc
    requires few { v < 500 }
    requires cost { cost ≤ 1000000 }
    ensures { result ≡ source_arc v rest (pos cost) }
{
    AffineArc {
        tail: 0,
        head: v + 1,
        a: rest,
        b: 2 * i64::from(cost),
    }
}

// From a vertex to the sink.
fn sink_arc(sink: u32, v: u32, whole: i64) -> AffineArc
    requires { v < 500 }
    ensures { result ≡ sink_arc sink v whole }
{
    AffineArc {
        tail: v + 1,
        head: sink,
        a: whole,
        b: 0,
    }
}

// Along an edge, from one end to the other.
fn edge_arc(from: u32, to: u32, weight: u32) -> AffineArc
    requires from { from < 500 }
    requires to { to < 500 }
    ensures { result ≡ edge_arc from to (pos weight) }
{
    AffineArc {
        tail: from + 1,
        head: to + 1,
        a: i64::from(weight),
        b: 0,
    }
}

// Adds to one number.
fn raise(sums: &mut [i64], v: u32, amount: u32)
    requires place { v < length sums.old }
    requires low { pos 0 ≤ℤ at_arc sums.old v }
    requires high { at_arc sums.old v ≤ℤ pos (2 ^ 60) }
    ensures { sums.new ≡ slice_set sums.old v (at_arc sums.old v +ℤ pos amount) }
{
    sums[v as usize] += i64::from(amount);
}

// Writes the weight of the edges at each vertex.
fn write_weights(graph: &Graph, sums: &mut [i64])
    requires { length sums.old ≡ graph.now.nodes }
    ensures { HasWeights graph.now sums.new }
{
    // Gives the proof the limits of the graph.
    let _ = graph.vertices();
    sums.fill(0);
    'edges: for i in 0..graph.edges() {
        let (first, second, weight) = graph.edge(i);
        raise(sums, first, weight);
        raise(sums, second, weight);
    }
}

// The weight of all edges.
fn total_weight(graph: &Graph) -> i64
    ensures value { result ≡ total_weight graph.now }
    ensures low { pos 0 ≤ℤ result }
    ensures high { result ≤ℤ pos (2 ^ 33) }
{
    // Gives the proof the limits of the graph.
    let _ = graph.vertices();
    let mut total: i64 = 0;
    'edges: for i in 0..graph.edges() {
        let (_, _, weight) = graph.edge(i);
        total += i64::from(weight);
    }
    total
}

// The arcs of the vertices.
fn push_vertices(
    graph: &Graph,
    total: i64,
    weights: &[i64],
    arcs: &mut Vec<AffineArc>,
) -> Result<(), NoMemory>
    requires total { total ≡ total_weight graph.now }
    requires weights { HasWeights graph.now weights.now }
    requires none { arcs.old.items ≡ [] }
    ensures { IfOk result (λ _. arcs.new.items ≡ vertex_arcs graph.now (sink_node graph.now) 0 graph.now.costs) }
{
    let count = graph.vertices();
    'vertices: for v in 0..count {
        let rest = total - weights[v as usize];
        let first = source_arc(v, rest, graph.cost(v));
        let second = sink_arc(count + 1, v, total);
        arcs.push(first)?;
        arcs.push(second)?;
    }
    Ok(())
}

// The arcs of the edges, after them.
fn push_edges(graph: &Graph, arcs: &mut Vec<AffineArc>) -> Result<(), NoMemory>
    ensures { IfOk result (λ _. arcs.new.items ≡ arcs.old.items ++ edge_arcs graph.now.ends graph.now.weights) }
{
    // Gives the proof the limits of the graph.
    let _ = graph.vertices();
    'edges: for i in 0..graph.edges() {
        let (first, second, weight) = graph.edge(i);
        let along = edge_arc(first, second, weight);
        let back = edge_arc(second, first, weight);
        arcs.push(along)?;
        arcs.push(back)?;
    }
    Ok(())
}

/// The network of a graph, rising, from the parameter 0 to one more than the weight of all edges. Node 0 is the source, node `v + 1`
/// stands for vertex `v`, the last node is the sink. The vertices outside a least cut at a parameter are a set whose cost, times the
/// parameter, is the least above its weight inside (after Goldberg 1984).
pub fn dense_net(alloc: Global, graph: &Graph) -> Result<Net, NoMemory>
    ensures { IfOk result (λ net. net ≡ dense_net graph.now) }
{
    let count = graph.vertices();
    let total = total_weight(graph);
    let mut weights = vec![in alloc; 0i64; count as usize]?;
    write_weights(graph, &mut weights);
    let mut arcs = Vec::new(alloc);
    push_vertices(graph, total, &weights, &mut arcs)?;
    push_edges(graph, &mut arcs)?;
    let low = Rat::from_integer(0);
    let high = Rat::from_integer(i128::from(total) + 1);
    let sink = count + 1;
    Net::from_arcs(alloc, sink + 1, 0, sink, low, high, arcs)
}
