// The greatest density, by Newton's iteration.
ghost use Rattle.std.specs.Prelude.{◌≡◌, ◌<◌, ◌≤◌, ◌^◌, ◌+◌, ◌+ℤ◌, ◌-ℤ◌, ◌*ℤ◌, ◌≤ℤ◌, pos, true, IfOk, length, replicate, All};
ghost use Rattle.pf_model.specs.Curve.{IsPoint};
ghost use Rattle.pf_model.specs.Answer.{IsWithinSize};
ghost use Rattle.pf_model.specs.Flow.{IsFlow};
ghost use Rattle.pf_model.specs.Network.{IsInInterval, network_at};
ghost use Rattle.pf_graph.specs.WeightedGraph.{WeightedGraph};
ghost use Rattle.pf_dense.specs.Densest.{HasDensity, IsVertexSet, IsDensest};
ghost use Rattle.pf_dense.specs.Certificate.{CertifiesDense};
ghost use Rattle.pf_dense.specs.Answer.{IsDenseShape};
ghost use Rattle.pf_dense.specs.Reduction.{dense_net, outside_of};
ghost use Rattle.pf_dense.specs.Newton.{IsStep, IsNewton};
ghost use Rattle.pf_dense.specs.Carrying.{IsCarried};

use crate::charging::half_charge;
use crate::dense::Dense;
use crate::network::dense_net;
use pf_curve::Finder;
use pf_frame::{NoMemory, Numbers, Side};
use pf_graph::Graph;
use pf_rat::Rat;
use std::alloc::Global;

// Writes the vertices outside a side of the network.
fn write_outside(side: &[bool], set: &mut [bool])
    requires { length set.old < length side.now }
    ensures { (g : WeightedGraph) → length set.old ≡ g.nodes → set.new ≡ outside_of g side.now }
{
    'vertices: for v in 0..set.len() {
        set[v] = !side[v + 1];
    }
}

// The density of a set that holds a vertex. It lies in the interval of the network.
fn density_of(graph: &Graph, set: &[bool]) -> Rat
    requires { IsVertexSet graph.now set.now }
    ensures density { HasDensity graph.now result set.now }
    ensures inside { IsInInterval (dense_net graph.now) result }
{
    // Gives the proof the limits of the graph.
    let _ = graph.vertices();
    let weight = graph.inside(set);
    let cost = graph.cost_of(set);
    Rat::new(weight, cost)
}

// Writes the smallest least cut at a density, a greatest flow there, and the vertices outside the cut, and tells their density.
fn step(
    graph: &Graph,
    finder: &mut Finder<'_>,
    at: &Rat,
    side: &mut [bool],
    flow: &mut [i128],
    set: &mut [bool],
) -> Rat
    requires network { finder.old ≡ dense_net graph.now }
    requires inside { IsInInterval (dense_net graph.now) at.now }
    requires before { IsNewton graph.now at.now set.old }
    requires nodes { length side.old ≡ (dense_net graph.now).nodes }
    requires arcs { length flow.old ≡ length (dense_net graph.now).arcs }
    ensures same { finder.new ≡ finder.old }
    ensures point { IsPoint (dense_net graph.now) at.now side.new flow.new }
    ensures outside { set.new ≡ outside_of graph.now side.new }
    ensures step { IsStep graph.now at.now set.new }
    ensures vertices { IsVertexSet graph.now set.new }
    ensures density { HasDensity graph.now result set.new }
    ensures within { IsInInterval (dense_net graph.now) result }
{
    // Gives the proof the limits of the graph.
    let _ = graph.vertices();
    finder.write_point(at, side, flow);
    write_outside(side, set);
    density_of(graph, set)
}

// Goes from density to density until it stays. `set` holds all vertices at first, and the densest set at last.
fn settle(
    graph: &Graph,
    finder: &mut Finder<'_>,
    side: &mut [bool],
    flow: &mut [i128],
    set: &mut [bool],
) -> Rat
    requires network { finder.old ≡ dense_net graph.now }
    requires all { set.old ≡ replicate graph.now.nodes true }
    requires nodes { length side.old ≡ (dense_net graph.now).nodes }
    requires arcs { length flow.old ≡ length (dense_net graph.now).arcs }
    ensures best { IsDensest graph.now result set.new }
    ensures inside { IsInInterval (dense_net graph.now) result }
    ensures point { IsPoint (dense_net graph.now) result side.new flow.new }
    ensures outside { set.new ≡ outside_of graph.now side.new }
{
    // Gives the proof the limits of the graph.
    let _ = graph.vertices();
    let mut density = density_of(graph, set);
    'steps: loop {
        let next = step(graph, finder, &density, side, flow, set);
        if next.is_at_most(&density) {
            return density;
        }
        density = next;
    }
}

// What an edge charges its first end, where the flow carries `along` it, from the first end to the second, and `back`.
fn carried_charge(half: i128, along: i128, back: i128) -> i128
    requires half_low { pos 0 ≤ℤ half }
    requires half_high { half ≤ℤ pos (2 ^ 69) }
    requires along_low { pos 0 ≤ℤ along }
    requires along_high { along ≤ℤ pos (2 ^ 69) }
    requires back_low { pos 0 ≤ℤ back }
    requires back_high { back ≤ℤ pos (2 ^ 69) }
    ensures { result ≡ (half +ℤ along) -ℤ back }
{
    half + along - back
}

// Writes what the edges charge their first ends.
fn write_charges(graph: &Graph, at: &Rat, flow: &[i128], charges: &mut [i128])
    requires flow { IsFlow (network_at (dense_net graph.now) at.now) flow.now }
    requires places { length charges.old ≡ length graph.now.ends }
    ensures { IsCarried graph.now at.now flow.now charges.new }
{
    let count = graph.vertices() as usize;
    'edges: for i in 0..charges.len() {
        let (_, _, weight) = graph.edge(i as u32);
        let half = half_charge(weight, at);
        let place = count + count + (i + i);
        charges[i] = carried_charge(half, flow[place], flow[place + 1]);
    }
}

// Writes the densest set and the charges that certify it, and tells the density. `set` holds all vertices at first.
fn solve(
    graph: &Graph,
    finder: &mut Finder<'_>,
    side: &mut [bool],
    flow: &mut [i128],
    set: &mut [bool],
    charges: &mut [i128],
) -> Rat
    requires network { finder.old ≡ dense_net graph.now }
    requires all { set.old ≡ replicate graph.now.nodes true }
    requires nodes { length side.old ≡ (dense_net graph.now).nodes }
    requires arcs { length flow.old ≡ length (dense_net graph.now).arcs }
    requires places { length charges.old ≡ length graph.now.ends }
    ensures best { IsDensest graph.now result set.new }
    ensures certificate { CertifiesDense graph.now result set.new charges.new }
    ensures each { All (IsWithinSize (2 ^ 104)) charges.new }
{
    // They tell the limits of the graph, and that the network is monotone.
    let _ = graph.vertices();
    let _ = finder.net().frame();
    let density = settle(graph, finder, side, flow, set);
    let _ = density.q();
    write_charges(graph, &density, flow, charges);
    density
}

// The densest set, with its charges, in the vectors handed in.
fn finish(
    graph: &Graph,
    finder: &mut Finder<'_>,
    side: &mut [bool],
    flow: &mut [i128],
    mut set: Vec<bool>,
    mut charges: Vec<i128>,
) -> Dense
    requires network { finder.old ≡ dense_net graph.now }
    requires all { set.items ≡ replicate graph.now.nodes true }
    requires nodes { length side.old ≡ (dense_net graph.now).nodes }
    requires arcs { length flow.old ≡ length (dense_net graph.now).arcs }
    requires places { length charges.items ≡ length graph.now.ends }
    ensures shape { IsDenseShape graph.now result }
    ensures best { IsDensest graph.now result.density result.chosen }
    ensures certificate { CertifiesDense graph.now result.density result.chosen result.charges }
{
    let density = solve(graph, finder, side, flow, &mut set, &mut charges);
    let _ = density.q();
    Dense::new(density, Side::from_vec(set), Numbers::from_vec(charges))
}

// The densest set of a graph whose network the room is for.
fn answer(alloc: Global, graph: &Graph, finder: &mut Finder<'_>) -> Result<Dense, NoMemory>
    requires { finder.old ≡ dense_net graph.now }
    ensures shape { IfOk result (IsDenseShape graph.now) }
    ensures best { IfOk result (λ d. IsDensest graph.now d.density d.chosen) }
    ensures certificate { IfOk result (λ d. CertifiesDense graph.now d.density d.chosen d.charges) }
{
    let count = graph.vertices() as usize;
    let edges = graph.edges() as usize;
    let arcs = finder.net().frame().arcs() as usize;
    let mut side = vec![in alloc; false; count + 2]?;
    let mut flow = vec![in alloc; 0i128; arcs]?;
    let set = vec![in alloc; true; count]?;
    let charges = vec![in alloc; 0i128; edges]?;
    Ok(finish(graph, finder, &mut side, &mut flow, set, charges))
}

/// The greatest density of a nonempty set of vertices, with the set of that density that contains all others, and what each edge
/// charges its first end, which certifies both. Without edges it is 0, with all vertices. It takes one greatest flow for each of a
/// few densities: that of all vertices, then that of the vertices outside the smallest least cut at the one before, until it stays
/// (Newton's method on the parametric network of Gallo, Grigoriadis and Tarjan 1989; density after Goldberg 1984).
pub fn densest(alloc: Global, graph: &Graph) -> Result<Dense, NoMemory>
    ensures shape { IfOk result (IsDenseShape graph.now) }
    ensures best { IfOk result (λ d. IsDensest graph.now d.density d.chosen) }
    ensures certificate { IfOk result (λ d. CertifiesDense graph.now d.density d.chosen d.charges) }
{
    let net = dense_net(alloc, graph)?;
    let mut finder = Finder::make(alloc, &net)?;
    answer(alloc, graph, &mut finder)
}
