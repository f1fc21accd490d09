// Sums over the edges of a graph and over its vertices.
ghost use Rattle.std.specs.Prelude.{◌≡◌, ◌<◌, ◌≤◌, ◌&&◌, ◌==◌, not, length, map, pos};
ghost use Rattle.pf_model.specs.Cut.{has};
ghost use Rattle.pf_graph.specs.WeightedGraph.{inside, cost_of};
ghost use Rattle.pf_graph.specs.Labels.{label, crossing, crossing_edges};

use pf_frame::Frame;

// Both ends are in the side.
fn holds_both(side: &[bool], u: u32, v: u32) -> bool
    requires first { u < length side.now }
    requires second { v < length side.now }
    ensures { result ≡ (has side.now u && has side.now v) }
{
    side[u as usize] && side[v as usize]
}

// The ends are in different parts.
fn separates(labels: &[u32], u: u32, v: u32) -> bool
    requires first { u < length labels.now }
    requires second { v < length labels.now }
    ensures { result ≡ not (label labels.now u == label labels.now v) }
{
    labels[u as usize] != labels[v as usize]
}

// The sum over the edges with both ends in the side.
pub fn sum_inside(frame: &Frame, numbers: &[u32], side: &[bool]) -> i128
    requires full { length numbers.now ≡ length frame.now.ends }
    requires side { length side.now ≡ frame.now.nodes }
    ensures { result ≡ inside frame.now.ends (map pos numbers.now) side.now }
{
    let mut sum: i128 = 0;
    'edges: for i in 0..frame.arcs() {
        if holds_both(side, frame.tail(i), frame.head(i)) {
            sum += i128::from(numbers[i as usize]);
        }
    }
    sum
}

// The sum over the edges with ends in different parts.
pub fn sum_crossing(frame: &Frame, numbers: &[u32], labels: &[u32]) -> i128
    requires full { length numbers.now ≡ length frame.now.ends }
    requires labels { length labels.now ≡ frame.now.nodes }
    ensures { result ≡ crossing frame.now.ends (map pos numbers.now) labels.now }
{
    let mut sum: i128 = 0;
    'edges: for i in 0..frame.arcs() {
        if separates(labels, frame.tail(i), frame.head(i)) {
            sum += i128::from(numbers[i as usize]);
        }
    }
    sum
}

// How many edges have ends in different parts.
pub fn count_crossing(frame: &Frame, labels: &[u32]) -> u32
    requires { length labels.now ≡ frame.now.nodes }
    ensures { result ≡ crossing_edges frame.now.ends labels.now }
{
    let mut count: u32 = 0;
    'edges: for i in 0..frame.arcs() {
        if separates(labels, frame.tail(i), frame.head(i)) {
            count += 1;
        }
    }
    count
}

// The sum over the vertices in the side.
pub fn sum_costs(costs: &[u32], side: &[bool]) -> i128
    requires full { length side.now ≡ length costs.now }
    requires few { length costs.now ≤ 8192 }
    ensures { result ≡ cost_of (map pos costs.now) side.now }
{
    let mut sum: i128 = 0;
    'vertices: for v in 0..costs.len() {
        if side[v] {
            sum += i128::from(costs[v]);
        }
    }
    sum
}
