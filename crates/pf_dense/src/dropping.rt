// Which vertices the charges drop.
ghost use Rattle.std.specs.Prelude.{◌≡◌, ◌<◌, ◌≤◌, length};
ghost use Rattle.pf_dense.specs.Certificate.{AreCharges};
ghost use Rattle.pf_dense.specs.Dropping.{HasCharged, IsStart, edge_link, IsDroppedBy};

use crate::charging::{allowance, whole_charge};
use pf_graph::Graph;
use pf_rat::Rat;
use pf_ratio::{Link, Links, mark_linked};

// Marks the vertices that are charged less than they may be.
fn mark_strict(graph: &Graph, at: &Rat, sums: &[i128], marks: &mut [bool])
    requires sums { graph.now.nodes ≤ length sums.now }
    requires places { graph.now.nodes ≤ length marks.old }
    ensures full { length marks.new ≡ length marks.old }
    ensures start { IsStart graph.now at.now sums.now graph.now.nodes marks.new }
{
    marks.fill(false);
    'vertices: for v in 0..graph.vertices() {
        marks[v as usize] = sums[v as usize] < allowance(graph.cost(v), at);
    }
}

// The edges, along which vertices are dropped.
#[derive(Drop)]
struct Edges<'a> {
    graph: &'a Graph,
    at: &'a Rat,
    charges: &'a [i128],
}

impl<'a> Links for Edges<'a> {
    ghost count = { λ s. length s.graph.now.ends };

    ghost link = { λ s i. edge_link s.graph.now s.at.now s.charges.now i };

    ghost is_ready = { λ s. AreCharges s.graph.now s.at.now s.charges.now };

    fn count(&self) -> usize {
        self.graph.edges() as usize
    }

    fn link(&self, i: usize) -> Link {
        link_of(self.graph, self.at, self.charges, i)
    }
}

// An edge as a link.
fn link_of(graph: &Graph, at: &Rat, charges: &[i128], i: usize) -> Link
    requires charges { AreCharges graph.now at.now charges.now }
    requires there { i < length graph.now.ends }
    ensures { result ≡ edge_link graph.now at.now charges.now i }
{
    // Gives the proof the limits of the graph.
    let _ = graph.vertices();
    let (first, second, weight) = graph.edge(i as u32);
    let charge = charges[i];
    let rest = whole_charge(weight, at) - charge;
    Link {
        first: first as usize,
        second: second as usize,
        to_first: 0 < charge,
        to_second: 0 < rest,
    }
}

// Marks the dropped vertices. `sums` holds what each is charged.
pub fn mark_dropped(graph: &Graph, at: &Rat, charges: &[i128], sums: &[i128], marks: &mut [bool])
    requires charges { AreCharges graph.now at.now charges.now }
    requires sums { HasCharged graph.now at.now charges.now sums.now }
    requires places { graph.now.nodes ≤ length marks.old }
    ensures full { length marks.new ≡ length marks.old }
    ensures dropped { IsDroppedBy graph.now at.now charges.now marks.new }
{
    // Gives the proof that edges join vertices.
    let _ = graph.vertices();
    mark_strict(graph, at, sums, marks);
    let edges = Edges { graph, at, charges };
    mark_linked(&edges, marks);
}
