// Trees of a graph, or a partition of its vertices.
ghost use Rattle.std.specs.Prelude.{◌≡◌, ◌<◌, ◌≤◌, length, IfOk};
ghost use Rattle.pf_graph.specs.WeightedGraph.{digraph_of};
ghost use Rattle.pf_trees.specs.Answer.{Answers};

use crate::finding::{Found, find};
use pf_frame::{NoMemory, Numbers};
use pf_graph::{Graph, Partition};
use std::alloc::Global;

/// What `trees` answers. `Trees` holds one number for each edge: that of its tree, from 1 on, or 0 for an edge of no tree.
/// `Blocked` holds a partition of the vertices that too few edges cross.
#[derive(Drop)]
pub enum TreesOr {
    Trees(Numbers),
    Blocked(Partition),
}

// The two ends of each edge, by the number of the edge.
fn ends_of(alloc: Global, graph: &Graph) -> Result<Vec<(u32, u32)>, NoMemory>
    ensures { IfOk result (λ ends. ends.items ≡ graph.now.ends) }
{
    let mut ends = Vec::new(alloc);
    'edges: for i in 0..graph.edges() {
        let (u, v, _weight) = graph.edge(i);
        ends.push((u, v))?;
    }
    Ok(ends)
}

/// `k` spanning trees of the graph without a common edge, or a partition of its vertices that fewer than `k` times its number of
/// parts less one edges cross, so that there are no such trees. Each edge counts once, whatever its weight.
pub fn trees(alloc: Global, graph: &Graph, k: u32) -> Result<TreesOr, NoMemory>
    requires two { 2 ≤ graph.now.nodes }
    requires vertices { graph.now.nodes ≤ 100 }
    requires edges { length graph.now.ends ≤ 500 }
    requires some { 1 ≤ k }
    requires most { k ≤ 500 }
    ensures { IfOk result (Answers (digraph_of graph.now) k) }
{
    let n = graph.vertices();
    let ends = ends_of(alloc, graph)?;
    match find(alloc, n, &ends, k)? {
        Found::Trees(numbers) => Ok(TreesOr::Trees(Numbers::from_vec(numbers))),
        Found::Blocked(groups) => {
            let parts = Partition::of(alloc, &groups)?;
            Ok(TreesOr::Blocked(parts))
        }
    }
}
