// The least cost at which a graph has a level as its strength, or what blocks it.
ghost use Rattle.std.specs.Prelude.{◌≡◌, ◌≤◌, ◌≤ℤ◌, pos, IfOk, true, false};
ghost use Rattle.pf_reinforce.specs.Reinforcement.{IsBlocked};
ghost use Rattle.pf_reinforce.specs.Raising.{IsConnectedAbove};
ghost use Rattle.pf_reinforce.specs.Answer.{Answers, IsAdded};

use crate::added::Added;
use crate::raising::raise_by_price;
use crate::sums::{cost_of, gain};
use pf_forest::Forest;
use pf_frame::{FlowTable, NoMemory, Numbers};
use pf_graph::{Graph, Partition, Partitions};
use pf_rat::Rat;
use std::alloc::Global;

/// What `reinforce` answers. `Added` holds what is added to the edges, with its certificate. `Blocked` holds the
/// connected components of a graph that is not connected, as parts: nothing that is added to its edges brings it to a level
/// above 0.
#[derive(Drop)]
pub enum Reinforcement {
    Added(Added),
    Blocked(Partition),
}

// Whether the level is above 0 and the graph is not connected. Then the forest has its components as parts.
fn is_blocked(graph: &Graph, level: &Rat, forest: &mut Forest<'_>) -> bool
    requires { forest.old.graph ≡ graph.now }
    ensures graph { forest.new.graph ≡ graph.now }
    ensures blocked { result ≡ true → IsBlocked graph.now level.now forest.new.labels }
    ensures connected { result ≡ false → IsConnectedAbove graph.now level.now }
{
    let none: i128 = 0;
    if level.p() <= none {
        return false;
    }
    // Below a crossing weight of 1 for all parts, no edge is worth its part.
    let least = Rat::new(1, i128::from(graph.vertices()));
    forest.fill(&least);
    1 < forest.partition().parts()
}

// The reinforcement of a graph that the level is not blocked by.
fn reinforced(
    alloc: Global,
    graph: &Graph,
    level: &Rat,
    forest: &mut Forest<'_>,
) -> Result<Added, NoMemory>
    requires graph { forest.old.graph ≡ graph.now }
    requires low { pos 0 ≤ℤ level.now.p }
    requires connected { IsConnectedAbove graph.now level.now }
    ensures { IfOk result (IsAdded graph.now level.now) }
{
    // They tell the limits.
    let _ = graph.frame();
    let _ = level.q();
    forest.fill(level);
    let first = Vec::from_slice(alloc, forest.vector())?;
    let mut thresholds = Numbers::new(alloc);
    let mut parts = Partitions::new(alloc);
    raise_by_price(alloc, graph, forest, &mut thresholds, &mut parts)?;
    let vector = Vec::from_slice(alloc, forest.vector())?;
    let added = gain(alloc, &first, &vector)?;
    let cost = cost_of(graph, &added);
    let mut splits = FlowTable::new(alloc);
    forest.push_splits(alloc, &mut splits)?;
    Ok(Added::new(
        *level,
        cost,
        Numbers::from_vec(added),
        Numbers::from_vec(vector),
        thresholds,
        parts,
        splits,
    ))
}

/// What to add to the weights of a graph, at the price of each edge, so that its strength is at least the level, and nothing
/// else does so for less; or that nothing does, which comes exactly where the level is above 0 and the graph is not
/// connected. Edges are raised by rising price as far as no set of vertices holds too much (Cunningham 1985). `NoMemory`
/// where memory was not found.
pub fn reinforce(alloc: Global, graph: &Graph, level: &Rat) -> Result<Reinforcement, NoMemory>
    requires two { 2 ≤ graph.now.nodes }
    requires low { pos 0 ≤ℤ level.now.p }
    ensures { IfOk result (Answers graph.now level.now) }
{
    let mut forest = Forest::make(alloc, graph)?;
    if is_blocked(graph, level, &mut forest) {
        let parts = Partition::of(alloc, forest.partition().labels())?;
        return Ok(Reinforcement::Blocked(parts));
    }
    let answer = reinforced(alloc, graph, level, &mut forest)?;
    Ok(Reinforcement::Added(answer))
}
