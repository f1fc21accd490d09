// The forest of a graph: the filled vector, its partition, and its splits.
ghost use Rattle.std.specs.Prelude.{◌≡◌, ◌≢◌, ℕ, ◌+◌, ◌<◌, ◌≤◌, ◌^◌, ◌+ℤ◌, ◌≤ℤ◌, pos, length, IfOk, IsSome, Some, replicate};
ghost use Rattle.pf_model.specs.Cut.{at_arc};
ghost use Rattle.pf_model.specs.Fraction.{Fraction};
ghost use Rattle.pf_graph.specs.WeightedGraph.{digraph_of};
ghost use Rattle.pf_graph.specs.Labels.{label, parts, IsPartition, Refines};
ghost use Rattle.pf_graph.specs.Limits.{IsWithinLimits};
ghost use Rattle.pf_forest.specs.Held.{IsHeld, HasTables, tail_of, head_of};
ghost use Rattle.pf_forest.specs.Forest.{no_level, IsSparse, IsSplit, IsFilled, IsKept, AddsSplits};
ghost use Rattle.pf_forest.specs.Filling.{IsStanding, IsStandingAt, HasLists, AreGoalsOf, IsRaised};

use crate::charges::Charges;
use crate::fill::{fill, orient, raise};
use crate::meets::times;
use crate::workspace::Workspace;
use pf_frame::{FlowTable, NoMemory, Numbers};
use pf_graph::{Graph, Partition};
use pf_rat::Rat;
use std::alloc::Global;
use std::marker::Model;

/// A vector over the edges of a graph, with a partition of its vertices. Filled at the level `P/Q`, the vector is in units of
/// `1/Q`, and for every set `S` of vertices that is not empty its sum inside is at most `P (|S| - 1)` (Edmonds 1970). Charges
/// are kept as an orientation: each edge's number is shared between its two ends, and room is moved to the ends of an edge
/// before it is raised (the pebble game of Gabow and Westermann 1992, and of Lee and Streinu 2008). Contracts see the graph, the
/// level of the last filling, if there was one, the vector, and the labels of the partition.
#[derive(Drop)]
pub struct Forest<'g> {
    graph: &'g Graph,
    filled: bool,
    level: Rat,
    goals: Vec<i128>,
    charges: Charges,
    groups: Vec<u32>,
    partition: Partition,
    workspace: Workspace,
}

impl<'g> Model for Forest<'g> {
    ghost use Rattle.pf_forest.specs.Forest.{ForestState};
    ghost use Rattle.pf_forest.specs.Filling.{IsWhole, level_of};

    ghost Value = { ForestState };

    ghost view = { λ f. record { graph = f.graph.now; level = level_of f.filled f.level; vector = f.charges.vector.items; labels = f.partition } };

    ghost invariant = { λ f. IsWhole f.graph.now f.filled f.level f.goals.items f.charges.vector.items f.charges.heads.items f.charges.rooms.items f.groups.items f.partition f.workspace };
}

// The goal of each edge: its weight, in units of `1/q`.
fn write_goals(graph: &Graph, q: i128, goals: &mut [i128])
    requires full { length goals.old ≡ length graph.now.ends }
    requires low { pos 0 ≤ℤ q }
    requires high { q ≤ℤ pos (2 ^ 46) }
    ensures { AreGoalsOf graph.now q goals.new }
{
    'edges: for i in 0..graph.edges() {
        let (_first, _second, weight) = graph.edge(i);
        let goal = times(q, weight);
        goals[i as usize] = goal;
    }
}

// Each number below `n` as the group of that vertex.
fn own_groups(alloc: Global, n: u32) -> Result<Vec<u32>, NoMemory>
    ensures length { IfOk result (λ groups. length groups.items ≡ n) }
    ensures own { IfOk result (λ groups. (v : ℕ) → v < n → label groups.items v ≡ v) }
{
    let mut groups = Vec::with_capacity(alloc, n as usize)?;
    'vertices: for v in 0..n {
        groups.push(v)?;
    }
    Ok(groups)
}

// Fills all edges at a level, and tells the partition.
fn fill_at(
    graph: &Graph,
    level: &Rat,
    goals: &mut [i128],
    charges: &mut Charges,
    groups: &mut [u32],
    partition: &mut Partition,
    workspace: &mut Workspace,
)
    requires low { pos 0 ≤ℤ level.now.p }
    requires lists { HasLists graph.now goals.old charges.old.vector.items charges.old.heads.items charges.old.rooms.items groups.old partition.old }
    requires tables { HasTables graph.now.nodes workspace.old }
    ensures standing { IsStanding graph.now level.now.p charges.new.vector.items charges.new.heads.items charges.new.rooms.items groups.new partition.new }
    ensures at_level { IsStandingAt graph.now level.now goals.new charges.new.vector.items groups.new }
    ensures lists { HasLists graph.now goals.new charges.new.vector.items charges.new.heads.items charges.new.rooms.items groups.new partition.new }
    ensures tables { HasTables graph.now.nodes workspace.new }
    ensures filled { IsFilled graph.now level.now charges.new.vector.items partition.new }
{
    let frame = graph.frame();
    let limit = level.p();
    let q = level.q();
    write_goals(graph, q, goals);
    fill(frame, limit, goals, charges, groups, workspace);
    partition.regroup(groups);
}

// Makes a split for the root. The groups and their partition do not change.
fn orient_at(
    graph: &Graph,
    level: &Rat,
    charges: &mut Charges,
    workspace: &mut Workspace,
    root: u32,
    shares: &mut [i128],
)
    requires held { IsHeld (digraph_of graph.now) level.now.p charges.old.vector.items charges.old.heads.items charges.old.rooms.items }
    requires sparse { IsSparse (digraph_of graph.now) level.now.p charges.old.vector.items }
    requires tables { HasTables graph.now.nodes workspace.old }
    requires root { root < graph.now.nodes }
    requires shares { length shares.old ≡ length graph.now.ends }
    ensures vector { charges.new.vector.items ≡ charges.old.vector.items }
    ensures held { IsHeld (digraph_of graph.now) level.now.p charges.old.vector.items charges.new.heads.items charges.new.rooms.items }
    ensures tables { HasTables graph.now.nodes workspace.new }
    ensures split { IsSplit (digraph_of graph.now) level.now.p charges.old.vector.items shares.new root }
{
    let frame = graph.frame();
    let limit = level.p();
    orient(frame, limit, charges, workspace, root, shares);
}

// Raises one edge as far as can be, and tells the partition.
fn raise_at(
    graph: &Graph,
    level: &Rat,
    charges: &mut Charges,
    groups: &mut [u32],
    partition: &mut Partition,
    workspace: &mut Workspace,
    edge: u32,
)
    requires standing { IsStanding graph.now level.now.p charges.old.vector.items charges.old.heads.items charges.old.rooms.items groups.old partition.old }
    requires tables { HasTables graph.now.nodes workspace.old }
    requires edge { edge < length graph.now.ends }
    ensures limits { IsWithinLimits graph.now }
    ensures standing { IsStanding graph.now level.now.p charges.new.vector.items charges.new.heads.items charges.new.rooms.items groups.new partition.new }
    ensures tables { HasTables graph.now.nodes workspace.new }
    ensures raised { IsRaised (digraph_of graph.now) charges.old.vector.items groups.old charges.new.vector.items groups.new edge (at_arc charges.old.vector.items edge +ℤ (level.now.p +ℤ pos 1)) }
    ensures met { label groups.new (tail_of graph.now.ends edge) ≡ label groups.new (head_of graph.now.ends edge) }
    ensures joined { label partition.new (tail_of graph.now.ends edge) ≡ label partition.new (head_of graph.now.ends edge) }
    ensures coarser { Refines graph.now.nodes partition.old partition.new }
{
    let frame = graph.frame();
    let limit = level.p();
    raise(frame, limit, charges, groups, workspace, edge);
    partition.regroup(groups);
}

impl<'g> Forest<'g> {
    /// The forest of no charge: the vector is all 0, each vertex is a part by itself, and there is no level yet. It takes all
    /// the memory that any call needs. `NoMemory` where it was not found.
    pub fn make(alloc: Global, graph: &'g Graph) -> Result<Forest<'g>, NoMemory>
        ensures graph { IfOk result (λ forest. forest.graph ≡ graph.now) }
        ensures level { IfOk result (λ forest. forest.level ≡ no_level) }
        ensures vector { IfOk result (λ forest. forest.vector ≡ replicate (length graph.now.ends) (pos 0)) }
        ensures labels { IfOk result (λ forest. IsPartition graph.now.nodes forest.labels) }
        ensures single { IfOk result (λ forest. parts forest.labels ≡ graph.now.nodes) }
    {
        let frame = graph.frame();
        let nodes = frame.nodes();
        let edges = frame.arcs();
        let goals = vec![in alloc; 0i128; edges as usize]?;
        let charges = Charges::make(alloc, nodes, edges)?;
        let groups = own_groups(alloc, nodes)?;
        let partition = Partition::of(alloc, &groups)?;
        let workspace = Workspace::make(alloc, nodes)?;
        Ok(Forest {
            graph,
            filled: false,
            level: Rat::new(0, 1),
            goals,
            charges,
            groups,
            partition,
            workspace,
        })
    }

    /// Fills the vector at the level `P/Q`: each edge is raised towards its weight as far as no set of vertices holds too much.
    /// Then the vector is from 0 to the weights in units of `1/Q`, its sum is `Q crossing + P (vertices - parts)`, it has a split
    /// for each root, and no partition is better at the level than the one that it leaves. What went before has no effect.
    pub fn fill(&mut self, level: &Rat)
        requires { pos 0 ≤ℤ level.now.p }
        ensures graph { self.new.graph ≡ self.old.graph }
        ensures level { self.new.level ≡ Some level.now }
        ensures filled { IsFilled self.new.graph level.now self.new.vector self.new.labels }
    {
        fill_at(
            self.graph,
            level,
            &mut self.goals,
            &mut self.charges,
            &mut self.groups,
            &mut self.partition,
            &mut self.workspace,
        );
        self.level = *level;
        self.filled = true;
    }

    /// The graph.
    pub fn graph(&self) -> &'g Graph
        ensures { result.now ≡ self.now.graph }
    {
        self.graph
    }

    /// The vector, in units of `1/Q` where the level is `P/Q`, indexed by edges. What holds of every filled forest is told here.
    pub fn vector(&self) -> &[i128]
        ensures value { result.now ≡ self.now.vector }
        ensures kept { IsKept self.now }
        ensures graph { IsWithinLimits self.now.graph }
        ensures full { length self.now.vector ≡ length self.now.graph.ends }
        ensures partition { IsPartition self.now.graph.nodes self.now.labels }
    {
        let _ = self.graph.frame();
        self.charges.vector.as_slice()
    }

    /// The partition: its labels are indexed by vertices.
    pub fn partition(&self) -> &Partition
        ensures { result.now ≡ self.now.labels }
    {
        &self.partition
    }

    /// Makes `shares` a split of the vector for a root: of each edge its first end gets the share, and its second end the rest,
    /// so that the root gets nothing and each vertex at most `P`. Both are in units of `1/Q` where the level is `P/Q`, indexed
    /// by edges. It is made from where the last call left the orientation.
    pub fn orient(&mut self, root: u32, shares: &mut [i128])
        requires filled { IsSome self.old.level }
        requires root { root < self.old.graph.nodes }
        requires shares { length shares.old ≡ length self.old.graph.ends }
        ensures split { (x : Fraction) → self.old.level ≡ Some x → IsSplit (digraph_of self.old.graph) x.p self.old.vector shares.new root }
        ensures same { self.new ≡ self.old }
    {
        orient_at(
            self.graph,
            &self.level,
            &mut self.charges,
            &mut self.workspace,
            root,
            shares,
        );
    }

    /// Raises one edge, past its weight if need be, as far as no set of vertices holds too much. All other edges keep their
    /// numbers, both ends of the edge come into one part, and each earlier part lies in one part.
    pub fn raise(&mut self, edge: u32)
        requires filled { IsSome self.old.level }
        requires edge { edge < length self.old.graph.ends }
        ensures graph { self.new.graph ≡ self.old.graph }
        ensures level { self.new.level ≡ self.old.level }
        ensures others { (k : ℕ) → k ≢ edge → at_arc self.new.vector k ≡ at_arc self.old.vector k }
        ensures more { at_arc self.old.vector edge ≤ℤ at_arc self.new.vector edge }
        ensures joined { label self.new.labels (tail_of self.new.graph.ends edge) ≡ label self.new.labels (head_of self.new.graph.ends edge) }
        ensures coarser { Refines self.old.graph.nodes self.old.labels self.new.labels }
        ensures kept { IsKept self.new }
    {
        raise_at(
            self.graph,
            &self.level,
            &mut self.charges,
            &mut self.groups,
            &mut self.partition,
            &mut self.workspace,
            edge,
        );
    }

    /// Adds a split for each vertex as a root to the rows of the table, in the order of the vertices. `NoMemory` leaves the
    /// forest as it was, and the table with some of the rows.
    pub fn push_splits(&mut self, alloc: Global, table: &mut FlowTable) -> Result<(), NoMemory>
        requires filled { IsSome self.old.level }
        ensures splits { IfOk result (λ _. (x : Fraction) → self.old.level ≡ Some x → AddsSplits self.old.graph x self.old.vector table.old table.new self.old.graph.nodes) }
        ensures same { self.new ≡ self.old }
    {
        let graph = self.graph();
        let edges = graph.edges() as usize;
        'roots: for root in 0..graph.vertices() {
            let mut shares = vec![in alloc; 0i128; edges]?;
            self.orient(root, &mut shares);
            table.push(Numbers::from_vec(shares))?;
        }
        Ok(())
    }
}
