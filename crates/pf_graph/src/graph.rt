// Graphs whose edges have weights and prices, and whose vertices have costs.
ghost use Rattle.std.specs.Prelude.{◌≡◌, ◌<◌, length, pos, slice_index_or, IfOk};
ghost use Rattle.pf_model.specs.Cut.{at_arc};
ghost use Rattle.pf_graph.specs.WeightedGraph.{digraph_of, inside, cost_of};
ghost use Rattle.pf_graph.specs.Labels.{crossing_edges};
ghost use Rattle.pf_graph.specs.Best.{crossing_of};
ghost use Rattle.pf_graph.specs.Limits.{IsWithinLimits};
ghost use Rattle.pf_graph.specs.Keeping.{with_numbers};

use crate::partition::Partition;
use crate::sums::{count_crossing, sum_costs, sum_crossing, sum_inside};
use pf_frame::{Frame, NoMemory};
use std::alloc::Global;
use std::marker::Model;

/// What is asked of a graph. It chooses the limits of its text: for `Densest` 1 to 500 vertices and up to 5000 edges, for
/// `Partitions` 2 to 100 vertices and up to 500 edges.
#[derive(Clone, Copy, Debug, PartialEq, Eq)]
pub enum Task {
    Densest,
    Partitions,
}

/// A graph of 1 to 500 vertices and up to 5000 edges; parallel edges are allowed, and the ends of an edge differ. Each edge
/// has a weight and a price, and each vertex has a cost, from 1 to 1000000. Vertices and edges are numbered from 0.
#[derive(Drop)]
pub struct Graph {
    frame: Frame,
    weights: Vec<u32>,
    costs: Vec<u32>,
    prices: Vec<u32>,
}

impl Model for Graph {
    ghost use Rattle.pf_graph.specs.WeightedGraph.{WeightedGraph};
    ghost use Rattle.pf_graph.specs.Limits.{IsWithinLimits};
    ghost use Rattle.pf_graph.specs.Keeping.{with_numbers};

    ghost Value = { WeightedGraph };

    ghost view = { λ g. with_numbers g.frame g.weights.items g.costs.items g.prices.items };

    ghost invariant = { λ g. IsWithinLimits (with_numbers g.frame g.weights.items g.costs.items g.prices.items) };
}

impl Graph {
    // The graph of these ends and numbers. The reader has seen to the limits.
    pub(crate) fn make(
        alloc: Global,
        n: u32,
        ends: &[(u32, u32)],
        weights: Vec<u32>,
        costs: Vec<u32>,
        prices: Vec<u32>,
    ) -> Result<Graph, NoMemory>
        requires { IsWithinLimits (with_numbers (record { nodes = n; ends = ends.now }) weights.items costs.items prices.items) }
        ensures { IfOk result (λ graph. graph ≡ with_numbers (record { nodes = n; ends = ends.now }) weights.items costs.items prices.items) }
    {
        let frame = Frame::build(alloc, n, ends)?;
        Ok(Graph {
            frame,
            weights,
            costs,
            prices,
        })
    }

    /// The vertices and edges, without numbers. What holds of every graph is told here too.
    pub fn frame(&self) -> &Frame
        ensures frame { result.now ≡ digraph_of self.now }
        ensures limits { IsWithinLimits self.now }
    {
        &self.frame
    }

    /// The number of vertices. What holds of every graph is told here.
    pub fn vertices(&self) -> u32
        ensures value { result ≡ self.now.nodes }
        ensures limits { IsWithinLimits self.now }
    {
        self.frame.nodes()
    }

    /// The number of edges.
    pub fn edges(&self) -> u32
        ensures { result ≡ length self.now.ends }
    {
        self.frame.arcs()
    }

    /// The two ends and the weight of the edge `i`.
    pub fn edge(&self, i: u32) -> (u32, u32, u32)
        requires { i < length self.now.ends }
        ensures first { result.0 ≡ (slice_index_or self.now.ends i (0, 0)).0 }
        ensures second { result.1 ≡ (slice_index_or self.now.ends i (0, 0)).1 }
        ensures weight { pos result.2 ≡ at_arc self.now.weights i }
    {
        (
            self.frame.tail(i),
            self.frame.head(i),
            self.weights[i as usize],
        )
    }

    /// The cost of the vertex `v`.
    pub fn cost(&self, v: u32) -> u32
        requires { v < self.now.nodes }
        ensures { pos result ≡ at_arc self.now.costs v }
    {
        self.costs[v as usize]
    }

    /// The price of the edge `i`.
    pub fn price(&self, i: u32) -> u32
        requires { i < length self.now.ends }
        ensures { pos result ≡ at_arc self.now.prices i }
    {
        self.prices[i as usize]
    }

    /// The weight of the edges with both ends in the side, which has one value per vertex.
    pub fn inside(&self, side: &[bool]) -> i128
        requires { length side.now ≡ self.now.nodes }
        ensures { result ≡ inside self.now.ends self.now.weights side.now }
    {
        sum_inside(&self.frame, &self.weights, side)
    }

    /// The sum of the costs of the vertices in the side, which has one value per vertex.
    pub fn cost_of(&self, side: &[bool]) -> i128
        requires { length side.now ≡ self.now.nodes }
        ensures { result ≡ cost_of self.now.costs side.now }
    {
        sum_costs(&self.costs, side)
    }

    /// The weight of the edges whose ends are in different parts.
    pub fn crossing(&self, parts: &Partition) -> i128
        requires { length parts.now ≡ self.now.nodes }
        ensures { result ≡ crossing_of self.now parts.now }
    {
        sum_crossing(&self.frame, &self.weights, parts.labels())
    }

    /// The number of these edges.
    pub fn crossing_edges(&self, parts: &Partition) -> u32
        requires { length parts.now ≡ self.now.nodes }
        ensures { result ≡ crossing_edges self.now.ends parts.now }
    {
        count_crossing(&self.frame, parts.labels())
    }
}
