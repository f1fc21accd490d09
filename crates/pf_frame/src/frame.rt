// The arcs of a network, by node.
ghost use Rattle.std.specs.Prelude.{◌≡◌, ◌≢◌, ℕ, ◌+◌, ◌<◌, ◌≤◌, length, slice_index_or, IfOk};
ghost use Rattle.pf_model.specs.Digraph.{Digraph, IsDigraph, arcs_out, arcs_in};
ghost use Rattle.pf_model.specs.Limits.{most_nodes, most_arcs};

use crate::error::NoMemory;
use crate::group::group;
use std::alloc::Global;
use std::marker::Model;

/// The most nodes and the most arcs of a frame.
pub const MOST_NODES: u32 = 8192;

pub const MOST_ARCS: usize = 32768;

/// A directed graph. Nodes and arcs are numbered from 0; parallel arcs and loops are allowed. Contracts see its number of nodes and its list of arcs.
#[derive(Drop)]
pub struct Frame {
    node_count: u32,
    arcs: Vec<(u32, u32)>,
    out_starts: Vec<u32>,
    out_order: Vec<u32>,
    in_starts: Vec<u32>,
    in_order: Vec<u32>,
}

impl Model for Frame {
    ghost use Rattle.pf_model.specs.Digraph.{Digraph};
    ghost use Rattle.pf_frame.specs.Frame.{IsFrame};

    ghost Value = { Digraph };

    ghost view = { λ f. record { nodes = f.node_count; ends = f.arcs.items } };

    ghost invariant = { λ f. IsFrame (record { nodes = f.node_count; ends = f.arcs.items }) f.out_starts.items f.out_order.items f.in_starts.items f.in_order.items };
}

impl Frame {
    /// The graph with the nodes below `n` and these arcs, each a tail and a head. Takes memory and time in proportion to nodes and arcs.
    pub fn build(alloc: Global, n: u32, ends: &[(u32, u32)]) -> Result<Frame, NoMemory>
        requires few_nodes { n ≤ most_nodes }
        requires few_arcs { length ends.now ≤ most_arcs }
        requires graph { IsDigraph (record { nodes = n; ends = ends.now }) }
        ensures { IfOk result (λ f. f ≡ record { nodes = n; ends = ends.now }) }
    {
        let arcs = Vec::from_slice(alloc, ends)?;
        Frame::from_ends(alloc, n, arcs)
    }

    /// The same of arcs that are handed over, so that none is copied.
    pub fn from_ends(alloc: Global, n: u32, ends: Vec<(u32, u32)>) -> Result<Frame, NoMemory>
        requires few_nodes { n ≤ most_nodes }
        requires few_arcs { length ends.items ≤ most_arcs }
        requires graph { IsDigraph (record { nodes = n; ends = ends.items }) }
        ensures { IfOk result (λ f. f ≡ record { nodes = n; ends = ends.items }) }
    {
        let (out_starts, out_order) = group(alloc, n, ends.as_slice(), false)?;
        let (in_starts, in_order) = group(alloc, n, ends.as_slice(), true)?;
        Ok(Frame {
            node_count: n,
            arcs: ends,
            out_starts,
            out_order,
            in_starts,
            in_order,
        })
    }

    /// The number of nodes.
    pub fn nodes(&self) -> u32
        ensures value { result ≡ self.now.nodes }
        ensures few { result ≤ most_nodes }
        ensures graph { IsDigraph self.now }
    {
        self.node_count
    }

    /// The number of arcs.
    pub fn arcs(&self) -> u32
        ensures value { result ≡ length self.now.ends }
        ensures few { result ≤ most_arcs }
    {
        self.arcs.len() as u32
    }

    /// The node that arc `i` leaves.
    pub fn tail(&self, i: u32) -> u32
        requires { i < length self.now.ends }
        ensures value { result ≡ (slice_index_or self.now.ends i (0, 0)).0 }
        ensures node { result < self.now.nodes }
    {
        self.arcs[i as usize].0
    }

    /// The node that arc `i` enters.
    pub fn head(&self, i: u32) -> u32
        requires { i < length self.now.ends }
        ensures value { result ≡ (slice_index_or self.now.ends i (0, 0)).1 }
        ensures node { result < self.now.nodes }
    {
        self.arcs[i as usize].1
    }

    /// The numbers of the arcs that leave `v`, rising.
    pub fn outs(&self, v: u32) -> &[u32]
        requires { v < self.now.nodes }
        ensures { result.now ≡ arcs_out self.now v }
    {
        let start = self.out_starts[v as usize];
        let end = self.out_starts[v as usize + 1];
        &self.out_order[start as usize..end as usize]
    }

    /// The numbers of the arcs that enter `v`, rising.
    pub fn ins(&self, v: u32) -> &[u32]
        requires { v < self.now.nodes }
        ensures { result.now ≡ arcs_in self.now v }
    {
        let start = self.in_starts[v as usize];
        let end = self.in_starts[v as usize + 1];
        &self.in_order[start as usize..end as usize]
    }
}
