// A network that sources share.
ghost use Rattle.std.specs.Prelude.{◌≡◌, ◌<◌, ◌≤◌, pos, length, map};
ghost use Rattle.pf_model.specs.Cut.{at_arc};
ghost use Rattle.pf_share.specs.Problem.{IsBoundedSharing, sharing_of, tail_of, head_of};

use std::marker::Model;

/// Nodes with their weights, one of them the sink, and arcs with their capacities. A node is a source where its weight is above 0.
/// Nodes and arcs are numbered from 0.
#[derive(Drop)]
pub struct Sharing {
    sink: u32,
    weights: Vec<u32>,
    ends: Vec<(u32, u32)>,
    capacities: Vec<u32>,
}

impl Model for Sharing {
    ghost use Rattle.pf_share.specs.Problem.{ShareProblem, IsBoundedSharing, sharing_of};

    ghost Value = { ShareProblem };

    ghost view = { λ x. sharing_of x.sink x.weights.items x.ends.items x.capacities.items };

    ghost invariant = { λ x. IsBoundedSharing (sharing_of x.sink x.weights.items x.ends.items x.capacities.items) };
}

impl Sharing {
    // The network with a weight for each node, 0 at a node that is no source, and arcs, each a tail and a head, with their capacities.
    pub(crate) fn from_vecs(
        sink: u32,
        weights: Vec<u32>,
        ends: Vec<(u32, u32)>,
        capacities: Vec<u32>,
    ) -> Sharing
        requires { IsBoundedSharing (sharing_of sink weights.items ends.items capacities.items) }
        ensures { result ≡ sharing_of sink weights.items ends.items capacities.items }
    {
        Sharing {
            sink,
            weights,
            ends,
            capacities,
        }
    }

    /// The number of nodes. What holds of every such network is told here.
    pub fn nodes(&self) -> u32
        ensures value { result ≡ self.now.nodes }
        ensures limits { IsBoundedSharing self.now }
    {
        self.weights.len() as u32
    }

    /// The number of arcs.
    pub fn arcs(&self) -> u32
        ensures value { result ≡ length self.now.ends }
        ensures few { result ≤ 10000 }
    {
        self.ends.len() as u32
    }

    /// The sink.
    pub fn sink(&self) -> u32
        ensures value { result ≡ self.now.sink }
        ensures node { result < self.now.nodes }
    {
        self.sink
    }

    /// The weight of the node `v`, which is 0 where it is no source.
    pub fn weight(&self, v: usize) -> u32
        requires { v < self.now.nodes }
        ensures value { pos result ≡ at_arc self.now.weights v }
        ensures high { result ≤ 1000000 }
    {
        self.weights[v]
    }

    /// The node that arc `i` leaves.
    pub fn tail(&self, i: usize) -> u32
        requires { i < length self.now.ends }
        ensures value { result ≡ tail_of self.now i }
        ensures node { result < self.now.nodes }
    {
        self.ends[i].0
    }

    /// The node that arc `i` enters.
    pub fn head(&self, i: usize) -> u32
        requires { i < length self.now.ends }
        ensures value { result ≡ head_of self.now i }
        ensures node { result < self.now.nodes }
    {
        self.ends[i].1
    }

    /// The capacity of arc `i`.
    pub fn capacity(&self, i: usize) -> u32
        requires { i < length self.now.ends }
        ensures value { pos result ≡ at_arc self.now.capacities i }
        ensures high { result ≤ 1000000000 }
    {
        self.capacities[i]
    }
}
