// A reinforcement, with its certificate.
ghost use Rattle.std.specs.Prelude.{◌≡◌};

use pf_frame::{FlowTable, Numbers};
use pf_graph::Partitions;
use pf_rat::Rat;
use std::marker::Model;

/// A level `P/Q`, what is added to each edge and what that costs, a vector, the prices that occur with a partition for each,
/// and a split for each vertex as a root. What is added, the cost, the vector and the splits are in units of `1/Q`; they are
/// indexed by edges, the splits by roots first. A split tells what the first end of each edge gets of its number.
#[derive(Drop)]
pub struct Added {
    level: Rat,
    cost: i128,
    added: Numbers,
    vector: Numbers,
    thresholds: Numbers,
    parts: Partitions,
    splits: FlowTable,
}

impl Model for Added {
    ghost use Rattle.pf_reinforce.specs.Reinforcement.{AddedAnswer};

    ghost Value = { AddedAnswer };

    ghost view = { λ a. record { level = a.level; cost = a.cost; added = a.added; vector = a.vector; thresholds = a.thresholds; parts = a.parts; splits = a.splits } };
}

impl Added {
    /// The answer of these fields, whatever they hold. It takes no memory.
    pub fn new(
        level: Rat,
        cost: i128,
        added: Numbers,
        vector: Numbers,
        thresholds: Numbers,
        parts: Partitions,
        splits: FlowTable,
    ) -> Added
        ensures { result ≡ record { level = level; cost = cost; added = added; vector = vector; thresholds = thresholds; parts = parts; splits = splits } }
    {
        Added {
            level,
            cost,
            added,
            vector,
            thresholds,
            parts,
            splits,
        }
    }

    /// The level, in lowest terms.
    pub fn level(&self) -> &Rat
        ensures { result.now ≡ self.now.level }
    {
        &self.level
    }

    /// The sum of price times number, in units of `1/Q` of the level.
    pub fn cost(&self) -> i128
        ensures { result ≡ self.now.cost }
    {
        self.cost
    }

    /// What is added to each edge, in units of `1/Q` of the level.
    pub fn added(&self) -> &Numbers
        ensures { result.now ≡ self.now.added }
    {
        &self.added
    }

    /// The vector, indexed by edges, in units of `1/Q` of the level.
    pub fn vector(&self) -> &Numbers
        ensures { result.now ≡ self.now.vector }
    {
        &self.vector
    }

    /// The prices that occur, rising.
    pub fn thresholds(&self) -> &Numbers
        ensures { result.now ≡ self.now.thresholds }
    {
        &self.thresholds
    }

    /// The partitions, one per price; their labels are indexed by vertices.
    pub fn parts(&self) -> &Partitions
        ensures { result.now ≡ self.now.parts }
    {
        &self.parts
    }

    /// The splits, indexed by roots and then by edges, in units of `1/Q` of the level.
    pub fn splits(&self) -> &FlowTable
        ensures { result.now ≡ self.now.splits }
    {
        &self.splits
    }
}
