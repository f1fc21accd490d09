// `trees K`: spanning trees without a common edge, or a partition that forbids them.
ghost use Rattle.std.specs.Prelude.{◌≡◌, ◌≤◌};
ghost use Rattle.pf_graph.specs.WeightedGraph.{digraph_of};
ghost use Rattle.pf_trees.specs.Text.{IsTreesShape, trees_text};
ghost use Rattle.pf_top.specs.Job.{trees};

use crate::divisible::Divisible;
use crate::job::{Job, Stop};
use pf_io::{Failed, Printer, Sink};
use pf_lines::{Lines, ReadBad};
use pf_trees::{TreesOr, trees, write_trees};
use std::alloc::Global;
use std::marker::Model;

/// The command, with the number of trees, from 1 to 500.
#[derive(Drop)]
pub struct Trees {
    count: u32,
}

impl Model for Trees {
    ghost use Rattle.std.specs.Prelude.{ℕ, ◌≤◌};

    ghost Value = { ℕ };

    ghost view = { λ t. t.count };

    ghost invariant = { λ t. (1 ≤ t.count) × (t.count ≤ 500) };
}

impl Trees {
    /// The command for this number of trees.
    pub fn new(count: u32) -> Trees
        requires some { 1 ≤ count }
        requires most { count ≤ 500 }
        ensures { result ≡ count }
    {
        Trees { count }
    }
}

impl Job for Trees {
    type Problem = Divisible;

    type Answer = TreesOr;

    ghost row_of = { λ k. trees k };

    ghost problem_of = { λ _ g. g };

    ghost text_of = { λ k g answer. trees_text (digraph_of g) k answer };

    ghost is_found = { λ _ g answer. IsTreesShape (digraph_of g) answer };

    fn read(&self, alloc: Global, lines: &mut Lines<'_>) -> Result<Divisible, ReadBad> {
        Divisible::read(alloc, lines)
    }

    fn solve(&self, alloc: Global, problem: &Divisible) -> Result<TreesOr, Stop> {
        let answer = trees(alloc, problem.graph(), self.count)?;
        Ok(answer)
    }

    fn write<K: Sink>(
        &self,
        out: &mut Printer<'_, K>,
        problem: &Divisible,
        answer: &TreesOr,
    ) -> Result<(), Failed> {
        write_trees(out, problem.graph(), self.count, answer)
    }
}
