// `densest`: the densest subgraph, and `check densest`: whether a text certifies it.
ghost use Rattle.pf_dense.specs.Answer.{IsDenseShape};
ghost use Rattle.pf_dense.specs.Text.{dense_text};
ghost use Rattle.pf_top.specs.Job.{named};
ghost use Rattle.pf_top.specs.declared.words.Name.TheVariants.{Densest};

use crate::job::{Checked, Job, Stop};
use pf_dense::{Dense, densest, is_certified_dense_text, write_dense};
use pf_frame::NoMemory;
use pf_graph::{Graph, Task, read_graph};
use pf_io::{Failed, Printer, Sink};
use pf_lines::{Lines, ReadBad};
use std::alloc::Global;

/// The command.
#[derive(Drop)]
pub struct Densest;

impl Job for Densest {
    type Problem = Graph;

    type Answer = Dense;

    ghost row_of = { λ _. named Densest };

    ghost problem_of = { λ _ g. g };

    ghost text_of = { λ _ g answer. dense_text answer };

    ghost is_found = { λ _ g answer. IsDenseShape g answer };

    fn read(&self, alloc: Global, lines: &mut Lines<'_>) -> Result<Graph, ReadBad> {
        read_graph(alloc, lines, Task::Densest)
    }

    fn solve(&self, alloc: Global, problem: &Graph) -> Result<Dense, Stop> {
        let answer = densest(alloc, problem)?;
        Ok(answer)
    }

    fn write<K: Sink>(
        &self,
        out: &mut Printer<'_, K>,
        _problem: &Graph,
        answer: &Dense,
    ) -> Result<(), Failed> {
        write_dense(out, answer)
    }
}

impl Checked for Densest {
    fn certifies(&self, alloc: Global, problem: &Graph, text: &[u8]) -> Result<bool, NoMemory> {
        is_certified_dense_text(alloc, problem, text)
    }
}
