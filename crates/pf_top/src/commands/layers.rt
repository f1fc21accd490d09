// `layers`: the layers of a graph, or of items that need others.
ghost use Rattle.pf_layers.specs.Text.{layers_text};
ghost use Rattle.pf_top.specs.Job.{layers};

use crate::job::{Job, Stop};
use pf_io::{Failed, Printer, Sink};
use pf_layers::{LayerProblem, layers_of, read_layers, write_layers};
use pf_lines::{Lines, ReadBad};
use std::alloc::Global;

/// The command.
#[derive(Drop)]
pub struct Layers;

impl Job for Layers {
    type Problem = LayerProblem;

    type Answer = pf_layers::Layers;

    ghost row_of = { λ _. layers };

    ghost problem_of = { λ _ p. p };

    ghost text_of = { λ _ p answer. layers_text answer };

    ghost is_found = { λ _ p answer. Unit {0} };

    fn read(&self, alloc: Global, lines: &mut Lines<'_>) -> Result<LayerProblem, ReadBad> {
        read_layers(alloc, lines)
    }

    fn solve(&self, alloc: Global, problem: &LayerProblem) -> Result<pf_layers::Layers, Stop> {
        let answer = layers_of(alloc, problem)?;
        Ok(answer)
    }

    fn write<K: Sink>(
        &self,
        out: &mut Printer<'_, K>,
        _problem: &LayerProblem,
        answer: &pf_layers::Layers,
    ) -> Result<(), Failed> {
        write_layers(out, answer)
    }
}
