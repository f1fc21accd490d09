// `strength`: the strength of a graph, and `check strength`: whether a text certifies it.
ghost use Rattle.pf_strength.specs.Strength.{IsStrengthShape};
ghost use Rattle.pf_strength.specs.Text.{strength_text};
ghost use Rattle.pf_top.specs.Job.{named};
ghost use Rattle.pf_top.specs.declared.words.Name.TheVariants.{Strength};

use crate::divisible::Divisible;
use crate::job::{Checked, Job, Stop};
use pf_frame::NoMemory;
use pf_io::{Failed, Printer, Sink};
use pf_lines::{Lines, ReadBad};
use pf_strength::{is_certified_strength_text, write_strength};
use std::alloc::Global;

/// The command.
#[derive(Drop)]
pub struct Strength;

impl Job for Strength {
    type Problem = Divisible;

    type Answer = pf_strength::Strength;

    ghost row_of = { λ _. named Strength };

    ghost problem_of = { λ _ g. g };

    ghost text_of = { λ _ g answer. strength_text answer };

    ghost is_found = { λ _ g answer. IsStrengthShape g answer };

    fn read(&self, alloc: Global, lines: &mut Lines<'_>) -> Result<Divisible, ReadBad> {
        Divisible::read(alloc, lines)
    }

    fn solve(&self, alloc: Global, problem: &Divisible) -> Result<pf_strength::Strength, Stop> {
        let answer = pf_strength::Strength::of(alloc, problem.graph())?;
        Ok(answer)
    }

    fn write<K: Sink>(
        &self,
        out: &mut Printer<'_, K>,
        _problem: &Divisible,
        answer: &pf_strength::Strength,
    ) -> Result<(), Failed> {
        write_strength(out, answer)
    }
}

impl Checked for Strength {
    fn certifies(&self, alloc: Global, problem: &Divisible, text: &[u8]) -> Result<bool, NoMemory> {
        is_certified_strength_text(alloc, problem.graph(), text)
    }
}
