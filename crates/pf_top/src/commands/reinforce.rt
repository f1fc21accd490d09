// `reinforce P/Q`: what to add to the weights of a graph at the least cost, so that its strength is at least the level.
ghost use Rattle.std.specs.Prelude.{◌≡◌, ◌≤ℤ◌, pos};
ghost use Rattle.pf_reinforce.specs.Text.{reinforcement_text, IsTextShape};
ghost use Rattle.pf_top.specs.Job.{reinforce};

use crate::divisible::Divisible;
use crate::job::{Job, Stop};
use pf_io::{Failed, Printer, Sink};
use pf_lines::{Lines, ReadBad};
use pf_rat::Rat;
use pf_reinforce::{Reinforcement, reinforce, write_reinforcement};
use std::alloc::Global;
use std::marker::Model;

/// The command, with its level, which is not below 0.
#[derive(Drop)]
pub struct Reinforce {
    level: Rat,
}

impl Model for Reinforce {
    ghost use Rattle.std.specs.Prelude.{◌≤ℤ◌, pos};
    ghost use Rattle.pf_model.specs.Fraction.{Fraction};

    ghost Value = { Fraction };

    ghost view = { λ r. r.level };

    ghost invariant = { λ r. pos 0 ≤ℤ r.level.p };
}

impl Reinforce {
    /// The command for this level.
    pub fn new(level: Rat) -> Reinforce
        requires { pos 0 ≤ℤ level.p }
        ensures { result ≡ level }
    {
        Reinforce { level }
    }
}

impl Job for Reinforce {
    type Problem = Divisible;

    type Answer = Reinforcement;

    ghost row_of = { λ x. reinforce x };

    ghost problem_of = { λ _ g. g };

    ghost text_of = { λ _ _ answer. reinforcement_text answer };

    ghost is_found = { λ _ _ answer. IsTextShape answer };

    fn read(&self, alloc: Global, lines: &mut Lines<'_>) -> Result<Divisible, ReadBad> {
        Divisible::read(alloc, lines)
    }

    fn solve(&self, alloc: Global, problem: &Divisible) -> Result<Reinforcement, Stop> {
        let answer = reinforce(alloc, problem.graph(), &self.level)?;
        Ok(answer)
    }

    fn write<K: Sink>(
        &self,
        out: &mut Printer<'_, K>,
        _problem: &Divisible,
        answer: &Reinforcement,
    ) -> Result<(), Failed> {
        write_reinforcement(out, answer)
    }
}
