// `sweep K`: the least cuts at the ends of `K` equal steps through the interval.
ghost use Rattle.std.specs.Prelude.{◌≡◌, ◌≤◌};
ghost use Rattle.pf_sweep.specs.Rows.{AreRows};
ghost use Rattle.pf_sweep.specs.Text.{sweep_text};
ghost use Rattle.pf_top.specs.Job.{sweep};

use crate::job::{Job, Stop};
use crate::text_net::TextNet;
use pf_io::{Failed, Printer, Sink};
use pf_lines::{Lines, ReadBad};
use pf_par::write_sweep;
use pf_sweep::{Rows, SweepBad, rows_of};
use pf_text::Refusal;
use std::alloc::Global;
use std::marker::Model;

/// The command, with the number of steps, from 1 to 100000.
#[derive(Drop)]
pub struct Sweep {
    steps: u32,
}

impl Model for Sweep {
    ghost use Rattle.std.specs.Prelude.{ℕ, ◌≤◌};

    ghost Value = { ℕ };

    ghost view = { λ t. t.steps };

    ghost invariant = { λ t. (1 ≤ t.steps) × (t.steps ≤ 100000) };
}

impl Sweep {
    /// The command for this number of steps.
    pub fn new(steps: u32) -> Sweep
        requires some { 1 ≤ steps }
        requires most { steps ≤ 100000 }
        ensures { result ≡ steps }
    {
        Sweep { steps }
    }
}

impl Job for Sweep {
    type Problem = TextNet;

    type Answer = Rows;

    ghost row_of = { λ k. sweep k };

    ghost problem_of = { λ _ net. net };

    ghost text_of = { λ _ _ rows. sweep_text rows };

    ghost is_found = { λ k net rows. AreRows net k rows };

    fn read(&self, alloc: Global, lines: &mut Lines<'_>) -> Result<TextNet, ReadBad> {
        TextNet::read(alloc, lines)
    }

    fn solve(&self, alloc: Global, problem: &TextNet) -> Result<Rows, Stop> {
        match rows_of(alloc, problem.net(), self.steps) {
            Ok(rows) => Ok(rows),
            Err(SweepBad::TooFine) => Err(Stop::Refused(Refusal::TooFine)),
            Err(SweepBad::NoMemory) => Err(Stop::NoMemory),
        }
    }

    fn write<K: Sink>(
        &self,
        out: &mut Printer<'_, K>,
        _problem: &TextNet,
        answer: &Rows,
    ) -> Result<(), Failed> {
        let rows = answer.get();
        write_sweep(out, rows)
    }
}
