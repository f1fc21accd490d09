// `curve`: the whole least-cut function, and `check curve`: whether a text certifies it.
ghost use Rattle.pf_model.specs.Answer.{IsCurveShape};
ghost use Rattle.pf_par.specs.Answers.{curve_text};
ghost use Rattle.pf_top.specs.Job.{named};
ghost use Rattle.pf_top.specs.declared.words.Name.TheVariants.{Curve};

use crate::job::{Checked, Job, Stop};
use pf_curve::curve_of;
use pf_frame::NoMemory;
use pf_io::{Failed, Printer, Sink};
use pf_lines::{Lines, ReadBad};
use pf_net::Net;
use pf_par::{is_certified_text, read_par, write_curve};
use std::alloc::Global;

/// The command.
#[derive(Drop)]
pub struct Curve;

impl Job for Curve {
    type Problem = Net;

    type Answer = pf_curve::Curve;

    ghost row_of = { λ _. named Curve };

    ghost problem_of = { λ _ net. net };

    ghost text_of = { λ _ net whole. curve_text net whole };

    ghost is_found = { λ _ net whole. IsCurveShape net whole };

    fn read(&self, alloc: Global, lines: &mut Lines<'_>) -> Result<Net, ReadBad> {
        read_par(alloc, lines)
    }

    fn solve(&self, alloc: Global, problem: &Net) -> Result<pf_curve::Curve, Stop> {
        let whole = curve_of(alloc, problem)?;
        Ok(whole)
    }

    fn write<K: Sink>(
        &self,
        out: &mut Printer<'_, K>,
        problem: &Net,
        answer: &pf_curve::Curve,
    ) -> Result<(), Failed> {
        write_curve(out, problem, answer)
    }
}

impl Checked for Curve {
    fn certifies(&self, alloc: Global, problem: &Net, text: &[u8]) -> Result<bool, NoMemory> {
        is_certified_text(alloc, problem, text)
    }
}
