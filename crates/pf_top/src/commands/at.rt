// `at P/Q`: the smallest least cut at one parameter, and a greatest flow there.
ghost use Rattle.pf_model.specs.Answer.{IsPointShape};
ghost use Rattle.pf_par.specs.Answers.{point_text};
ghost use Rattle.pf_top.specs.Job.{at};

use crate::job::{Job, Stop};
use pf_curve::{AtBad, Point, at};
use pf_io::{Failed, Printer, Sink};
use pf_lines::{Lines, ReadBad};
use pf_net::Net;
use pf_par::{read_par, write_at};
use pf_rat::Rat;
use pf_text::Refusal;
use std::alloc::Global;

/// The command, with its parameter.
#[derive(Drop)]
pub struct At {
    pub parameter: Rat,
}

impl Job for At {
    type Problem = Net;

    type Answer = Point;

    ghost row_of = { λ job. at job.parameter };

    ghost problem_of = { λ _ net. net };

    ghost text_of = { λ _ net point. point_text net point };

    ghost is_found = { λ _ net point. IsPointShape net point };

    fn read(&self, alloc: Global, lines: &mut Lines<'_>) -> Result<Net, ReadBad> {
        read_par(alloc, lines)
    }

    fn solve(&self, alloc: Global, problem: &Net) -> Result<Point, Stop> {
        match at(alloc, problem, &self.parameter) {
            Ok(point) => Ok(point),
            Err(AtBad::Outside) => Err(Stop::Refused(Refusal::Outside)),
            Err(AtBad::NoMemory) => Err(Stop::NoMemory),
        }
    }

    fn write<K: Sink>(
        &self,
        out: &mut Printer<'_, K>,
        problem: &Net,
        answer: &Point,
    ) -> Result<(), Failed> {
        write_at(out, problem, answer)
    }
}
