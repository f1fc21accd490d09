// `select`: the best selection at every price, and `check select`: whether a text certifies it.
ghost use Rattle.pf_select.specs.Text.{schedule_text};
ghost use Rattle.pf_select.specs.Right.{IsScheduleShape};
ghost use Rattle.pf_top.specs.Job.{named};
ghost use Rattle.pf_top.specs.declared.words.Name.TheVariants.{Select};

use crate::job::{Checked, Job, Stop};
use pf_frame::NoMemory;
use pf_io::{Failed, Printer, Sink};
use pf_lines::{Lines, ReadBad};
use pf_select::{Catalogue, Schedule, is_certified_select_text, read_select, write_schedule};
use std::alloc::Global;

/// The command.
#[derive(Drop)]
pub struct Select;

impl Job for Select {
    type Problem = Catalogue;

    type Answer = Schedule;

    ghost row_of = { λ _. named Select };

    ghost problem_of = { λ _ p. p };

    ghost text_of = { λ _ p answer. schedule_text p answer };

    ghost is_found = { λ _ p answer. IsScheduleShape p answer };

    fn read(&self, alloc: Global, lines: &mut Lines<'_>) -> Result<Catalogue, ReadBad> {
        read_select(alloc, lines)
    }

    fn solve(&self, alloc: Global, problem: &Catalogue) -> Result<Schedule, Stop> {
        let answer = Schedule::of(alloc, problem)?;
        Ok(answer)
    }

    fn write<K: Sink>(
        &self,
        out: &mut Printer<'_, K>,
        problem: &Catalogue,
        answer: &Schedule,
    ) -> Result<(), Failed> {
        write_schedule(out, problem, answer)
    }
}

impl Checked for Select {
    fn certifies(&self, alloc: Global, problem: &Catalogue, text: &[u8]) -> Result<bool, NoMemory> {
        is_certified_select_text(alloc, problem, text)
    }
}
