// `closure`: the least ratio of a closure, and `check closure`: whether a text certifies it.
ghost use Rattle.pf_closure.specs.Text.{ratio_text};
ghost use Rattle.pf_closure.specs.Right.{IsRatioShape};
ghost use Rattle.pf_top.specs.Job.{named};
ghost use Rattle.pf_top.specs.declared.words.Name.TheVariants.{Closure};

use crate::job::{Checked, Job, Stop};
use pf_closure::{Items, Ratio, is_certified_text, least_ratio, read_closure, write_ratio};
use pf_frame::NoMemory;
use pf_io::{Failed, Printer, Sink};
use pf_lines::{Lines, ReadBad};
use std::alloc::Global;

/// The command.
#[derive(Drop)]
pub struct Closure;

impl Job for Closure {
    type Problem = Items;

    type Answer = Ratio;

    ghost row_of = { λ _. named Closure };

    ghost problem_of = { λ _ items. items };

    ghost text_of = { λ _ items ratio. ratio_text ratio };

    ghost is_found = { λ _ items ratio. IsRatioShape items ratio };

    fn read(&self, alloc: Global, lines: &mut Lines<'_>) -> Result<Items, ReadBad> {
        read_closure(alloc, lines)
    }

    fn solve(&self, alloc: Global, problem: &Items) -> Result<Ratio, Stop> {
        let answer = least_ratio(alloc, problem)?;
        Ok(answer)
    }

    fn write<K: Sink>(
        &self,
        out: &mut Printer<'_, K>,
        _problem: &Items,
        answer: &Ratio,
    ) -> Result<(), Failed> {
        write_ratio(out, answer)
    }
}

impl Checked for Closure {
    fn certifies(&self, alloc: Global, problem: &Items, text: &[u8]) -> Result<bool, NoMemory> {
        is_certified_text(alloc, problem, text)
    }
}
