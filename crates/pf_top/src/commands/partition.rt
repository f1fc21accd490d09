// `partition`: the principal partition of a graph, and `check partition`: whether a text certifies it.
ghost use Rattle.pf_principal.specs.Principal.{IsPrincipalShape};
ghost use Rattle.pf_principal.specs.Text.{principal_text};
ghost use Rattle.pf_top.specs.Job.{named};
ghost use Rattle.pf_top.specs.declared.words.Name.TheVariants.{Partition};

use crate::divisible::Divisible;
use crate::job::{Checked, Job, Stop};
use pf_frame::NoMemory;
use pf_io::{Failed, Printer, Sink};
use pf_lines::{Lines, ReadBad};
use pf_principal::{Principal, is_certified_partition_text, write_principal};
use std::alloc::Global;

/// The command.
#[derive(Drop)]
pub struct Partition;

impl Job for Partition {
    type Problem = Divisible;

    type Answer = Principal;

    ghost row_of = { λ _. named Partition };

    ghost problem_of = { λ _ g. g };

    ghost text_of = { λ _ g answer. principal_text g answer };

    ghost is_found = { λ _ g answer. IsPrincipalShape g answer };

    fn read(&self, alloc: Global, lines: &mut Lines<'_>) -> Result<Divisible, ReadBad> {
        Divisible::read(alloc, lines)
    }

    fn solve(&self, alloc: Global, problem: &Divisible) -> Result<Principal, Stop> {
        let answer = Principal::of(alloc, problem.graph())?;
        Ok(answer)
    }

    fn write<K: Sink>(
        &self,
        out: &mut Printer<'_, K>,
        problem: &Divisible,
        answer: &Principal,
    ) -> Result<(), Failed> {
        write_principal(out, problem.graph(), answer)
    }
}

impl Checked for Partition {
    fn certifies(&self, alloc: Global, problem: &Divisible, text: &[u8]) -> Result<bool, NoMemory> {
        is_certified_partition_text(alloc, problem.graph(), text)
    }
}
