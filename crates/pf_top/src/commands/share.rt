// `share`: the fair shares of several sources, and `check share`: whether a text certifies them.
ghost use Rattle.pf_share.specs.Text.{shares_text};
ghost use Rattle.pf_share.specs.Right.{IsSharesShape};
ghost use Rattle.pf_top.specs.Job.{named};
ghost use Rattle.pf_top.specs.declared.words.Name.TheVariants.{Share};

use crate::job::{Checked, Job, Stop};
use pf_frame::NoMemory;
use pf_io::{Failed, Printer, Sink};
use pf_lines::{Lines, ReadBad};
use pf_share::{Shares, Sharing, fair, is_certified_shares_text, read_share, write_shares};
use std::alloc::Global;

/// The command.
#[derive(Drop)]
pub struct Share;

impl Job for Share {
    type Problem = Sharing;

    type Answer = Shares;

    ghost row_of = { λ _. named Share };

    ghost problem_of = { λ _ p. p };

    ghost text_of = { λ _ p answer. shares_text p answer };

    ghost is_found = { λ _ p answer. IsSharesShape p answer };

    fn read(&self, alloc: Global, lines: &mut Lines<'_>) -> Result<Sharing, ReadBad> {
        read_share(alloc, lines)
    }

    fn solve(&self, alloc: Global, problem: &Sharing) -> Result<Shares, Stop> {
        let answer = fair(alloc, problem)?;
        Ok(answer)
    }

    fn write<K: Sink>(
        &self,
        out: &mut Printer<'_, K>,
        problem: &Sharing,
        answer: &Shares,
    ) -> Result<(), Failed> {
        write_shares(out, problem, answer)
    }
}

impl Checked for Share {
    fn certifies(&self, alloc: Global, problem: &Sharing, text: &[u8]) -> Result<bool, NoMemory> {
        is_certified_shares_text(alloc, problem, text)
    }
}
