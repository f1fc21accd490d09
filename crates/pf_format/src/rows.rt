// Lines of numbers.
ghost use Rattle.std.specs.Prelude.{◌≡◌, ◌≤◌, [], length};
ghost use Rattle.pf_model.specs.Answer.{IsFractionShape};
ghost use Rattle.pf_lines.specs.Taking.{IsFlowRow};
ghost use Rattle.pf_text.specs.Spelling.{fraction_line, side_line, row_line, table_text};
ghost use Rattle.pf_format.specs.Shapes.{AreFlowRows};
ghost use Rattle.pf_format.specs.LineLaws.{fraction_row_one, side_row_one, flow_row_one, flow_rows_one};

use crate::format::Format;
use pf_frame::{FlowTable, Numbers, Side};
use pf_io::{Failed, Printer, Sink, print_fraction_row, print_row, print_rows, print_side_row};
use pf_lines::{AnswerBad, Exact, take_flow_row, take_flow_rows, take_fraction_row, take_side_row};
use pf_rat::Rat;
use std::alloc::Global;

/// The line of a fraction, as `d P Q`.
#[derive(Clone, Copy)]
pub struct FractionRow<'a> {
    pub word: &'a [u8],
}

impl<'a> Format for FractionRow<'a> {
    type Value = Rat;

    ghost text = { λ f at. fraction_line f.word.now [] at [] };

    ghost shape = { λ f. IsFractionShape };

    ghost one = { λ f. fraction_row_one f.word.now [] };

    fn print<K: Sink>(&self, out: &mut Printer<'_, K>, value: &Rat) -> Result<(), Failed> {
        print_fraction_row(out, self.word, &[], value, &[])
    }

    fn take(&self, _alloc: Global, source: &mut Exact<'_>) -> Result<Rat, AnswerBad> {
        let at = take_fraction_row(source, self.word, &[])?;
        Ok(at)
    }
}

/// The line of a side of so many nodes, as `s SIDE`.
#[derive(Clone, Copy)]
pub struct SideRow<'a> {
    pub word: &'a [u8],
    pub nodes: usize,
}

impl<'a> Format for SideRow<'a> {
    type Value = Side;

    ghost text = { λ f. side_line f.word.now [] [] };

    ghost shape = { λ f side. length side ≡ f.nodes };

    ghost one = { λ f. side_row_one f.word.now [] f.nodes };

    fn print<K: Sink>(&self, out: &mut Printer<'_, K>, value: &Side) -> Result<(), Failed> {
        print_side_row(out, self.word, &[], &[], value.get())
    }

    fn take(&self, alloc: Global, source: &mut Exact<'_>) -> Result<Side, AnswerBad> {
        take_side_row(alloc, self.word, &[], self.nodes, source)
    }
}

/// The line of so many numbers, each of a size below `2^104`, as `y Y1 .. YM`.
#[derive(Clone, Copy)]
pub struct FlowRow<'a> {
    pub word: &'a [u8],
    pub width: usize,
}

impl<'a> Format for FlowRow<'a> {
    type Value = Numbers;

    ghost text = { λ f. row_line f.word.now [] };

    ghost shape = { λ f. IsFlowRow f.width };

    ghost one = { λ f. flow_row_one f.word.now [] f.width };

    fn print<K: Sink>(&self, out: &mut Printer<'_, K>, value: &Numbers) -> Result<(), Failed> {
        print_row(out, self.word, &[], value.get())
    }

    fn take(&self, alloc: Global, source: &mut Exact<'_>) -> Result<Numbers, AnswerBad> {
        take_flow_row(alloc, self.word, &[], self.width, source)
    }
}

/// So many of such lines, numbered one after the other from `first` on, as `r R X1 .. XM`.
#[derive(Clone, Copy)]
pub struct FlowRows<'a> {
    pub word: &'a [u8],
    pub first: usize,
    pub width: usize,
    pub count: usize,
    ghost low: { first ≤ 1 },
}

impl<'a> Format for FlowRows<'a> {
    type Value = FlowTable;

    ghost text = { λ f. table_text f.word.now f.first };

    ghost shape = { λ f. AreFlowRows f.count f.width };

    ghost one = { λ f. flow_rows_one f.word.now f.first f.width f.count };

    fn print<K: Sink>(&self, out: &mut Printer<'_, K>, value: &FlowTable) -> Result<(), Failed> {
        print_rows(out, self.word, self.first, value)
    }

    fn take(&self, alloc: Global, source: &mut Exact<'_>) -> Result<FlowTable, AnswerBad> {
        take_flow_rows(alloc, self.word, self.first, self.width, self.count, source)
    }
}
