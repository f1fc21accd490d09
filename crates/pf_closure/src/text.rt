// The text of an answer: writing, and reading back.
ghost use Rattle.std.specs.Prelude.{◌≡◌, false};
ghost use Rattle.pf_io.specs.Printing.{Adds, is_spent};
ghost use Rattle.pf_format.specs.Format.{ReadsWhole};
ghost use Rattle.pf_closure.specs.Text.{ratio_text};
ghost use Rattle.pf_closure.specs.Right.{IsRatioShape};

use crate::items::Items;
use crate::ratio::Ratio;
use pf_io::{Failed, Printer, Sink};
use pf_lines::AnswerBad;
use pf_ratio::{read_answer, write_answer};
use std::alloc::Global;

/// Writes the answer to `closure`: the ratio `p/q`, one character for each item, and the number on each need in units of
/// `1/q`. It takes no memory. `Failed` comes only where the sink's count of faults rose, and leaves the printer spent.
pub fn write_ratio<K: Sink>(out: &mut Printer<'_, K>, answer: &Ratio) -> Result<(), Failed>
    requires { is_spent out.old ≡ false }
    ensures { Adds out.old out.new (ratio_text answer.now) result }
{
    write_answer(out, b"closure", b"r", answer.parts())
}

/// The answer of the right shape for the items whose text these bytes are: there is at most one. Numbers and words have one
/// spelling there, and no line is passed over. `NotText` comes exactly where there is no such answer.
pub fn read_ratio(alloc: Global, items: &Items, text: &[u8]) -> Result<Ratio, AnswerBad>
    ensures { ReadsWhole ratio_text (IsRatioShape items.now) text.now result }
{
    let count = items.items() as usize;
    let width = items.needs() as usize;
    let parts = read_answer(alloc, b"closure", b"r", count, width, text)?;
    Ok(Ratio::of_parts(parts))
}
