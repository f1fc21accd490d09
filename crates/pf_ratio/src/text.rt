// The text of an answer: writing, and reading back.
ghost use Rattle.std.specs.Prelude.{◌≡◌, ◌↔◌, false};
ghost use Rattle.pf_io.specs.Printing.{Adds, is_spent};
ghost use Rattle.pf_format.specs.Format.{ReadsWhole};
ghost use Rattle.pf_ratio.specs.Answer.{parts_text, HaveShape};

use pf_format::{Ended, FlowRow, Format, FractionRow, Marked, SideRow, Then, read_whole};
use pf_frame::{Numbers, Side};
use pf_io::{Failed, Printer, Sink};
use pf_lines::AnswerBad;
use pf_rat::Rat;
use std::alloc::Global;

/// The parts of an answer: the fraction, and then the set and the numbers that are to certify both.
pub type Parts = (Rat, (Side, Numbers));

// The lines of an answer, one after the other.
type AnswerFormat<'a> = Marked<
    'a,
    Marked<'a, Marked<'a, Then<FractionRow<'a>, Then<SideRow<'a>, Ended<'a, FlowRow<'a>>>>>>,
>;

// The format of the answers with a set of so many places, and so many numbers. A text does not show the sizes.
fn answer_format<'a>(name: &'a [u8], word: &'a [u8], count: usize, width: usize) -> AnswerFormat<'a>
    ensures text { (parts : _) → ⟦<AnswerFormat<'a> as Format>⟧.text result parts ≡ parts_text name.now word.now parts }
    ensures shape { (parts : _) → ⟦<AnswerFormat<'a> as Format>⟧.shape result parts ↔ HaveShape count width parts }
{
    let ratio = FractionRow { word };
    let chosen = SideRow {
        word: b"s",
        nodes: count,
    };
    let numbers = Ended {
        format: FlowRow { word: b"f", width },
        word: b"end\n",
    };
    let lines = Then {
        first: ratio,
        second: Then {
            first: chosen,
            second: numbers,
        },
    };
    Marked {
        word: b"o ",
        format: Marked {
            word: name,
            format: Marked {
                word: b"\n",
                format: lines,
            },
        },
    }
}

/// Writes an answer: `o NAME`, the line of the fraction with its word, `s` with one character for each place of the set, `f` with the
/// numbers, and `end`. It takes no memory. `Failed` comes only where the sink's count of faults rose, and leaves the printer spent.
pub fn write_answer<K: Sink>(
    out: &mut Printer<'_, K>,
    name: &[u8],
    word: &[u8],
    parts: &Parts,
) -> Result<(), Failed>
    requires { is_spent out.old ≡ false }
    ensures { Adds out.old out.new (parts_text name.now word.now parts.now) result }
{
    answer_format(name, word, 0, 0).print(out, parts)
}

/// The answer with a set of `count` places and `width` numbers whose text these bytes are: there is at most one. Numbers and words
/// have one spelling there, and no line is passed over. `NotText` comes exactly where there is no such answer.
pub fn read_answer(
    alloc: Global,
    name: &[u8],
    word: &[u8],
    count: usize,
    width: usize,
    text: &[u8],
) -> Result<Parts, AnswerBad>
    ensures { ReadsWhole (parts_text name.now word.now) (HaveShape count width) text.now result }
{
    let format = answer_format(name, word, count, width);
    read_whole(alloc, &format, text)
}
