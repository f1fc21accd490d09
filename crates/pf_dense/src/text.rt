// The text of an answer: writing, and reading back.
ghost use Rattle.std.specs.Prelude.{◌≡◌, false};
ghost use Rattle.pf_io.specs.Printing.{Adds, is_spent};
ghost use Rattle.pf_format.specs.Format.{ReadsWhole};
ghost use Rattle.pf_dense.specs.Answer.{IsDenseShape};
ghost use Rattle.pf_dense.specs.Text.{dense_text};

use crate::dense::Dense;
use pf_graph::Graph;
use pf_io::{Failed, Printer, Sink};
use pf_lines::AnswerBad;
use pf_ratio::{read_answer, write_answer};
use std::alloc::Global;

/// Writes the answer to `densest`: the density `p/q`, one character for each vertex, and what each edge charges its first end, in
/// units of `1/(2q)`. It takes no memory. `Failed` comes only where the sink's count of faults rose, and leaves the printer spent.
pub fn write_dense<K: Sink>(out: &mut Printer<'_, K>, answer: &Dense) -> Result<(), Failed>
    requires { is_spent out.old ≡ false }
    ensures { Adds out.old out.new (dense_text answer.now) result }
{
    write_answer(out, b"densest", b"d", answer.parts())
}

/// The answer of the right shape for the graph whose text these bytes are: there is at most one. Numbers and words have one
/// spelling there, and no line is passed over. `NotText` comes exactly where there is no such answer.
pub fn read_dense(alloc: Global, graph: &Graph, text: &[u8]) -> Result<Dense, AnswerBad>
    ensures { ReadsWhole dense_text (IsDenseShape graph.now) text.now result }
{
    let count = graph.vertices() as usize;
    let width = graph.edges() as usize;
    let parts = read_answer(alloc, b"densest", b"d", count, width, text)?;
    Ok(Dense::of_parts(parts))
}
