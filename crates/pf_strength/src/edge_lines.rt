// Lines of numbers on edges, read back.
ghost use Rattle.std.specs.Prelude.{◌≡◌, ◌++◌, ℕ, ℤ, List, IfOk};
ghost use Rattle.pf_frame.specs.Numbers.{IsSized};
ghost use Rattle.pf_text.specs.Spelling.{row_line};
ghost use Rattle.pf_lines.specs.Taking.{Takes};
ghost use Rattle.pf_graph.specs.WeightedGraph.{digraph_of};

use pf_frame::Numbers;
use pf_graph::Graph;
use pf_lines::{AnswerBad, Exact, take_flow_row};
use std::alloc::Global;

/// A line of one number per edge, each of a size below `2^104`.
pub fn take_edge_row(
    alloc: Global,
    graph: &Graph,
    word: &[u8],
    indices: &[usize],
    text: &mut Exact<'_>,
) -> Result<Numbers, AnswerBad>
    ensures taken { IfOk result (λ numbers. text.old ≡ row_line word.now indices.now numbers ++ text.new) }
    ensures shape { IfOk result (IsSized (digraph_of graph.now)) }
    ensures found { (numbers : List ℤ) (rest : List ℕ) → IsSized (digraph_of graph.now) numbers
        → text.old ≡ row_line word.now indices.now numbers ++ rest → Takes numbers rest result text.new }
{
    let width = graph.edges() as usize;
    let numbers = take_flow_row(alloc, word, indices, width, text)?;
    Ok(numbers)
}
