// Writing of a strength, and reading it back.
ghost use Rattle.std.specs.Prelude.{◌≡◌, ◌↔◌, ◌<◌, ◌≤◌, length, false};
ghost use Rattle.pf_io.specs.Printing.{Adds, is_spent};
ghost use Rattle.pf_format.specs.Format.{ReadsWhole};
ghost use Rattle.pf_graph.specs.WeightedGraph.{WeightedGraph};
ghost use Rattle.pf_strength.specs.Strength.{IsStrengthShape, of_fields};
ghost use Rattle.pf_strength.specs.Text.{splits_text, strength_text};

use crate::Strength;
use crate::partition_lines::PartitionLines;
use pf_format::{Ended, FlowRow, FlowRows, Format, FractionRow, Marked, Then, read_whole};
use pf_frame::FlowTable;
use pf_graph::Graph;
use pf_io::{Failed, Printer, Sink, print_rows};
use pf_lines::AnswerBad;
use std::alloc::Global;

/// Each row of a table of splits, as `r R X1 .. XM`, where the roots are numbered from 1.
pub fn print_splits<K: Sink>(out: &mut Printer<'_, K>, splits: &FlowTable) -> Result<(), Failed>
    requires { is_spent out.old ≡ false }
    ensures { Adds out.old out.new (splits_text 0 splits.now) result }
{
    print_rows(out, b"r", 1, splits)
}

// The lines of an answer, one after the other.
type StrengthFormat = Marked<
    'static,
    Then<
        FractionRow<'static>,
        Then<PartitionLines, Then<FlowRow<'static>, Ended<'static, FlowRows<'static>>>>,
    >,
>;

// The format of the answers for so many vertices and edges. A text does not show the sizes.
fn strength_format(vertices: u32, edges: usize) -> StrengthFormat
    requires some { 0 < vertices }
    requires few { vertices ≤ 8192 }
    ensures text { (fields : _) → ⟦<StrengthFormat as Format>⟧.text result fields ≡ strength_text (of_fields fields) }
    ensures shape { (g : WeightedGraph) (fields : _) → vertices ≡ g.nodes → edges ≡ length g.ends → ⟦<StrengthFormat as Format>⟧.shape result fields ↔ IsStrengthShape g (of_fields fields) }
{
    let level = FractionRow { word: b"d" };
    let parts = PartitionLines { vertices };
    let vector = FlowRow {
        word: b"y",
        width: edges,
    };
    let splits = FlowRows {
        word: b"r",
        first: 1,
        width: edges,
        count: vertices as usize,
    };
    let rows = Ended {
        format: splits,
        word: b"end\n",
    };
    Marked {
        word: b"o strength\n",
        format: Then {
            first: level,
            second: Then {
                first: parts,
                second: Then {
                    first: vector,
                    second: rows,
                },
            },
        },
    }
}

/// Writes the answer to `strength`: the level `p/q`, the number of parts, one label for each vertex, and in units of `1/q` the
/// vector and a split for each root, edge by edge. It takes no memory. `Failed` comes only where the sink's count of faults
/// rose, and leaves the printer spent.
pub fn write_strength<K: Sink>(out: &mut Printer<'_, K>, answer: &Strength) -> Result<(), Failed>
    requires { is_spent out.old ≡ false }
    ensures { Adds out.old out.new (strength_text answer.now) result }
{
    strength_format(1, 0).print(out, answer.fields())
}

/// The answer of the right shape for the graph whose text these bytes are: there is at most one. Numbers and words have one
/// spelling there, and no line is passed over. `NotText` comes exactly where there is no such answer.
pub fn read_strength(alloc: Global, graph: &Graph, text: &[u8]) -> Result<Strength, AnswerBad>
    ensures { ReadsWhole strength_text (IsStrengthShape graph.now) text.now result }
{
    let format = strength_format(graph.vertices(), graph.edges() as usize);
    let fields = read_whole(alloc, &format, text)?;
    Ok(Strength::of_fields(fields))
}
