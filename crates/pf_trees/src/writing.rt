// Writing of answers about trees.
ghost use Rattle.std.specs.Prelude.{◌≡◌, ◌++◌, [], ◌∷◌, length, false, codes};
ghost use Rattle.pf_io.specs.Printing.{Adds, is_spent};
ghost use Rattle.pf_text.specs.Spelling.{line, row_line, label_line};
ghost use Rattle.pf_graph.specs.WeightedGraph.{digraph_of};
ghost use Rattle.pf_graph.specs.Labels.{crossing_edges};
ghost use Rattle.pf_trees.specs.Text.{IsTreesShape, answer_lines, trees_text};

use crate::trees_of_graph::TreesOr;
use pf_graph::{Graph, Partition};
use pf_io::{Failed, Printer, Sink, print_labels, print_row};

// The numbers of the trees, edge by edge.
fn print_trees<K: Sink>(out: &mut Printer<'_, K>, numbers: &[i128]) -> Result<(), Failed>
    requires { is_spent out.old ≡ false }
    ensures { Adds out.old out.new (row_line (codes "m") [] numbers.now ++ line (codes "end" ∷ [])) result }
{
    print_row(out, b"m", &[], numbers)?;
    out.word(b"end\n")
}

// The partition, label by label, and the number of edges that cross it.
fn print_blocked<K: Sink>(
    out: &mut Printer<'_, K>,
    labels: &[u32],
    count: u32,
) -> Result<(), Failed>
    requires { is_spent out.old ≡ false }
    ensures { Adds out.old out.new (line (codes "none" ∷ []) ++ label_line (codes "s") [] labels.now ++ row_line (codes "c") (count ∷ []) [] ++ line (codes "end" ∷ [])) result }
{
    out.word(b"none\n")?;
    print_labels(out, b"s", &[], labels)?;
    print_row(out, b"c", &[count as usize], &[])?;
    out.word(b"end\n")
}

// The lines of the partition.
fn print_partition<K: Sink>(
    out: &mut Printer<'_, K>,
    graph: &Graph,
    parts: &Partition,
) -> Result<(), Failed>
    requires usable { is_spent out.old ≡ false }
    requires shape { length parts.now ≡ graph.now.nodes }
    ensures { Adds out.old out.new (line (codes "none" ∷ []) ++ label_line (codes "s") [] parts.now ++ row_line (codes "c") (crossing_edges graph.now.ends parts.now ∷ []) [] ++ line (codes "end" ∷ [])) result }
{
    let count = graph.crossing_edges(parts);
    let labels = parts.labels();
    print_blocked(out, labels, count)
}

// The lines of the answer.
fn print_answer<K: Sink>(
    out: &mut Printer<'_, K>,
    graph: &Graph,
    answer: &TreesOr,
) -> Result<(), Failed>
    requires usable { is_spent out.old ≡ false }
    requires shape { IsTreesShape (digraph_of graph.now) answer.now }
    ensures { Adds out.old out.new (answer_lines (digraph_of graph.now) answer.now) result }
{
    match answer {
        TreesOr::Trees(numbers) => print_trees(out, numbers.get()),
        TreesOr::Blocked(parts) => print_partition(out, graph, parts),
    }
}

/// Writes the answer to `trees K`: the number of the tree beside each edge, 0 for an edge of no tree; or the label of each
/// vertex and the number of edges that cross the partition. It takes no memory. `Failed` comes only where the sink's count of
/// faults rose, and leaves the printer spent.
pub fn write_trees<K: Sink>(
    out: &mut Printer<'_, K>,
    graph: &Graph,
    k: u32,
    answer: &TreesOr,
) -> Result<(), Failed>
    requires usable { is_spent out.old ≡ false }
    requires shape { IsTreesShape (digraph_of graph.now) answer.now }
    ensures { Adds out.old out.new (trees_text (digraph_of graph.now) k answer.now) result }
{
    out.word(b"o trees\n")?;
    print_row(out, b"k", &[k as usize], &[])?;
    print_answer(out, graph, answer)
}
