// Writing of a principal partition, and reading it back.
ghost use Rattle.std.specs.Prelude.{◌≡◌, ◌≢◌, ◌+◌, ◌*◌, ◌≤◌, ◌++◌, ℕ, List, length, take, drop, IfOk, Err, false};
ghost use Rattle.pf_io.specs.Printing.{Adds, is_spent};
ghost use Rattle.pf_lines.specs.Taking.{Takes};
ghost use Rattle.pf_graph.specs.Best.{partition_at};
ghost use Rattle.pf_principal.specs.Principal.{PrincipalAnswer, FitsGraph, IsPrincipalShape};
ghost use Rattle.pf_principal.specs.Text.{step_text, step_of, steps_text, steps_of, splits_text, level_text, levels_text, levels_rows, principal_text};
ghost use Rattle.pf_principal.specs.Reading.{IsPartsShape, parts_text};
ghost use Rattle.pf_principal.specs.declared.text.Parts.{Parts};

use crate::Principal;
use crate::family::line_of;
use crate::rows::take_levels;
use crate::steps::{Steps, have_values, step_levels, step_partitions, take_steps};
use pf_frame::FlowTable;
use pf_graph::{Graph, Partition};
use pf_io::{Failed, Printer, Sink, print_fraction_row, print_labels, print_row};
use pf_lines::{AnswerBad, Exact, take_count, take_end, take_word};
use pf_rat::Rat;
use pf_strength::take_partition;
use std::alloc::Global;

// The level `j` with the value there of the partition before it, and the partition after it.
fn print_step<K: Sink>(
    out: &mut Printer<'_, K>,
    graph: &Graph,
    j: usize,
    before: &Partition,
    level: &Rat,
    behind: &Partition,
) -> Result<(), Failed>
    requires usable { is_spent out.old ≡ false }
    requires full { length before.now ≡ graph.now.nodes }
    ensures { Adds out.old out.new (step_text j (step_of graph.now before.now level.now behind.now)) result }
{
    let value = line_of(graph, before).at(level);
    print_fraction_row(out, b"b", &[j], level, &[value])?;
    print_labels(out, b"s", &[j], behind.labels())
}

// Each level, and the partition after it.
fn print_steps<K: Sink>(
    out: &mut Printer<'_, K>,
    graph: &Graph,
    levels: &[Rat],
    partitions: &[Partition],
) -> Result<(), Failed>
    requires usable { is_spent out.old ≡ false }
    requires count { length partitions.now ≡ length levels.now + 1 }
    requires full { (j : ℕ) → j ≤ length levels.now → length (partition_at partitions.now j) ≡ graph.now.nodes }
    ensures { Adds out.old out.new (steps_text 0 (steps_of graph.now (partition_at partitions.now 0) levels.now (drop 1 partitions.now))) result }
{
    'steps: for j in 0..levels.len() {
        let before = &partitions[j];
        let behind = &partitions[j + 1];
        print_step(out, graph, j + 1, before, &levels[j], behind)?;
    }
    Ok(())
}

// The splits of the level `j`: so many rows of the table, from `first` on.
fn print_splits<K: Sink>(
    out: &mut Printer<'_, K>,
    j: usize,
    splits: &FlowTable,
    first: usize,
    count: usize,
) -> Result<(), Failed>
    requires usable { is_spent out.old ≡ false }
    requires rows { first + count ≤ length splits.now }
    ensures { Adds out.old out.new (splits_text j 0 (take count (drop first splits.now))) result }
{
    let _rows = splits.rows();
    'roots: for r in 0..count {
        print_row(out, b"r", &[j, r + 1], splits.row(first + r))?;
    }
    Ok(())
}

// The vector of the level `j`, and its splits.
fn print_level<K: Sink>(
    out: &mut Printer<'_, K>,
    j: usize,
    vector: &[i128],
    splits: &FlowTable,
    first: usize,
    count: usize,
) -> Result<(), Failed>
    requires usable { is_spent out.old ≡ false }
    requires rows { first + count ≤ length splits.now }
    ensures { Adds out.old out.new (level_text j (record { vector = vector.now; splits = take count (drop first splits.now) })) result }
{
    print_row(out, b"y", &[j], vector)?;
    print_splits(out, j, splits, first, count)
}

// The vector of each level, and its splits.
fn print_levels<K: Sink>(
    out: &mut Printer<'_, K>,
    nodes: usize,
    vectors: &FlowTable,
    splits: &FlowTable,
) -> Result<(), Failed>
    requires usable { is_spent out.old ≡ false }
    requires rows { length splits.now ≡ length vectors.now * nodes }
    ensures { Adds out.old out.new (levels_text 0 (levels_rows nodes vectors.now splits.now)) result }
{
    let _rows = splits.rows();
    'levels: for j in 0..vectors.rows() {
        print_level(out, j + 1, vectors.row(j), splits, j * nodes, nodes)?;
    }
    Ok(())
}

// The answer, of its four lists.
fn print_principal<K: Sink>(
    out: &mut Printer<'_, K>,
    graph: &Graph,
    levels: &[Rat],
    partitions: &[Partition],
    vectors: &FlowTable,
    splits: &FlowTable,
) -> Result<(), Failed>
    requires usable { is_spent out.old ≡ false }
    requires fits { FitsGraph graph.now (record { levels = levels.now; partitions = partitions.now; vectors = vectors.now; splits = splits.now }) }
    ensures { Adds out.old out.new (principal_text graph.now (record { levels = levels.now; partitions = partitions.now; vectors = vectors.now; splits = splits.now })) result }
{
    let nodes = graph.vertices() as usize;
    let first = &partitions[0];
    out.word(b"o partition\n")?;
    print_row(out, b"k", &[levels.len()], &[])?;
    print_labels(out, b"s", &[0], first.labels())?;
    print_steps(out, graph, levels, partitions)?;
    print_levels(out, nodes, vectors, splits)?;
    out.word(b"end\n")
}

/// Writes the answer to `partition`: the number of levels, the first partition, each level `p/q` with the value there of the
/// partition before it in units of `1/q`, and the partition after it, and then for each level, in units of `1/q`, the vector
/// and a split for each root, edge by edge. It takes no memory. `Failed` comes only where the sink's count of faults rose, and
/// leaves the printer spent.
pub fn write_principal<K: Sink>(
    out: &mut Printer<'_, K>,
    graph: &Graph,
    answer: &Principal,
) -> Result<(), Failed>
    requires usable { is_spent out.old ≡ false }
    requires shape { IsPrincipalShape graph.now answer.now }
    ensures { Adds out.old out.new (principal_text graph.now answer.now) result }
{
    let levels = answer.levels().get();
    let partitions = answer.parts().get();
    print_principal(
        out,
        graph,
        levels,
        partitions,
        answer.vectors(),
        answer.splits(),
    )
}

// What a text says, whether or not the values that are written are those of the partitions.
#[derive(Drop)]
struct Parts {
    first: Partition,
    steps: Steps,
    vectors: FlowTable,
    splits: FlowTable,
}

// The whole answer, from the first word to the last.
fn take_parts(alloc: Global, graph: &Graph, text: &mut Exact<'_>) -> Result<Parts, AnswerBad>
    ensures taken { IfOk result (λ parts. text.old ≡ parts_text graph.now parts ++ text.new) }
    ensures shape { IfOk result (IsPartsShape graph.now) }
    ensures found { (parts : Parts) (rest : List ℕ) → IsPartsShape graph.now parts → text.old ≡ parts_text graph.now parts ++ rest → Takes parts rest result text.new }
{
    let vertices = graph.vertices();
    take_word(text, b"o partition\n")?;
    let count = take_count(text, b"k", 0)?;
    let first = take_partition(alloc, b"s", &[0], vertices, text)?;
    let steps = take_steps(alloc, vertices, count, text)?;
    let mut vectors = FlowTable::new(alloc);
    let mut splits = FlowTable::new(alloc);
    take_levels(alloc, graph, count, &mut vectors, &mut splits, text)?;
    take_word(text, b"end\n")?;
    Ok(Parts {
        first,
        steps,
        vectors,
        splits,
    })
}

/// The answer of the right shape for the graph whose text these bytes are: there is at most one. Numbers and words have one
/// spelling there, and no line is passed over. `NotText` comes exactly where there is no such answer.
pub fn read_principal(alloc: Global, graph: &Graph, text: &[u8]) -> Result<Principal, AnswerBad>
    ensures shape { IfOk result (IsPrincipalShape graph.now) }
    ensures text { IfOk result (λ answer. text.now ≡ principal_text graph.now answer) }
    ensures refused { result ≡ Err AnswerBad.NotText → (answer : PrincipalAnswer) → IsPrincipalShape graph.now answer → text.now ≢ principal_text graph.now answer }
{
    // Gives the proof the limits.
    let _ = graph.vertices();
    let mut rest = Exact::new(text);
    let Parts {
        first,
        steps,
        vectors,
        splits,
    } = take_parts(alloc, graph, &mut rest)?;
    take_end(&rest)?;
    if !have_values(graph, &first, steps.get()) {
        return Err(AnswerBad::NotText);
    }
    let levels = step_levels(alloc, steps.get())?;
    let partitions = step_partitions(alloc, first, steps)?;
    Ok(Principal::new(levels, partitions, vectors, splits))
}
