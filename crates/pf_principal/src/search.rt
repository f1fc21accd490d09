// The search for the principal partition: the levels and the partitions from an envelope, and then a vector and splits at each
// level.
ghost use Rattle.std.specs.Prelude.{◌≡◌, ◌-◌, ◌<◌, ◌≤◌, ◌++◌, [], ◌∷◌, length, map, take, All, IfOk};
ghost use Rattle.pf_model.specs.Answer.{IsFractionShape};
ghost use Rattle.pf_graph.specs.Labels.{parts};
ghost use Rattle.pf_graph.specs.Laws.{level_above};
ghost use Rattle.pf_principal.specs.Lines.{IsLevel};
ghost use Rattle.pf_principal.specs.Rows.{AddsLevel, AreFilled};

use crate::family::Best;
use pf_curve::Points;
use pf_envelope::Part;
use pf_forest::Forest;
use pf_frame::{FlowTable, NoMemory, Numbers};
use pf_graph::{Graph, Partition, Partitions};
use pf_rat::Rat;
use std::alloc::Global;

/// One more than the total weight, which is what crosses the single vertices.
pub fn top_level(graph: &Graph, single: &Partition) -> Rat
    requires full { length single.now ≡ graph.now.nodes }
    requires single { parts single.now ≡ graph.now.nodes }
    ensures { result ≡ level_above graph.now }
{
    // Gives the proof the limits.
    let _ = graph.frame();
    let total = graph.crossing(single);
    Rat::new(total + 1, 1)
}

// Adds the right end of a part.
fn push_level(levels: &mut Points, part: &Part<Best>) -> Result<(), NoMemory>
    ensures added { IfOk result (λ _. levels.new ≡ levels.old ++ part.now.right ∷ []) }
    ensures shape { IfOk result (λ _. IsFractionShape part.now.right) }
{
    let level = part.right;
    let q = level.q();
    prove!(q >= 1);
    levels.push(level)?;
    Ok(())
}

/// The right end of each part but the last.
pub fn levels_of(alloc: Global, parts: &[Part<Best>]) -> Result<Points, NoMemory>
    requires { 0 < length parts.now }
    ensures levels { IfOk result (λ levels. levels ≡ map (λ p. p.right) (take (length parts.now - 1) parts.now)) }
    ensures shape { IfOk result (All IsFractionShape) }
{
    let mut levels = Points::new(alloc);
    let count = parts.len() - 1;
    'parts: for i in 0..count {
        push_level(&mut levels, &parts[i])?;
    }
    Ok(levels)
}

// The partition of a part.
fn partition_of(part: Part<Best>) -> Partition
    ensures { result ≡ part.member.partition }
{
    let Part { right: _, member } = part;
    let Best { line: _, partition } = member;
    partition
}

/// The partition of each part.
pub fn partitions_of(alloc: Global, parts: Vec<Part<Best>>) -> Result<Partitions, NoMemory>
    ensures { IfOk result (λ partitions. partitions ≡ map (λ p. p.member.partition) parts.items) }
{
    let mut partitions = Partitions::new(alloc);
    'parts: for part in parts {
        partitions.push(partition_of(part))?;
    }
    Ok(partitions)
}

// Adds to the tables the vector at a level, and a split for each root.
fn push_level_rows(
    alloc: Global,
    forest: &mut Forest<'_>,
    level: &Rat,
    vectors: &mut FlowTable,
    splits: &mut FlowTable,
) -> Result<(), NoMemory>
    requires { IsLevel level.now }
    ensures added { IfOk result (λ _. AddsLevel forest.old.graph level.now vectors.old vectors.new splits.old splits.new) }
    ensures same { forest.new.graph ≡ forest.old.graph }
{
    let q = level.q();
    prove!(q >= 1);
    forest.fill(level);
    let vector = Vec::from_slice(alloc, forest.vector())?;
    vectors.push(Numbers::from_vec(vector))?;
    forest.push_splits(alloc, splits)?;
    Ok(())
}

/// Fills empty tables with the vector at each level, and a split for each level and root.
pub fn fill_tables(
    alloc: Global,
    forest: &mut Forest<'_>,
    levels: &[Rat],
    vectors: &mut FlowTable,
    splits: &mut FlowTable,
) -> Result<(), NoMemory>
    requires levels { All IsLevel levels.now }
    requires vectors { vectors.old ≡ [] }
    requires splits { splits.old ≡ [] }
    ensures filled { IfOk result (λ _. AreFilled forest.old.graph levels.now vectors.new splits.new (length levels.now)) }
{
    'levels: for j in 0..levels.len() {
        push_level_rows(alloc, forest, &levels[j], vectors, splits)?;
    }
    Ok(())
}
