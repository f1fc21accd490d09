// The lines of vectors and splits, read back into tables.
ghost use Rattle.std.specs.Prelude.{◌≡◌, ◌<◌, ◌≤◌, ◌++◌, [], ◌∷◌, ℕ, ℤ, List, length, All, IfOk, MatchResult};
ghost use Rattle.pf_frame.specs.Numbers.{IsSized};
ghost use Rattle.pf_lines.specs.Taking.{IsExcused};
ghost use Rattle.pf_graph.specs.WeightedGraph.{digraph_of};
ghost use Rattle.pf_principal.specs.Text.{LevelRows, splits_text, level_text, levels_text, levels_rows};
ghost use Rattle.pf_principal.specs.Reading.{IsRowsShape, TakesSplits, TakesLevel, AreTables};

use pf_frame::FlowTable;
use pf_graph::Graph;
use pf_lines::{AnswerBad, Exact};
use pf_strength::take_edge_row;
use std::alloc::Global;

// The splits of the level `j` for so many roots.
fn take_splits(
    alloc: Global,
    graph: &Graph,
    j: usize,
    count: usize,
    splits: &mut FlowTable,
    text: &mut Exact<'_>,
) -> Result<(), AnswerBad>
    ensures taken { IfOk result (λ _. TakesSplits graph.now j count splits.old splits.new text.old text.new) }
    ensures found { (rows : List (List ℤ)) (rest : List ℕ) → length rows ≡ count → All (IsSized (digraph_of graph.now)) rows
        → text.old ≡ splits_text j 0 rows ++ rest → MatchResult result (λ _. (splits.new ≡ splits.old ++ rows) × (text.new ≡ rest)) IsExcused }
{
    'roots: for r in 0..count {
        let row = take_edge_row(alloc, graph, b"r", &[j, r + 1], text)?;
        splits.push(row)?;
    }
    Ok(())
}

// The vector of the level `j`, and its splits.
fn take_level(
    alloc: Global,
    graph: &Graph,
    j: usize,
    vectors: &mut FlowTable,
    splits: &mut FlowTable,
    text: &mut Exact<'_>,
) -> Result<(), AnswerBad>
    ensures taken { IfOk result (λ _. TakesLevel graph.now j vectors.old vectors.new splits.old splits.new text.old text.new) }
    ensures found { (rows : LevelRows) (rest : List ℕ) → IsRowsShape graph.now rows → text.old ≡ level_text j rows ++ rest
        → MatchResult result (λ _. (vectors.new ≡ vectors.old ++ rows.vector ∷ []) × (splits.new ≡ splits.old ++ rows.splits) × (text.new ≡ rest)) IsExcused }
{
    let vector = take_edge_row(alloc, graph, b"y", &[j], text)?;
    vectors.push(vector)?;
    let roots = graph.vertices() as usize;
    take_splits(alloc, graph, j, roots, splits, text)?;
    Ok(())
}

/// The vectors and the splits of so many levels, into empty tables.
pub fn take_levels(
    alloc: Global,
    graph: &Graph,
    count: usize,
    vectors: &mut FlowTable,
    splits: &mut FlowTable,
    text: &mut Exact<'_>,
) -> Result<(), AnswerBad>
    requires vectors { vectors.old ≡ [] }
    requires splits { splits.old ≡ [] }
    ensures taken { IfOk result (λ _. text.old ≡ levels_text 0 (levels_rows graph.now.nodes vectors.new splits.new) ++ text.new) }
    ensures shape { IfOk result (λ _. AreTables graph.now count vectors.new splits.new) }
    ensures found { (vectors_given splits_given : List (List ℤ)) (rest : List ℕ) → AreTables graph.now count vectors_given splits_given
        → text.old ≡ levels_text 0 (levels_rows graph.now.nodes vectors_given splits_given) ++ rest
        → MatchResult result (λ _. (vectors.new ≡ vectors_given) × (splits.new ≡ splits_given) × (text.new ≡ rest)) IsExcused }
{
    'levels: for j in 0..count {
        take_level(alloc, graph, j + 1, vectors, splits, text)?;
    }
    Ok(())
}
