// The test of a principal partition.
ghost use Rattle.std.specs.Prelude.{◌≡◌, ℕ, ◌+◌, ◌*◌, ◌<◌, ◌≤◌, ◌↔◌, IsTrue, IfOk, true, length};
ghost use Rattle.std.specs.Bool.{OnTrue};
ghost use Rattle.pf_model.specs.Fraction.{IsBelow};
ghost use Rattle.pf_frame.specs.Lending.{row_at};
ghost use Rattle.pf_frame.specs.Scratch.{Serves, KeepsPlaces};
ghost use Rattle.pf_graph.specs.Labels.{parts};
ghost use Rattle.pf_graph.specs.Best.{IsPrincipal, level_at, partition_at};
ghost use Rattle.pf_principal.specs.Principal.{FitsGraph, CertifiesPrincipal};
ghost use Rattle.pf_principal.specs.Right.{IsCertifiedPrincipal};
ghost use Rattle.pf_principal.specs.Testing.{MeetsBoth, MeetsStep, MeetsSteps, HasEnds};

use crate::Principal;
use crate::text::read_principal;
use pf_forest::{are_splits, has_total, is_in_range};
use pf_frame::{FlowTable, NoMemory, Scratch};
use pf_graph::{Graph, Partition};
use pf_lines::AnswerBad;
use pf_rat::Rat;
use std::alloc::Global;
use std::cmp::Ordering;

// Whether the first level is below the second.
fn is_below(first: &Rat, second: &Rat) -> bool
    ensures { IsTrue result ↔ IsBelow first.now second.now }
{
    match first.cmp(second) {
        Ordering::Less => true,
        Ordering::Equal => false,
        Ordering::Greater => false,
    }
}

// Whether level `j + 1` is above the one before; level 0 is 0.
fn rises(levels: &[Rat], j: usize) -> bool
    requires { j < length levels.now }
    ensures { IsTrue result ↔ IsBelow (level_at levels.now j) (level_at levels.now (j + 1)) }
{
    if j == 0 {
        0 < levels[0].p()
    } else {
        is_below(&levels[j - 1], &levels[j])
    }
}

// What an answer says at one level: the vector, indexed by edges, and the table of all splits, in which those of this level begin at
// row `first`.
#[derive(Clone, Copy)]
struct AtLevel<'a> {
    level: &'a Rat,
    vector: &'a [i128],
    splits: &'a FlowTable,
    first: usize,
}

// Whether the forest condition holds at the level with both partitions.
fn meets_both(
    graph: &Graph,
    at: AtLevel<'_>,
    left: &Partition,
    right: &Partition,
    scratch: &mut Scratch,
) -> bool
    requires vector { length at.vector.now ≡ length graph.now.ends }
    requires rows { at.first + graph.now.nodes ≤ length at.splits.now }
    requires full { (r : ℕ) → r < graph.now.nodes → length (row_at at.splits.now (at.first + r)) ≡ length graph.now.ends }
    requires left { length left.now ≡ graph.now.nodes }
    requires right { length right.now ≡ graph.now.nodes }
    requires room { Serves scratch.old graph.now.nodes (length graph.now.ends) }
    ensures exact { IsTrue result ↔ MeetsBoth graph.now at.entry.level.now at.entry.vector.now at.entry.splits.now at.entry.first left.now right.now }
    ensures places { KeepsPlaces scratch.old scratch.new }
{
    let q = at.level.q();
    prove!(q >= 1);
    if at.level.p() < 0 {
        return false;
    }
    if !is_in_range(graph, at.level, at.vector) {
        return false;
    }
    if !has_total(graph, at.level, at.vector, left) {
        return false;
    }
    if !has_total(graph, at.level, at.vector, right) {
        return false;
    }
    are_splits(graph, at.level, at.vector, at.splits, at.first, scratch)
}

// Whether the first partition has fewer parts.
fn has_fewer(left: &Partition, right: &Partition) -> bool
    ensures { IsTrue result ↔ (parts left.now < parts right.now) }
{
    left.parts() < right.parts()
}

// Whether all that is asked of level `j + 1` and its neighbours holds.
fn meets_step(graph: &Graph, answer: &Principal, j: usize, scratch: &mut Scratch) -> bool
    requires shape { FitsGraph graph.now answer.now }
    requires level { j < length answer.now.levels }
    requires room { Serves scratch.old graph.now.nodes (length graph.now.ends) }
    ensures exact { IsTrue result ↔ MeetsStep graph.now answer.now j }
    ensures places { KeepsPlaces scratch.old scratch.new }
{
    let nodes = graph.vertices() as usize;
    let levels = answer.levels().get();
    let partitions = answer.parts().get();
    let splits = answer.splits();
    let _rows = splits.rows();
    if !rises(levels, j) {
        return false;
    }
    let left = &partitions[j];
    let right = &partitions[j + 1];
    if !has_fewer(left, right) {
        return false;
    }
    let vector = answer.vectors().row(j);
    let first = j * nodes;
    let at = AtLevel {
        level: &levels[j],
        vector,
        splits,
        first,
    };
    meets_both(graph, at, left, right, scratch)
}

// Whether no weight crosses the first partition, and the last one has one part per vertex.
fn has_ends(graph: &Graph, first: &Partition, last: &Partition) -> bool
    requires { length first.now ≡ graph.now.nodes }
    ensures { IsTrue result ↔ HasEnds graph.now first.now last.now }
{
    if graph.crossing(first) != 0 {
        return false;
    }
    last.parts() == graph.vertices()
}

/// Whether the answer certifies itself: its levels are above 0 and rise, its numbers of parts rise, no weight crosses its first
/// partition, its last one has one part per vertex, and at each level the forest condition holds with both neighbouring
/// partitions. Then it is the principal partition of the graph. Any numbers may stand in the answer. It takes no memory; the
/// scratch is working room, and keeps its places.
pub fn check_principal(graph: &Graph, answer: &Principal, scratch: &mut Scratch) -> bool
    requires shape { FitsGraph graph.now answer.now }
    requires room { Serves scratch.old graph.now.nodes (length graph.now.ends) }
    ensures exact { IsTrue result ↔ CertifiesPrincipal graph.now answer.now }
    ensures principal { OnTrue result (IsPrincipal graph.now answer.now.levels answer.now.partitions) }
    ensures places { KeepsPlaces scratch.old scratch.new }
{
    // Gives the proof the limits.
    let _ = graph.frame();
    let partitions = answer.parts().get();
    let count = answer.levels().get().len();
    if !has_ends(graph, &partitions[0], &partitions[count]) {
        return false;
    }
    'levels: for j in 0..count {
        if !meets_step(graph, answer, j, scratch) {
            return false;
        }
    }
    true
}

// Whether the answer certifies itself, as `check_principal` tests it. The working room is taken and given back here.
fn is_certified(alloc: Global, graph: &Graph, answer: &Principal) -> Result<bool, NoMemory>
    requires { FitsGraph graph.now answer.now }
    ensures { IfOk result (λ holds. (holds ≡ true) ↔ CertifiesPrincipal graph.now answer.now) }
{
    let vertices = graph.vertices() as usize;
    let edges = graph.edges() as usize;
    let mut scratch = Scratch::make(alloc, vertices, edges)?;
    Ok(check_principal(graph, answer, &mut scratch))
}

/// Whether the text is that of an answer of the right shape for the graph whose certificate holds. `NoMemory` where memory was
/// not found.
pub fn is_certified_partition_text(
    alloc: Global,
    graph: &Graph,
    text: &[u8],
) -> Result<bool, NoMemory>
    ensures { IfOk result (λ holds. (holds ≡ true) ↔ IsCertifiedPrincipal graph.now text.now) }
{
    // It gives the proof what every graph keeps.
    let _ = graph.vertices();
    let answer = match read_principal(alloc, graph, text) {
        Ok(answer) => answer,
        Err(AnswerBad::NotText) => return Ok(false),
        Err(AnswerBad::NoMemory) => return Err(NoMemory),
    };
    is_certified(alloc, graph, &answer)
}
