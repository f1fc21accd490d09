// The test of a strength.
ghost use Rattle.std.specs.Prelude.{◌≡◌, ◌↔◌, IsTrue, IfOk, true, length};
ghost use Rattle.std.specs.Bool.{OnTrue};
ghost use Rattle.pf_frame.specs.Scratch.{Serves, KeepsPlaces};
ghost use Rattle.pf_graph.specs.Best.{IsStrength};
ghost use Rattle.pf_strength.specs.Strength.{FitsGraph, CertifiesStrength};
ghost use Rattle.pf_strength.specs.Right.{IsCertifiedStrength};
ghost use Rattle.pf_strength.specs.Testing.{IsRatio};

use crate::Strength;
use crate::newton::partition_value;
use crate::text::read_strength;
use pf_forest::{are_splits, has_total, is_in_range};
use pf_frame::{NoMemory, Scratch};
use pf_graph::{Graph, Partition};
use pf_lines::AnswerBad;
use pf_rat::Rat;
use std::alloc::Global;

// Whether the partition has at least two parts, and the level, which is not below 0, is its ratio.
fn is_ratio(graph: &Graph, partition: &Partition, level: &Rat) -> bool
    requires { length partition.now ≡ graph.now.nodes }
    ensures { IsTrue result ↔ IsRatio graph.now level.now partition.now }
{
    let parts = partition.parts();
    let least = 2;
    if parts < least {
        return false;
    }
    if level.p() < 0 {
        return false;
    }
    partition_value(graph, partition, level) == 0
}

/// Whether the answer certifies itself: its partition has at least two parts and the level as its ratio, and the forest
/// condition holds. Then the level is the strength of the graph. Any numbers may stand in the answer. It takes no memory; the
/// scratch is working room, and keeps its places.
pub fn check_strength(graph: &Graph, answer: &Strength, scratch: &mut Scratch) -> bool
    requires shape { FitsGraph graph.now answer.now }
    requires room { Serves scratch.old graph.now.nodes (length graph.now.ends) }
    ensures exact { IsTrue result ↔ CertifiesStrength graph.now answer.now }
    ensures strength { OnTrue result (IsStrength graph.now answer.now.level answer.now.parts) }
    ensures places { KeepsPlaces scratch.old scratch.new }
{
    // Gives the proof the limits.
    let _ = graph.frame();
    let level = answer.level();
    let q = level.q();
    prove!(q >= 1);
    let partition = answer.parts();
    let vector = answer.vector().get();
    if !is_ratio(graph, partition, level) {
        return false;
    }
    if !is_in_range(graph, level, vector) {
        return false;
    }
    if !has_total(graph, level, vector, partition) {
        return false;
    }
    are_splits(graph, level, vector, answer.splits(), 0, scratch)
}

// Whether the answer certifies itself, as `check_strength` tests it. The working room is taken and given back here.
fn is_certified(alloc: Global, graph: &Graph, answer: &Strength) -> Result<bool, NoMemory>
    requires { FitsGraph graph.now answer.now }
    ensures { IfOk result (λ holds. (holds ≡ true) ↔ CertifiesStrength graph.now answer.now) }
{
    let vertices = graph.vertices() as usize;
    let edges = graph.edges() as usize;
    let mut scratch = Scratch::make(alloc, vertices, edges)?;
    Ok(check_strength(graph, answer, &mut scratch))
}

/// Whether the text is that of an answer of the right shape for the graph whose certificate holds. `NoMemory` where memory was
/// not found.
pub fn is_certified_strength_text(
    alloc: Global,
    graph: &Graph,
    text: &[u8],
) -> Result<bool, NoMemory>
    ensures { IfOk result (λ holds. (holds ≡ true) ↔ IsCertifiedStrength graph.now text.now) }
{
    // It gives the proof what every graph keeps.
    let _ = graph.vertices();
    let answer = match read_strength(alloc, graph, text) {
        Ok(answer) => answer,
        Err(AnswerBad::NotText) => return Ok(false),
        Err(AnswerBad::NoMemory) => return Err(NoMemory),
    };
    is_certified(alloc, graph, &answer)
}
