// The test of a densest set.
ghost use Rattle.std.specs.Prelude.{◌≡◌, ◌↔◌, IsTrue, IfOk, length, true};
ghost use Rattle.std.specs.Bool.{OnTrue};
ghost use Rattle.pf_frame.specs.Scratch.{Serves, KeepsPlaces};
ghost use Rattle.pf_dense.specs.Densest.{IsDensest};
ghost use Rattle.pf_dense.specs.Certificate.{CertifiesDense};
ghost use Rattle.pf_dense.specs.Right.{IsCertifiedDense};

use crate::charging::{are_charges, are_within, write_charged};
use crate::dense::Dense;
use crate::dropping::mark_dropped;
use crate::text::read_dense;
use pf_frame::{NoMemory, Scratch};
use pf_graph::Graph;
use pf_lines::AnswerBad;
use pf_ratio::{has_some, is_rest};
use std::alloc::Global;

/// Whether the answer's charges certify its density and its set as the best ones: no vertex is charged more than `2p` times its cost,
/// and the set is that of the vertices that the charges do not drop. It takes no memory.
pub fn check_dense(graph: &Graph, answer: &Dense, scratch: &mut Scratch) -> bool
    requires chosen { length answer.now.chosen ≡ graph.now.nodes }
    requires charges { length answer.now.charges ≡ length graph.now.ends }
    requires room { Serves scratch.old graph.now.nodes (length graph.now.ends) }
    ensures exact { IsTrue result ↔ CertifiesDense graph.now answer.now.density answer.now.chosen answer.now.charges }
    ensures best { OnTrue result (IsDensest graph.now answer.now.density answer.now.chosen) }
    ensures places { KeepsPlaces scratch.old scratch.new }
{
    // They tell the limits of the graph, and that the density is a fraction.
    let _ = graph.vertices();
    let at = answer.density();
    let _ = at.q();
    let charges = answer.charges().get();
    let chosen = answer.chosen().get();
    if !are_charges(graph, at, charges) {
        return false;
    }
    let sums = scratch.sums.as_mut_slice();
    write_charged(graph, at, charges, sums);
    if !are_within(graph, at, sums) {
        return false;
    }
    let marks = scratch.marks.as_mut_slice();
    mark_dropped(graph, at, charges, sums, marks);
    if !is_rest(chosen, marks) {
        return false;
    }
    has_some(chosen)
}

/// Whether the answer's charges certify it, as `check_dense` tests it. The working room is taken and given back here.
pub fn is_certified(alloc: Global, graph: &Graph, answer: &Dense) -> Result<bool, NoMemory>
    requires chosen { length answer.now.chosen ≡ graph.now.nodes }
    requires charges { length answer.now.charges ≡ length graph.now.ends }
    ensures { IfOk result (λ holds. (holds ≡ true) ↔ CertifiesDense graph.now answer.now.density answer.now.chosen answer.now.charges) }
{
    let vertices = graph.vertices() as usize;
    let edges = graph.edges() as usize;
    let mut scratch = Scratch::make(alloc, vertices, edges)?;
    Ok(check_dense(graph, answer, &mut scratch))
}

/// Whether the text is that of an answer for the graph whose certificate holds.
pub fn is_certified_dense_text(alloc: Global, graph: &Graph, text: &[u8]) -> Result<bool, NoMemory>
    ensures { IfOk result (λ holds. (holds ≡ true) ↔ IsCertifiedDense graph.now text.now) }
{
    let answer = match read_dense(alloc, graph, text) {
        Ok(answer) => answer,
        Err(AnswerBad::NotText) => return Ok(false),
        Err(AnswerBad::NoMemory) => return Err(NoMemory),
    };
    is_certified(alloc, graph, &answer)
}
