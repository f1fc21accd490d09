// Problems of two kinds, and reading of them.
ghost use Rattle.std.specs.Prelude.{◌≡◌, IfErr};
ghost use Rattle.pf_text.specs.Kinds.{problem_of_lines};
ghost use Rattle.pf_text.specs.Lines.{lines_from};
ghost use Rattle.pf_lines.specs.Places.{lines_left};
ghost use Rattle.pf_lines.specs.Reading.{Agrees, IsBehindRefusal, HasPassed};
ghost use Rattle.pf_closure.specs.Text.{closure};
ghost use Rattle.pf_graph.specs.declared.graph.Task.TheVariants.{Densest};
ghost use Rattle.pf_graph.specs.Text.{graph};
ghost use Rattle.pf_layers.specs.Problem.{names_closure, begins_closure, accepted_as, layer_problem_of_lines};

use pf_closure::{Items, read_closure};
use pf_graph::{Graph, Task, read_graph};
use pf_lines::{Lines, ReadBad, TextLine};
use std::alloc::Global;

/// What has layers: a graph within the limits of densest sets, or items that need others.
#[derive(Drop)]
pub enum LayerProblem {
    Graph(Graph),
    Closure(Items),
}

// Whether the second field of the line is the name of the kind `closure`.
fn names_closure(line: &TextLine<'_>) -> bool
    ensures { result ≡ names_closure line.now.fields }
{
    match line.field(1) {
        Some(name) => name == b"closure".as_slice(),
        None => false,
    }
}

// Whether the first line of the text is the header of the kind `closure`, by its second field.
fn begins_closure(alloc: Global, text: &[u8]) -> bool
    ensures { result ≡ begins_closure (lines_from 1 text.now) }
{
    let mut lines = Lines::new(alloc, text);
    match lines.next() {
        Some(line) => names_closure(&line),
        None => false,
    }
}

// Reads a text of the kind `closure`.
fn read_items(alloc: Global, lines: &mut Lines<'_>) -> Result<LayerProblem, ReadBad>
    ensures judged { Agrees (accepted_as LayerProblem.Closure (problem_of_lines closure (lines_left lines.old)))
        (λ p. record { problem = p; rest = lines.new.rest; line = lines.new.number }) result }
    ensures refused { IfErr result (λ bad. IsBehindRefusal bad lines.new) }
    ensures passed { HasPassed lines.old lines.new }
{
    match read_closure(alloc, lines) {
        Ok(items) => Ok(LayerProblem::Closure(items)),
        Err(bad) => Err(bad),
    }
}

// Reads a text of the kind `graph`.
fn read_edges(alloc: Global, lines: &mut Lines<'_>) -> Result<LayerProblem, ReadBad>
    ensures judged { Agrees (accepted_as LayerProblem.Graph (problem_of_lines (graph Densest) (lines_left lines.old)))
        (λ p. record { problem = p; rest = lines.new.rest; line = lines.new.number }) result }
    ensures refused { IfErr result (λ bad. IsBehindRefusal bad lines.new) }
    ensures passed { HasPassed lines.old lines.new }
{
    match read_graph(alloc, lines, Task::Densest) {
        Ok(graph) => Ok(LayerProblem::Graph(graph)),
        Err(bad) => Err(bad),
    }
}

/// Reads a text of the kind `graph`, with the limits of densest sets, or of the kind `closure`, up to and with its line `end`: its
/// problem, or the first line that is refused, and why. `WrongKind` comes where the header's kind is neither. Every other refusal is
/// that of the kind which the header names.
///
/// The reader of lines is left after the line that decided: the line `end`, or the one that is refused. Where no line is `end`,
/// it is left after the last one.
pub fn read_layers(alloc: Global, lines: &mut Lines<'_>) -> Result<LayerProblem, ReadBad>
    ensures judged { Agrees (layer_problem_of_lines (lines_left lines.old))
        (λ p. record { problem = p; rest = lines.new.rest; line = lines.new.number }) result }
    ensures refused { IfErr result (λ bad. IsBehindRefusal bad lines.new) }
    ensures passed { HasPassed lines.old lines.new }
{
    if begins_closure(alloc, lines.rest()) {
        return read_items(alloc, lines);
    }
    read_edges(alloc, lines)
}
