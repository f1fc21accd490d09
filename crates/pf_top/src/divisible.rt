// Graphs that can be divided into parts.
ghost use Rattle.std.specs.Prelude.{◌≡◌, ◌≤◌, length};
ghost use Rattle.pf_text.specs.Kinds.{problem_of_lines};
ghost use Rattle.pf_lines.specs.Places.{lines_left};
ghost use Rattle.pf_lines.specs.Reading.{Agrees};
ghost use Rattle.pf_graph.specs.Text.{graph};
ghost use Rattle.pf_graph.specs.declared.graph.Task.TheVariants.{Partitions};

use pf_graph::{Graph, Task, read_graph};
use pf_lines::{Lines, ReadBad};
use std::alloc::Global;
use std::marker::Model;

/// A graph of 2 to 100 vertices and up to 500 edges, which has a partition into at least two parts.
#[derive(Drop)]
pub struct Divisible {
    graph: Graph,
}

impl Model for Divisible {
    ghost use Rattle.std.specs.Prelude.{◌≤◌, length};
    ghost use Rattle.pf_graph.specs.WeightedGraph.{WeightedGraph};

    ghost Value = { WeightedGraph };

    ghost view = { λ d. d.graph };

    ghost invariant = { λ d. (2 ≤ d.graph.nodes) × (d.graph.nodes ≤ 100) × (length d.graph.ends ≤ 500) };
}

impl Divisible {
    /// Reads the graph, and leaves the reader of lines after its line `end`.
    pub fn read(alloc: Global, lines: &mut Lines<'_>) -> Result<Divisible, ReadBad>
        ensures judged { Agrees (problem_of_lines (graph Partitions) (lines_left lines.old))
            (λ p. record { problem = p; rest = lines.new.rest; line = lines.new.number }) result }
    {
        match read_graph(alloc, lines, Task::Partitions) {
            Ok(graph) => Ok(Divisible { graph }),
            Err(bad) => Err(bad),
        }
    }

    /// The graph. Its limits are told here.
    pub fn graph(&self) -> &Graph
        ensures value { result.now ≡ self.now }
        ensures some { 2 ≤ self.now.nodes }
        ensures vertices { self.now.nodes ≤ 100 }
        ensures edges { length self.now.ends ≤ 500 }
    {
        &self.graph
    }
}
