// Reading of texts of the kind `graph`.
ghost use Rattle.std.specs.Prelude.{◌≡◌, IfOk, IfErr};
ghost use Rattle.pf_text.specs.Kinds.{problem_of_lines};
ghost use Rattle.pf_lines.specs.Places.{lines_left};
ghost use Rattle.pf_lines.specs.Reading.{Agrees, IsBehindRefusal, HasPassed};
ghost use Rattle.pf_graph.specs.Limits.{IsWithinTask};
ghost use Rattle.pf_graph.specs.Text.{graph};

use crate::gathering::GraphState;
use crate::graph::{Graph, Task};
use pf_frame::NoMemory;
use pf_lines::{LineBad, LineForm, Lines, Pattern, ProblemKind, ReadBad, read_problem};
use std::alloc::Global;

// A weight, a cost or a price.
const AMOUNT: Pattern = Pattern::Number(1, 1_000_000);

#[tactic(auto, unfolding(crate::specs::Text::graph))]
impl ProblemKind for Task {
    ghost use Rattle.pf_graph.specs.WeightedGraph.{WeightedGraph};
    ghost use Rattle.pf_graph.specs.Text.{Given};
    ghost use Rattle.pf_graph.specs.Gathered.{given_of, header_of};

    type State = GraphState;

    type Problem = Graph;

    ghost Gathered = { Given };

    ghost Value = { WeightedGraph };

    ghost kind = { graph };

    ghost header_of = { header_of };

    ghost given_of = { given_of };

    ghost value_of = { λ g. g };

    fn name(&self) -> &'static [u8] {
        b"graph"
    }

    fn header(&self) -> &'static [Pattern] {
        match self {
            Task::Densest => &[Pattern::Number(1, 500), Pattern::Number(0, 5000)],
            Task::Partitions => &[Pattern::Number(2, 100), Pattern::Number(0, 500)],
        }
    }

    fn start(&self, alloc: Global, numbers: &[i64]) -> Result<GraphState, NoMemory> {
        GraphState::new(alloc, numbers)
    }

    fn count(&self, state: &GraphState) -> usize {
        state.edge_count as usize
    }

    fn forms(&self, alloc: Global, state: &GraphState) -> Result<Vec<LineForm>, NoMemory> {
        let vertex = Pattern::Number(1, i64::from(state.vertex_count));
        let edge = Pattern::Number(1, i64::from(state.edge_count));
        let forms = [
            LineForm::new(alloc, &[Pattern::Word(b"v"), vertex, AMOUNT]),
            LineForm::new(alloc, &[Pattern::Word(b"k"), edge, AMOUNT]),
            LineForm::counted(alloc, &[Pattern::Word(b"e"), vertex, vertex, AMOUNT]),
        ];
        Ok(Vec::from_array(alloc, forms)?)
    }

    fn take(&self, state: &mut GraphState, form: usize, numbers: &[i64]) -> Result<(), LineBad> {
        match form {
            0 => state.vertex_line(numbers),
            1 => state.price_line(numbers),
            _ => state.edge_line(numbers),
        }
    }

    fn finish(&self, alloc: Global, state: GraphState) -> Result<Graph, LineBad> {
        state.graph(alloc)
    }
}

/// Reads a text of the kind `graph`, up to and with its line `end`: its graph, or the first line that is refused, and why.
/// `Repeated` is the rule of a second line of one vertex or of one price, `Loop` that of an edge from a vertex to itself.
///
/// The reader of lines is left after the line that decided: the line `end`, or the one that is refused. Where no line is `end`,
/// it is left after the last one.
pub fn read_graph(alloc: Global, lines: &mut Lines<'_>, task: Task) -> Result<Graph, ReadBad>
    ensures judged { Agrees (problem_of_lines (graph task) (lines_left lines.old))
        (λ g. record { problem = g; rest = lines.new.rest; line = lines.new.number }) result }
    ensures refused { IfErr result (λ bad. IsBehindRefusal bad lines.new) }
    ensures passed { HasPassed lines.old lines.new }
    ensures within { IfOk result (IsWithinTask task) }
{
    read_problem(alloc, &task, lines)
}
