// Reading of texts of the kind `share`.
ghost use Rattle.std.specs.Prelude.{◌≡◌, IfErr};
ghost use Rattle.pf_text.specs.Kinds.{problem_of_lines};
ghost use Rattle.pf_lines.specs.Places.{lines_left};
ghost use Rattle.pf_lines.specs.Reading.{Agrees, IsBehindRefusal, HasPassed};
ghost use Rattle.pf_share.specs.Text.{share};

use crate::gathering::ShareState;
use crate::sharing::Sharing;
use pf_frame::NoMemory;
use pf_lines::{LineBad, LineForm, Lines, Pattern, ProblemKind, ReadBad, read_problem};
use std::alloc::Global;

// A weight, and a capacity.
const WEIGHT: Pattern = Pattern::Number(1, 1_000_000);

const CAPACITY: Pattern = Pattern::Number(0, 1_000_000_000);

/// The kind `share`.
pub struct ShareKind;

#[tactic(auto, unfolding(crate::specs::Text::share))]
impl ProblemKind for ShareKind {
    ghost use Rattle.pf_share.specs.Problem.{ShareProblem};
    ghost use Rattle.pf_share.specs.Text.{Given};
    ghost use Rattle.pf_share.specs.Gathered.{given_of, header_of};

    type State = ShareState;

    type Problem = Sharing;

    ghost Gathered = { Given };

    ghost Value = { ShareProblem };

    ghost kind = { λ _. share };

    ghost header_of = { header_of };

    ghost given_of = { given_of };

    ghost value_of = { λ sharing. sharing };

    fn name(&self) -> &'static [u8] {
        b"share"
    }

    fn header(&self) -> &'static [Pattern] {
        &[Pattern::Number(2, 1000), Pattern::Number(0, 10000)]
    }

    fn start(&self, alloc: Global, numbers: &[i64]) -> Result<ShareState, NoMemory> {
        let &[nodes, arcs] = numbers else {
            unreachable!();
        };
        ShareState::new(alloc, nodes as u32, arcs as usize)
    }

    fn count(&self, state: &ShareState) -> usize {
        state.arc_count
    }

    fn forms(&self, alloc: Global, state: &ShareState) -> Result<Vec<LineForm>, NoMemory> {
        let node = Pattern::Number(1, i64::from(state.node_count));
        let forms = [
            LineForm::new(alloc, &[Pattern::Word(b"n"), node, Pattern::Word(b"t")]),
            LineForm::new(alloc, &[Pattern::Word(b"w"), node, WEIGHT]),
            LineForm::counted(alloc, &[Pattern::Word(b"a"), node, node, CAPACITY]),
        ];
        Ok(Vec::from_array(alloc, forms)?)
    }

    fn take(&self, state: &mut ShareState, form: usize, numbers: &[i64]) -> Result<(), LineBad> {
        match form {
            0 => state.sink_line(numbers),
            1 => state.weight_line(numbers),
            _ => state.arc_line(numbers),
        }
    }

    fn finish(&self, _alloc: Global, state: ShareState) -> Result<Sharing, LineBad> {
        state.sharing()
    }
}

/// Reads a text of the kind `share`, up to and with its line `end`: its network with weights, or the first line that is refused, and
/// why. `Repeated` is the rule of a second line of the sink or a second weight of one node, `Missing` that of a weight, an arc or the
/// line `end` where no sink was given, and `Ends` that of a weight of the sink.
///
/// The reader of lines is left after the line that decided: the line `end`, or the one that is refused. Where no line is `end`,
/// it is left after the last one.
pub fn read_share(alloc: Global, lines: &mut Lines<'_>) -> Result<Sharing, ReadBad>
    ensures judged { Agrees (problem_of_lines share (lines_left lines.old))
        (λ sharing. record { problem = sharing; rest = lines.new.rest; line = lines.new.number }) result }
    ensures refused { IfErr result (λ bad. IsBehindRefusal bad lines.new) }
    ensures passed { HasPassed lines.old lines.new }
{
    read_problem(alloc, &ShareKind, lines)
}
