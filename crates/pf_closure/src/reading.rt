// Reading of texts of the kind `closure`.
ghost use Rattle.std.specs.Prelude.{◌≡◌, IfErr};
ghost use Rattle.pf_text.specs.Kinds.{problem_of_lines};
ghost use Rattle.pf_lines.specs.Places.{lines_left};
ghost use Rattle.pf_lines.specs.Reading.{Agrees, IsBehindRefusal, HasPassed};
ghost use Rattle.pf_closure.specs.Text.{closure};

use crate::gathering::ClosureState;
use crate::items::Items;
use pf_frame::NoMemory;
use pf_lines::{LineBad, LineForm, Lines, Pattern, ProblemKind, ReadBad, read_problem};
use std::alloc::Global;

// A cost, and a weight.
const COST: Pattern = Pattern::Number(-1_000_000, 1_000_000);

const WEIGHT: Pattern = Pattern::Number(1, 1_000_000);

/// The kind `closure`.
pub struct ClosureKind;

#[tactic(auto, unfolding(crate::specs::Text::closure))]
impl ProblemKind for ClosureKind {
    ghost use Rattle.pf_closure.specs.Problem.{ClosureProblem};
    ghost use Rattle.pf_closure.specs.Text.{Given};
    ghost use Rattle.pf_closure.specs.Gathered.{given_of, header_of};

    type State = ClosureState;

    type Problem = Items;

    ghost Gathered = { Given };

    ghost Value = { ClosureProblem };

    ghost kind = { λ _. closure };

    ghost header_of = { header_of };

    ghost given_of = { given_of };

    ghost value_of = { λ items. items };

    fn name(&self) -> &'static [u8] {
        b"closure"
    }

    fn header(&self) -> &'static [Pattern] {
        &[Pattern::Number(1, 1000), Pattern::Number(0, 10000)]
    }

    fn start(&self, alloc: Global, numbers: &[i64]) -> Result<ClosureState, NoMemory> {
        let &[items, needs] = numbers else {
            unreachable!();
        };
        ClosureState::new(alloc, items as u32, needs as usize)
    }

    fn count(&self, state: &ClosureState) -> usize {
        state.need_count
    }

    fn forms(&self, alloc: Global, state: &ClosureState) -> Result<Vec<LineForm>, NoMemory> {
        let item = Pattern::Number(1, i64::from(state.item_count));
        let forms = [
            LineForm::new(alloc, &[Pattern::Word(b"v"), item, COST, WEIGHT]),
            LineForm::counted(alloc, &[Pattern::Word(b"r"), item, item]),
        ];
        Ok(Vec::from_array(alloc, forms)?)
    }

    fn take(&self, state: &mut ClosureState, form: usize, numbers: &[i64]) -> Result<(), LineBad> {
        match form {
            0 => state.item_line(numbers),
            _ => state.need_line(numbers),
        }
    }

    fn finish(&self, alloc: Global, state: ClosureState) -> Result<Items, LineBad> {
        state.items(alloc)
    }
}

/// Reads a text of the kind `closure`, up to and with its line `end`: its items and needs, or the first line that is refused,
/// and why. `Repeated` is the rule of a second line of one item, `Missing` that of the line `end` where an item has no line.
///
/// The reader of lines is left after the line that decided: the line `end`, or the one that is refused. Where no line is `end`,
/// it is left after the last one.
pub fn read_closure(alloc: Global, lines: &mut Lines<'_>) -> Result<Items, ReadBad>
    ensures judged { Agrees (problem_of_lines closure (lines_left lines.old))
        (λ items. record { problem = items; rest = lines.new.rest; line = lines.new.number }) result }
    ensures refused { IfErr result (λ bad. IsBehindRefusal bad lines.new) }
    ensures passed { HasPassed lines.old lines.new }
{
    read_problem(alloc, &ClosureKind, lines)
}
