// Reading of texts of the kind `select`.
ghost use Rattle.std.specs.Prelude.{◌≡◌, IfErr};
ghost use Rattle.pf_text.specs.Kinds.{problem_of_lines};
ghost use Rattle.pf_lines.specs.Places.{lines_left};
ghost use Rattle.pf_lines.specs.Reading.{Agrees, IsBehindRefusal, HasPassed};
ghost use Rattle.pf_select.specs.Text.{select};

use crate::catalogue::Catalogue;
use crate::gathering::SelectState;
use pf_frame::NoMemory;
use pf_lines::{LineBad, LineForm, Lines, Pattern, ProblemKind, ReadBad, read_problem};
use std::alloc::Global;

// A cost or a gain.
const AMOUNT: Pattern = Pattern::Number(1, 1_000_000);

/// The kind `select`.
pub struct SelectKind;

#[tactic(auto, unfolding(crate::specs::Text::select))]
impl ProblemKind for SelectKind {
    ghost use Rattle.pf_select.specs.Problem.{SelectionProblem};
    ghost use Rattle.pf_select.specs.Text.{Given};
    ghost use Rattle.pf_select.specs.Gathered.{given_of, header_of};

    type State = SelectState;

    type Problem = Catalogue;

    ghost Gathered = { Given };

    ghost Value = { SelectionProblem };

    ghost kind = { λ _. select };

    ghost header_of = { header_of };

    ghost given_of = { given_of };

    ghost value_of = { λ catalogue. catalogue };

    fn name(&self) -> &'static [u8] {
        b"select"
    }

    fn header(&self) -> &'static [Pattern] {
        &[
            Pattern::Number(1, 500),
            Pattern::Number(0, 1000),
            Pattern::Number(0, 5000),
        ]
    }

    fn start(&self, alloc: Global, numbers: &[i64]) -> Result<SelectState, NoMemory> {
        let &[parts, products, needs] = numbers else {
            unreachable!();
        };
        SelectState::new(alloc, parts as u32, products as u32, needs as usize)
    }

    fn count(&self, state: &SelectState) -> usize {
        state.need_count
    }

    fn forms(&self, alloc: Global, state: &SelectState) -> Result<Vec<LineForm>, NoMemory> {
        let part = Pattern::Number(1, i64::from(state.part_count));
        let product = Pattern::Number(1, i64::from(state.product_count));
        let forms = [
            LineForm::new(alloc, &[Pattern::Word(b"v"), part, AMOUNT]),
            LineForm::new(alloc, &[Pattern::Word(b"g"), product, AMOUNT]),
            LineForm::counted(alloc, &[Pattern::Word(b"r"), product, part]),
        ];
        Ok(Vec::from_array(alloc, forms)?)
    }

    fn take(&self, state: &mut SelectState, form: usize, numbers: &[i64]) -> Result<(), LineBad> {
        match form {
            0 => state.part_line(numbers),
            1 => state.product_line(numbers),
            _ => state.need_line(numbers),
        }
    }

    fn finish(&self, alloc: Global, state: SelectState) -> Result<Catalogue, LineBad> {
        state.catalogue(alloc)
    }
}

/// Reads a text of the kind `select`, up to and with its line `end`: its parts, products and needs, or the first line that is
/// refused, and why. `Repeated` is the rule of a second line of one part or product, `Missing` that of the line `end` where a part
/// or a product has no line.
///
/// The reader of lines is left after the line that decided: the line `end`, or the one that is refused. Where no line is `end`,
/// it is left after the last one.
pub fn read_select(alloc: Global, lines: &mut Lines<'_>) -> Result<Catalogue, ReadBad>
    ensures judged { Agrees (problem_of_lines select (lines_left lines.old))
        (λ catalogue. record { problem = catalogue; rest = lines.new.rest; line = lines.new.number }) result }
    ensures refused { IfErr result (λ bad. IsBehindRefusal bad lines.new) }
    ensures passed { HasPassed lines.old lines.new }
{
    read_problem(alloc, &SelectKind, lines)
}
