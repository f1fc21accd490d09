// Reading of texts of the kind `par`.
ghost use Rattle.std.specs.Prelude.{◌≡◌, IfErr};
ghost use Rattle.pf_text.specs.Kinds.{problem_of_lines};
ghost use Rattle.pf_par.specs.Text.{par};
ghost use Rattle.pf_lines.specs.Places.{lines_left};
ghost use Rattle.pf_lines.specs.Reading.{Agrees, IsBehindRefusal, HasPassed};

use crate::given::{End, ParState};
use pf_frame::NoMemory;
use pf_lines::{LineBad, LineForm, Lines, Pattern, ProblemKind, ReadBad, read_problem};
use pf_net::{Net, Sense};
use std::alloc::Global;

/// A number of at most a billion in size, and a denominator.
const COEFFICIENT: Pattern = Pattern::Number(-1_000_000_000, 1_000_000_000);

const DENOMINATOR: Pattern = Pattern::Number(1, 1_000_000_000);

/// The kind `par`.
pub struct Par;

#[tactic(auto, unfolding(crate::specs::Text::par))]
impl ProblemKind for Par {
    ghost use Rattle.pf_model.specs.Network.{Network};
    ghost use Rattle.pf_par.specs.Text.{Given};
    ghost use Rattle.pf_par.specs.ParState.{given_of, header_of};

    type State = ParState;

    type Problem = Net;

    ghost Gathered = { Given };

    ghost Value = { Network };

    ghost kind = { λ _. par };

    ghost header_of = { header_of };

    ghost given_of = { given_of };

    ghost value_of = { λ net. net };

    fn name(&self) -> &'static [u8] {
        b"par"
    }

    fn header(&self) -> &'static [Pattern] {
        &[Pattern::Number(2, 1000), Pattern::Number(0, 10000)]
    }

    fn start(&self, alloc: Global, numbers: &[i64]) -> Result<ParState, NoMemory> {
        let &[nodes, arcs] = numbers else {
            unreachable!();
        };
        Ok(ParState::new(alloc, nodes as u32, arcs as usize))
    }

    fn count(&self, state: &ParState) -> usize {
        state.arc_count
    }

    fn forms(&self, alloc: Global, state: &ParState) -> Result<Vec<LineForm>, NoMemory> {
        let (word_i, word_n, word_d, word_a) = (
            Pattern::Word(b"i"),
            Pattern::Word(b"n"),
            Pattern::Word(b"d"),
            Pattern::Word(b"a"),
        );
        let node = Pattern::Number(1, i64::from(state.nodes));
        // Arcs are the common lines, so their form comes first.
        let forms = [
            LineForm::counted(alloc, &[word_a, node, node, COEFFICIENT, COEFFICIENT]),
            LineForm::new(alloc, &[word_n, node, Pattern::Word(b"s")]),
            LineForm::new(alloc, &[word_n, node, Pattern::Word(b"t")]),
            LineForm::new(
                alloc,
                &[word_i, COEFFICIENT, DENOMINATOR, COEFFICIENT, DENOMINATOR],
            ),
            LineForm::new(alloc, &[word_d, Pattern::Word(b"rising")]),
            LineForm::new(alloc, &[word_d, Pattern::Word(b"falling")]),
        ];
        Ok(Vec::from_array(alloc, forms)?)
    }

    fn take(&self, state: &mut ParState, form: usize, numbers: &[i64]) -> Result<(), LineBad> {
        match form {
            0 => state.arc_line(numbers),
            1 => state.end_line(End::Source, numbers),
            2 => state.end_line(End::Sink, numbers),
            3 => state.interval_line(numbers),
            4 => state.sense_line(Sense::Rising),
            _ => state.sense_line(Sense::Falling),
        }
    }

    fn finish(&self, alloc: Global, state: ParState) -> Result<Net, LineBad> {
        state.network(alloc)
    }
}

/// Reads a text of the kind `par`, up to and with its line `end`: its network, or the first line
/// that is refused, and why.
///
/// The reader of lines is left after the line that decided: the line `end`, or the one that is
/// refused. Where no line is `end`, it is left after the last one.
pub fn read_par(alloc: Global, lines: &mut Lines<'_>) -> Result<Net, ReadBad>
    ensures judged { Agrees (problem_of_lines par (lines_left lines.old))
        (λ net. record { problem = net; rest = lines.new.rest; line = lines.new.number }) result }
    ensures refused { IfErr result (λ bad. IsBehindRefusal bad lines.new) }
    ensures passed { HasPassed lines.old lines.new }
{
    read_problem(alloc, &Par, lines)
}
