// Reading of a schedule's text.
ghost use Rattle.std.specs.Prelude.{◌≡◌, ◌≢◌, ◌++◌, ℕ, List, IfOk, Err};
ghost use Rattle.pf_lines.specs.Taking.{Takes};
ghost use Rattle.pf_select.specs.Certificate.{ScheduleAnswer};
ghost use Rattle.pf_select.specs.Right.{IsScheduleShape};
ghost use Rattle.pf_select.specs.Text.{schedule_text};

use crate::catalogue::Catalogue;
use crate::outline::{Outline, take_selections};
use crate::schedule::Schedule;
use pf_lines::{AnswerBad, Exact, take_count, take_end, take_flow_rows, take_word};
use std::alloc::Global;

// The whole answer, from the first word to the last.
fn take_schedule(
    alloc: Global,
    catalogue: &Catalogue,
    text: &mut Exact<'_>,
) -> Result<Schedule, AnswerBad>
    ensures taken { IfOk result (λ answer. text.old ≡ schedule_text catalogue.now answer ++ text.new) }
    ensures shape { IfOk result (IsScheduleShape catalogue.now) }
    ensures found { (answer : ScheduleAnswer) (rest : List ℕ) → IsScheduleShape catalogue.now answer
        → text.old ≡ schedule_text catalogue.now answer ++ rest → Takes answer rest result text.new }
{
    // They tell the limits of the catalogue, and how many charges stand on a line.
    let _ = catalogue.parts();
    let width = catalogue.needs() as usize;
    take_word(text, b"o select\n")?;
    let count = take_count(text, b"k", 0)?;
    let outline = take_selections(alloc, catalogue, count, text)?;
    let charges = take_flow_rows(alloc, b"f", 1, width, count, text)?;
    take_word(text, b"end\n")?;
    let Outline {
        prices,
        selections,
        ..
    } = outline;
    Ok(Schedule::new(prices, selections, charges))
}

/// The schedule of the right shape for the catalogue whose text these bytes are: there is at most one. Numbers and words have one
/// spelling there, what a selection is worth is the number that is written, and no line is passed over. `NotText` comes exactly
/// where there is no such schedule.
pub fn read_schedule(
    alloc: Global,
    catalogue: &Catalogue,
    text: &[u8],
) -> Result<Schedule, AnswerBad>
    ensures shape { IfOk result (IsScheduleShape catalogue.now) }
    ensures text { IfOk result (λ answer. text.now ≡ schedule_text catalogue.now answer) }
    ensures refused { result ≡ Err AnswerBad.NotText → (answer : ScheduleAnswer) → IsScheduleShape catalogue.now answer
        → text.now ≢ schedule_text catalogue.now answer }
{
    let mut rest = Exact::new(text);
    let answer = take_schedule(alloc, catalogue, &mut rest)?;
    take_end(&rest)?;
    Ok(answer)
}
