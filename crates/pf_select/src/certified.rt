// Whether a text certifies a schedule.
ghost use Rattle.std.specs.Prelude.{◌≡◌, ◌↔◌, true, IfOk};
ghost use Rattle.pf_select.specs.Certificate.{CertifiesSchedule};
ghost use Rattle.pf_select.specs.Right.{IsScheduleShape, IsCertifiedSchedule};

use crate::answers::read_schedule;
use crate::catalogue::Catalogue;
use crate::checking::check_schedule;
use crate::schedule::Schedule;
use pf_frame::{NoMemory, Scratch};
use pf_lines::AnswerBad;
use std::alloc::Global;

/// Whether the charges certify the schedule, as `check_schedule` tests it. The working room is taken and given back here.
pub fn is_certified_schedule(
    alloc: Global,
    catalogue: &Catalogue,
    answer: &Schedule,
) -> Result<bool, NoMemory>
    requires { IsScheduleShape catalogue.now answer.now }
    ensures { IfOk result (λ holds. (holds ≡ true) ↔ CertifiesSchedule catalogue.now answer.now.prices answer.now.selections answer.now.charges) }
{
    let places = catalogue.parts() as usize + catalogue.products() as usize;
    let needs = catalogue.needs() as usize;
    let mut scratch = Scratch::make(alloc, places, needs)?;
    Ok(check_schedule(catalogue, answer, &mut scratch))
}

/// Whether the text is that of a schedule for the catalogue whose certificate holds.
pub fn is_certified_select_text(
    alloc: Global,
    catalogue: &Catalogue,
    text: &[u8],
) -> Result<bool, NoMemory>
    ensures { IfOk result (λ holds. (holds ≡ true) ↔ IsCertifiedSchedule catalogue.now text.now) }
{
    // It gives the proof the limits of the catalogue.
    let _ = catalogue.parts();
    let answer = match read_schedule(alloc, catalogue, text) {
        Ok(answer) => answer,
        Err(AnswerBad::NotText) => return Ok(false),
        Err(AnswerBad::NoMemory) => return Err(NoMemory),
    };
    is_certified_schedule(alloc, catalogue, &answer)
}
