// Whether a text certifies the curve of a network.
ghost use Rattle.std.specs.Prelude.{◌≡◌, ◌↔◌, true, IfOk};
ghost use Rattle.pf_par.specs.Right.{IsCertifiedCurve};

use crate::reading_curve::read_curve;
use pf_cert::is_certified;
use pf_frame::NoMemory;
use pf_lines::AnswerBad;
use pf_net::Net;
use std::alloc::Global;

/// Whether the text is that of a curve of the network whose certificate holds.
pub fn is_certified_text(alloc: Global, net: &Net, text: &[u8]) -> Result<bool, NoMemory>
    ensures { IfOk result (λ holds. (holds ≡ true) ↔ IsCertifiedCurve net.now text.now) }
{
    let whole = match read_curve(alloc, net, text) {
        Ok(whole) => whole,
        Err(AnswerBad::NotText) => return Ok(false),
        Err(AnswerBad::NoMemory) => return Err(NoMemory),
    };
    is_certified(alloc, net, &whole)
}
