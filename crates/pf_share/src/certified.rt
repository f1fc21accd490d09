// Whether a text certifies shares.
ghost use Rattle.std.specs.Prelude.{◌≡◌, ◌↔◌, true, IfOk};
ghost use Rattle.pf_share.specs.Certificate.{CertifiesShares};
ghost use Rattle.pf_share.specs.Right.{IsSharesShape, IsCertifiedShares};

use crate::answers::read_shares;
use crate::checking::check_shares;
use crate::shares::Shares;
use crate::sharing::Sharing;
use pf_frame::{NoMemory, Scratch};
use pf_lines::AnswerBad;
use std::alloc::Global;

/// Whether the groups and numbers certify the shares, as `check_shares` tests it. The working room is taken and given back here.
pub fn are_certified_shares(
    alloc: Global,
    sharing: &Sharing,
    answer: &Shares,
) -> Result<bool, NoMemory>
    requires { IsSharesShape sharing.now answer.now }
    ensures { IfOk result (λ holds. (holds ≡ true) ↔ CertifiesShares sharing.now answer.now) }
{
    let nodes = sharing.nodes() as usize;
    let arcs = sharing.arcs() as usize;
    let mut scratch = Scratch::make(alloc, nodes, arcs)?;
    Ok(check_shares(sharing, answer, &mut scratch))
}

/// Whether the text is that of shares of the network whose certificate holds.
pub fn is_certified_shares_text(
    alloc: Global,
    sharing: &Sharing,
    text: &[u8],
) -> Result<bool, NoMemory>
    ensures { IfOk result (λ holds. (holds ≡ true) ↔ IsCertifiedShares sharing.now text.now) }
{
    let answer = match read_shares(alloc, sharing, text) {
        Ok(answer) => answer,
        Err(AnswerBad::NotText) => return Ok(false),
        Err(AnswerBad::NoMemory) => return Err(NoMemory),
    };
    are_certified_shares(alloc, sharing, &answer)
}
