// The test of a curve, with working room of its own.
ghost use Rattle.std.specs.Prelude.{◌≡◌, ◌↔◌, true, IfOk};
ghost use Rattle.pf_model.specs.Answer.{IsCurveShape};
ghost use Rattle.pf_model.specs.Curve.{CertifiesCurve};

use crate::check::check_curve;
use pf_curve::Curve;
use pf_frame::{NoMemory, Scratch};
use pf_net::Net;
use std::alloc::Global;

/// Whether the lists of the curve certify it, as `check_curve` tests it. The working room is taken and given back here.
pub fn is_certified(alloc: Global, net: &Net, whole: &Curve) -> Result<bool, NoMemory>
    requires { IsCurveShape net.now whole.now }
    ensures { IfOk result (λ holds. (holds ≡ true) ↔ CertifiesCurve net.now whole.now.points whole.now.cuts whole.now.flows) }
{
    let nodes = net.frame().nodes() as usize;
    let arcs = net.frame().arcs() as usize;
    let mut scratch = Scratch::make(alloc, nodes, arcs)?;
    let mut caps = vec![in alloc; 0i128; arcs]?;
    let mut side = vec![in alloc; false; nodes]?;
    Ok(check_curve(net, whole, &mut scratch, &mut caps, &mut side))
}
