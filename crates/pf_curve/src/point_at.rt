// The smallest least cut at one parameter.
ghost use Rattle.std.specs.Prelude.{◌≡◌, ◌⊎◌, ◌↔◌, IfOk, Err};
ghost use Rattle.std.specs.Bool.{MatchBool};
ghost use Rattle.pf_model.specs.Fraction.{IsBelow};
ghost use Rattle.pf_model.specs.Network.{IsInInterval};
ghost use Rattle.pf_model.specs.Curve.{IsPoint};
ghost use Rattle.pf_model.specs.Answer.{IsPointShape};

use crate::finder::Finder;
use crate::point::Point;
use pf_frame::NoMemory;
use pf_net::Net;
use pf_rat::Rat;
use std::alloc::Global;
use thiserror::Error;

/// Why there is no least cut at a parameter.
#[derive(Clone, Copy, Debug, PartialEq, Eq, Error)]
pub enum AtBad {
    #[error("outside")]
    Outside,
    #[error("no memory")]
    NoMemory,
}

impl From<NoMemory> for AtBad {
    ghost use Rattle.pf_curve.specs.declared.point_at.AtBad.TheVariants.{NoMemory};

    ghost from_gives = { λ _ bad. bad ≡ NoMemory };

    fn from(_error: NoMemory) -> AtBad {
        AtBad::NoMemory
    }
}

// The smallest least cut at a parameter of the interval, and a greatest flow there.
fn point_at(alloc: Global, net: &Net, at: &Rat) -> Result<Point, NoMemory>
    requires { IsInInterval net.now at.now }
    ensures parameter { IfOk result (λ p. p.at ≡ at.now) }
    ensures point { IfOk result (λ p. IsPoint net.now p.at p.side p.flow) }
    ensures shape { IfOk result (IsPointShape net.now) }
{
    let finder = Finder::make(alloc, net)?;
    finder.into_point(alloc, at)
}

// Whether the parameter lies in the network's interval.
fn lies_inside(net: &Net, at: &Rat) -> bool
    ensures { MatchBool result (IsInInterval net.now at.now) (IsBelow at.now net.now.low ⊎ IsBelow net.now.high at.now) }
{
    let q = at.q();
    prove!(q >= 1);
    if !net.lo().is_at_most(at) {
        return false;
    }
    at.is_at_most(net.hi())
}

/// The smallest least cut at the parameter `at`, with a greatest flow there in units of `1/q` of `at`. It is `Outside`
/// exactly where `at` is below the low end of the network's interval or above its high end.
pub fn at(alloc: Global, net: &Net, at: &Rat) -> Result<Point, AtBad>
    ensures parameter { IfOk result (λ p. p.at ≡ at.now) }
    ensures point { IfOk result (λ p. IsPoint net.now p.at p.side p.flow) }
    ensures shape { IfOk result (IsPointShape net.now) }
    ensures outside { (result ≡ Err AtBad.Outside) ↔ (IsBelow at.now net.now.low ⊎ IsBelow net.now.high at.now) }
{
    if !lies_inside(net, at) {
        return Err(AtBad::Outside);
    }
    Ok(point_at(alloc, net, at)?)
}
