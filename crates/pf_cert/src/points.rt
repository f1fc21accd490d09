// The points of a curve: they rise strictly from the low end of the interval to its high end.
ghost use Rattle.std.specs.Prelude.{◌↔◌, ◌≤◌, IsTrue, All, length};
ghost use Rattle.std.specs.Bool.{OnTrue};
ghost use Rattle.pf_model.specs.Fraction.{IsEqual, IsParameter};
ghost use Rattle.pf_model.specs.Curve.{IsDivision};
ghost use Rattle.pf_cert.specs.Parts.{Rise};

use pf_curve::Curve;
use pf_net::Net;
use pf_rat::Rat;

// Whether the first fraction is equal to `lo`, and the last one to `hi`.
fn is_span(first: &Rat, last: &Rat, lo: &Rat, hi: &Rat) -> bool
    ensures { IsTrue result ↔ (IsEqual first.now lo.now × IsEqual last.now hi.now) }
{
    if !first.cmp(lo).is_eq() {
        return false;
    }
    last.cmp(hi).is_eq()
}

// Whether each fraction is below the next.
fn rise(points: &[Rat]) -> bool
    requires { 2 ≤ length points.now }
    ensures exact { IsTrue result ↔ Rise points.now }
    ensures parameters { OnTrue result (All IsParameter points.now) }
{
    'points: for i in 1..points.len() {
        if !points[i - 1].cmp(&points[i]).is_lt() {
            return false;
        }
    }
    true
}

/// Whether there is a cut, and the points rise strictly from the low end of the network's interval to its high end.
pub fn is_division(net: &Net, curve: &Curve) -> bool
    ensures { IsTrue result ↔ IsDivision net.now curve.now.points curve.now.cuts }
{
    let points = curve.points();
    let last = points.len() - 1;
    if last == 0 {
        return false;
    }
    if !is_span(&points[0], &points[last], net.lo(), net.hi()) {
        return false;
    }
    rise(points)
}
