// The cuts of a curve: each holds the source and not the sink, and their slopes fall strictly.
ghost use Rattle.std.specs.Prelude.{◌≡◌, ◌<◌, ◌<ℤ◌, ◌↔◌, IsTrue, All, length};
ghost use Rattle.pf_model.specs.Network.{IsNetworkCut, line_of};
ghost use Rattle.pf_model.specs.Curve.{SlopesFall, cut_at};
ghost use Rattle.pf_cert.specs.Parts.{AreCuts};

use pf_curve::Curve;
use pf_net::Net;
use pf_rat::Line;

/// The number of cuts.
pub fn cut_count(curve: &Curve) -> usize
    ensures { result ≡ length curve.now.cuts }
{
    curve.points().len() - 1
}

/// Whether each cut of the curve is true at the source and false at the sink.
pub fn are_cuts(net: &Net, curve: &Curve) -> bool
    requires { All (λ cut. length cut ≡ net.now.nodes) curve.now.cuts }
    ensures { IsTrue result ↔ AreCuts net.now curve.now.cuts }
{
    'cuts: for i in 0..cut_count(curve) {
        if !net.is_cut(curve.cut(i)) {
            return false;
        }
    }
    true
}

/// The line of cut `i`.
pub fn cut_line(net: &Net, curve: &Curve, i: usize) -> Line
    requires place { i < length curve.now.cuts }
    requires cut { IsNetworkCut net.now (cut_at curve.now.cuts i) }
    ensures { result ≡ line_of net.now (cut_at curve.now.cuts i) }
{
    net.cut_line(curve.cut(i))
}

// Whether the slope of the second line is below that of the first.
fn falls(first: &Line, second: &Line) -> bool
    ensures { IsTrue result ↔ (second.now.b <ℤ first.now.b) }
{
    let before = first.b();
    let after = second.b();
    after < before
}

/// Whether the slopes fall strictly from cut to cut.
pub fn slopes_fall(net: &Net, curve: &Curve) -> bool
    requires { AreCuts net.now curve.now.cuts }
    ensures { IsTrue result ↔ SlopesFall net.now curve.now.cuts }
{
    let count = cut_count(curve);
    if count == 0 {
        return true;
    }
    let mut before = cut_line(net, curve, 0);
    'cuts: for i in 1..count {
        let after = cut_line(net, curve, i);
        if !falls(&before, &after) {
            return false;
        }
        before = after;
    }
    true
}
