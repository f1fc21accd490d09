// What certifies a curve, part by part.
ghost use Rattle.std.specs.Prelude.{◌≡◌, ◌+◌, ◌<◌, ◌↔◌, IsTrue, All, length};
ghost use Rattle.std.specs.Bool.{OnTrue};
ghost use Rattle.pf_model.specs.Network.{line_of};
ghost use Rattle.pf_model.specs.Curve.{IsDivision, IsCurve, CertifiesCurve, Meets, own_point, cut_at, flow_at};
ghost use Rattle.pf_frame.specs.Numbers.{IsBounded};
ghost use Rattle.pf_frame.specs.Scratch.{Serves, KeepsPlaces};
ghost use Rattle.pf_net.specs.Limits.{digraph_of};
ghost use Rattle.pf_cert.specs.Parts.{AreCuts, AreFlows, AreBounded, IsReached, CertifiesCut, CertifiesCuts};

use crate::cuts::{are_cuts, cut_count, cut_line, slopes_fall};
use crate::flows::are_flows;
use crate::points::is_division;
use pf_curve::Curve;
use pf_frame::{Scratch, reach, value};
use pf_net::{Net, Sense};
use pf_rat::Line;

// Whether the value of the flow at point `j` is the capacity of cut `i` there, both in units of `1/q` of that point `p/q`.
// The line is that of the cut.
fn meets(net: &Net, curve: &Curve, j: usize, i: usize, line: &Line) -> bool
    requires point { j < length curve.now.points }
    requires line { line.now ≡ line_of net.now (cut_at curve.now.cuts i) }
    requires flow { IsBounded (digraph_of net.now) (flow_at curve.now.flows j) }
    ensures { IsTrue result ↔ Meets net.now curve.now.points curve.now.cuts curve.now.flows j i }
{
    let points = curve.points();
    let sent = value(net.frame(), net.source(), curve.flow(j));
    sent == line.at(&points[j])
}

// Whether two sides have the same truth values.
fn is_same_side(first: &[bool], second: &[bool]) -> bool
    ensures { IsTrue result ↔ (first.now ≡ second.now) }
{
    first == second
}

// Whether cut `i` is exactly what the residual graph of the flow at point `j` reaches from the source there. `caps` and `side`
// are working room, with one place per arc and one per node.
fn is_reached(
    net: &Net,
    curve: &Curve,
    j: usize,
    i: usize,
    scratch: &mut Scratch,
    caps: &mut [i128],
    side: &mut [bool],
) -> bool
    requires point { j < length curve.now.points }
    requires place { i < length curve.now.cuts }
    requires division { IsDivision net.now curve.now.points curve.now.cuts }
    requires flows { AreFlows net.now curve.now.points curve.now.flows }
    requires room { Serves scratch.old net.now.nodes (length net.now.arcs) }
    requires capacities { length caps.old ≡ length net.now.arcs }
    requires nodes { length side.old ≡ net.now.nodes }
    ensures exact { IsTrue result ↔ IsReached net.now curve.now.points curve.now.cuts curve.now.flows j i }
    ensures places { KeepsPlaces scratch.old scratch.new }
{
    let points = curve.points();
    let frame = net.frame();
    let flow = curve.flow(j);
    net.caps_at(&points[j], caps);
    reach(frame, caps, flow, net.source(), scratch, side);
    is_same_side(side, curve.cut(i))
}

// The number of the point whose flow reaches cut `i`: the right one in a rising network, the left one in a falling one.
fn own_place(net: &Net, curve: &Curve, i: usize) -> usize
    requires { i < length curve.now.cuts }
    ensures own { result ≡ own_point net.now.sense i }
    ensures known { result < length curve.now.points }
{
    // Gives the proof the numbers of points and cuts.
    let _ = curve.points();
    match net.sense() {
        Sense::Rising => i + 1,
        Sense::Falling => i,
    }
}

// Whether cut `i` is certified by the flows at its left and its right point.
fn certifies_cut(
    net: &Net,
    curve: &Curve,
    i: usize,
    scratch: &mut Scratch,
    caps: &mut [i128],
    side: &mut [bool],
) -> bool
    requires place { i < length curve.now.cuts }
    requires division { IsDivision net.now curve.now.points curve.now.cuts }
    requires cuts { AreCuts net.now curve.now.cuts }
    requires flows { AreFlows net.now curve.now.points curve.now.flows }
    requires bounded { AreBounded (digraph_of net.now) curve.now.flows }
    requires room { Serves scratch.old net.now.nodes (length net.now.arcs) }
    requires capacities { length caps.old ≡ length net.now.arcs }
    requires nodes { length side.old ≡ net.now.nodes }
    ensures exact { IsTrue result ↔ CertifiesCut net.now curve.now.points curve.now.cuts curve.now.flows i }
    ensures places { KeepsPlaces scratch.old scratch.new }
{
    // Gives the proof the numbers of points and flows.
    let _ = curve.points();
    let line = cut_line(net, curve, i);
    if !meets(net, curve, i, i, &line) {
        return false;
    }
    if !meets(net, curve, i + 1, i, &line) {
        return false;
    }
    let own = own_place(net, curve, i);
    is_reached(net, curve, own, i, scratch, caps, side)
}

// Whether each cut is certified.
fn certifies_cuts(
    net: &Net,
    curve: &Curve,
    scratch: &mut Scratch,
    caps: &mut [i128],
    side: &mut [bool],
) -> bool
    requires division { IsDivision net.now curve.now.points curve.now.cuts }
    requires cuts { AreCuts net.now curve.now.cuts }
    requires flows { AreFlows net.now curve.now.points curve.now.flows }
    requires bounded { AreBounded (digraph_of net.now) curve.now.flows }
    requires room { Serves scratch.old net.now.nodes (length net.now.arcs) }
    requires capacities { length caps.old ≡ length net.now.arcs }
    requires nodes { length side.old ≡ net.now.nodes }
    ensures exact { IsTrue result ↔ CertifiesCuts net.now curve.now.points curve.now.cuts curve.now.flows }
    ensures places { KeepsPlaces scratch.old scratch.new }
{
    'cuts: for i in 0..cut_count(curve) {
        if !certifies_cut(net, curve, i, scratch, caps, side) {
            return false;
        }
    }
    true
}

/// Whether the lists of the curve certify it: the points divide the network's interval, each side is a cut, slopes fall
/// strictly, at each point `p/q` there is a flow whose value is the capacity of both neighbouring cuts, in units of `1/q`, and
/// each cut is what the flow at its own point still reaches: the right one in a rising network, the left one in a falling one.
/// Then they are the whole least-cut function of the network. Any values may stand in them. Cuts are indexed by node, flows by
/// arc. `caps` and `side` are working room, with one place per arc and one per node; what stands there has no meaning before
/// or after.
pub fn check_curve(
    net: &Net,
    curve: &Curve,
    scratch: &mut Scratch,
    caps: &mut [i128],
    side: &mut [bool],
) -> bool
    requires cuts { All (λ cut. length cut ≡ net.now.nodes) curve.now.cuts }
    requires flows { All (λ flow. length flow ≡ length net.now.arcs) curve.now.flows }
    requires room { Serves scratch.old net.now.nodes (length net.now.arcs) }
    requires capacities { length caps.old ≡ length net.now.arcs }
    requires nodes { length side.old ≡ net.now.nodes }
    ensures exact { IsTrue result ↔ CertifiesCurve net.now curve.now.points curve.now.cuts curve.now.flows }
    ensures curve { OnTrue result (IsCurve net.now curve.now.points curve.now.cuts) }
    ensures places { KeepsPlaces scratch.old scratch.new }
{
    // They tell the numbers of points and flows, and that the network is one.
    let _ = curve.points();
    let _ = net.frame();
    if !is_division(net, curve) {
        return false;
    }
    if !are_cuts(net, curve) {
        return false;
    }
    if !slopes_fall(net, curve) {
        return false;
    }
    if !are_flows(net, curve, scratch, caps) {
        return false;
    }
    certifies_cuts(net, curve, scratch, caps, side)
}
