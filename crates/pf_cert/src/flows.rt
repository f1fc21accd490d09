// The flows of a curve, one at each point, in units of `1/q` of that point `p/q`.
ghost use Rattle.std.specs.Prelude.{◌≡◌, ◌↔◌, IsTrue, All, length};
ghost use Rattle.std.specs.Bool.{OnTrue};
ghost use Rattle.pf_model.specs.Flow.{IsFlow};
ghost use Rattle.pf_model.specs.Network.{IsInInterval, network_at};
ghost use Rattle.pf_model.specs.Curve.{IsDivision};
ghost use Rattle.pf_frame.specs.Numbers.{IsBounded};
ghost use Rattle.pf_frame.specs.Scratch.{Serves, KeepsPlaces};
ghost use Rattle.pf_net.specs.Limits.{digraph_of};
ghost use Rattle.pf_cert.specs.Parts.{AreFlows, AreBounded};

use pf_curve::Curve;
use pf_frame::{Scratch, is_flow};
use pf_net::Net;
use pf_rat::Rat;

// Whether the list is a flow from the source to the sink at the parameter. It is indexed by arc. `caps` is working room, with
// one place per arc.
fn has_flow(net: &Net, at: &Rat, flow: &[i128], scratch: &mut Scratch, caps: &mut [i128]) -> bool
    requires inside { IsInInterval net.now at.now }
    requires full { length flow.now ≡ length net.now.arcs }
    requires room { Serves scratch.old net.now.nodes (length net.now.arcs) }
    requires capacities { length caps.old ≡ length net.now.arcs }
    ensures exact { IsTrue result ↔ IsFlow (network_at net.now at.now) flow.now }
    ensures bounded { OnTrue result (IsBounded (digraph_of net.now) flow.now) }
    ensures places { KeepsPlaces scratch.old scratch.new }
{
    let frame = net.frame();
    net.caps_at(at, caps);
    is_flow(frame, caps, net.source(), net.sink(), flow, scratch)
}

/// Whether the list at each point is a flow there. `caps` is working room, with one place per arc.
pub fn are_flows(net: &Net, curve: &Curve, scratch: &mut Scratch, caps: &mut [i128]) -> bool
    requires division { IsDivision net.now curve.now.points curve.now.cuts }
    requires full { All (λ flow. length flow ≡ length net.now.arcs) curve.now.flows }
    requires room { Serves scratch.old net.now.nodes (length net.now.arcs) }
    requires capacities { length caps.old ≡ length net.now.arcs }
    ensures exact { IsTrue result ↔ AreFlows net.now curve.now.points curve.now.flows }
    ensures bounded { OnTrue result (AreBounded (digraph_of net.now) curve.now.flows) }
    ensures places { KeepsPlaces scratch.old scratch.new }
{
    // Gives the proof what every network keeps.
    let _ = net.frame();
    let points = curve.points();
    'points: for j in 0..points.len() {
        if !has_flow(net, &points[j], curve.flow(j), scratch, caps) {
            return false;
        }
    }
    true
}
