// A flow at one parameter is made a preflow at a greater one, and then a greatest flow.
ghost use Rattle.std.specs.Prelude.{◌≡◌, ◌+◌, ◌<◌, ◌≤◌, ◌^◌, length, slice_index_or, ℕ, ℤ, pos, ◌≤ℤ◌, ◌<ℤ◌, slice_set};
ghost use Rattle.pf_model.specs.Fraction.{IsBoundedFraction};
ghost use Rattle.pf_model.specs.Cut.{at_arc};
ghost use Rattle.pf_model.specs.Flow.{IsPreflow, IsGreatest};
ghost use Rattle.pf_model.specs.Residual.{HasValidLabels};
ghost use Rattle.pf_model.specs.Network.{IsInInterval, network_at, capacity_at};
ghost use Rattle.pf_frame.specs.Numbers.{IsBounded};
ghost use Rattle.pf_net.specs.Limits.{IsSmallArc, digraph_of};
ghost use Rattle.pf_preflow.specs.Engine.{AreLow, IsFor, KeepsEnds, network};
ghost use Rattle.pf_preflow.specs.Labels.{changed, rises};
ghost use Rattle.pf_sweep.specs.Parameters.{fraction_of};
ghost use Rattle.pf_sweep.specs.Swept.{IsEngineOf};
ghost use Rattle.pf_sweep.specs.Moving.{caps_of, is_filled, fitted, IsMoving, IsAtEnds, IsBefore};

use crate::parameter::Parameter;
use pf_frame::Frame;
use pf_net::{AffineArc, Net};
use pf_preflow::Engine;
use pf_steps::Steps;
use std::sync::ledger::Ledger;

// The capacity of an arc at the parameter, in units of `1/unit` where the parameter is `p/unit`.
fn capacity(arc: &AffineArc, at: &Parameter) -> i128
    requires small { IsSmallArc arc.now }
    requires bounds { IsBoundedFraction (fraction_of at.now) }
    ensures { result ≡ capacity_at (fraction_of at.now) arc.now }
{
    i128::from(arc.a) * at.unit + i128::from(arc.b) * at.p
}

// Whether the arc leaves the source, and its head has a label below the number of nodes.
fn leads_low(frame: &Frame, labels: &[u32], s: u32, i: u32) -> bool
    requires arc { i < length frame.now.ends }
    requires labels { length labels.now ≡ frame.now.nodes }
    ensures { result ≡ is_filled frame.now labels.now s i }
{
    frame.tail(i) == s && labels[frame.head(i) as usize] < frame.nodes()
}

// What an arc carries from now on: such an arc is filled, each other one is cut to its capacity.
fn fit(filled: bool, cap: i128, x: i128) -> i128
    ensures { result ≡ fitted filled cap x }
{
    if filled {
        return cap;
    }
    if cap <= x { cap } else { x }
}

// Puts a number in one place.
fn put(numbers: &mut [i128], place: u32, amount: i128)
    requires place { place < length numbers.old }
    requires low { pos 0 ≤ℤ amount }
    requires high { amount <ℤ pos (2 ^ 104) }
    ensures { numbers.new ≡ slice_set numbers.old place amount }
{
    numbers[place as usize] = amount;
}

// Writes the capacity of an arc at the parameter, and what it carries at first there.
fn touch(net: &Net, labels: &[u32], at: &Parameter, caps: &mut [i128], flow: &mut [i128], i: u32)
    requires arc { i < length net.now.arcs }
    requires bounds { IsBoundedFraction (fraction_of at.now) }
    requires wanted { IsBounded (digraph_of net.now) (caps_of net.now at.now.unit at.now.p) }
    requires labels { length labels.now ≡ net.now.nodes }
    requires caps { length caps.old ≡ length net.now.arcs }
    requires flow { length flow.old ≡ length net.now.arcs }
    requires low { pos 0 ≤ℤ at_arc flow.old i }
    requires high { at_arc flow.old i <ℤ pos (2 ^ 104) }
    ensures caps { caps.new ≡ slice_set caps.old i (at_arc (caps_of net.now at.now.unit at.now.p) i) }
    ensures flow { flow.new ≡ slice_set flow.old i (fitted (is_filled (digraph_of net.now) labels.now net.now.source i) (at_arc (caps_of net.now at.now.unit at.now.p) i) (at_arc flow.old i)) }
{
    let frame = net.frame();
    let arc = net.arc(i);
    let cap = capacity(&arc, at);
    let filled = leads_low(frame, labels, net.source(), i);
    let x = fit(filled, cap, flow[i as usize]);
    put(caps, i, cap);
    put(flow, i, x);
}

// The same of all arcs out of the source and into the sink. No other arc has a slope.
fn touch_ends(net: &Net, labels: &[u32], at: &Parameter, caps: &mut [i128], flow: &mut [i128])
    requires bounds { IsBoundedFraction (fraction_of at.now) }
    requires wanted { IsBounded (digraph_of net.now) (caps_of net.now at.now.unit at.now.p) }
    requires labels { length labels.now ≡ net.now.nodes }
    requires caps { length caps.old ≡ length net.now.arcs }
    requires flow { IsBounded (digraph_of net.now) flow.old }
    ensures { IsMoving (digraph_of net.now) labels.now net.now.source (caps_of net.now at.now.unit at.now.p) caps.old flow.old caps.new flow.new
        (IsAtEnds (digraph_of net.now) net.now.source net.now.sink) }
{
    let frame = net.frame();
    let s = net.source();
    let t = net.sink();
    'outs: for i in frame.outs(s) {
        touch(net, labels, at, caps, flow, *i);
    }
    'ins: for i in frame.ins(t) {
        touch(net, labels, at, caps, flow, *i);
    }
}

// Goes on from the labels as they stand, and makes the preflow a greatest flow. No label falls.
fn go_on<L: Ledger>(
    engine: &mut Engine,
    frame: &Frame,
    caps: &[i128],
    flow: &mut [i128],
    steps: &mut Steps<L>,
)
    requires frame { IsFor engine.old frame.now }
    requires caps { IsBounded frame.now caps.now }
    requires flow { IsPreflow (network engine.old frame.now caps.now) flow.old }
    requires labels { HasValidLabels (network engine.old frame.now caps.now) flow.old engine.old.labels }
    ensures none_fell { (v : ℕ) → slice_index_or engine.old.labels v 0 ≤ slice_index_or engine.new.labels v 0 }
    ensures at_least { changed engine.old.labels engine.new.labels + steps.old ≤ steps.new }
    ensures at_most { steps.new ≤ steps.old + rises engine.old.labels engine.new.labels }
    ensures greatest { IsGreatest (network engine.new frame.now caps.now) flow.new }
    ensures labels { HasValidLabels (network engine.new frame.now caps.now) flow.new engine.new.labels }
    ensures low { AreLow engine.new.nodes engine.new.labels }
    ensures ends { KeepsEnds engine.old engine.new }
{
    engine.run(frame, caps, flow, steps);
}

/// Makes a flow at a parameter of the interval a greatest flow at another one, which is not below it, and writes the
/// capacities there. The arcs out of the source to nodes with a label below the number of nodes are filled, the arcs into the sink
/// are cut to their new capacities, and the search goes on from the labels as they stand.
pub fn move_on<L: Ledger>(
    net: &Net,
    engine: &mut Engine,
    at: &Parameter,
    caps: &mut [i128],
    flow: &mut [i128],
    steps: &mut Steps<L>,
)
    requires bounds { IsBoundedFraction (fraction_of at.now) }
    requires inside { IsInInterval net.now (fraction_of at.now) }
    requires engine { IsEngineOf net.now engine.old }
    requires before { IsBefore net.now at.now.unit at.now.p caps.old flow.old engine.old.labels }
    ensures engine { IsEngineOf net.now engine.new }
    ensures caps { caps.new ≡ caps_of net.now at.now.unit at.now.p }
    ensures greatest { IsGreatest (network_at net.now (fraction_of at.now)) flow.new }
    ensures valid { HasValidLabels (network_at net.now (fraction_of at.now)) flow.new engine.new.labels }
    ensures low { AreLow net.now.nodes engine.new.labels }
    ensures none_fell { (v : ℕ) → slice_index_or engine.old.labels v 0 ≤ slice_index_or engine.new.labels v 0 }
    ensures at_least { changed engine.old.labels engine.new.labels + steps.old ≤ steps.new }
    ensures at_most { steps.new ≤ steps.old + rises engine.old.labels engine.new.labels }
{
    let frame = net.frame();
    touch_ends(net, engine.labels(), at, caps, flow);
    go_on(engine, frame, caps, flow, steps);
}

// Writes all capacities at the parameter.
fn write_caps(net: &Net, at: &Parameter, caps: &mut [i128])
    requires bounds { IsBoundedFraction (fraction_of at.now) }
    requires wanted { IsBounded (digraph_of net.now) (caps_of net.now at.now.unit at.now.p) }
    requires caps { length caps.old ≡ length net.now.arcs }
    ensures { caps.new ≡ caps_of net.now at.now.unit at.now.p }
{
    let frame = net.frame();
    let count = frame.arcs();
    'each: for i in 0..count {
        let arc = net.arc(i);
        let cap = capacity(&arc, at);
        put(caps, i, cap);
    }
}

/// Writes the capacities at the parameter of the interval, and a greatest flow there, made from nothing.
pub fn move_first(
    net: &Net,
    engine: &mut Engine,
    at: &Parameter,
    caps: &mut [i128],
    flow: &mut [i128],
)
    requires bounds { IsBoundedFraction (fraction_of at.now) }
    requires inside { IsInInterval net.now (fraction_of at.now) }
    requires engine { IsEngineOf net.now engine.old }
    requires caps { length caps.old ≡ length net.now.arcs }
    requires flow { length flow.old ≡ length net.now.arcs }
    ensures engine { IsEngineOf net.now engine.new }
    ensures caps { caps.new ≡ caps_of net.now at.now.unit at.now.p }
    ensures greatest { IsGreatest (network_at net.now (fraction_of at.now)) flow.new }
    ensures valid { HasValidLabels (network_at net.now (fraction_of at.now)) flow.new engine.new.labels }
    ensures low { AreLow net.now.nodes engine.new.labels }
{
    let frame = net.frame();
    write_caps(net, at, caps);
    engine.find(frame, caps, flow);
}
