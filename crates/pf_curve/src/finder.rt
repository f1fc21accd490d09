// Greatest flows and smallest least cuts of one network, with one engine and one set of working room for all of them.
ghost use Rattle.std.specs.Prelude.{◌≡◌, ◌<◌, length, map, IfOk};
ghost use Rattle.pf_model.specs.Cut.{IsSmallestLeast};
ghost use Rattle.pf_model.specs.Flow.{IsFlow, IsGreatest};
ghost use Rattle.pf_model.specs.Digraph.{network_of};
ghost use Rattle.pf_model.specs.Network.{IsInInterval, capacity_at, network_at};
ghost use Rattle.pf_model.specs.Curve.{IsPoint};
ghost use Rattle.pf_model.specs.Answer.{IsFlowShape, IsPointShape};
ghost use Rattle.pf_frame.specs.Numbers.{IsBounded};
ghost use Rattle.pf_frame.specs.Scratch.{Serves, KeepsPlaces};
ghost use Rattle.pf_net.specs.Limits.{digraph_of};
ghost use Rattle.pf_curve.specs.Finding.{IsEngineOf};

use crate::point::Point;
use pf_carry::{Units, carry_within};
use pf_frame::{NoMemory, Numbers, Scratch, Side, reach};
use pf_net::Net;
use pf_preflow::Engine;
use pf_rat::Rat;
use std::alloc::Global;
use std::marker::Model;

/// All the room that flows and cuts of one network need. Contracts see the network; what stands in the room has no meaning
/// between calls, and no call but `make` and `into_point` takes memory.
#[derive(Drop)]
pub struct Finder<'a> {
    net: &'a Net,
    engine: Engine,
    scratch: Scratch,
    caps: Vec<i128>,
    flow: Vec<i128>,
}

impl<'a> Model for Finder<'a> {
    ghost use Rattle.pf_model.specs.Network.{Network};
    ghost use Rattle.pf_curve.specs.Finding.{IsFinder};

    ghost Value = { Network };

    ghost view = { λ f. f.net.now };

    ghost invariant = { λ f. IsFinder f.net.now f.engine f.scratch f.caps.items f.flow.items };
}

// Writes the capacities at a parameter of the interval, and a greatest flow there.
fn write_flow(net: &Net, at: &Rat, engine: &mut Engine, caps: &mut [i128], flow: &mut [i128])
    requires inside { IsInInterval net.now at.now }
    requires engine { IsEngineOf net.now engine.old }
    requires capacities { length caps.old ≡ length net.now.arcs }
    requires numbers { length flow.old ≡ length net.now.arcs }
    ensures engine { IsEngineOf net.now engine.new }
    ensures capacities { caps.new ≡ map (capacity_at at.now) net.now.arcs }
    ensures bounded { IsBounded (digraph_of net.now) caps.new }
    ensures best { IsGreatest (network_of (digraph_of net.now) caps.new net.now.source net.now.sink) flow.new }
    ensures greatest { IsGreatest (network_at net.now at.now) flow.new }
    ensures shape { IsFlowShape net.now flow.new }
{
    let frame = net.frame();
    net.caps_at(at, caps);
    engine.find(frame, caps, flow);
}

// Makes a flow at one parameter of the interval a greatest flow at another, and writes the capacities there.
fn move_flow(
    net: &Net,
    from: &Rat,
    to: &Rat,
    engine: &mut Engine,
    scratch: &mut Scratch,
    caps: &mut [i128],
    flow: &mut [i128],
)
    requires from { IsInInterval net.now from.now }
    requires to { IsInInterval net.now to.now }
    requires engine { IsEngineOf net.now engine.old }
    requires room { Serves scratch.old net.now.nodes (length net.now.arcs) }
    requires capacities { length caps.old ≡ length net.now.arcs }
    requires flow { IsFlow (network_at net.now from.now) flow.old }
    ensures engine { IsEngineOf net.now engine.new }
    ensures places { KeepsPlaces scratch.old scratch.new }
    ensures capacities { caps.new ≡ map (capacity_at to.now) net.now.arcs }
    ensures greatest { IsGreatest (network_at net.now to.now) flow.new }
    ensures shape { IsFlowShape net.now flow.new }
{
    let frame = net.frame();
    let s = net.source();
    let t = net.sink();
    let from_unit = from.q();
    let to_unit = to.q();
    let units = Units {
        from: from_unit,
        to: to_unit,
    };
    let sums = scratch.sums.as_mut_slice();
    net.caps_at(to, caps);
    carry_within(frame, s, t, &units, caps, flow, sums);
    engine.find_from(frame, caps, flow);
}

// Writes a greatest flow at a parameter of the interval, and the smallest least cut there.
fn write_point(
    net: &Net,
    at: &Rat,
    engine: &mut Engine,
    scratch: &mut Scratch,
    caps: &mut [i128],
    flow: &mut [i128],
    side: &mut [bool],
)
    requires inside { IsInInterval net.now at.now }
    requires engine { IsEngineOf net.now engine.old }
    requires room { Serves scratch.old net.now.nodes (length net.now.arcs) }
    requires capacities { length caps.old ≡ length net.now.arcs }
    requires numbers { length flow.old ≡ length net.now.arcs }
    requires nodes { length side.old ≡ net.now.nodes }
    ensures engine { IsEngineOf net.now engine.new }
    ensures places { KeepsPlaces scratch.old scratch.new }
    ensures point { IsPoint net.now at.now side.new flow.new }
    ensures shape { IsPointShape net.now (record { at = at.now; side = side.new; flow = flow.new }) }
{
    let q = at.q();
    prove!(q >= 1);
    let frame = net.frame();
    write_flow(net, at, engine, caps, flow);
    reach(frame, caps, flow, net.source(), scratch, side);
}

impl<'a> Finder<'a> {
    /// The room for any parameter of the network's interval.
    pub fn make(alloc: Global, net: &'a Net) -> Result<Finder<'a>, NoMemory>
        ensures { IfOk result (λ f. f ≡ net.now) }
    {
        let frame = net.frame();
        let nodes = frame.nodes() as usize;
        let arcs = frame.arcs() as usize;
        let engine = Engine::make(alloc, frame, net.source(), net.sink())?;
        let scratch = Scratch::make(alloc, nodes, arcs)?;
        let caps = vec![in alloc; 0i128; arcs]?;
        let flow = vec![in alloc; 0i128; arcs]?;
        Ok(Finder {
            net,
            engine,
            scratch,
            caps,
            flow,
        })
    }

    /// The network.
    pub fn net(&self) -> &'a Net
        ensures { result.now ≡ self.now }
    {
        self.net
    }

    /// Writes a greatest flow at a parameter of the interval, in units of `1/q` where the parameter is `p/q`. `flow` is indexed
    /// by arcs.
    pub fn write_flow(&mut self, at: &Rat, flow: &mut [i128])
        requires inside { IsInInterval self.old at.now }
        requires numbers { length flow.old ≡ length self.old.arcs }
        ensures greatest { IsGreatest (network_at self.old at.now) flow.new }
        ensures shape { IsFlowShape self.old flow.new }
        ensures same { self.new ≡ self.old }
    {
        write_flow(self.net, at, &mut self.engine, &mut self.caps, flow);
    }

    /// Makes a flow at the parameter `from`, in units of `1/q` of it, a greatest flow at the parameter `to`, in units of `1/q` of this
    /// one: it is carried to the other unit and capacities, and the search goes on from there. Both lie in the interval. `flow` is
    /// indexed by arcs.
    pub(crate) fn move_flow(&mut self, from: &Rat, to: &Rat, flow: &mut [i128])
        requires from { IsInInterval self.old from.now }
        requires to { IsInInterval self.old to.now }
        requires flow { IsFlow (network_at self.old from.now) flow.old }
        ensures greatest { IsGreatest (network_at self.old to.now) flow.new }
        ensures shape { IsFlowShape self.old flow.new }
        ensures same { self.new ≡ self.old }
    {
        move_flow(
            self.net,
            from,
            to,
            &mut self.engine,
            &mut self.scratch,
            &mut self.caps,
            flow,
        );
    }

    /// Writes the smallest least cut at a parameter of the interval. `side` is indexed by nodes.
    pub fn write_cut(&mut self, at: &Rat, side: &mut [bool])
        requires inside { IsInInterval self.old at.now }
        requires nodes { length side.old ≡ self.old.nodes }
        ensures smallest { IsSmallestLeast (network_at self.old at.now) side.new }
        ensures same { self.new ≡ self.old }
    {
        write_point(
            self.net,
            at,
            &mut self.engine,
            &mut self.scratch,
            &mut self.caps,
            &mut self.flow,
            side,
        );
    }

    /// Writes the smallest least cut at a parameter of the interval, indexed by nodes, and a greatest flow there, indexed by arcs and
    /// in units of `1/q` where the parameter is `p/q`.
    pub fn write_point(&mut self, at: &Rat, side: &mut [bool], flow: &mut [i128])
        requires inside { IsInInterval self.old at.now }
        requires nodes { length side.old ≡ self.old.nodes }
        requires numbers { length flow.old ≡ length self.old.arcs }
        ensures point { IsPoint self.old at.now side.new flow.new }
        ensures shape { IsPointShape self.old (record { at = at.now; side = side.new; flow = flow.new }) }
        ensures same { self.new ≡ self.old }
    {
        write_point(
            self.net,
            at,
            &mut self.engine,
            &mut self.scratch,
            &mut self.caps,
            flow,
            side,
        );
    }

    /// The smallest least cut at a parameter of the interval, and a greatest flow there. It ends the use of the room.
    pub fn into_point(self, alloc: Global, at: &Rat) -> Result<Point, NoMemory>
        requires { IsInInterval self at.now }
        ensures parameter { IfOk result (λ p. p.at ≡ at.now) }
        ensures point { IfOk result (λ p. IsPoint self.entry p.at p.side p.flow) }
        ensures shape { IfOk result (IsPointShape self.entry) }
    {
        let nodes = self.net.frame().nodes() as usize;
        let mut side = vec![in alloc; false; nodes]?;
        let Finder {
            net,
            mut engine,
            mut scratch,
            mut caps,
            mut flow,
        } = self;
        write_point(
            net,
            at,
            &mut engine,
            &mut scratch,
            &mut caps,
            &mut flow,
            &mut side,
        );
        Ok(Point::new(*at, Side::from_vec(side), Numbers::from_vec(flow)))
    }
}
