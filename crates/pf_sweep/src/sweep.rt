// A sweep through rising parameters, and its rows.
ghost use Rattle.std.specs.Prelude.{◌≡◌, ◌↔◌, IfSome, ◌+◌, ◌<◌, ◌≤◌, ◌^◌, length, map, true, if◌then◌else◌, ℤ, pos, ◌≤ℤ◌, ◌<ℤ◌, ◌*ℤ◌, IfOk, Err};
ghost use Rattle.pf_model.specs.declared.Sense.TheVariants.{Rising};
ghost use Rattle.pf_model.specs.Fraction.{IsAtMost, IsEqual, IsBoundedFraction, lowest};
ghost use Rattle.pf_model.specs.Line.{IsBoundedLine, value_at};
ghost use Rattle.pf_model.specs.Cut.{IsSmallestLeast, IsLeastValue, size};
ghost use Rattle.pf_model.specs.Flow.{IsGreatest, flow_value};
ghost use Rattle.pf_model.specs.Residual.{HasValidLabels};
ghost use Rattle.pf_model.specs.Network.{IsInInterval, network_at, ends_of};
ghost use Rattle.pf_frame.specs.Scratch.{Serves, KeepsPlaces};
ghost use Rattle.pf_net.specs.Limits.{IsBuilt};
ghost use Rattle.pf_preflow.specs.Engine.{AreLow};
ghost use Rattle.pf_carry.specs.Scaling.{IsFloor};
ghost use Rattle.pf_sweep.specs.Parameters.{of_units, fraction_of, most_unit, HasNearEnds, IsNearEnd, IsMultiple};
ghost use Rattle.pf_sweep.specs.Swept.{IsEngineOf, IsKept, IsMade, IsAdvanced, IsSettled, network_of_sweep, parameter_of};
ghost use Rattle.pf_sweep.specs.Moving.{caps_of};
ghost use Rattle.pf_sweep.specs.Rows.{IsRightRow, turned_row};

use crate::moving::{move_first, move_on};
use crate::parameter::Parameter;
use pf_frame::{NoMemory, Scratch, reach, value};
use pf_net::Net;
use pf_preflow::Engine;
use pf_rat::{Line, Rat};
use pf_steps::Steps;
use std::alloc::Global;
use std::marker::Model;
use std::sync::ledger::Ledger;
use thiserror::Error;

/// Why there is no sweep.
#[derive(Clone, Copy, Debug, PartialEq, Eq, Error)]
pub enum SweepBad {
    #[error("too fine")]
    TooFine,
    #[error("no memory")]
    NoMemory,
}

impl From<NoMemory> for SweepBad {
    ghost use Rattle.pf_sweep.specs.declared.sweep.SweepBad.TheVariants.{NoMemory};

    ghost from_gives = { λ _ bad. bad ≡ NoMemory };

    fn from(_error: NoMemory) -> SweepBad {
        SweepBad::NoMemory
    }
}

/// The least value at a parameter `p/q`, in units of `1/q`, and the number of nodes of the smallest least cut there. It comes out of
/// a sweep alone.
#[derive(Clone, Copy, Debug)]
pub struct SweepRow {
    at: Rat,
    least: i128,
    nodes: u32,
}

impl Model for SweepRow {
    ghost use Rattle.pf_model.specs.Answer.{Row, IsRowShape};

    ghost Value = { Row };

    ghost view = { λ r. record { at = r.at; value = r.least; size = r.nodes } };

    ghost inverse = { λ x. record { at = x.at; least = x.value; nodes = x.size } };

    ghost invariant = { λ r. IsRowShape (record { at = r.at; value = r.least; size = r.nodes }) };
}

impl SweepRow {
    /// The parameter.
    pub fn at(&self) -> Rat
        ensures { result ≡ self.now.at }
    {
        self.at
    }

    /// The least value at the parameter `p/q`, in units of `1/q`.
    pub fn value(&self) -> i128
        ensures { result ≡ self.now.value }
    {
        self.least
    }

    /// The number of nodes of the smallest least cut.
    pub fn size(&self) -> u32
        ensures { result ≡ self.now.size }
    {
        self.nodes
    }

    /// The row of the mirror, whose parameters are negated: this row with its parameter negated, and all else the same.
    pub fn turned(&self) -> SweepRow
        ensures { result ≡ turned_row self.now }
    {
        let at = Rat::new(-self.at.p(), self.at.q());
        SweepRow {
            at,
            least: self.least,
            nodes: self.nodes,
        }
    }
}

/// The smallest least cut when it was last sought, with its line and the number of its nodes. `side` is indexed by nodes.
#[derive(Drop)]
pub struct KeptCut {
    side: Vec<bool>,
    line: Line,
    size: u32,
}

/// A greatest flow at a parameter that only rises, and the labels with which it was found. Parameters are `p/unit` with one unit
/// for the whole sweep; flows are in units of `1/unit`. Contracts see the network, the unit, `p`, the flow and the labels.
#[derive(Drop)]
pub struct Sweep<'a> {
    net: &'a Net,
    at: Parameter,
    engine: Engine,
    scratch: Scratch,
    caps: Vec<i128>,
    flow: Vec<i128>,
    cut: KeptCut,
}

impl<'a> Model for Sweep<'a> {
    ghost use Rattle.pf_sweep.specs.Swept.{Swept, IsSweep};

    ghost Value = { Swept };

    ghost view = { λ s. record { net = s.net.now; unit = s.at.unit; at = s.at.p; flow = s.flow.items; labels = s.engine.labels } };

    ghost invariant = { λ s. IsSweep (record { net = s.net.now; unit = s.at.unit; at = s.at.p; flow = s.flow.items; labels = s.engine.labels })
        s.engine s.scratch s.caps.items s.cut };
}

// The quotient, rounded down.
fn quotient(x: i128, d: i128) -> i128
    requires low { pos 1 ≤ℤ x }
    requires high { x ≤ℤ pos most_unit }
    requires divisor { pos 1 ≤ℤ d }
    ensures floor { IsFloor x d result }
    ensures low { pos 0 ≤ℤ result }
    ensures high { result ≤ℤ pos most_unit }
{
    x / d
}

// The low end of the interval, in units of `1/unit`.
fn start_of(lo: &Rat, unit: i128) -> Parameter
    requires low { pos 1 ≤ℤ unit }
    requires high { unit ≤ℤ pos most_unit }
    requires near { IsNearEnd lo.now }
    requires whole { IsMultiple unit lo.now.q }
    ensures unit { result.unit ≡ unit }
    ensures equal { IsEqual (fraction_of result) lo.now }
    ensures bounds { IsBoundedFraction (fraction_of result) }
{
    let q = lo.q();
    prove!(q >= 1);
    let p = lo.p() * quotient(unit, q);
    Parameter { p, unit }
}

// One more, where the node is in the side.
fn count_node(inside: bool, count: u32) -> u32
    requires { count < 8192 }
    ensures { result ≡ count + (if inside then 1 else 0) }
{
    if inside { count + 1 } else { count }
}

// The number of nodes of a side.
fn count_nodes(side: &[bool]) -> u32
    requires { length side.now ≤ 8192 }
    ensures { result ≡ size side.now }
{
    let mut count = 0;
    'nodes: for v in 0..side.len() {
        count = count_node(side[v], count);
    }
    count
}

// Writes the smallest least cut at the parameter: what the residual graph of the greatest flow reaches.
fn write_side(
    net: &Net,
    at: &Parameter,
    caps: &[i128],
    flow: &[i128],
    scratch: &mut Scratch,
    side: &mut [bool],
)
    requires inside { IsInInterval net.now (fraction_of at.now) }
    requires bounds { IsBoundedFraction (fraction_of at.now) }
    requires caps { caps.now ≡ caps_of net.now at.now.unit at.now.p }
    requires greatest { IsGreatest (network_at net.now (fraction_of at.now)) flow.now }
    requires room { Serves scratch.old net.now.nodes (length net.now.arcs) }
    requires places { length side.old ≡ net.now.nodes }
    ensures smallest { IsSmallestLeast (network_at net.now (fraction_of at.now)) side.new }
    ensures few { length side.new ≤ 8192 }
    ensures places { KeepsPlaces scratch.old scratch.new }
{
    reach(net.frame(), caps, flow, net.source(), scratch, side);
}

// Seeks the smallest least cut at the parameter, with its line and the number of its nodes.
fn seek(
    net: &Net,
    at: &Parameter,
    caps: &[i128],
    flow: &[i128],
    scratch: &mut Scratch,
    cut: &mut KeptCut,
)
    requires rising { net.now.sense ≡ Rising }
    requires inside { IsInInterval net.now (fraction_of at.now) }
    requires bounds { IsBoundedFraction (fraction_of at.now) }
    requires caps { caps.now ≡ caps_of net.now at.now.unit at.now.p }
    requires greatest { IsGreatest (network_at net.now (fraction_of at.now)) flow.now }
    requires room { Serves scratch.old net.now.nodes (length net.now.arcs) }
    requires places { length cut.old.side.items ≡ net.now.nodes }
    ensures kept { IsKept net.now (fraction_of at.now) cut.new }
    ensures smallest { IsSmallestLeast (network_at net.now (fraction_of at.now)) cut.new.side.items }
    ensures places { KeepsPlaces scratch.old scratch.new }
{
    write_side(net, at, caps, flow, scratch, cut.side.as_mut_slice());
    let side = cut.side.as_slice();
    let line = net.cut_line(side);
    let size = count_nodes(side);
    cut.line = line;
    cut.size = size;
}

// The value of a line at the parameter `p/unit`, in units of `1/unit`.
fn line_value(line: &Line, at: &Parameter) -> i128
    requires { IsBoundedFraction (fraction_of at.now) }
    ensures { result ≡ value_at line.now (fraction_of at.now) }
{
    line.a() * at.unit + line.b() * at.p
}

// Whether the line of the kept cut is the value of the flow still.
fn is_least_still(net: &Net, at: &Parameter, flow: &[i128], line: &Line) -> bool
    requires inside { IsInInterval net.now (fraction_of at.now) }
    requires bounds { IsBoundedFraction (fraction_of at.now) }
    requires greatest { IsGreatest (network_at net.now (fraction_of at.now)) flow.now }
    ensures built { IsBuilt net.now }
    ensures least { result ≡ true → value_at line.now (fraction_of at.now) ≡ flow_value (map ends_of net.now.arcs) flow.now net.now.source }
{
    let least = value(net.frame(), net.source(), flow);
    let here = line_value(line, at);
    here == least
}

// Seeks the cut anew where its line is not the value of the flow any more. Cuts grow with the parameter, so one that is least still
// is the smallest least one.
fn keep(
    net: &Net,
    at: &Parameter,
    caps: &[i128],
    flow: &[i128],
    scratch: &mut Scratch,
    cut: &mut KeptCut,
)
    requires inside { IsInInterval net.now (fraction_of at.now) }
    requires bounds { IsBoundedFraction (fraction_of at.now) }
    requires caps { caps.now ≡ caps_of net.now at.now.unit at.now.p }
    requires greatest { IsGreatest (network_at net.now (fraction_of at.now)) flow.now }
    requires room { Serves scratch.old net.now.nodes (length net.now.arcs) }
    requires kept { IsKept net.now (fraction_of at.now) cut.old }
    ensures kept { IsKept net.now (fraction_of at.now) cut.new }
    ensures smallest { IsSmallestLeast (network_at net.now (fraction_of at.now)) cut.new.side.items }
    ensures places { KeepsPlaces scratch.old scratch.new }
{
    if is_least_still(net, at, flow, &cut.line) {
        return;
    }
    seek(net, at, caps, flow, scratch, cut);
}

// The parameter in lowest terms `p/q`, and the value of the line there in units of `1/q`.
fn in_lowest_terms(line: &Line, at: &Parameter) -> (Rat, i128)
    requires { IsBoundedFraction (fraction_of at.now) }
    ensures value { result.1 ≡ value_at line.now result.0 }
    ensures at { result.0 ≡ lowest (fraction_of at.now) }
    ensures bounds { IsBoundedFraction result.0 }
    ensures line { IsBoundedLine line.now }
{
    let _ = line.a();
    let lowest = Rat::new(at.p, at.unit);
    let value = line.at(&lowest);
    (lowest, value)
}

// The row of a parameter, of the smallest least cut there.
fn row_of(net: &Net, at: &Parameter, cut: &KeptCut) -> SweepRow
    requires inside { IsInInterval net.now (fraction_of at.now) }
    requires bounds { IsBoundedFraction (fraction_of at.now) }
    requires kept { IsKept net.now (fraction_of at.now) cut.now }
    requires smallest { IsSmallestLeast (network_at net.now (fraction_of at.now)) cut.now.side.items }
    ensures { IsRightRow net.now (lowest (fraction_of at.now)) result }
{
    let _ = net.frame().nodes();
    let (at, least) = in_lowest_terms(&cut.line, at);
    SweepRow {
        at,
        least,
        nodes: cut.size,
    }
}

// The row of the kept cut at a parameter, if its line has the least value at a later one too. The cut is then the smallest least one at
// both, and so between them.
fn row_between(
    net: &Net,
    at: &Parameter,
    later: &Parameter,
    least: i128,
    cut: &KeptCut,
) -> Option<SweepRow>
    requires inside { IsInInterval net.now (fraction_of at.now) }
    requires far { IsInInterval net.now (fraction_of later.now) }
    requires bounds { IsBoundedFraction (fraction_of at.now) }
    requires wide { IsBoundedFraction (fraction_of later.now) }
    requires before { IsAtMost (fraction_of at.now) (fraction_of later.now) }
    requires least { IsLeastValue (network_at net.now (fraction_of later.now)) least }
    requires kept { IsKept net.now (fraction_of at.now) cut.now }
    ensures { IfSome result (IsRightRow net.now (lowest (fraction_of at.now))) }
{
    let _ = net.frame().nodes();
    if line_value(&cut.line, later) == least {
        return Some(row_of(net, at, cut));
    }
    None
}

// A greatest flow at the parameter of the interval, made from nothing, and the smallest least cut there.
fn start_at(
    net: &Net,
    engine: &mut Engine,
    at: &Parameter,
    caps: &mut [i128],
    flow: &mut [i128],
    scratch: &mut Scratch,
    cut: &mut KeptCut,
)
    requires rising { net.now.sense ≡ Rising }
    requires bounds { IsBoundedFraction (fraction_of at.now) }
    requires inside { IsInInterval net.now (fraction_of at.now) }
    requires engine { IsEngineOf net.now engine.old }
    requires caps { length caps.old ≡ length net.now.arcs }
    requires flow { length flow.old ≡ length net.now.arcs }
    requires room { Serves scratch.old net.now.nodes (length net.now.arcs) }
    requires places { length cut.old.side.items ≡ net.now.nodes }
    ensures engine { IsEngineOf net.now engine.new }
    ensures caps { caps.new ≡ caps_of net.now at.now.unit at.now.p }
    ensures greatest { IsGreatest (network_at net.now (fraction_of at.now)) flow.new }
    ensures valid { HasValidLabels (network_at net.now (fraction_of at.now)) flow.new engine.new.labels }
    ensures low { AreLow net.now.nodes engine.new.labels }
    ensures kept { IsKept net.now (fraction_of at.now) cut.new }
    ensures places { KeepsPlaces scratch.old scratch.new }
{
    move_first(net, engine, at, caps, flow);
    seek(net, at, caps, flow, scratch, cut);
}

// Room for capacities and a flow, indexed by arcs, and for a cut.
#[derive(Drop)]
struct Room {
    caps: Vec<i128>,
    flow: Vec<i128>,
    cut: KeptCut,
}

// The room for so many nodes and arcs, with nothing in it yet.
fn room_for(alloc: Global, nodes: usize, arcs: usize) -> Result<Room, NoMemory>
    ensures caps { IfOk result (λ r. length r.caps.items ≡ arcs) }
    ensures flow { IfOk result (λ r. length r.flow.items ≡ arcs) }
    ensures places { IfOk result (λ r. length r.cut.side.items ≡ nodes) }
{
    let caps = vec![in alloc; 0i128; arcs]?;
    let flow = vec![in alloc; 0i128; arcs]?;
    let side = vec![in alloc; false; nodes]?;
    let cut = KeptCut {
        side,
        line: Line::new(0, 0),
        size: 0,
    };
    Ok(Room { caps, flow, cut })
}

// A sweep whose unit is not too great.
fn open<'a>(alloc: Global, net: &'a Net, unit: i128) -> Result<Sweep<'a>, NoMemory>
    requires rising { net.now.sense ≡ Rising }
    requires low { pos 1 ≤ℤ unit }
    requires high { unit ≤ℤ pos most_unit }
    requires ends { HasNearEnds net.now }
    requires whole { IsMultiple unit net.now.low.q }
    ensures { IfOk result (IsMade net.now unit) }
{
    let frame = net.frame();
    let nodes = frame.nodes() as usize;
    let arcs = frame.arcs() as usize;
    let at = start_of(net.lo(), unit);
    let mut engine = Engine::make(alloc, frame, net.source(), net.sink())?;
    let mut scratch = Scratch::make(alloc, nodes, arcs)?;
    let room = room_for(alloc, nodes, arcs)?;
    let Room {
        mut caps,
        mut flow,
        mut cut,
    } = room;
    start_at(
        net,
        &mut engine,
        &at,
        &mut caps,
        &mut flow,
        &mut scratch,
        &mut cut,
    );
    Ok(Sweep {
        net,
        at,
        engine,
        scratch,
        caps,
        flow,
        cut,
    })
}

impl<'a> Sweep<'a> {
    /// A sweep at the low end of the interval of a rising network, with a greatest flow there in units of `1/unit`. It is `TooFine` exactly
    /// where `unit` is above `2^40`; the only other error is `NoMemory`. No other call takes memory.
    pub fn make(alloc: Global, net: &'a Net, unit: i128) -> Result<Sweep<'a>, SweepBad>
        requires rising { net.now.sense ≡ Rising }
        requires unit { pos 1 ≤ℤ unit }
        requires ends { HasNearEnds net.now }
        requires whole { IsMultiple unit net.now.low.q }
        ensures made { IfOk result (IsMade net.now unit) }
        ensures fine { (result ≡ Err SweepBad.TooFine) ↔ (pos most_unit <ℤ unit) }
    {
        if 1 << 40 < unit {
            return Err(SweepBad::TooFine);
        }
        Ok(open(alloc, net, unit)?)
    }

    /// Goes on to the parameter `p/unit` of the interval, which is not below the last one: the flow is greatest there, no label has
    /// fallen, and a step is counted each time that a label rose.
    pub fn advance<L: Ledger>(&mut self, p: i128, steps: &mut Steps<L>)
        requires inside { IsInInterval self.old.net (of_units self.old.unit p) }
        requires later { self.old.at ≤ℤ p }
        ensures { IsAdvanced self.old self.new p steps.old steps.new }
    {
        self.at.p = p;
        move_on(
            self.net,
            &mut self.engine,
            &self.at,
            &mut self.caps,
            &mut self.flow,
            steps,
        );
    }

    /// The least value at the parameter: what the flow brings, in units of `1/unit`.
    pub fn value(&self) -> i128
        ensures least { IsLeastValue (network_of_sweep self.now) result }
        ensures settled { IsSettled self.now }
    {
        value(self.net.frame(), self.net.source(), &self.flow)
    }

    /// Writes the smallest least cut at the parameter. `side` is indexed by nodes.
    pub fn side(&mut self, side: &mut [bool])
        requires { length side.old ≡ self.old.net.nodes }
        ensures smallest { IsSmallestLeast (network_of_sweep self.old) side.new }
        ensures same { self.new ≡ self.old }
    {
        write_side(
            self.net,
            &self.at,
            &self.caps,
            &self.flow,
            &mut self.scratch,
            side,
        );
    }

    /// One label for each node: the number of nodes at the source, 0 at the sink, at most `2n - 2` anywhere.
    pub fn labels(&self) -> &[u32]
        ensures value { result.now ≡ self.now.labels }
        ensures settled { IsSettled self.now }
    {
        self.engine.labels()
    }

    /// The flow, indexed by arcs, in units of `1/unit`.
    pub fn flow(&self) -> &[i128]
        ensures value { result.now ≡ self.now.flow }
        ensures settled { IsSettled self.now }
    {
        self.flow.as_slice()
    }

    // The row at `p/unit`, if the cut that is kept is least at the later parameter `y/unit` too, where the least value is `least`.
    pub(crate) fn row_before(&self, y: i128, least: i128, p: i128) -> Option<SweepRow>
        requires inside { IsInInterval self.now.net (of_units self.now.unit p) }
        requires far { IsInInterval self.now.net (of_units self.now.unit y) }
        requires later { self.now.at ≤ℤ p }
        requires before { p ≤ℤ y }
        requires least { IsLeastValue (network_at self.now.net (of_units self.now.unit y)) least }
        ensures { IfSome result (IsRightRow self.now.net (lowest (of_units self.now.unit p))) }
    {
        let unit = self.at.unit;
        let at = Parameter { p, unit };
        let later = Parameter { p: y, unit };
        row_between(self.net, &at, &later, least, &self.cut)
    }

    /// The row of the parameter: the parameter in lowest terms, the least value there in units of `1/q` of that fraction, and the
    /// least size. Parameter, flow and labels stay.
    pub fn row(&mut self) -> SweepRow
        ensures right { IsRightRow self.old.net (lowest (parameter_of self.old)) result }
        ensures same { self.new ≡ self.old }
    {
        keep(
            self.net,
            &self.at,
            &self.caps,
            &self.flow,
            &mut self.scratch,
            &mut self.cut,
        );
        row_of(self.net, &self.at, &self.cut)
    }
}
