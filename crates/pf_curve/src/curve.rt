// The whole least-cut function.
ghost use Rattle.std.specs.Prelude.{◌≡◌, ◌+◌, ◌<◌, ◌≤◌, length, reverse, IfOk};
ghost use Rattle.pf_model.specs.Curve.{cut_at, flow_at};
ghost use Rattle.pf_model.specs.Mirror.{turned_points};

use crate::turning::{turned, turned_points};
use pf_frame::{FlowTable, List, NoMemory, Numbers, Side};
use pf_rat::Rat;
use std::alloc::Global;
use std::marker::Model;

/// A list of parameters.
pub type Points = List<Rat>;

/// A list of sides.
pub type Sides = List<Side>;

/// A list of flows.
pub type Rows = List<Numbers>;

/// Points, and a cut between each and the next: the least-cut function without flows. Cuts are indexed by node.
#[derive(Drop)]
pub struct CutFunction {
    points: Points,
    cuts: Sides,
}

impl Model for CutFunction {
    ghost use Rattle.std.specs.Prelude.{◌≡◌, ◌+◌, length};
    ghost use Rattle.pf_curve.specs.CutFunction.{CutFunction};

    ghost Value = { CutFunction };

    ghost view = { λ c. record { points = c.points; cuts = c.cuts } };

    ghost invariant = { λ c. length c.points ≡ length c.cuts + 1 };
}

impl CutFunction {
    /// The function of `K` cuts and `K + 1` points.
    pub fn new(points: Points, cuts: Sides) -> CutFunction
        requires { length points ≡ length cuts + 1 }
        ensures { result ≡ record { points = points; cuts = cuts } }
    {
        CutFunction { points, cuts }
    }

    /// The points, from 0.
    pub fn points(&self) -> &[Rat]
        ensures points { result.now ≡ self.now.points }
        ensures count { length self.now.points ≡ length self.now.cuts + 1 }
    {
        self.points.get()
    }

    /// The cut between point `i` and the next, from 0.
    pub fn cut(&self, i: usize) -> &[bool]
        requires { i < length self.now.cuts }
        ensures { result.now ≡ cut_at self.now.cuts i }
    {
        self.cuts.get()[i].get()
    }

    /// The same seen from the other end: the points negated and in reverse order, and the cuts in reverse order.
    pub(crate) fn turned(self, alloc: Global) -> Result<CutFunction, NoMemory>
        ensures { IfOk result (λ c. c ≡ record { points = turned_points self.points; cuts = reverse self.cuts }) }
    {
        let CutFunction { points, cuts } = self;
        let made = turned_points(alloc, points.get())?;
        Ok(CutFunction::new(made, turned(cuts)))
    }

    /// The same with a flow at each point.
    pub fn with_flows(self, flows: FlowTable) -> Curve
        requires { length flows ≡ length self.points }
        ensures { result ≡ record { points = self.points; cuts = self.cuts; flows = flows } }
    {
        let CutFunction { points, cuts } = self;
        Curve::new(points, cuts, flows)
    }
}

/// Points, a cut between each and the next, and a flow at each point in units of `1/q` of that point `p/q`. Cuts are
/// indexed by node, flows by arc.
#[derive(Drop)]
pub struct Curve {
    points: Points,
    cuts: Sides,
    flows: FlowTable,
}

impl Model for Curve {
    ghost use Rattle.std.specs.Prelude.{◌≡◌, ◌+◌, length};
    ghost use Rattle.pf_model.specs.Answer.{Curve};

    ghost Value = { Curve };

    ghost view = { λ c. record { points = c.points; cuts = c.cuts; flows = c.flows } };

    ghost invariant = { λ c. (length c.points ≡ length c.cuts + 1) × (length c.flows ≡ length c.points) };
}

impl Curve {
    /// The curve of `K` cuts and `K + 1` points and flows.
    pub fn new(points: Points, cuts: Sides, flows: FlowTable) -> Curve
        requires points { length points ≡ length cuts + 1 }
        requires flows { length flows ≡ length points }
        ensures { result ≡ record { points = points; cuts = cuts; flows = flows } }
    {
        Curve {
            points,
            cuts,
            flows,
        }
    }

    /// The points, from 0.
    pub fn points(&self) -> &[Rat]
        ensures points { result.now ≡ self.now.points }
        ensures count { length self.now.points ≡ length self.now.cuts + 1 }
        ensures flow_count { length self.now.flows ≡ length self.now.points }
    {
        self.points.get()
    }

    /// The cut between point `i` and the next, from 0.
    pub fn cut(&self, i: usize) -> &[bool]
        requires { i < length self.now.cuts }
        ensures { result.now ≡ cut_at self.now.cuts i }
    {
        self.cuts.get()[i].get()
    }

    /// The flows, a row for each point, from 0. Each is in units of `1/q` of its point `p/q`, indexed by arc.
    pub fn flows(&self) -> &FlowTable
        ensures { result.now ≡ self.now.flows }
    {
        &self.flows
    }

    /// The flow at point `i`, from 0.
    pub fn flow(&self, i: usize) -> &[i128]
        requires { i ≤ length self.now.cuts }
        ensures { result.now ≡ flow_at self.now.flows i }
    {
        self.flows.row(i)
    }
}
