// The schedule of a catalogue, read off the whole least-cut function of its network.
ghost use Rattle.std.specs.Prelude.{◌≡◌, suc, IfOk, length};
ghost use Rattle.pf_model.specs.Answer.{IsCurveShape};
ghost use Rattle.pf_model.specs.Curve.{IsCurve, CertifiesCurve};
ghost use Rattle.pf_select.specs.Problem.{IsBestSchedule};
ghost use Rattle.pf_select.specs.Certificate.{CertifiesSchedule};
ghost use Rattle.pf_select.specs.Right.{IsScheduleShape};
ghost use Rattle.pf_select.specs.Reduction.{sink_node, select_net, selection_of};
ghost use Rattle.pf_select.specs.Carried.{ArePrices, AreSelections, AreCarried, AreWide, AreAllWide};

use crate::catalogue::Catalogue;
use crate::network::select_net;
use crate::schedule::Schedule;
use pf_curve::{Curve, Points, Sides, curve_of};
use pf_frame::{FlowTable, NoMemory, Numbers, Side};
use std::alloc::Global;

// The parts outside a cut.
fn outside(alloc: Global, catalogue: &Catalogue, cut: &[bool]) -> Result<Side, NoMemory>
    requires { length cut.now ≡ suc (sink_node catalogue.now) }
    ensures { IfOk result (λ set. set ≡ selection_of catalogue.now cut.now) }
{
    let count = catalogue.parts() as usize;
    let mut set = Vec::with_capacity(alloc, count)?;
    'parts: for i in 0..count {
        set.push(!cut[i + 1])?;
    }
    Ok(Side::from_vec(set))
}

// The points inside the interval, of which there are so many.
fn inner_points(
    alloc: Global,
    catalogue: &Catalogue,
    curve: &Curve,
    count: usize,
) -> Result<Points, NoMemory>
    requires { suc count ≡ length curve.now.cuts }
    ensures { IfOk result (λ prices. ArePrices catalogue.now curve.now.points prices count) }
{
    let points = curve.points();
    let mut prices = Points::new(alloc);
    'points: for j in 0..count {
        prices.push(points[j + 1])?;
    }
    Ok(prices)
}

// The parts outside each cut.
fn selections(alloc: Global, catalogue: &Catalogue, curve: &Curve) -> Result<Sides, NoMemory>
    requires { AreWide catalogue.now curve.now.cuts }
    ensures { IfOk result (λ sets. AreSelections catalogue.now curve.now.cuts sets (length curve.now.cuts)) }
{
    let count = curve.points().len() - 1;
    let mut sets = Sides::new(alloc);
    'cuts: for j in 0..count {
        sets.push(outside(alloc, catalogue, curve.cut(j))?)?;
    }
    Ok(sets)
}

// The numbers on the arcs of needs, of the flows at the points inside.
fn carried(
    alloc: Global,
    catalogue: &Catalogue,
    curve: &Curve,
    count: usize,
) -> Result<FlowTable, NoMemory>
    requires count { suc count ≡ length curve.now.cuts }
    requires wide { AreAllWide catalogue.now curve.now.flows }
    ensures { IfOk result (λ charges. AreCarried catalogue.now curve.now.flows charges count) }
{
    // Gives the proof how many flows there are.
    let _ = curve.points();
    let parts = catalogue.parts() as usize;
    let needs = catalogue.needs() as usize;
    let mut charges = FlowTable::new(alloc);
    'prices: for j in 0..count {
        let flow = curve.flow(j + 1);
        let row = Vec::from_slice(alloc, &flow[parts..parts + needs])?;
        charges.push(Numbers::from_vec(row))?;
    }
    Ok(charges)
}

// The least-cut function of the catalogue's network, with a greatest flow at each point.
fn curve_in(alloc: Global, catalogue: &Catalogue) -> Result<Curve, NoMemory>
    ensures curve { IfOk result (λ c. IsCurve (select_net catalogue.now) c.points c.cuts) }
    ensures certificate { IfOk result (λ c. CertifiesCurve (select_net catalogue.now) c.points c.cuts c.flows) }
    ensures shape { IfOk result (IsCurveShape (select_net catalogue.now)) }
{
    let net = select_net(alloc, catalogue)?;
    let curve = curve_of(alloc, &net)?;
    Ok(curve)
}

// The schedule that the curve shows.
fn schedule_of(alloc: Global, catalogue: &Catalogue, curve: &Curve) -> Result<Schedule, NoMemory>
    requires curve { IsCurve (select_net catalogue.now) curve.now.points curve.now.cuts }
    requires certificate { CertifiesCurve (select_net catalogue.now) curve.now.points curve.now.cuts curve.now.flows }
    requires shape { IsCurveShape (select_net catalogue.now) curve.now }
    ensures best { IfOk result (λ s. IsBestSchedule catalogue.now s.prices s.selections) }
    ensures certificate { IfOk result (λ s. CertifiesSchedule catalogue.now s.prices s.selections s.charges) }
    ensures shape { IfOk result (IsScheduleShape catalogue.now) }
{
    // Gives the proof the limits of the catalogue.
    let _ = catalogue.parts();
    let count = curve.points().len() - 2;
    let prices = inner_points(alloc, catalogue, curve, count)?;
    let sets = selections(alloc, catalogue, curve)?;
    let charges = carried(alloc, catalogue, curve, count)?;
    Ok(Schedule::new(prices, sets, charges))
}

impl Schedule {
    /// The best schedule of the catalogue, with charges that certify it. `NoMemory` is the only other answer.
    ///
    /// The parametric network of the selection problem (Balinski 1970; Rhys 1970; Gallo, Grigoriadis and Tarjan 1989): the prices are
    /// the breakpoints of its least-cut function, the selections are the parts outside its cuts, and the charges are what its
    /// greatest flows bring from parts to products.
    pub fn of(alloc: Global, catalogue: &Catalogue) -> Result<Schedule, NoMemory>
        ensures best { IfOk result (λ s. IsBestSchedule catalogue.now s.prices s.selections) }
        ensures certificate { IfOk result (λ s. CertifiesSchedule catalogue.now s.prices s.selections s.charges) }
        ensures shape { IfOk result (IsScheduleShape catalogue.now) }
    {
        let curve = curve_in(alloc, catalogue)?;
        let schedule = schedule_of(alloc, catalogue, &curve)?;
        Ok(schedule)
    }
}
