// The whole least-cut function of a network.
ghost use Rattle.std.specs.Prelude.{◌≡◌, ◌+◌, ◌<◌, ◌++◌, [], ◌∷◌, length, map, All, IfOk};
ghost use Rattle.pf_model.specs.declared.Sense.TheVariants.{Rising, Falling};
ghost use Rattle.pf_model.specs.Network.{IsInInterval, IsMonotone};
ghost use Rattle.pf_model.specs.Curve.{IsCurve, CertifiesCurve, flow_at};
ghost use Rattle.pf_model.specs.Answer.{IsCurveShape, IsFractionShape};
ghost use Rattle.pf_envelope.specs.Envelope.{IsLowerEnvelope};
ghost use Rattle.pf_curve.specs.Cuts.{IsCutFound, IsLineOfCut};
ghost use Rattle.pf_curve.specs.Flows.{AreFilled, AreGreatest, IsRow};

use crate::between::Opened;
use crate::curve::{Curve, CutFunction, Points, Rows, Sides};
use crate::family::{Cut, Cuts};
use crate::finder::Finder;
use crate::turning::turned_rows;
use pf_envelope::{Part, envelope};
use pf_frame::{FlowTable, NoMemory, Numbers, Side};
use pf_net::{Net, Sense};
use pf_rat::Rat;
use std::alloc::Global;

// One more point.
fn add_point(points: &mut Points, x: Rat) -> Result<(), NoMemory>
    ensures added { IfOk result (λ _. points.new ≡ points.old ++ x ∷ []) }
    ensures shape { IfOk result (λ _. IsFractionShape x) }
{
    let q = x.q();
    prove!(q >= 1);
    points.push(x)?;
    Ok(())
}

// The low end of the interval, and the right end of each part.
fn points_of(alloc: Global, lo: &Rat, parts: &[Part<Cut>]) -> Result<Points, NoMemory>
    ensures points { IfOk result (λ points. points ≡ lo.now ∷ map (λ p. p.right) parts.now) }
    ensures shape { IfOk result (All IsFractionShape) }
{
    let mut points = Points::new(alloc);
    add_point(&mut points, *lo)?;
    'parts: for part in parts {
        add_point(&mut points, part.right)?;
    }
    Ok(points)
}

// The side of the cut of a part.
fn side_of(part: Part<Cut>) -> Vec<bool>
    ensures { result ≡ part.member.side }
{
    let Part { right: _, member } = part;
    let Cut {
        at: _,
        line: _,
        side,
    } = member;
    side
}

// The cut of each part.
fn sides_of(alloc: Global, parts: Vec<Part<Cut>>) -> Result<Sides, NoMemory>
    ensures { IfOk result (λ cuts. cuts ≡ map (λ p. p.member.side.items) parts.items) }
{
    let mut cuts = Sides::new(alloc);
    'parts: for part in parts {
        cuts.push(Side::from_vec(side_of(part)))?;
    }
    Ok(cuts)
}

// A greatest flow at a point, made from nothing.
fn first_row(alloc: Global, finder: &mut Finder<'_>, at: &Rat) -> Result<Numbers, NoMemory>
    requires { IsInInterval finder.old at.now }
    ensures found { IfOk result (IsRow finder.old at.now) }
    ensures same { finder.new ≡ finder.old }
{
    let width = finder.net().frame().arcs() as usize;
    let mut flow = vec![in alloc; 0i128; width]?;
    finder.write_flow(at, &mut flow);
    Ok(Numbers::from_vec(flow))
}

// A greatest flow at a point, made from the flow at the point before.
fn next_row(
    alloc: Global,
    finder: &mut Finder<'_>,
    from: &Rat,
    before: &[i128],
    at: &Rat,
) -> Result<Numbers, NoMemory>
    requires from { IsInInterval finder.old from.now }
    requires inside { IsInInterval finder.old at.now }
    requires before { IsRow finder.old from.now before.now }
    ensures found { IfOk result (IsRow finder.old at.now) }
    ensures same { finder.new ≡ finder.old }
{
    let mut flow = Vec::from_slice(alloc, before)?;
    finder.move_flow(from, at, &mut flow);
    Ok(Numbers::from_vec(flow))
}

/// A greatest flow at each point, and how many of them were carried from the point before.
#[derive(Drop)]
pub struct Flows {
    pub rows: Rows,
    pub carried: u64,
}

// The flow of one row.
fn row_at(rows: &Rows, i: usize) -> &[i128]
    requires { i < length rows.now }
    ensures { result.now ≡ flow_at rows.now i }
{
    rows.get()[i].get()
}

// One more row: a greatest flow at the point `i`.
fn add_row(
    alloc: Global,
    finder: &mut Finder<'_>,
    points: &[Rat],
    i: usize,
    rows: &mut Rows,
    carried: &mut u64,
) -> Result<(), NoMemory>
    requires inside { All (IsInInterval finder.old) points.now }
    requires point { i < length points.now }
    requires rows { AreFilled finder.old points.now i rows.old }
    ensures rows { IfOk result (λ _. AreFilled finder.old points.now (i + 1) rows.new) }
    ensures same { finder.new ≡ finder.old }
{
    if i == 0 {
        let first = &points[0];
        let row = first_row(alloc, finder, first)?;
        rows.push(row)?;
        return Ok(());
    }
    let previous = i - 1;
    let from = &points[previous];
    let at = &points[i];
    let before = row_at(rows, previous);
    let row = next_row(alloc, finder, from, before, at)?;
    rows.push(row)?;
    *carried = carried.saturating_add(1);
    Ok(())
}

/// A greatest flow at each point, each but the first made from the one before.
pub fn flows_at(alloc: Global, finder: &mut Finder<'_>, points: &[Rat]) -> Result<Flows, NoMemory>
    requires { All (IsInInterval finder.old) points.now }
    ensures { IfOk result (λ flows. AreGreatest finder.old points.now flows.rows) }
{
    let mut rows = Rows::new(alloc);
    let mut carried = 0u64;
    'points: for i in 0..points.len() {
        add_row(alloc, finder, points, i, &mut rows, &mut carried)?;
    }
    Ok(Flows { rows, carried })
}

// The table of the rows. It takes no room for their numbers, which stay where they are.
fn table_of(alloc: Global, rows: Rows) -> Result<FlowTable, NoMemory>
    ensures { IfOk result (λ table. table ≡ rows) }
{
    let mut table = FlowTable::new(alloc);
    'rows: for row in rows.into_vec() {
        table.push(row)?;
    }
    Ok(table)
}

// The lower envelope of the lines of all cuts of a rising network, each with its smallest least cut.
fn parts_of(alloc: Global, net: &Net) -> Result<Vec<Part<Cut>>, NoMemory>
    requires { net.now.sense ≡ Rising }
    ensures members { IfOk result (λ parts. All (λ p. IsCutFound net.now p.member.at p.member.line p.member.side.items) parts.items) }
    ensures envelope { IfOk result (λ parts. IsLowerEnvelope (IsLineOfCut net.now) net.now.low net.now.high
        (map (λ p. record { right = p.right; line = p.member.line }) parts.items)) }
{
    // Gives the proof what every network keeps.
    let _ = net.frame().nodes();
    let finder = Finder::make(alloc, net)?;
    let mut family = Cuts {
        finder,
        opened: Opened::none(),
    };
    let parts = envelope(alloc, &mut family, net.lo(), net.hi())?;
    Ok(parts)
}

// The least-cut function of a rising network without flows.
fn rising_cuts(alloc: Global, net: &Net) -> Result<CutFunction, NoMemory>
    requires { net.now.sense ≡ Rising }
    ensures curve { IfOk result (λ c. IsCurve net.now c.points c.cuts) }
    ensures shape { IfOk result (λ c. All IsFractionShape c.points) }
{
    // Gives the proof what every network keeps.
    let _ = net.frame().nodes();
    let parts = parts_of(alloc, net)?;
    let points = points_of(alloc, net.lo(), parts.as_slice())?;
    let cuts = sides_of(alloc, parts)?;
    Ok(CutFunction::new(points, cuts))
}

// The least-cut function of a falling network without flows: that of its mirror, turned round.
fn falling_cuts(alloc: Global, net: &Net) -> Result<CutFunction, NoMemory>
    requires { net.now.sense ≡ Falling }
    ensures curve { IfOk result (λ c. IsCurve net.now c.points c.cuts) }
    ensures shape { IfOk result (λ c. All IsFractionShape c.points) }
{
    let other = net.mirror(alloc)?;
    let found = rising_cuts(alloc, &other)?;
    let made = found.turned(alloc)?;
    Ok(made)
}

/// The least-cut function of the network without flows: every breakpoint and no other, and the smallest least cut between each
/// two. `NoMemory` is the only other answer. Gallo, Grigoriadis and Tarjan 1989; the search is that of the lower envelope of the
/// lines of all cuts. A falling network is searched through its mirror.
pub fn cuts_of(alloc: Global, net: &Net) -> Result<CutFunction, NoMemory>
    ensures curve { IfOk result (λ c. IsCurve net.now c.points c.cuts) }
    ensures shape { IfOk result (λ c. All IsFractionShape c.points) }
{
    match net.sense() {
        Sense::Rising => rising_cuts(alloc, net),
        Sense::Falling => falling_cuts(alloc, net),
    }
}

// A least-cut function, and a greatest flow at each of its points.
#[derive(Drop)]
struct Searched {
    found: CutFunction,
    rows: Rows,
}

// A greatest flow at each point, found with one finder.
fn rows_of(alloc: Global, net: &Net, points: &[Rat]) -> Result<Rows, NoMemory>
    requires { All (IsInInterval net.now) points.now }
    ensures { IfOk result (AreGreatest net.now points.now) }
{
    let mut finder = Finder::make(alloc, net)?;
    let flows = flows_at(alloc, &mut finder, points)?;
    Ok(flows.rows)
}

// The whole least-cut function of a rising network, and a greatest flow at each point.
fn search(alloc: Global, net: &Net) -> Result<Searched, NoMemory>
    requires { net.now.sense ≡ Rising }
    ensures monotone { IfOk result (λ _. IsMonotone net.now) }
    ensures curve { IfOk result (λ c. IsCurve net.now c.found.points c.found.cuts) }
    ensures shape { IfOk result (λ c. All IsFractionShape c.found.points) }
    ensures flows { IfOk result (λ c. AreGreatest net.now c.found.points c.rows) }
{
    // Gives the proof what every network keeps.
    let _ = net.frame().nodes();
    let found = rising_cuts(alloc, net)?;
    let rows = rows_of(alloc, net, found.points())?;
    Ok(Searched { found, rows })
}

// A curve of a network, from its least-cut function and a greatest flow at each point.
fn curve_with(alloc: Global, found: CutFunction, rows: Rows) -> Result<Curve, NoMemory>
    requires { length rows ≡ length found.points }
    ensures { IfOk result (λ c. c ≡ record { points = found.points; cuts = found.cuts; flows = rows }) }
{
    let table = table_of(alloc, rows)?;
    Ok(found.with_flows(table))
}

// The curve of a rising network.
fn rising_curve(alloc: Global, net: &Net) -> Result<Curve, NoMemory>
    requires { net.now.sense ≡ Rising }
    ensures curve { IfOk result (λ c. IsCurve net.now c.points c.cuts) }
    ensures certificate { IfOk result (λ c. CertifiesCurve net.now c.points c.cuts c.flows) }
    ensures shape { IfOk result (IsCurveShape net.now) }
{
    let searched = search(alloc, net)?;
    let Searched { found, rows } = searched;
    let made = curve_with(alloc, found, rows)?;
    Ok(made)
}

// The curve of a falling network: that of its mirror, turned round.
fn falling_curve(alloc: Global, net: &Net) -> Result<Curve, NoMemory>
    requires { net.now.sense ≡ Falling }
    ensures curve { IfOk result (λ c. IsCurve net.now c.points c.cuts) }
    ensures certificate { IfOk result (λ c. CertifiesCurve net.now c.points c.cuts c.flows) }
    ensures shape { IfOk result (IsCurveShape net.now) }
{
    let other = net.mirror(alloc)?;
    let searched = search(alloc, &other)?;
    let Searched { found, rows } = searched;
    let seen = found.turned(alloc)?;
    let made = curve_with(alloc, seen, turned_rows(rows))?;
    Ok(made)
}

/// The whole least-cut function of the network: every breakpoint and no other, the least cut between each two, and a
/// greatest flow at each point, which certifies it. `NoMemory` is the only other answer. Gallo, Grigoriadis and Tarjan 1989.
/// The curve of a falling network is that of its mirror, turned round.
pub fn curve_of(alloc: Global, net: &Net) -> Result<Curve, NoMemory>
    ensures curve { IfOk result (λ c. IsCurve net.now c.points c.cuts) }
    ensures certificate { IfOk result (λ c. CertifiesCurve net.now c.points c.cuts c.flows) }
    ensures shape { IfOk result (IsCurveShape net.now) }
{
    match net.sense() {
        Sense::Rising => rising_curve(alloc, net),
        Sense::Falling => falling_curve(alloc, net),
    }
}
