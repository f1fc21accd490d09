// The fair shares of a network, read off the whole least-cut function of the parametric one.
ghost use Rattle.std.specs.Prelude.{◌≡◌, ℕ, suc, ◌+◌, ◌<◌, ◌≤◌, IfOk, length, All};
ghost use Rattle.pf_model.specs.Answer.{IsFractionShape};
ghost use Rattle.pf_model.specs.Curve.{IsCurve};
ghost use Rattle.pf_share.specs.Certificate.{CertifiesShares, IsBestShares};
ghost use Rattle.pf_share.specs.Right.{IsSharesShape};
ghost use Rattle.pf_share.specs.Grouped.{IsStill, IsSplit};
ghost use Rattle.pf_share.specs.Reduction.{share_net, IsJoin, AreJoins, IsFirst, AreLevelsOf, group_of, AreGroupsOf, join_at, AreWide};

use crate::grouped::group_flow;
use crate::network::share_net;
use crate::shares::Shares;
use crate::sharing::Sharing;
use pf_curve::{CutFunction, Points, cuts_of};
use pf_frame::{NoMemory, Numbers};
use std::alloc::Global;

// The number of the first cut that holds the node, or the number of cuts.
fn join_of(curve: &CutFunction, v: usize) -> usize
    requires { AreWide v curve.now.cuts }
    ensures { IsJoin curve.now.cuts v result }
{
    let count = curve.points().len() - 1;
    'cuts: for i in 0..count {
        if curve.cut(i)[v] {
            return i;
        }
    }
    count
}

// The same of each node.
fn joins_of(alloc: Global, sharing: &Sharing, curve: &CutFunction) -> Result<Vec<usize>, NoMemory>
    requires { (v : ℕ) → v < sharing.now.nodes → AreWide v curve.now.cuts }
    ensures { IfOk result (λ joins. AreJoins curve.now.cuts joins.items sharing.now.nodes) }
{
    let count = sharing.nodes() as usize;
    let mut joins = Vec::with_capacity(alloc, count)?;
    'nodes: for v in 0..count {
        joins.push(join_of(curve, v))?;
    }
    Ok(joins)
}

// The first point that is a level: 0 where some node is in the first cut, and else 1.
fn first_of(joins: &[usize]) -> usize
    ensures { IsFirst joins.now result }
{
    'nodes: for v in 0..joins.len() {
        if joins[v] == 0 {
            return 0;
        }
    }
    1
}

// The points from the first level on, so many of them.
fn levels_of(
    alloc: Global,
    sharing: &Sharing,
    curve: &CutFunction,
    first: usize,
    count: usize,
) -> Result<Points, NoMemory>
    requires { first + count ≡ length curve.now.cuts }
    ensures { IfOk result (λ levels. AreLevelsOf sharing.now curve.now.points levels first count) }
{
    let points = curve.points();
    let mut levels = Points::new(alloc);
    'levels: for j in 0..count {
        levels.push(points[first + j])?;
    }
    Ok(levels)
}

// The group of a node that joins there; there are so many cuts.
fn group_of(first: usize, cuts: usize, join: usize) -> usize
    requires first { first ≤ 1 }
    requires join { join ≤ cuts }
    requires least { first ≤ join }
    ensures { result ≡ group_of first cuts join }
{
    if join == cuts {
        return 0;
    }
    join + 1 - first
}

// The group of each node.
fn groups_of(alloc: Global, joins: &[usize], first: usize, cuts: usize) -> Result<Numbers, NoMemory>
    requires first { first ≤ 1 }
    requires within { (v : ℕ) → v < length joins.now → join_at joins.now v ≤ cuts }
    requires least { (v : ℕ) → v < length joins.now → first ≤ join_at joins.now v }
    ensures { IfOk result (λ groups. AreGroupsOf joins.now first cuts groups (length joins.now)) }
{
    let mut groups = Numbers::new(alloc);
    'nodes: for v in 0..joins.len() {
        groups.push(group_of(first, cuts, joins[v]) as i128)?;
    }
    Ok(groups)
}

// A number for each arc, all of them 0.
fn still_of(alloc: Global, sharing: &Sharing) -> Result<Numbers, NoMemory>
    ensures still { IfOk result IsStill }
    ensures full { IfOk result (λ flow. length flow ≡ length sharing.now.ends) }
{
    let still = vec![in alloc; 0i128; sharing.arcs() as usize]?;
    Ok(Numbers::from_vec(still))
}

// The least-cut function of the sharing's network.
fn curve_in(alloc: Global, sharing: &Sharing) -> Result<CutFunction, NoMemory>
    ensures curve { IfOk result (λ c. IsCurve (share_net sharing.now) c.points c.cuts) }
    ensures shape { IfOk result (λ c. All IsFractionShape c.points) }
{
    let net = share_net(alloc, sharing)?;
    let curve = cuts_of(alloc, &net)?;
    Ok(curve)
}

// The levels and the groups that the curve shows, with no flow yet.
fn split_of(alloc: Global, sharing: &Sharing, curve: &CutFunction) -> Result<Shares, NoMemory>
    requires curve { IsCurve (share_net sharing.now) curve.now.points curve.now.cuts }
    requires shape { All IsFractionShape curve.now.points }
    ensures { IfOk result (IsSplit sharing.now) }
{
    // Gives the proof what holds of every such network.
    let _ = sharing.nodes();
    let cuts = curve.points().len() - 1;
    let joins = joins_of(alloc, sharing, curve)?;
    let first = first_of(joins.as_slice());
    let levels = levels_of(alloc, sharing, curve, first, cuts - first)?;
    let groups = groups_of(alloc, joins.as_slice(), first, cuts)?;
    let still = still_of(alloc, sharing)?;
    Ok(Shares::new(levels, groups, still))
}

/// The fair shares, with a flow that certifies them. `NoMemory` is the only other answer.
///
/// A parametric network (Gallo, Grigoriadis and Tarjan 1989): the source feeds each node in proportion to its weight, and a node's
/// level is the breakpoint of the least-cut function at which it joins the cut. The flows of the nodes of each level are then found all
/// at once.
pub fn fair(alloc: Global, sharing: &Sharing) -> Result<Shares, NoMemory>
    ensures best { IfOk result (IsBestShares sharing.now) }
    ensures certificate { IfOk result (CertifiesShares sharing.now) }
    ensures shape { IfOk result (IsSharesShape sharing.now) }
{
    // Gives the proof what holds of every such network.
    let _ = sharing.nodes();
    let curve = curve_in(alloc, sharing)?;
    let split = split_of(alloc, sharing, &curve)?;
    let flow = group_flow(alloc, sharing, &split)?;
    Ok(split.with_flow(flow))
}
