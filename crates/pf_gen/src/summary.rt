// What `generate` tells of the network that a seed draws.
ghost use Rattle.std.specs.Prelude.{◌≡◌, ◌≤◌, IfOk};
ghost use Rattle.pf_model.specs.Cut.{IsLeast, IsLeastValue};
ghost use Rattle.pf_model.specs.Network.{IsMonotone, network_at};
ghost use Rattle.pf_model.specs.Curve.{IsCurve};
ghost use Rattle.pf_gen.specs.Generator.{net_of};
ghost use Rattle.pf_gen.specs.Right.{Summarizes};

use crate::spelling::net_text;
use pf_curve::{Curve, curve_of};
use pf_frame::NoMemory;
use pf_lines::{Lines, ReadBad};
use pf_net::Net;
use pf_par::read_par;
use pf_rat::Rat;
use std::alloc::Global;

/// Numbers of a network: its nodes and arcs, the segments of its curve, and the capacities of a least cut at the two ends of
/// its interval, each in units of `1/q` of that end.
#[derive(Clone, Copy)]
pub struct Summary {
    pub nodes: u32,
    pub arcs: u32,
    pub segments: usize,
    pub low_value: i128,
    pub high_value: i128,
}

// The least value, by a cut that is least there.
fn least_value(net: &Net, side: &[bool], at: &Rat) -> i128
    requires { IsLeast (network_at net.now at.now) side.now }
    ensures { IsLeastValue (network_at net.now at.now) result }
{
    net.cut_line(side).at(at)
}

// The numbers of a network and its curve.
fn summarize(net: &Net, curve: &Curve) -> Summary
    requires monotone { IsMonotone net.now }
    requires curve { IsCurve net.now curve.now.points curve.now.cuts }
    ensures { Summarizes net.now result }
{
    let segments = curve.points().len() - 1;
    let low_value = least_value(net, curve.cut(0), net.lo());
    let high_value = least_value(net, curve.cut(segments - 1), net.hi());
    Summary {
        nodes: net.frame().nodes(),
        arcs: net.frame().arcs(),
        segments,
        low_value,
        high_value,
    }
}

// The network of the text that is drawn.
fn drawn_net(alloc: Global, seed: u64, n: u32, m: u32) -> Result<Net, NoMemory>
    requires low { 3 ≤ n }
    requires high { n ≤ 1000 }
    requires arcs { m ≤ 10000 }
    ensures { IfOk result (λ net. net ≡ net_of seed n m) }
{
    let text = net_text(alloc, seed, n, m)?;
    let mut lines = Lines::new(alloc, &text);
    match read_par(alloc, &mut lines) {
        Ok(net) => Ok(net),
        Err(ReadBad::NoMemory) => Err(NoMemory),
        Err(ReadBad::Text(_)) => unreachable!(),
    }
}

/// The summary of the network of `n` nodes and `m` arcs that the seed draws: its text is read, and its curve is found.
pub fn summary_of(alloc: Global, seed: u64, n: u32, m: u32) -> Result<Summary, NoMemory>
    requires low { 3 ≤ n }
    requires high { n ≤ 1000 }
    requires arcs { m ≤ 10000 }
    ensures { IfOk result (Summarizes (net_of seed n m)) }
{
    let net = drawn_net(alloc, seed, n, m)?;
    // Gives the proof what every network keeps.
    let _ = net.frame().nodes();
    let curve = curve_of(alloc, &net)?;
    Ok(summarize(&net, &curve))
}
