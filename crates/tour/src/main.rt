//! A tour of the library: it builds a network, finds its curve, walks over the points and the cuts, and checks the curve.
#![tactic(auto)]

ghost use Rattle.std.specs.Prelude.{All, IfOk, length, ◌≡◌};
ghost use Rattle.pf_model.specs.Answer.{IsCurveShape};
ghost use Rattle.pf_model.specs.Network.{IsNetworkCut};

use pf_cert::check_curve;
use pf_curve::{Curve, curve_of};
use pf_frame::{NoMemory, Scratch};
use pf_net::{AffineArc, Net, NetBad};
use pf_rat::Rat;
use std::alloc::Global;
use std::io;

const NAMES: [&str; 4] = ["well", "north", "south", "town"];

// A pipe, which carries `a + b l` in the year `l`.
fn pipe(tail: u32, head: u32, a: i64, b: i64) -> AffineArc {
    AffineArc { tail, head, a, b }
}

// Prints a greatest flow at each point: a number for each pipe, in units of 1/q of the point p/q.
fn print_points(rt: &impl Print, curve: &Curve) -> io::Result<()> {
    let points = curve.points();
    for i in 0..points.len() {
        let (p, q) = (points[i].p(), points[i].q());
        println!(rt; "year {p}/{q}: flow {:?}", curve.flow(i))?;
    }
    Ok(())
}

// Prints the nodes of a side.
fn print_side(rt: &impl Print, side: &[bool]) -> io::Result<()> {
    for (name, inside) in NAMES.iter().zip(side) {
        if *inside {
            print!(rt; " {name}")?;
        }
    }
    println!(rt;)
}

// Prints the least cut between two points: its capacity, which is what gets through, and its nodes.
fn print_cut(rt: &impl Print, net: &Net, from: &Rat, to: &Rat, cut: &[bool]) -> io::Result<()>
    requires { IsNetworkCut net.now cut.now }
{
    let line = net.cut_line(cut);
    print!(rt; "year {}/{} to {}/{}: ", from.p(), from.q(), to.p(), to.q())?;
    print!(rt; "{} + {} l gets out of", line.a(), line.b())?;
    print_side(rt, cut)
}

// Prints the least cut between each point and the next.
fn print_cuts(rt: &impl Print, net: &Net, curve: &Curve) -> io::Result<()>
    requires { All (IsNetworkCut net.now) curve.now.cuts }
{
    let points = curve.points();
    for i in 1..points.len() {
        print_cut(rt, net, &points[i - 1], &points[i], curve.cut(i - 1))?;
    }
    Ok(())
}

// A well feeds a town over two stations. The pumps at the well grow from year 0 to year 10, and nothing else does.
fn network(alloc: Global) -> Result<Net, NetBad>
    ensures nodes { IfOk result (λ net. net.nodes ≡ 4) }
    ensures pipes { IfOk result (λ net. length net.arcs ≡ 5) }
{
    let pipes = [
        pipe(0, 1, 2, 3),
        pipe(0, 2, 1, 1),
        pipe(1, 2, 2, 0),
        pipe(1, 3, 8, 0),
        pipe(2, 3, 6, 0),
    ];
    let (first, last) = (Rat::from_integer(0), Rat::from_integer(10));
    Net::build(alloc, 4, 0, 3, first, last, &pipes)
}

// Whether the flows certify the curve. This trusts no search: it looks at the network and at the curve alone.
fn is_certified(alloc: Global, net: &Net, curve: &Curve) -> Result<bool, NoMemory>
    requires nodes { net.now.nodes ≡ 4 }
    requires pipes { length net.now.arcs ≡ 5 }
    requires shape { IsCurveShape net.now curve.now }
{
    let mut scratch = Scratch::make(alloc, 4, 5)?;
    let (mut capacities, mut side) = ([0; 5], [false; 4]);
    Ok(check_curve(net, curve, &mut scratch, &mut capacities, &mut side))
}

// Prints the curve, and whether its flows certify it.
fn show(rt: &impl Print, alloc: Global, net: &Net, curve: &Curve) -> anyhow::Result<()>
    requires nodes { net.now.nodes ≡ 4 }
    requires pipes { length net.now.arcs ≡ 5 }
    requires shape { IsCurveShape net.now curve.now }
    requires cuts { All (IsNetworkCut net.now) curve.now.cuts }
{
    print_points(rt, curve)?;
    print_cuts(rt, net, curve)?;
    let holds = is_certified(alloc, net, curve)?;
    println!(rt; "certified: {holds}")?;
    Ok(())
}

fn main(rt: HostRuntime) -> anyhow::Result<()> {
    let net = network(rt.alloc())?;
    let curve = curve_of(rt.alloc(), &net)?;
    show(&rt, rt.alloc(), &net, &curve)
}
