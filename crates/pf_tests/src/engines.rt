// Augmenting paths beside pushes and relabels: flows of equal value at each point of a curve, for worked networks and for networks
// that a fixed rule draws.
ghost use Rattle.std.specs.Prelude.{◌≡◌, ◌<◌, length};
ghost use Rattle.pf_model.specs.Curve.{CertifiesCurve};
ghost use Rattle.pf_model.specs.Flow.{IsFlow};
ghost use Rattle.pf_model.specs.Network.{IsInInterval, network_at};

use crate::networks::arc;
use pf_curve::{Curve, curve_of};
use pf_frame::{NoMemory, value};
use pf_net::{AffineArc, Net};
use pf_rat::Rat;
use std::alloc::Global;
use std::test::Fail;

// Whether a flow found by paths has the value of the flow found by labels, at one parameter.
fn values_agree(
    alloc: Global,
    net: &Net,
    at: &Rat,
    labelled: &[i128],
    caps: &mut [i128],
    plain: &mut [i128],
) -> Result<bool, NoMemory>
    requires inside { IsInInterval net.now at.now }
    requires labelled { IsFlow (network_at net.now at.now) labelled.now }
    requires caps { length caps.old ≡ length net.now.arcs }
    requires plain { length plain.old ≡ length net.now.arcs }
{
    let frame = net.frame();
    let s = net.source();
    net.caps_at(at, caps);
    pf_plain::greatest(alloc, frame, caps, s, net.sink(), plain)?;
    Ok(value(frame, s, plain) == value(frame, s, labelled))
}

// The same at each point of the network's curve.
fn all_agree(
    alloc: Global,
    net: &Net,
    curve: &Curve,
    caps: &mut [i128],
    plain: &mut [i128],
) -> Result<bool, NoMemory>
    requires curve { CertifiesCurve net.now curve.now.points curve.now.cuts curve.now.flows }
    requires caps { length caps.old ≡ length net.now.arcs }
    requires plain { length plain.old ≡ length net.now.arcs }
{
    // Gives the proof what every network keeps.
    let _ = net.frame().nodes();
    let points = curve.points();
    'points: for i in 0..points.len() {
        if !values_agree(alloc, net, &points[i], curve.flow(i), caps, plain)? {
            return Ok(false);
        }
    }
    Ok(true)
}

// The same for the curve that is found, whose flows are found by labels.
fn agree(alloc: Global, net: &Net) -> Result<bool, NoMemory> {
    let curve = curve_of(alloc, net)?;
    let arcs = net.frame().arcs() as usize;
    let mut caps = vec![in alloc; 0i128; arcs]?;
    let mut plain = vec![in alloc; 0i128; arcs]?;
    all_agree(alloc, net, &curve, &mut caps, &mut plain)
}

#[test]
fn two_equal_branches(rt: HostRuntime) -> Result<(), Fail> {
    let arcs = [
        arc(0, 1, 0, 1),
        arc(0, 2, 0, 1),
        arc(1, 3, 3, 0),
        arc(2, 3, 3, 0),
    ];
    let net = Net::build(rt.alloc(), 4, 0, 3, Rat::new(0, 1), Rat::new(5, 1), &arcs)?;
    assert!(rt; agree(rt.alloc(), &net)?);
    Ok(())
}

#[test]
fn the_largest_coefficients(rt: HostRuntime) -> Result<(), Fail> {
    let arcs = [arc(0, 1, 0, 1000000000), arc(1, 2, 1000000000, 0)];
    let net = Net::build(
        rt.alloc(),
        3,
        0,
        2,
        Rat::new(0, 1),
        Rat::new(1000000000, 1),
        &arcs,
    )?;
    assert!(rt; agree(rt.alloc(), &net)?);
    Ok(())
}

#[test]
fn two_breakpoints(rt: HostRuntime) -> Result<(), Fail> {
    let arcs = [
        arc(0, 1, 2, 1),
        arc(0, 2, 0, 2),
        arc(1, 3, 5, 0),
        arc(2, 3, 4, 0),
        arc(1, 2, 1, 0),
        arc(3, 4, 14, -1),
        arc(2, 4, 3, 0),
    ];
    let net = Net::build(rt.alloc(), 5, 0, 4, Rat::new(0, 1), Rat::new(8, 1), &arcs)?;
    assert!(rt; agree(rt.alloc(), &net)?);
    Ok(())
}

// The next number of a fixed sequence (Park and Miller 1988).
fn next(x: u64) -> u64
    requires { x < 2147483647 }
    ensures { result < 2147483647 }
{
    x * 48271 % 2147483647
}

// An arc between two of six nodes, whose coefficients keep the slope rule for parameters from 0 to 10.
fn drawn(x: u64) -> AffineArc
    requires { x < 2147483647 }
{
    let tail = (x % 6) as u32;
    let head = ((x % 6 + 1 + x / 6 % 5) % 6) as u32;
    let constant = (x / 30 % 21) as i64;
    let slope = (x / 630 % 5) as i64;
    if tail == 0 && head != 5 {
        return arc(tail, head, constant, slope);
    }
    if head == 5 && tail != 0 {
        return arc(tail, head, constant + 40, -slope);
    }
    arc(tail, head, constant, 0)
}

// A network of six nodes and sixteen arcs.
fn agrees_for(alloc: Global, seed: u64) -> Result<bool, Fail>
    requires { seed < 2147483647 }
{
    let mut arcs = [arc(0, 5, 0, 0); 16];
    let mut x = next(seed);
    'arcs: for i in 0..16 {
        arcs[i] = drawn(x);
        x = next(x);
    }
    let net = Net::build(alloc, 6, 0, 5, Rat::new(0, 1), Rat::new(10, 1), &arcs)?;
    Ok(agree(alloc, &net)?)
}

#[test]
fn networks_by_a_fixed_rule(rt: HostRuntime) -> Result<(), Fail> {
    'networks: for seed in 1..301u64 {
        assert!(rt; agrees_for(rt.alloc(), seed)?);
    }
    Ok(())
}
