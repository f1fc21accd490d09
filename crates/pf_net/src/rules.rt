// The first reason against a network.
ghost use Rattle.std.specs.Prelude.{◌≡◌, ◌<◌, ◌≤◌, pos, ◌<ℤ◌, List, false, ◌||◌};
ghost use Rattle.std.specs.List.{list_any};
ghost use Rattle.pf_model.specs.declared.AffineArc.{AffineArc};
ghost use Rattle.pf_model.specs.Fraction.{IsParameter};
ghost use Rattle.pf_model.specs.Network.{capacity_at, fits_source, fits_sink, keeps_slope};
ghost use Rattle.pf_net.specs.Limits.{IsSmallArc, with_arcs};
ghost use Rattle.pf_net.specs.Refusal.{is_large, is_far, is_too_big, arc_refusal, arcs_refusal, refusal_of};

use crate::net::NetBad;
use crate::setting::Setting;
use pf_frame::{MOST_ARCS, MOST_NODES};
use pf_model::{AffineArc, Sense};
use pf_rat::Rat;

// A coefficient is past its limit.
fn has_large(arc: &AffineArc) -> bool
    ensures { result ≡ is_large arc.now }
{
    arc.a.unsigned_abs() > 1 << 56 || arc.b.unsigned_abs() > 1 << 30
}

fn any_large(arcs: &[AffineArc]) -> bool
    ensures { result ≡ list_any is_large arcs.now }
{
    arcs.iter().any(|arc| has_large(arc))
}

// The parameter has a size above 2^44.
fn lies_far(x: &Rat) -> bool
    ensures far { result ≡ is_far x.now }
    ensures parameter { IsParameter x.now }
{
    (x.q() << 44) < x.p().abs()
}

/// The capacity of an arc at the parameter `p/q`, in units of `1/q`.
pub fn capacity(arc: &AffineArc, at: &Rat) -> i128
    requires { IsSmallArc arc.now }
    ensures { result ≡ capacity_at at.now arc.now }
{
    // The denominator has 47 bits at most, so that one product of 64 bits serves.
    let constant = i128::from(arc.a) * i128::from(at.q() as i64);
    if arc.b == 0 {
        return constant;
    }
    constant + i128::from(arc.b) * at.p()
}

// The slope is one that an arc out of the source may have.
fn may_leave(sense: Sense, arc: &AffineArc) -> bool
    ensures { result ≡ fits_source sense arc.now.b }
{
    match sense {
        Sense::Rising => arc.b >= 0,
        Sense::Falling => arc.b <= 0,
    }
}

// The slope is one that an arc into the sink may have.
fn may_enter(sense: Sense, arc: &AffineArc) -> bool
    ensures { result ≡ fits_sink sense arc.now.b }
{
    match sense {
        Sense::Rising => arc.b <= 0,
        Sense::Falling => arc.b >= 0,
    }
}

/// Whether an arc keeps the slope rule of a network of this sense with this source and this sink.
pub fn keeps_rule(sense: Sense, s: u32, t: u32, arc: &AffineArc) -> bool
    ensures { result ≡ keeps_slope sense s t arc.now }
{
    if arc.tail == s && arc.head != s && arc.head != t {
        may_leave(sense, arc)
    } else if arc.head == t && arc.tail != t && arc.tail != s {
        may_enter(sense, arc)
    } else {
        arc.b == 0
    }
}

// The first reason against the arc of the number `i`, from 0.
fn against_arc(setting: &Setting, i: usize, arc: &AffineArc) -> Option<NetBad>
    requires { is_large arc.now ≡ false }
    ensures { (all : List AffineArc) → result ≡ arc_refusal (with_arcs setting.now all) i arc.now }
{
    let n = setting.nodes;
    if arc.tail >= n || arc.head >= n {
        return Some(NetBad::BadEnd(i));
    }
    if !keeps_rule(setting.sense, setting.source, setting.sink, arc) {
        return Some(NetBad::NotMonotone(i));
    }
    if capacity(arc, &setting.low) < 0 || capacity(arc, &setting.high) < 0 {
        return Some(NetBad::Negative(i));
    }
    None
}

// The first reason against an arc.
fn against_arcs(setting: &Setting, arcs: &[AffineArc]) -> Option<NetBad>
    requires { list_any is_large arcs.now ≡ false }
    ensures { (all : List AffineArc) → result ≡ arcs_refusal (with_arcs setting.now all) 0 arcs.now }
{
    'arcs: for i in 0..arcs.len() {
        if let Some(bad) = against_arc(setting, i, &arcs[i]) {
            return Some(bad);
        }
    }
    None
}

/// The first reason against a network, in the order in which `Net::build` and `Net::build_falling` answer it.
pub fn first_refusal(setting: &Setting, arcs: &[AffineArc]) -> Option<NetBad>
    ensures { result ≡ refusal_of (with_arcs setting.now arcs.now) }
{
    let (lo, hi) = (&setting.low, &setting.high);
    if setting.nodes > MOST_NODES
        || arcs.len() > MOST_ARCS
        || any_large(arcs)
        || lies_far(lo)
        || lies_far(hi)
    {
        return Some(NetBad::TooBig);
    }
    if setting.source == setting.sink {
        return Some(NetBad::SameEnds);
    }
    if !(lo < hi) {
        return Some(NetBad::EmptyInterval);
    }
    against_arcs(setting, arcs)
}
