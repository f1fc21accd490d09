// A network, and how it is built.
ghost use Rattle.std.specs.Prelude.{◌≡◌, ◌≢◌, ◌<◌, ◌≤◌, length, slice_index_or, map, pos, IfOk, IsTrue, ◌↔◌, Some, None, Err};
ghost use Rattle.pf_model.specs.declared.AffineArc.{AffineArc};
ghost use Rattle.pf_model.specs.Network.{Network, IsInInterval, IsNetworkCut, capacity_at, cut_a, cut_b};
ghost use Rattle.pf_model.specs.Mirror.{mirror};
ghost use Rattle.pf_frame.specs.Numbers.{IsBounded};
ghost use Rattle.pf_net.specs.Limits.{IsBuilt, digraph_of, with_arcs, rising, falling};
ghost use Rattle.pf_net.specs.Refusal.{refusal_of};

use crate::mirrored::{mirror_arcs, negated, turned};
use crate::rules::first_refusal;
use crate::setting::Setting;
use crate::sums::{capacities, line_of};
use pf_frame::{Frame, NoMemory};
use pf_model::{AffineArc, Sense};
use pf_rat::{Line, Rat};
use std::alloc::Global;
use std::marker::Model;
use thiserror::Error;

/// Why arcs, ends and an interval are no network. The number is the arc's, from 0.
#[derive(Clone, Copy, Debug, PartialEq, Eq, Error)]
pub enum NetBad {
    #[error("a number is past its limit")]
    TooBig,
    #[error("source and sink are one node")]
    SameEnds,
    #[error("the interval is empty")]
    EmptyInterval,
    #[error("arc {0} has an end that is no node")]
    BadEnd(usize),
    #[error("arc {0} breaks the slope rule")]
    NotMonotone(usize),
    #[error("arc {0} has a capacity below 0")]
    Negative(usize),
    #[error("no memory")]
    NoMemory,
}

impl From<NoMemory> for NetBad {
    ghost use Rattle.pf_net.specs.declared.net.NetBad.TheVariants.{NoMemory};

    ghost from_gives = { λ _ bad. bad ≡ NoMemory };

    fn from(_error: NoMemory) -> NetBad {
        NetBad::NoMemory
    }
}

/// A parametric network, rising or falling. The capacity of an arc at the parameter `l` is `a + b l`. In a rising one the capacities of
/// arcs out of the source do not fall with the parameter and those of arcs into the sink do not rise; in a falling one it is the
/// other way round; all others are constant.
#[derive(Drop)]
pub struct Net {
    frame: Frame,
    arcs: Vec<AffineArc>,
    s: u32,
    t: u32,
    sense: Sense,
    lo: Rat,
    hi: Rat,
}

impl Model for Net {
    ghost use Rattle.std.specs.Prelude.{◌≡◌};
    ghost use Rattle.pf_model.specs.Network.{Network};
    ghost use Rattle.pf_net.specs.Limits.{IsBuilt, digraph_of};

    ghost Value = { Network };

    ghost view = { λ n. record { nodes = n.frame.nodes; source = n.s; sink = n.t; sense = n.sense; low = n.lo; high = n.hi; arcs = n.arcs.items } };

    ghost invariant = { λ n. IsBuilt (record { nodes = n.frame.nodes; source = n.s; sink = n.t; sense = n.sense; low = n.lo; high = n.hi; arcs = n.arcs.items })
        × (n.frame ≡ digraph_of (record { nodes = n.frame.nodes; source = n.s; sink = n.t; sense = n.sense; low = n.lo; high = n.hi; arcs = n.arcs.items })) };
}

// The ends of each arc.
fn ends_of_arcs(alloc: Global, arcs: &[AffineArc]) -> Result<Vec<(u32, u32)>, NoMemory>
    ensures { IfOk result (λ ends. ends.items ≡ map (λ arc. (arc.tail, arc.head)) arcs.now) }
{
    let mut ends = Vec::with_capacity(alloc, arcs.len())?;
    'arcs: for arc in arcs {
        ends.push((arc.tail, arc.head))?;
    }
    Ok(ends)
}

// The network of numbers against which there is no reason.
fn make(alloc: Global, setting: Setting, arcs: &[AffineArc]) -> Result<Net, NoMemory>
    requires source { setting.source < setting.nodes }
    requires sink { setting.sink < setting.nodes }
    requires none { refusal_of (with_arcs setting arcs.now) ≡ None }
    ensures { IfOk result (λ net. net ≡ with_arcs setting arcs.now) }
{
    let (low, high) = (setting.low.q(), setting.high.q());
    prove!(low >= 1 && high >= 1);
    let arcs = Vec::from_slice(alloc, arcs)?;
    Net::from_setting(alloc, setting, arcs)
}

// The network of this setting and these arcs, or the first reason against it.
fn judged(alloc: Global, setting: Setting, arcs: &[AffineArc]) -> Result<Net, NetBad>
    requires source { setting.source < setting.nodes }
    requires sink { setting.sink < setting.nodes }
    ensures given { IfOk result (λ net. net ≡ with_arcs setting arcs.now) }
    ensures accepted { IfOk result (λ _. refusal_of (with_arcs setting arcs.now) ≡ None) }
    ensures refused { (bad : NetBad) → result ≡ Err bad → bad ≢ NetBad.NoMemory
        → refusal_of (with_arcs setting arcs.now) ≡ Some bad }
{
    if let Some(bad) = first_refusal(&setting, arcs) {
        return Err(bad);
    }
    Ok(make(alloc, setting, arcs)?)
}

impl Net {
    /// A rising network of `n` nodes with the source `s`, the sink `t`, the interval from `lo` to `hi` and these arcs, or
    /// the first reason against it: too big, one node as source and sink, an empty interval, and then arc by arc an end
    /// that is no node, a slope against the rule, a capacity below 0 at an end of the interval.
    pub fn build(
        alloc: Global,
        n: u32,
        s: u32,
        t: u32,
        lo: Rat,
        hi: Rat,
        arcs: &[AffineArc],
    ) -> Result<Net, NetBad>
        requires two { 2 ≤ n }
        requires source { s < n }
        requires sink { t < n }
        ensures given { IfOk result (λ net. net ≡ rising n s t lo hi arcs.now) }
        ensures accepted { IfOk result (λ _. refusal_of (rising n s t lo hi arcs.now) ≡ None) }
        ensures refused { (bad : NetBad) → result ≡ Err bad → bad ≢ NetBad.NoMemory
            → refusal_of (rising n s t lo hi arcs.now) ≡ Some bad }
    {
        let setting = Setting {
            sense: Sense::Rising,
            nodes: n,
            source: s,
            sink: t,
            low: lo,
            high: hi,
        };
        judged(alloc, setting, arcs)
    }

    /// A falling network of `n` nodes with the source `s`, the sink `t`, the interval from `lo` to `hi` and these arcs, or
    /// the first reason against it, in the order of `build`; the slope rule is that of falling networks.
    pub fn build_falling(
        alloc: Global,
        n: u32,
        s: u32,
        t: u32,
        lo: Rat,
        hi: Rat,
        arcs: &[AffineArc],
    ) -> Result<Net, NetBad>
        requires two { 2 ≤ n }
        requires source { s < n }
        requires sink { t < n }
        ensures given { IfOk result (λ net. net ≡ falling n s t lo hi arcs.now) }
        ensures accepted { IfOk result (λ _. refusal_of (falling n s t lo hi arcs.now) ≡ None) }
        ensures refused { (bad : NetBad) → result ≡ Err bad → bad ≢ NetBad.NoMemory
            → refusal_of (falling n s t lo hi arcs.now) ≡ Some bad }
    {
        let setting = Setting {
            sense: Sense::Falling,
            nodes: n,
            source: s,
            sink: t,
            low: lo,
            high: hi,
        };
        judged(alloc, setting, arcs)
    }

    /// The rising network of numbers that are known to be one, within the limits. The arcs are handed over, and neither
    /// judged nor copied.
    pub fn from_arcs(
        alloc: Global,
        n: u32,
        s: u32,
        t: u32,
        lo: Rat,
        hi: Rat,
        arcs: Vec<AffineArc>,
    ) -> Result<Net, NoMemory>
        requires { IsBuilt (rising n s t lo hi arcs.items) }
        ensures { IfOk result (λ net. net ≡ rising n s t lo hi arcs.items) }
    {
        let sense = Sense::Rising;
        let setting = Setting {
            sense,
            nodes: n,
            source: s,
            sink: t,
            low: lo,
            high: hi,
        };
        Net::from_setting(alloc, setting, arcs)
    }

    /// The network of this setting and of arcs that are known to make one with it, within the limits. The arcs are handed over, and
    /// neither judged nor copied.
    pub fn from_setting(
        alloc: Global,
        setting: Setting,
        arcs: Vec<AffineArc>,
    ) -> Result<Net, NoMemory>
        requires { IsBuilt (with_arcs setting arcs.items) }
        ensures { IfOk result (λ net. net ≡ with_arcs setting arcs.items) }
    {
        let ends = ends_of_arcs(alloc, arcs.as_slice())?;
        let frame = Frame::from_ends(alloc, setting.nodes, ends)?;
        Ok(Net {
            frame,
            arcs,
            s: setting.source,
            t: setting.sink,
            sense: setting.sense,
            lo: setting.low,
            hi: setting.high,
        })
    }

    /// The network of the other sense, from minus the high end of the interval to minus the low one, with each slope negated: at the
    /// parameter `-l` it has the capacities that this one has at `l`. The line `(A, B)` of a cut becomes `(A, -B)`.
    pub fn mirror(&self, alloc: Global) -> Result<Net, NoMemory>
        ensures { IfOk result (λ net. net ≡ mirror self.now) }
    {
        let frame = self.frame();
        let arcs = mirror_arcs(alloc, self.arcs.as_slice())?;
        let sense = turned(self.sense());
        let lo = negated(self.hi());
        let hi = negated(self.lo());
        let nodes = frame.nodes();
        let setting = Setting {
            sense,
            nodes,
            source: self.source(),
            sink: self.sink(),
            low: lo,
            high: hi,
        };
        Net::from_setting(alloc, setting, arcs)
    }

    /// The nodes and arcs, without capacities. What holds of every network is told here.
    pub fn frame(&self) -> &Frame
        ensures frame { result.now ≡ digraph_of self.now }
        ensures built { IsBuilt self.now }
    {
        &self.frame
    }

    pub fn source(&self) -> u32
        ensures { result ≡ self.now.source }
    {
        self.s
    }

    pub fn sink(&self) -> u32
        ensures { result ≡ self.now.sink }
    {
        self.t
    }

    /// Which way the capacities at the source move as the parameter rises.
    pub fn sense(&self) -> Sense
        ensures { result ≡ self.now.sense }
    {
        self.sense
    }

    /// The low end of the interval.
    pub fn lo(&self) -> &Rat
        ensures { result.now ≡ self.now.low }
    {
        &self.lo
    }

    /// The high end of the interval.
    pub fn hi(&self) -> &Rat
        ensures { result.now ≡ self.now.high }
    {
        &self.hi
    }

    /// The arc of the number `i`, from 0.
    pub fn arc(&self, i: u32) -> AffineArc
        requires { i < length self.now.arcs }
        ensures { result ≡ slice_index_or self.now.arcs i (record { tail = 0; head = 0; a = pos 0; b = pos 0 }) }
    {
        self.arcs[i as usize]
    }

    /// Writes into `caps` the capacity of each arc at a parameter `p/q` of the interval, in units of `1/q`.
    pub fn caps_at(&self, at: &Rat, caps: &mut [i128])
        requires inside { IsInInterval self.now at.now }
        requires places { length caps.old ≡ length self.now.arcs }
        ensures capacities { caps.new ≡ map (capacity_at at.now) self.now.arcs }
        ensures bounded { IsBounded (digraph_of self.now) caps.new }
    {
        let q = at.q();
        prove!(q >= 1);
        capacities(self.arcs.as_slice(), at, caps);
    }

    /// Whether the side is a cut: one truth value per node, true at the source and false at the sink.
    pub fn is_cut(&self, side: &[bool]) -> bool
        ensures { IsTrue result ↔ IsNetworkCut self.now side.now }
    {
        if side.len() != self.frame.nodes() as usize {
            return false;
        }
        if !side[self.s as usize] {
            return false;
        }
        !side[self.t as usize]
    }

    /// The line of a cut: the sums of `a` and of `b` over the arcs that leave it. `side` is indexed by node.
    pub fn cut_line(&self, side: &[bool]) -> Line
        requires { IsNetworkCut self.now side.now }
        ensures { result ≡ record { a = cut_a self.now side.now; b = cut_b self.now side.now } }
    {
        line_of(self.arcs.as_slice(), side)
    }
}
