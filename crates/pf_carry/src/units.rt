// A flow in one unit becomes a preflow in another.
ghost use Rattle.std.specs.Prelude.{◌≡◌, ◌≤◌, length};
ghost use Rattle.pf_model.specs.Digraph.{network_of};
ghost use Rattle.pf_frame.specs.Numbers.{IsBounded};
ghost use Rattle.pf_carry.specs.Carry.{IsUnit, IsCarriable, IsCarried, floored};

use crate::scaling::scale;
use crate::trimming::trim;
use pf_frame::Frame;

/// What a flow is carried from and to: units of `1/from` and of `1/to`.
#[derive(Clone, Copy)]
pub struct Units {
    pub from: i128,
    pub to: i128,
}

/// `carry` over working room: `sums` has a place for each node.
pub fn carry_within(
    frame: &Frame,
    s: u32,
    t: u32,
    units: &Units,
    caps: &[i128],
    flow: &mut [i128],
    sums: &mut [i128],
)
    requires from { IsUnit units.now.from }
    requires to { IsUnit units.now.to }
    requires caps { IsBounded frame.now caps.now }
    requires flow { IsCarriable frame.now units.now.from flow.old }
    requires room { frame.now.nodes ≤ length sums.old }
    ensures carried { IsCarried (network_of frame.now caps.now s t) (floored units.now.from units.now.to caps.now flow.old) flow.new }
    ensures room { frame.now.nodes ≤ length sums.new }
{
    scale(frame, units.from, units.to, caps, flow, sums);
    trim(frame, s, t, flow, sums);
}

/// Makes a flow in units of `1/from_unit` a preflow from `s` to `t` in units of `1/to_unit`, within the capacities `caps` in the new
/// unit: each number is floored to it and cut to its capacity. Where a node would give more than it gets, the numbers of the arcs
/// out of it are lowered, those into the sink first; where none would, the floored and cut numbers stay. Both lists are indexed by
/// arcs. Takes no memory. An engine of labels goes on from there (Gallo, Grigoriadis and Tarjan 1989).
pub fn carry(
    frame: &Frame,
    s: u32,
    t: u32,
    from_unit: i128,
    to_unit: i128,
    caps: &[i128],
    flow: &mut [i128],
)
    requires from { IsUnit from_unit }
    requires to { IsUnit to_unit }
    requires caps { IsBounded frame.now caps.now }
    requires flow { IsCarriable frame.now from_unit flow.old }
    ensures { IsCarried (network_of frame.now caps.now s t) (floored from_unit to_unit caps.now flow.old) flow.new }
{
    // Gives the proof that there are few nodes.
    let _ = frame.nodes();
    // What leaves each node less what enters it.
    let mut room = [0i128; 8192];
    let sums = room.as_mut_slice();
    scale(frame, from_unit, to_unit, caps, flow, sums);
    trim(frame, s, t, flow, sums);
}
