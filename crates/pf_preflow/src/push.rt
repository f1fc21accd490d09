// The excess of the nodes, and how it is pushed along residual arcs.
ghost use Rattle.std.specs.Prelude.{List, ◌≡◌, ◌≢◌, ℕ, ◌+◌, ◌*◌, ◌<◌, ◌≤◌, ◌^◌, length, get_or, ℤ, pos, ◌+ℤ◌, ◌-ℤ◌, ◌<ℤ◌, ◌≤ℤ◌, ◌⊎◌, slice_set};
ghost use Rattle.pf_model.specs.Cut.{at_arc};
ghost use Rattle.pf_model.specs.Digraph.{network_of};
ghost use Rattle.pf_frame.specs.Numbers.{IsBounded};
ghost use Rattle.pf_preflow.specs.Residual.{residual_capacity};
ghost use Rattle.pf_preflow.specs.Room.{Serves};
ghost use Rattle.pf_preflow.specs.State.{IsExcess, FitsIn, IsWide, pushed_flow, pushed_excess};

use crate::residual::ResidualArc;
use crate::room::Room;
use pf_frame::Frame;

// How much can be pushed along the residual arc.
fn residual_capacity_of(caps: &[i128], flow: &[i128], along: ResidualArc) -> i128
    requires caps { along.arc < length caps.now }
    requires flow { along.arc < length flow.now }
    requires low { pos 0 ≤ℤ at_arc flow.now along.arc }
    requires high { at_arc flow.now along.arc ≤ℤ at_arc caps.now along.arc }
    requires most { at_arc caps.now along.arc <ℤ pos (2 ^ 104) }
    ensures { result ≡ residual_capacity caps.now flow.now along.arc along.back }
{
    let i = along.arc as usize;
    if along.back {
        flow[i]
    } else {
        caps[i] - flow[i]
    }
}

/// The amount that is pushed: as much as the residual arc takes and the node has too much of.
pub fn push_amount(caps: &[i128], flow: &[i128], room: &Room, v: u32, along: ResidualArc) -> i128
    requires node { v < length room.now.excess.items }
    requires caps { along.arc < length caps.now }
    requires flow { along.arc < length flow.now }
    requires low { pos 0 ≤ℤ at_arc flow.now along.arc }
    requires high { at_arc flow.now along.arc ≤ℤ at_arc caps.now along.arc }
    requires most { at_arc caps.now along.arc <ℤ pos (2 ^ 104) }
    requires some { pos 0 <ℤ at_arc room.now.excess.items v }
    requires fits { at_arc room.now.excess.items v ≤ℤ pos (2 ^ 119) }
    requires residual { pos 0 <ℤ residual_capacity caps.now flow.now along.arc along.back }
    ensures some { pos 0 <ℤ result }
    ensures residual { result ≤ℤ residual_capacity caps.now flow.now along.arc along.back }
    ensures there { result ≤ℤ at_arc room.now.excess.items v }
    ensures fills { (result ≡ residual_capacity caps.now flow.now along.arc along.back) ⊎ (result ≡ at_arc room.now.excess.items v) }
    ensures small { result <ℤ pos (2 ^ 104) }
{
    let most = residual_capacity_of(caps, flow, along);
    let excess = room.excess[v as usize];
    if most < excess { most } else { excess }
}

// Adds to one number.
fn add(numbers: &mut [i128], place: u32, amount: i128)
    requires place { place < length numbers.old }
    requires some { pos 0 ≤ℤ amount }
    requires small { amount <ℤ pos (2 ^ 104) }
    requires fits { IsWide (at_arc numbers.old place) }
    ensures { numbers.new ≡ slice_set numbers.old place (at_arc numbers.old place +ℤ amount) }
{
    numbers[place as usize] += amount;
}

// Takes from one number.
fn subtract(numbers: &mut [i128], place: u32, amount: i128)
    requires place { place < length numbers.old }
    requires some { pos 0 ≤ℤ amount }
    requires small { amount <ℤ pos (2 ^ 104) }
    requires fits { IsWide (at_arc numbers.old place) }
    ensures { numbers.new ≡ slice_set numbers.old place (at_arc numbers.old place -ℤ amount) }
{
    numbers[place as usize] -= amount;
}

// Moves the amount from the excess of one node to that of another.
fn move_excess(excess: &mut [i128], v: u32, w: u32, amount: i128)
    requires node { v < length excess.old }
    requires other { w < length excess.old }
    requires some { pos 0 ≤ℤ amount }
    requires small { amount <ℤ pos (2 ^ 104) }
    requires fits { (u : ℕ) → u < length excess.old → FitsIn (at_arc excess.old u) }
    ensures { excess.new ≡ pushed_excess excess.old v w amount }
{
    subtract(excess, v, amount);
    add(excess, w, amount);
}

// Changes the flow by the amount, forward or back.
fn push_flow(flow: &mut [i128], along: ResidualArc, amount: i128)
    requires arc { along.arc < length flow.old }
    requires low { pos 0 ≤ℤ at_arc flow.old along.arc }
    requires high { at_arc flow.old along.arc <ℤ pos (2 ^ 104) }
    requires some { pos 0 <ℤ amount }
    requires small { amount <ℤ pos (2 ^ 104) }
    ensures { flow.new ≡ pushed_flow flow.old along.arc along.back amount }
{
    if along.back {
        subtract(flow, along.arc, amount);
    } else {
        add(flow, along.arc, amount);
    }
}

/// Pushes the amount from `v` along the residual arc, and puts the node there into the queue.
pub fn push(flow: &mut [i128], room: &mut Room, v: u32, along: ResidualArc, amount: i128)
    requires node { v < length room.old.excess.items }
    requires other { along.to < length room.old.excess.items }
    requires room { Serves room.old (length room.old.excess.items) }
    requires arc { along.arc < length flow.old }
    requires low { pos 0 ≤ℤ at_arc flow.old along.arc }
    requires high { at_arc flow.old along.arc <ℤ pos (2 ^ 104) }
    requires some { pos 0 <ℤ amount }
    requires small { amount <ℤ pos (2 ^ 104) }
    requires fits { (u : ℕ) → u < length room.old.excess.items → FitsIn (at_arc room.old.excess.items u) }
    ensures flow { flow.new ≡ pushed_flow flow.old along.arc along.back amount }
    ensures excess { room.new.excess.items ≡ pushed_excess room.old.excess.items v along.to amount }
    ensures room { Serves room.new (length room.old.excess.items) }
{
    push_flow(flow, along, amount);
    move_excess(room.excess.as_mut_slice(), v, along.to, amount);
    room.queue.put(along.to);
}

/// Fills in the excess of each node: what enters it less what leaves it.
pub fn fill_excess(frame: &Frame, flow: &[i128], excess: &mut [i128])
    requires flow { IsBounded frame.now flow.now }
    requires nodes { length excess.old ≡ frame.now.nodes }
    ensures { (caps : List ℤ) (s t : ℕ) → IsExcess (network_of frame.now caps s t) flow.now excess.new }
{
    let _nodes = frame.nodes();
    excess.fill(0);
    'arcs: for i in 0..frame.arcs() {
        move_excess(excess, frame.tail(i), frame.head(i), flow[i as usize]);
    }
}
