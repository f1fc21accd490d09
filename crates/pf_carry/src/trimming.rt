// Numbers are lowered until no node but the source and the sink gives more than it gets.
ghost use Rattle.std.specs.Prelude.{◌≡◌, ◌≢◌, ℕ, ◌<◌, ◌≤◌, ◌↔◌, length, ℤ, pos, ◌≤ℤ◌, IsTrue};
ghost use Rattle.pf_model.specs.Cut.{at_arc};
ghost use Rattle.pf_model.specs.Flow.{sum_out};
ghost use Rattle.pf_frame.specs.Numbers.{IsBounded};
ghost use Rattle.pf_carry.specs.Trimming.{IsSummed, IsShortAt, HasNoDeficit, IsLowered, less_at};

use crate::scaling::add;
use pf_frame::Frame;

// So many rounds over the nodes come first.
const ROUNDS: u32 = 64;

// Whether the node gives more than it gets, and is neither the source nor the sink.
fn is_short(sums: &[i128], s: u32, t: u32, v: u32) -> bool
    requires { v < length sums.now }
    ensures { IsTrue result ↔ IsShortAt s t sums.now v }
{
    v != s && v != t && 0 < sums[v as usize]
}

// The first such node, or the number of nodes where none is.
fn first_short(frame: &Frame, s: u32, t: u32, sums: &[i128]) -> u32
    requires { frame.now.nodes ≤ length sums.now }
    ensures most { result ≤ frame.now.nodes }
    ensures short { result < frame.now.nodes → IsShortAt s t sums.now result }
    ensures none { frame.now.nodes ≤ result → (v : ℕ) → v < frame.now.nodes → IsShortAt s t sums.now v → ⊥ }
{
    'nodes: for v in 0..frame.nodes() {
        if is_short(sums, s, t, v) {
            return v;
        }
    }
    frame.nodes()
}

// Takes from one number.
fn take(numbers: &mut [i128], place: u32, amount: i128)
    requires place { place < length numbers.old }
    requires some { pos 0 ≤ℤ amount }
    requires there { amount ≤ℤ at_arc numbers.old place }
    ensures { numbers.new ≡ less_at numbers.old place amount }
{
    numbers[place as usize] -= amount;
}

// Lowers the number of an arc, and what its ends give.
fn lower(frame: &Frame, flow: &mut [i128], sums: &mut [i128], i: u32, amount: i128)
    requires arc { i < length frame.now.ends }
    requires sums { IsSummed frame.now flow.old sums.old }
    requires some { pos 0 ≤ℤ amount }
    requires there { amount ≤ℤ at_arc flow.old i }
    ensures flow { flow.new ≡ less_at flow.old i amount }
    ensures most { (k : ℕ) → at_arc flow.new k ≤ℤ at_arc flow.old k }
    ensures sums { IsSummed frame.now flow.new sums.new }
{
    let _ = frame.arcs();
    take(flow, i, amount);
    add(sums, frame.tail(i), -amount);
    add(sums, frame.head(i), amount);
}

// Lowers an arc out of `v` by what `v` gives too much, at most by what the arc carries.
fn give_less(frame: &Frame, flow: &mut [i128], sums: &mut [i128], v: u32, i: u32)
    requires node { v < frame.now.nodes }
    requires arc { i < length frame.now.ends }
    requires sums { IsSummed frame.now flow.old sums.old }
    ensures sums { IsSummed frame.now flow.new sums.new }
    ensures lowered { (s t : ℕ) → v ≢ s → v ≢ t → IsLowered frame.now s t flow.old flow.new }
{
    let _ = frame.arcs();
    let short = sums[v as usize];
    if 0 < short && frame.head(i) != v {
        let there = flow[i as usize];
        let amount = if there < short { there } else { short };
        lower(frame, flow, sums, i, amount);
    }
}

// The same of an arc into the sink alone.
fn give_sink_less(frame: &Frame, t: u32, flow: &mut [i128], sums: &mut [i128], v: u32, i: u32)
    requires node { v < frame.now.nodes }
    requires arc { i < length frame.now.ends }
    requires sums { IsSummed frame.now flow.old sums.old }
    ensures sums { IsSummed frame.now flow.new sums.new }
    ensures lowered { (s t : ℕ) → v ≢ s → v ≢ t → IsLowered frame.now s t flow.old flow.new }
{
    if frame.head(i) == t {
        give_less(frame, flow, sums, v, i);
    }
}

// Lowers arcs out of `v` while it gives more than it gets: first those into the sink.
fn relieve(frame: &Frame, t: u32, flow: &mut [i128], sums: &mut [i128], v: u32)
    requires node { v < frame.now.nodes }
    requires sums { IsSummed frame.now flow.old sums.old }
    ensures sums { IsSummed frame.now flow.new sums.new }
    ensures lowered { (s t : ℕ) → v ≢ s → v ≢ t → IsLowered frame.now s t flow.old flow.new }
{
    'into_sink: for i in frame.outs(v) {
        give_sink_less(frame, t, flow, sums, v, *i);
    }
    'others: for i in frame.outs(v) {
        give_less(frame, flow, sums, v, *i);
    }
}

// Whether the node gave more than it got; then arcs out of it are lowered.
fn relieve_short(
    frame: &Frame,
    s: u32,
    t: u32,
    flow: &mut [i128],
    sums: &mut [i128],
    v: u32,
) -> bool
    requires node { v < frame.now.nodes }
    requires sums { IsSummed frame.now flow.old sums.old }
    ensures sums { IsSummed frame.now flow.new sums.new }
    ensures lowered { IsLowered frame.now s t flow.old flow.new }
{
    if !is_short(sums, s, t, v) {
        return false;
    }
    relieve(frame, t, flow, sums, v);
    true
}

// One round over the nodes. Whether some node gave more than it got.
fn round(frame: &Frame, s: u32, t: u32, flow: &mut [i128], sums: &mut [i128]) -> bool
    requires sums { IsSummed frame.now flow.old sums.old }
    ensures sums { IsSummed frame.now flow.new sums.new }
    ensures lowered { IsLowered frame.now s t flow.old flow.new }
{
    let mut found = false;
    'nodes: for v in 0..frame.nodes() {
        if relieve_short(frame, s, t, flow, sums, v) {
            found = true;
        }
    }
    found
}

// Empties all arcs out of a node.
fn empty(frame: &Frame, flow: &mut [i128], sums: &mut [i128], v: u32)
    requires node { v < frame.now.nodes }
    requires sums { IsSummed frame.now flow.old sums.old }
    ensures sums { IsSummed frame.now flow.new sums.new }
    ensures most { (i : ℕ) → at_arc flow.new i ≤ℤ at_arc flow.old i }
    ensures none { sum_out frame.now.ends flow.new v ≤ℤ pos 0 }
{
    'outs: for i in frame.outs(v) {
        let amount = flow[*i as usize];
        lower(frame, flow, sums, *i, amount);
    }
}

// Rounds until no node gives more than it gets, but at most so many.
fn relieve_all(frame: &Frame, s: u32, t: u32, flow: &mut [i128], sums: &mut [i128])
    requires sums { IsSummed frame.now flow.old sums.old }
    ensures sums { IsSummed frame.now flow.new sums.new }
    ensures lowered { IsLowered frame.now s t flow.old flow.new }
{
    'rounds: for _round in 0..ROUNDS {
        if !round(frame, s, t, flow, sums) {
            break 'rounds;
        }
    }
}

/// Lowers numbers until no node but the source and the sink gives more than it gets: in rounds at first, and then by emptying the
/// arcs out of such a node, which gives nothing from then on.
pub fn trim(frame: &Frame, s: u32, t: u32, flow: &mut [i128], sums: &mut [i128])
    requires sums { IsSummed frame.now flow.old sums.old }
    ensures bounded { IsBounded frame.now flow.new }
    ensures lowered { IsLowered frame.now s t flow.old flow.new }
    ensures given { HasNoDeficit frame.now s t flow.new }
    ensures room { frame.now.nodes ≤ length sums.new }
{
    relieve_all(frame, s, t, flow, sums);
    let nodes = frame.nodes();
    let mut v = first_short(frame, s, t, sums);
    'turns: while v < nodes {
        empty(frame, flow, sums, v);
        v = first_short(frame, s, t, sums);
    }
}
