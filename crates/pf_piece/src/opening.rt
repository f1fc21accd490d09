// The nodes and the arcs of a piece.
ghost use Rattle.std.specs.Prelude.{◌≡◌, ℕ, ◌+◌, ◌<◌, ◌≤◌, ◌==◌, if◌then◌else◌, length, slice_index_or, map, take, IfOk};
ghost use Rattle.pf_model.specs.Cut.{has};
ghost use Rattle.pf_model.specs.Network.{ends_of};
ghost use Rattle.pf_piece.specs.Piece.{AreNested, is_inner, inner_before, place, renamed};
ghost use Rattle.pf_piece.specs.Held.{HasPlaces, AreKept, placed, arc_at};

use pf_frame::NoMemory;
use pf_net::Net;
use std::alloc::Global;

// The node that stands for `v`, where `next` is the first free one.
fn place_of(small: &[bool], large: &[bool], v: usize, next: u32) -> u32
    requires small { v < length small.now }
    requires large { v < length large.now }
    ensures { result ≡ (if has small.now v then 0 else (if has large.now v then next else 1)) }
{
    if small[v] {
        0
    } else if large[v] {
        next
    } else {
        1
    }
}

// How many nodes more the piece has by `v`.
fn added(small: &[bool], large: &[bool], v: usize) -> u32
    requires small { v < length small.now }
    requires large { v < length large.now }
    ensures { result ≡ (if is_inner small.now large.now v then 1 else 0) }
{
    u32::from(!small[v] && large[v])
}

// Writes at each node the one that stands for it, and tells how many nodes the piece has.
fn write_places(small: &[bool], large: &[bool], places: &mut [u32]) -> u32
    requires few { length small.now ≤ 8192 }
    requires large { length large.now ≡ length small.now }
    requires places { length places.old ≡ length small.now }
    ensures full { length places.new ≡ length small.now }
    ensures places { (v : ℕ) → v < length small.now → slice_index_or places.new v 0 ≡ place small.now large.now v }
    ensures count { result ≡ inner_before small.now large.now (length small.now) + 2 }
{
    let mut next = 2;
    'nodes: for v in 0..small.len() {
        places[v] = place_of(small, large, v, next);
        next += added(small, large, v);
    }
    next
}

/// At each node of the network the one of the piece that stands for it, and how many nodes the piece has.
pub fn places_of(
    alloc: Global,
    net: &Net,
    small: &[bool],
    large: &[bool],
) -> Result<(Vec<u32>, u32), NoMemory>
    requires { AreNested net.now small.now large.now }
    ensures places { IfOk result (λ found. HasPlaces (record { net = net.now; small = small.now; large = large.now }) found.0.items) }
    ensures count { IfOk result (λ found. found.1 ≡ inner_before small.now large.now net.now.nodes + 2) }
{
    let nodes = net.frame().nodes() as usize;
    let mut places = vec![in alloc; 0u32; nodes]?;
    let count = write_places(small, large, places.as_mut_slice());
    Ok((places, count))
}

// How many arcs more the piece has by the arc `i`: its ends stand at two nodes, or at one.
fn kept_by(net: &Net, places: &[u32], i: u32) -> usize
    requires arc { i < length net.now.arcs }
    requires places { length places.now ≡ net.now.nodes }
    ensures { result ≡ (if placed places.now (arc_at net.now.arcs i).tail == placed places.now (arc_at net.now.arcs i).head then 0 else 1) }
{
    let frame = net.frame();
    let tail = places[frame.tail(i) as usize];
    let head = places[frame.head(i) as usize];
    usize::from(tail != head)
}

// Collects the numbers of the arcs whose ends stand at two nodes, in the first places of `kept`, and tells how many there are.
fn keep(net: &Net, places: &[u32], kept: &mut [u32]) -> usize
    requires places { length places.now ≡ net.now.nodes }
    requires room { length kept.old ≡ length net.now.arcs }
    ensures most { result ≤ length kept.new }
    ensures kept { AreKept net.now.arcs places.now (take result kept.new) }
{
    let mut count = 0;
    'arcs: for i in 0..net.frame().arcs() {
        kept[count] = i;
        count += kept_by(net, places, i);
    }
    count
}

/// The numbers of the arcs whose ends stand at two nodes of the piece.
pub fn kept_of(alloc: Global, net: &Net, places: &[u32]) -> Result<Vec<u32>, NoMemory>
    requires { length places.now ≡ net.now.nodes }
    ensures { IfOk result (λ kept. AreKept net.now.arcs places.now kept.items) }
{
    let arcs = net.frame().arcs() as usize;
    let mut room = vec![in alloc; 0u32; arcs]?;
    let count = keep(net, places, room.as_mut_slice());
    Ok(Vec::from_slice(alloc, &room[..count])?)
}

// Writes the two nodes at which the ends of each of these arcs stand.
fn write_ends(net: &Net, places: &[u32], kept: &[u32], ends: &mut [(u32, u32)])
    requires places { length places.now ≡ net.now.nodes }
    requires known { (k : ℕ) → k < length kept.now → slice_index_or kept.now k 0 < length net.now.arcs }
    requires room { length ends.old ≡ length kept.now }
    ensures { ends.new ≡ map (λ i. ends_of (renamed (placed places.now) (arc_at net.now.arcs i))) kept.now }
{
    let frame = net.frame();
    'arcs: for k in 0..kept.len() {
        let i = kept[k];
        let tail = places[frame.tail(i) as usize];
        let head = places[frame.head(i) as usize];
        ends[k] = (tail, head);
    }
}

/// The two nodes at which the ends of each of these arcs stand.
pub fn ends_at(
    alloc: Global,
    net: &Net,
    places: &[u32],
    kept: &[u32],
) -> Result<Vec<(u32, u32)>, NoMemory>
    requires places { length places.now ≡ net.now.nodes }
    requires known { (k : ℕ) → k < length kept.now → slice_index_or kept.now k 0 < length net.now.arcs }
    ensures { IfOk result (λ ends. ends.items ≡ map (λ i. ends_of (renamed (placed places.now) (arc_at net.now.arcs i))) kept.now) }
{
    let mut ends = vec![in alloc; (0u32, 0u32); kept.len()]?;
    write_ends(net, places, kept, ends.as_mut_slice());
    Ok(ends)
}
