// A vector raised edge by edge, as far as it stays sparse, and the groups of vertices that are tight.
ghost use Rattle.std.specs.Prelude.{◌≡◌, ◌≢◌, ℕ, ◌+◌, ◌<◌, ◌≤◌, ◌^◌, ℤ, ◌+ℤ◌, ◌-ℤ◌, ◌≤ℤ◌, ◌<ℤ◌, IsTrue, length, get_or, pos, replicate, slice_set, true, false, if◌then◌else◌};
ghost use Rattle.pf_model.specs.Cut.{has, at_arc};
ghost use Rattle.pf_graph.specs.Labels.{label};
ghost use Rattle.pf_forest.specs.Held.{IsHeld, HasTables, tail_of, head_of};
ghost use Rattle.pf_forest.specs.Forest.{IsSparse, IsSplit};
ghost use Rattle.pf_forest.specs.Filling.{IsForest, IsJoined, IsRaised, IsGoals, CrossingAreFull, AreWithinGoals, HasApartEnds, HasBounds, IsLifted};

use crate::charges::Charges;
use crate::gather::gather;
use crate::workspace::Workspace;
use pf_frame::Frame;

// Moves all that `root` holds to others.
fn bare(frame: &Frame, limit: i128, charges: &mut Charges, workspace: &mut Workspace, root: u32)
    requires held { IsHeld frame.now limit charges.old.vector.items charges.old.heads.items charges.old.rooms.items }
    requires sparse { IsSparse frame.now limit charges.old.vector.items }
    requires tables { HasTables frame.now.nodes workspace.old }
    requires root { root < frame.now.nodes }
    ensures vector { charges.new.vector.items ≡ charges.old.vector.items }
    ensures held { IsHeld frame.now limit charges.new.vector.items charges.new.heads.items charges.new.rooms.items }
    ensures tables { HasTables frame.now.nodes workspace.new }
    ensures bare { at_arc charges.new.rooms.items root ≡ limit }
{
    gather(frame, limit, charges, root, root, limit, workspace);
}

// Puts an amount on edge `e`, into the room of its head `v`.
fn put(vector: &mut [i128], heads: &mut [i128], rooms: &mut [i128], e: u32, v: u32, amount: i128)
    requires edge { e < length vector.old }
    requires full { length heads.old ≡ length vector.old }
    requires vertex { v < length rooms.old }
    requires low { pos 0 ≤ℤ amount }
    requires fits { amount ≤ℤ at_arc rooms.old v }
    requires top { at_arc rooms.old v ≤ℤ pos (2 ^ 80) }
    requires heads_low { pos 0 ≤ℤ at_arc heads.old e }
    requires heads_high { at_arc heads.old e ≤ℤ at_arc vector.old e }
    requires vector_high { at_arc vector.old e ≤ℤ pos (2 ^ 100) }
    ensures vector { vector.new ≡ slice_set vector.old e (at_arc vector.old e +ℤ amount) }
    ensures heads { heads.new ≡ slice_set heads.old e (at_arc heads.old e +ℤ amount) }
    ensures rooms { rooms.new ≡ slice_set rooms.old v (at_arc rooms.old v -ℤ amount) }
{
    vector[e as usize] += amount;
    heads[e as usize] += amount;
    rooms[v as usize] -= amount;
}

// Puts on edge `e` as much as the room of its head `v` takes, and its goal.
fn lift(charges: &mut Charges, e: u32, v: u32, goal: i128)
    requires edge { e < length charges.old.vector.items }
    requires full { length charges.old.heads.items ≡ length charges.old.vector.items }
    requires vertex { v < length charges.old.rooms.items }
    requires bounds { HasBounds charges.old.vector.items charges.old.heads.items charges.old.rooms.items v e }
    requires goal { at_arc charges.old.vector.items e ≤ℤ goal }
    requires top { goal ≤ℤ pos (2 ^ 100) }
    ensures lifted { IsLifted charges.old.vector.items charges.old.heads.items charges.old.rooms.items v e goal charges.new.vector.items charges.new.heads.items charges.new.rooms.items }
{
    let vector = charges.vector.as_mut_slice();
    let heads = charges.heads.as_mut_slice();
    let rooms = charges.rooms.as_mut_slice();
    let want = goal - vector[e as usize];
    let amount = rooms[v as usize].min(want);
    put(vector, heads, rooms, e, v, amount);
}

// Marks the group of `v`, where it is in the side.
fn mark(hits: &mut [bool], groups: &[u32], side: &[bool], v: usize)
    requires place { v < length groups.now }
    requires in_side { v < length side.now }
    requires group { label groups.now v < length hits.old }
    ensures { hits.new ≡ (if has side.now v then slice_set hits.old (label groups.now v) true else hits.old) }
{
    if side[v] {
        hits[groups[v] as usize] = true;
    }
}

// Gives `v` the group `to`, where its group is marked.
fn rename(groups: &mut [u32], hits: &[bool], to: u32, v: usize)
    requires place { v < length groups.old }
    requires group { label groups.old v < length hits.now }
    ensures { groups.new ≡ (if has hits.now (label groups.old v) then slice_set groups.old v to else groups.old) }
{
    if hits[groups[v] as usize] {
        groups[v] = to;
    }
}

// Makes one group of all groups that the side touches.
fn join(groups: &mut [u32], side: &[bool], hits: &mut [bool], to: u32)
    requires side { length side.now ≡ length groups.old }
    requires hits { length hits.old ≡ length groups.old }
    requires low { (v : ℕ) → v < length groups.old → label groups.old v < length groups.old }
    ensures joined { IsJoined side.now groups.old to groups.new }
{
    hits.fill(false);
    'side: for v in 0..groups.len() {
        mark(hits, groups, side, v);
    }
    'groups: for v in 0..groups.len() {
        rename(groups, hits, to, v);
    }
}

// Makes one group of all groups that `u` and the side of the workspace touch.
fn unite(groups: &mut [u32], workspace: &mut Workspace, u: u32)
    requires tables { HasTables (length groups.old) workspace.old }
    requires vertex { u < length groups.old }
    requires low { (v : ℕ) → v < length groups.old → label groups.old v < length groups.old }
    ensures tables { HasTables (length groups.old) workspace.new }
    ensures joined { IsJoined (slice_set workspace.old.side.items u true) groups.old (label groups.old u) groups.new }
{
    let side = workspace.side.as_mut_slice();
    let hits = workspace.hits.as_mut_slice();
    side[u as usize] = true;
    let to = groups[u as usize];
    join(groups, side, hits, to);
}

// Raises edge `e` towards `goal`, as far as the vector stays sparse. Where it does not get there, its ends come into one group.
fn raise_to(
    frame: &Frame,
    limit: i128,
    charges: &mut Charges,
    groups: &mut [u32],
    workspace: &mut Workspace,
    e: u32,
    goal: i128,
)
    requires forest { IsForest frame.now limit charges.old.vector.items charges.old.heads.items charges.old.rooms.items groups.old }
    requires tables { HasTables frame.now.nodes workspace.old }
    requires apart { HasApartEnds frame.now.ends }
    requires edge { e < length frame.now.ends }
    requires goal { at_arc charges.old.vector.items e ≤ℤ goal }
    requires top { goal ≤ℤ pos (2 ^ 100) }
    ensures forest { IsForest frame.now limit charges.new.vector.items charges.new.heads.items charges.new.rooms.items groups.new }
    ensures tables { HasTables frame.now.nodes workspace.new }
    ensures raised { IsRaised frame.now charges.old.vector.items groups.old charges.new.vector.items groups.new e goal }
{
    // Gives the proof that the frame is a graph.
    let _ = frame.nodes();
    let u = frame.tail(e);
    let v = frame.head(e);
    if groups[u as usize] == groups[v as usize] {
        return;
    }
    bare(frame, limit, charges, workspace, u);
    let now = charges.vector[e as usize];
    let want = goal - now;
    let full = gather(frame, limit, charges, v, u, want, workspace);
    lift(charges, e, v, goal);
    if !full {
        unite(groups, workspace, u);
    }
}

// Nothing on any edge, and each vertex a group by itself.
fn start(limit: i128, charges: &mut Charges, groups: &mut [u32])
    requires few { length groups.old ≤ 8192 }
    ensures vector { charges.new.vector.items ≡ replicate (length charges.old.vector.items) (pos 0) }
    ensures heads { charges.new.heads.items ≡ replicate (length charges.old.heads.items) (pos 0) }
    ensures rooms { charges.new.rooms.items ≡ replicate (length charges.old.rooms.items) limit }
    ensures groups { length groups.new ≡ length groups.old }
    ensures own { (v : ℕ) → v < length groups.old → label groups.new v ≡ v }
{
    charges.vector.fill(0);
    charges.heads.fill(0);
    charges.rooms.fill(limit);
    'own: for v in 0..groups.len() {
        groups[v] = v as u32;
    }
}

// Raises all edges from nothing towards their goals, as far as the vector stays sparse. An edge that does not get to its goal has its ends in one group.
pub(crate) fn fill(
    frame: &Frame,
    limit: i128,
    goals: &[i128],
    charges: &mut Charges,
    groups: &mut [u32],
    workspace: &mut Workspace,
)
    requires low { pos 0 ≤ℤ limit }
    requires high { limit ≤ℤ pos (2 ^ 80) }
    requires goals { IsGoals frame.now goals.now }
    requires apart { HasApartEnds frame.now.ends }
    requires vector { length charges.old.vector.items ≡ length frame.now.ends }
    requires heads { length charges.old.heads.items ≡ length frame.now.ends }
    requires rooms { length charges.old.rooms.items ≡ frame.now.nodes }
    requires groups { length groups.old ≡ frame.now.nodes }
    requires tables { HasTables frame.now.nodes workspace.old }
    ensures forest { IsForest frame.now limit charges.new.vector.items charges.new.heads.items charges.new.rooms.items groups.new }
    ensures tables { HasTables frame.now.nodes workspace.new }
    ensures within { AreWithinGoals frame.now goals.now charges.new.vector.items }
    ensures crossing { CrossingAreFull frame.now goals.now charges.new.vector.items groups.new }
{
    let nodes = frame.nodes();
    start(limit, charges, groups);
    'rows: for u in 0..nodes {
        'row: for e in frame.outs(u) {
            let goal = goals[*e as usize];
            raise_to(frame, limit, charges, groups, workspace, *e, goal);
        }
    }
}

// Makes `shares`, what the tail of each edge holds, a split for `root`.
pub(crate) fn orient(
    frame: &Frame,
    limit: i128,
    charges: &mut Charges,
    workspace: &mut Workspace,
    root: u32,
    shares: &mut [i128],
)
    requires held { IsHeld frame.now limit charges.old.vector.items charges.old.heads.items charges.old.rooms.items }
    requires sparse { IsSparse frame.now limit charges.old.vector.items }
    requires tables { HasTables frame.now.nodes workspace.old }
    requires root { root < frame.now.nodes }
    requires shares { length shares.old ≡ length frame.now.ends }
    ensures vector { charges.new.vector.items ≡ charges.old.vector.items }
    ensures held { IsHeld frame.now limit charges.new.vector.items charges.new.heads.items charges.new.rooms.items }
    ensures tables { HasTables frame.now.nodes workspace.new }
    ensures split { IsSplit frame.now limit charges.new.vector.items shares.new root }
{
    // Gives the proof that the frame is a graph.
    let _ = frame.nodes();
    bare(frame, limit, charges, workspace, root);
    let vector = charges.vector.as_slice();
    let heads = charges.heads.as_slice();
    let rooms = charges.rooms.as_slice();
    share_out(frame, limit, vector, heads, rooms, shares);
}

// What the tails hold.
fn share_out(
    frame: &Frame,
    limit: i128,
    vector: &[i128],
    heads: &[i128],
    rooms: &[i128],
    shares: &mut [i128],
)
    requires held { IsHeld frame.now limit vector.now heads.now rooms.now }
    requires shares { length shares.old ≡ length frame.now.ends }
    ensures full { length shares.new ≡ length frame.now.ends }
    ensures each { (i : ℕ) → i < length frame.now.ends → at_arc shares.new i ≡ at_arc vector.now i -ℤ at_arc heads.now i }
{
    // Gives the proof that the frame is a graph.
    let _ = frame.nodes();
    'edges: for e in 0..shares.len() {
        shares[e] = vector[e] - heads[e];
    }
}

// Raises edge `e` as far as the vector stays sparse. Then its ends are in one group.
pub(crate) fn raise(
    frame: &Frame,
    limit: i128,
    charges: &mut Charges,
    groups: &mut [u32],
    workspace: &mut Workspace,
    e: u32,
)
    requires forest { IsForest frame.now limit charges.old.vector.items charges.old.heads.items charges.old.rooms.items groups.old }
    requires tables { HasTables frame.now.nodes workspace.old }
    requires apart { HasApartEnds frame.now.ends }
    requires edge { e < length frame.now.ends }
    ensures forest { IsForest frame.now limit charges.new.vector.items charges.new.heads.items charges.new.rooms.items groups.new }
    ensures tables { HasTables frame.now.nodes workspace.new }
    ensures raised { IsRaised frame.now charges.old.vector.items groups.old charges.new.vector.items groups.new e (at_arc charges.old.vector.items e +ℤ (limit +ℤ pos 1)) }
    ensures joined { label groups.new (tail_of frame.now.ends e) ≡ label groups.new (head_of frame.now.ends e) }
{
    // Gives the proof that the frame is a graph.
    let _ = frame.nodes();
    let now = charges.vector[e as usize];
    let goal = now + (limit + 1);
    raise_to(frame, limit, charges, groups, workspace, e, goal);
}
