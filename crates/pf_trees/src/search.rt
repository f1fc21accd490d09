// The search for an edge that can enter, level by level over the edges, and the list of exchanges that it found.
ghost use Rattle.std.specs.Prelude.{◌≡◌, ℕ, ◌+◌, ◌<◌, ◌≤◌, length, true, false, slice_set, if◌then◌else◌};
ghost use Rattle.pf_model.specs.Cut.{has};
ghost use Rattle.pf_trees.specs.Sides.{cut_at};
ghost use Rattle.pf_trees.specs.Slots.{at};
ghost use Rattle.pf_trees.specs.Search.{IsChain, IsKept};
ghost use Rattle.pf_trees.specs.Tables.{IsInstance, IsPacking, HasRoom, IsBegun, IsSearched};

use crate::cuts::separates;
use crate::packing::{Instance, Packing};

/// The room of a search. For each edge: whether it is marked, from which edge it was marked, and how many edges that way has. The
/// queue holds the marked edges in the order in which they were marked.
#[derive(Drop)]
pub struct Room<'a> {
    pub mark: &'a mut [bool],
    pub queue: &'a mut [usize],
    pub from: &'a mut [usize],
    pub level: &'a mut [usize],
}

/// An edge and a free slot whose cut it crosses. Where there is none, the number of slots stands for the slot.
#[derive(Clone, Copy)]
pub struct Hit {
    pub edge: usize,
    pub slot: usize,
}

// Marks the edge `y`, which comes from the edge `x`, and puts it in the queue, unless it was marked before.
fn visit(room: &mut Room<'_>, put: usize, y: usize, x: usize, depth: usize) -> usize
    requires edge { y < length room.old.mark.now }
    requires space { has room.old.mark.now y ≡ false → put < length room.old.queue.now }
    requires places { HasRoom (length room.old.mark.now) room.old }
    ensures mark { room.new.mark.now ≡ slice_set room.old.mark.now y true }
    ensures queue { room.new.queue.now ≡ (if has room.old.mark.now y then room.old.queue.now else slice_set room.old.queue.now put y) }
    ensures from { room.new.from.now ≡ (if has room.old.mark.now y then room.old.from.now else slice_set room.old.from.now y x) }
    ensures level { room.new.level.now ≡ (if has room.old.mark.now y then room.old.level.now else slice_set room.old.level.now y depth) }
    ensures put { result ≡ (if has room.old.mark.now y then put else put + 1) }
{
    if room.mark[y] {
        put
    } else {
        room.mark[y] = true;
        room.queue[put] = y;
        room.from[y] = x;
        room.level[y] = depth;
        put + 1
    }
}

// Marks the edge `x`, which comes from no other, if it stands in no slot.
fn root(total: usize, place: &[usize], room: &mut Room<'_>, put: usize, x: usize) -> usize
    requires edge { x < length place.now }
    requires begun { IsBegun total place.now room.old put }
    ensures begun { IsBegun total place.now room.new result }
    ensures kept { IsKept room.old.mark.now room.new.mark.now }
    ensures here { total ≤ at place.now x → has room.new.mark.now x ≡ true }
{
    if place[x] < total {
        return put;
    }
    visit(room, put, x, x, 0)
}

// Marks the edges that stand in no slot, and puts them in the queue, those from the edge `first` on before the others; gives
// their number.
fn start(total: usize, place: &[usize], room: &mut Room<'_>, first: usize) -> usize
    requires places { HasRoom (length place.now) room.old }
    ensures begun { IsBegun total place.now room.new result }
    ensures roots { (x : ℕ) → x < length place.now → total ≤ at place.now x → has room.new.mark.now x ≡ true }
{
    room.mark.fill(false);
    let m = place.len();
    let middle = first.min(m);
    let mut put = 0;
    'later: for x in middle..m {
        put = root(total, place, room, put, x);
    }
    'edges: for x in 0..middle {
        put = root(total, place, room, put, x);
    }
    put
}

// Looks for an edge that crosses the cut of a free slot, from the edges in no slot on; from an edge it goes to the edges of
// the slots whose cuts it crosses. Which of the edges in no slot comes first is a hint: one from which no way led to a free
// slot once has none later, so it pays to begin after the last that had one.
pub(crate) fn search(
    instance: Instance<'_>,
    packing: &Packing<'_>,
    room: &mut Room<'_>,
    first: usize,
) -> Hit
    requires instance { IsInstance instance }
    requires packing { IsPacking instance packing.now }
    requires places { HasRoom (length instance.ends.now) room.old }
    ensures searched { IsSearched instance.entry packing.now room.new result }
{
    let n = instance.n as usize;
    let m = instance.ends.len();
    // Borrowed once, so that the loop over the slots loads no pointer.
    let cuts = &*packing.cuts;
    let slot = &*packing.slot;
    let total = slot.len();
    let mut put = start(total, packing.place, room, first);
    let mut taken = 0;
    'search: while taken < put {
        let x = room.queue[taken];
        taken += 1;
        let depth = room.level[x] + 1;
        let edge = instance.ends[x];
        'slots: for t in 0..total {
            if separates(cuts, n, t, edge) {
                let y = slot[t];
                if y == m {
                    return Hit { edge: x, slot: t };
                }
                put = visit(room, put, y, x, depth);
            }
        }
    }
    Hit {
        edge: m,
        slot: total,
    }
}

// Writes the edges from that of the hit on to one that stands in no slot, each of which crosses the cut of the slot of the edge
// before it; gives their number.
pub(crate) fn trace(
    instance: Instance<'_>,
    packing: &Packing<'_>,
    room: &Room<'_>,
    hit: Hit,
    chain: &mut [usize],
) -> usize
    requires packing { IsPacking instance packing.now }
    requires searched { IsSearched instance packing.now room.now hit }
    requires some { hit.slot < length packing.now.slot.now }
    requires chain { length chain.old ≡ length instance.ends.now }
    ensures chain { IsChain instance.entry.ends.now (cut_at packing.now.cuts.now instance.entry.n) packing.now.place.now (length packing.now.slot.now) chain.new 0 result }
    ensures first { at chain.new 0 ≡ hit.edge }
{
    let total = packing.slot.len();
    let mut y = hit.edge;
    chain[0] = y;
    let mut len = 1;
    'walk: while packing.place[y] < total {
        y = room.from[y];
        chain[len] = y;
        len += 1;
    }
    len
}
