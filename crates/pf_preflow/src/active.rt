// Active nodes: those with excess, but the source and the sink.
ghost use Rattle.std.specs.Prelude.{◌≡◌, ◌≢◌, ℕ, ◌<◌, ◌≤◌, length, IsTrue, ◌↔◌};
ghost use Rattle.pf_preflow.specs.Engine.{IsActiveAt};
ghost use Rattle.pf_preflow.specs.Room.{Serves};
ghost use Rattle.pf_preflow.specs.State.{IsNextActive};

use crate::network::Network;
use crate::queue::Queue;
use crate::room::Room;

// Whether the node is active.
fn is_active(excess: &[i128], s: u32, t: u32, v: u32) -> bool
    requires { v < length excess.now }
    ensures { IsTrue result ↔ IsActiveAt s t excess.now v }
{
    v != s && v != t && 0 < excess[v as usize]
}

// The first active node in the queue, or else of all, or the number of nodes where none is active.
fn take_active(queue: &mut Queue, excess: &[i128], s: u32, t: u32) -> u32
    requires nodes { length excess.now ≡ queue.old.nodes }
    requires few { queue.old.nodes ≤ 8192 }
    ensures nodes { queue.new.nodes ≡ queue.old.nodes }
    ensures active { result < length excess.now → IsActiveAt s t excess.now result }
    ensures none { length excess.now ≤ result → (v : ℕ) → v < length excess.now → IsActiveAt s t excess.now v → ⊥ }
{
    'first: loop {
        match queue.take() {
            Some(v) => {
                if is_active(excess, s, t, v) {
                    return v;
                }
            }
            None => {
                break 'first;
            }
        }
    }
    rescan(queue, excess, s, t)
}

// The first active node, or the number of nodes where none is active. All other active nodes enter the queue.
fn rescan(queue: &mut Queue, excess: &[i128], s: u32, t: u32) -> u32
    requires nodes { length excess.now ≡ queue.old.nodes }
    requires few { queue.old.nodes ≤ 8192 }
    ensures nodes { queue.new.nodes ≡ queue.old.nodes }
    ensures active { result < length excess.now → IsActiveAt s t excess.now result }
    ensures none { length excess.now ≤ result → (v : ℕ) → v < length excess.now → IsActiveAt s t excess.now v → ⊥ }
{
    let nodes = excess.len() as u32;
    let mut first = nodes;
    'nodes: for v in 0..nodes {
        if is_active(excess, s, t, v) {
            if first == nodes {
                first = v;
            } else {
                queue.put(v);
            }
        }
    }
    first
}

/// The next active node, or the number of nodes where none is active.
pub fn next_active(net: Network<'_>, room: &mut Room) -> u32
    requires room { Serves room.old net.frame.now.nodes }
    ensures next { IsNextActive net.entry.source net.entry.sink room.new.excess.items result }
    ensures room { Serves room.new net.entry.frame.now.nodes }
    ensures excess { room.new.excess.items ≡ room.old.excess.items }
{
    let _few_nodes = net.frame.nodes();
    take_active(
        &mut room.queue,
        room.excess.as_slice(),
        net.source,
        net.sink,
    )
}

/// The node `v` while it is active, and then the next active one.
pub fn same_or_next_active(net: Network<'_>, room: &mut Room, v: u32) -> u32
    requires room { Serves room.old net.frame.now.nodes }
    requires node { v < net.frame.now.nodes }
    requires not_source { v ≢ net.source }
    requires not_sink { v ≢ net.sink }
    ensures next { IsNextActive net.entry.source net.entry.sink room.new.excess.items result }
    ensures room { Serves room.new net.entry.frame.now.nodes }
    ensures excess { room.new.excess.items ≡ room.old.excess.items }
{
    let excess = room.excess.as_slice();
    if 0 < excess[v as usize] {
        v
    } else {
        next_active(net, room)
    }
}
