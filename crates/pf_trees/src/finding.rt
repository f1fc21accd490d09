// Trees or groups of vertices that forbid them, over a plain list of edges.
ghost use Rattle.std.specs.Prelude.{◌≡◌, ◌<◌, ◌≤◌, length, IfOk};
ghost use Rattle.pf_model.specs.Digraph.{IsDigraph};
ghost use Rattle.pf_trees.specs.Trees.{with_ends};
ghost use Rattle.pf_trees.specs.Finding.{IsFound};

use crate::decide::decide;
use crate::labels::apart;
use crate::packing::{Instance, Packing};
use crate::search::Room;
use pf_frame::NoMemory;
use std::alloc::Global;

/// Beside each edge the number of its tree, from 1 on, or 0 for an edge of no tree; or the number of its group beside each vertex.
#[derive(Drop)]
pub enum Found {
    Trees(Vec<i128>),
    Blocked(Vec<u32>),
}

/// `k` spanning trees without a common edge, or groups of vertices between which there are too few edges for `k` trees.
pub fn find(alloc: Global, n: u32, ends: &[(u32, u32)], k: u32) -> Result<Found, NoMemory>
    requires two { 1 < n }
    requires vertices { n ≤ 100 }
    requires edges { length ends.now ≤ 500 }
    requires graph { IsDigraph (with_ends n ends.now) }
    requires some { 0 < k }
    requires most { k ≤ 500 }
    ensures { IfOk result (IsFound (with_ends n ends.now) k) }
{
    let instance = Instance { ends, n, k };
    let m = ends.len();
    let total = (instance.k as usize) * ((n - 1) as usize);
    let mut groups = vec![in alloc; 0u32; n as usize]?;
    if m < total {
        apart(n, &mut groups);
        return Ok(Found::Blocked(groups));
    }
    let mut cuts = vec![in alloc; false; total * (n as usize)]?;
    let mut slot = vec![in alloc; m; total]?;
    let mut place = vec![in alloc; total; m]?;
    let mut mark = vec![in alloc; false; m]?;
    let mut queue = vec![in alloc; 0usize; m]?;
    let mut from = vec![in alloc; 0usize; m]?;
    let mut level = vec![in alloc; 0usize; m]?;
    let mut chain = vec![in alloc; 0usize; m]?;
    let mut numbers = vec![in alloc; 0i128; m]?;
    let mut packing = Packing {
        cuts: &mut cuts,
        slot: &mut slot,
        place: &mut place,
    };
    let mut room = Room {
        mark: &mut mark,
        queue: &mut queue,
        from: &mut from,
        level: &mut level,
    };
    let found = decide(
        instance,
        &mut packing,
        &mut room,
        &mut chain,
        &mut groups,
        &mut numbers,
    );
    if found {
        Ok(Found::Trees(numbers))
    } else {
        Ok(Found::Blocked(groups))
    }
}
