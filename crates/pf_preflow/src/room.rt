// The working room of a run.
ghost use Rattle.std.specs.Prelude.{◌≡◌, ◌<◌, ◌≤◌, IfOk};
ghost use Rattle.pf_preflow.specs.Room.{Serves};

use crate::queue::Queue;
use pf_frame::NoMemory;
use std::alloc::Global;

/// Room for the work of one run at a time. Excess, current arcs and distances are indexed by nodes. The excess is exact while
/// amounts are pushed; all else are hints: whatever they hold, no answer is wrong.
#[derive(Drop)]
pub struct Room {
    /// What enters each node less what leaves it.
    pub excess: Vec<i128>,
    /// The place among a node's residual arcs at which the search for an admissible one begins.
    pub current_arcs: Vec<u32>,
    /// Distances in the residual graph, or the labels over a gap: what labels are raised to.
    pub distances: Vec<u32>,
    /// The queue of a breadth-first search.
    pub order: Vec<u32>,
    /// How many nodes have each label below the number of nodes.
    pub counts: Vec<u32>,
    /// The nodes that may be active.
    pub queue: Queue,
    /// How many relabels there were since the last global relabelling.
    pub relabels: u32,
}

impl Room {
    /// Room for so many nodes.
    pub fn make(alloc: Global, nodes: u32) -> Result<Room, NoMemory>
        requires some { 0 < nodes }
        requires few { nodes ≤ 8192 }
        ensures { IfOk result (λ room. Serves room nodes) }
    {
        Ok(Room {
            excess: vec![in alloc; 0i128; nodes as usize]?,
            current_arcs: vec![in alloc; 0u32; nodes as usize]?,
            distances: vec![in alloc; 0u32; nodes as usize]?,
            order: vec![in alloc; 0u32; nodes as usize]?,
            counts: vec![in alloc; 0u32; nodes as usize]?,
            queue: Queue::make(alloc, nodes)?,
            relabels: 0,
        })
    }
}
