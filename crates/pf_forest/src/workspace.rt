// The working room of a search.
ghost use Rattle.std.specs.Prelude.{◌≤◌, IfOk};
ghost use Rattle.pf_forest.specs.Held.{HasTables};

use pf_frame::NoMemory;
use std::alloc::Global;

/// Room for one search at a time. `side`, `via` and `rank` are indexed by vertices.
#[derive(Drop)]
pub struct Workspace {
    /// The vertices that the search came to.
    pub side: Vec<bool>,
    /// These vertices in the order in which it came to them.
    pub queue: Vec<u32>,
    /// The edge over which it came to each of them.
    pub via: Vec<u32>,
    /// The place of each of them in the queue.
    pub rank: Vec<usize>,
    /// Which groups of vertices become one, indexed by groups.
    pub hits: Vec<bool>,
}

impl Workspace {
    /// Room for so many vertices.
    pub fn make(alloc: Global, nodes: u32) -> Result<Workspace, NoMemory>
        ensures { IfOk result (λ workspace. HasTables nodes workspace) }
    {
        Ok(Workspace {
            side: vec![in alloc; false; nodes as usize]?,
            queue: vec![in alloc; 0u32; nodes as usize]?,
            via: vec![in alloc; 0u32; nodes as usize]?,
            rank: vec![in alloc; 0usize; nodes as usize]?,
            hits: vec![in alloc; false; nodes as usize]?,
        })
    }
}
