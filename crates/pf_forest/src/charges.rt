// The charges of the edges, and how their ends share them.
ghost use Rattle.std.specs.Prelude.{◌≡◌, pos, replicate, IfOk};

use pf_frame::NoMemory;
use std::alloc::Global;

/// Each edge has a charge, its number in the vector, which its two ends share: `heads` is what the head holds, and the tail holds the
/// rest. A vertex holds at most a limit; its room is what is left of that. All are whole numbers of one unit; the vector and `heads`
/// are indexed by edges, and `rooms` by vertices.
#[derive(Drop)]
pub struct Charges {
    pub vector: Vec<i128>,
    pub heads: Vec<i128>,
    pub rooms: Vec<i128>,
}

impl Charges {
    /// No charge on so many edges, and no room at so many vertices.
    pub fn make(alloc: Global, nodes: u32, edges: u32) -> Result<Charges, NoMemory>
        ensures vector { IfOk result (λ charges. charges.vector.items ≡ replicate edges (pos 0)) }
        ensures heads { IfOk result (λ charges. charges.heads.items ≡ replicate edges (pos 0)) }
        ensures rooms { IfOk result (λ charges. charges.rooms.items ≡ replicate nodes (pos 0)) }
    {
        Ok(Charges {
            vector: vec![in alloc; 0i128; edges as usize]?,
            heads: vec![in alloc; 0i128; edges as usize]?,
            rooms: vec![in alloc; 0i128; nodes as usize]?,
        })
    }
}
