// What the trees are of, and the trees as they grow.

/// Edges between `n` vertices, as the pairs of their ends, and the number `k` of the trees that are wanted.
#[derive(Clone, Copy)]
pub struct Instance<'a> {
    pub ends: &'a [(u32, u32)],
    pub n: u32,
    pub k: u32,
}

/// Trees without a common edge. Each tree has one slot less than there are vertices, and a slot is free or holds an edge. `cuts` has
/// a row for each slot, with a truth value for each vertex. `slot` has the edge in each slot, or the number of edges where the slot
/// is free. `place` has the slot of each edge, or the number of slots where the edge is in none.
#[derive(Drop)]
pub struct Packing<'a> {
    pub cuts: &'a mut [bool],
    pub slot: &'a mut [usize],
    pub place: &'a mut [usize],
}
