//! Laws of the forest condition.

ghost use Rattle.pf_forest.specs.ForestLaws.{SplitsAreSparse, SparseHasSplits, ForestIsBest};

/// A vector with a split for each root, whose sum is that of a partition, holds in no set of vertices more than the level times
/// the number of its vertices less one, and proves that the partition is best at the level.
pub fn forest_is_best()
    ensures sparse { SplitsAreSparse }
    ensures best { ForestIsBest }
{}

/// A vector without a number below 0 that holds in no set of vertices more than the limit times the number of its vertices less one
/// has a split for each root.
pub fn sparse_vectors_split()
    ensures { SparseHasSplits }
{}
