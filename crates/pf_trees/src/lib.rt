//! Spanning trees of a graph without a common edge, or a partition of its vertices that forbids them (Tutte 1961, Nash-Williams 1961).
//! Each tree keeps, beside each of its edges, a set of vertices that this edge alone of the tree crosses; an edge that enters a tree for
//! another is one step of elimination over these sets.
//!
//! Proved: `trees` gives trees that are spanning trees without a common edge, or a partition that fewer edges cross than so many trees
//! need. A graph has not both, so which of the two comes is a matter of the graph alone. `write_trees` prints exactly the text of
//! the definition, fails only where the sink failed, and takes no memory.
#![tactic(auto)]

mod cuts;
mod decide;
mod finding;
mod grow;
mod labels;
pub mod laws;
mod packing;
mod search;
mod trees_of_graph;
mod writing;

pub use trees_of_graph::{TreesOr, trees};
pub use writing::write_trees;
