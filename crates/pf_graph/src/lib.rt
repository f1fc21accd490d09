//! Graphs whose edges have weights and prices and whose vertices have costs, and partitions of their vertices.
//!
//! `read_graph` reads a graph from its text, or tells the first line that is refused. `Partition` keeps the one list of labels that a
//! partition has. The laws are of partitions that are best at a level, of strength and of the principal partition; they speak of
//! all graphs and all lists of labels, and name no code.
#![tactic(auto)]

mod gathering;
mod graph;
pub mod laws;
mod partition;
mod reading;
mod slots;
mod sums;

pub use graph::{Graph, Task};
pub use partition::{Partition, Partitions};
pub use reading::read_graph;
