//! Forests of a graph at a level: the greatest vector below the weights whose sum inside each set of vertices is at most the
//! level times the number of its vertices less one, the partition that it proves best, and how each vertex as a root leaves it
//! to be shared among the others. The law that the forest condition bounds every partition stands in `laws`. Only `make` and
//! `push_splits` take memory.
#![tactic(auto)]

mod charges;
mod fill;
mod forest;
mod gather;
pub mod laws;
mod meets;
mod workspace;

pub use forest::Forest;
pub use meets::{are_splits, has_total, is_in_range};
