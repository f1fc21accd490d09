//! Reinforcing a graph: what to add to the weights of its edges, at a price for each, so that its strength is at least a level,
//! at the least cost (Cunningham 1985).
#![tactic(auto)]

mod added;
pub mod laws;
mod raising;
mod reinforcement;
mod sums;
mod text;

pub use added::Added;
pub use reinforcement::{Reinforcement, reinforce};
pub use text::write_reinforcement;
