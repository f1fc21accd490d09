//! Flows that are used again at the next parameter: a flow in one unit becomes a preflow in another, within the new capacities,
//! from which an engine of labels goes on. Takes no memory.
#![tactic(auto)]

mod scaling;
mod trimming;
mod units;

pub use units::{Units, carry, carry_within};
