//! The arcs of a network and which of them leave and enter each node; lists and tables of numbers; the test of a flow, its value, and what its
//! residual graph reaches; the step of a breadth-first search. Each answer is exact, and only `build`, `from_ends`, `make` and
//! `push` take memory.
#![tactic(auto)]

mod error;
mod flow;
mod frame;
mod group;
mod lists;
mod scratch;
mod table;

pub use error::NoMemory;
pub use flow::{is_flow, reach, value, visit};
pub use frame::{Frame, MOST_ARCS, MOST_NODES};
pub use lists::{List, Numbers, Side};
pub use scratch::Scratch;
pub use table::FlowTable;
