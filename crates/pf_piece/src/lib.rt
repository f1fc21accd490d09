//! The part of a monotone parametric network between two nested cuts: what the small one holds becomes the source, what is
//! outside the large one the sink. A cut of the piece has the capacity of its lift at every parameter, and between two smallest least
//! cuts the piece's smallest least cut lifts to the network's.
#![tactic(auto)]

mod cores;
mod gathering;
mod inner;
pub mod laws;
mod opening;
mod piece;

pub use cores::Core;
pub use piece::Piece;
