//! Least cuts at rising parameters of a network, each flow begun from the last: a sweep keeps its flow and its labels, and goes
//! on from them (Gallo, Grigoriadis and Tarjan 1989). So the labels rise no further over a whole sweep than over one flow.
#![tactic(auto)]

mod laws;
mod moving;
mod parameter;
mod rows;
mod sweep;
mod turning;
mod writing;

pub use laws::{few_relabellings, rows_are_unique, rows_of_mirror, texts_determine_rows};
pub use pf_carry::carry;
pub use rows::{Rows, rows_of};
pub use sweep::{Sweep, SweepBad, SweepRow};
pub use writing::write_sweep;
