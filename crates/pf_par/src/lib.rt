//! Texts of the kind `par`, which give a monotone parametric network, and the texts of the answers to `at` and `curve`.
//! The text of a curve is also read back. `write_sweep`, which writes the rows of a sweep, is handed on from `pf_sweep`.
//!
//! Proved: `read_par` gives exactly the network of the definition, or exactly its first refusal,
//! and leaves the reader of lines after the line that decided. `write_at` and `write_curve` print
//! exactly the text of the definition, fail only where the sink failed, and take no memory.
//! `read_curve` gives the one curve of the right shape whose text the bytes are, or that there is none, and
//! `is_certified_text` whether that curve is certified.
#![tactic(auto)]

mod checking;
mod flow_lines;
mod given;
pub mod laws;
mod outline;
mod problem;
mod reading_curve;
mod writing;

pub use checking::is_certified_text;
pub use pf_lines::{AnswerBad, ReadBad};
pub use pf_sweep::write_sweep;
pub use problem::read_par;
pub use reading_curve::read_curve;
pub use writing::{write_at, write_curve};
