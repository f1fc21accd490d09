//! Formats of texts in which a value has one spelling: words, lines of numbers, and formats made of formats.
//!
//! Proved: a format prints exactly its text of a value. It takes the value whose text stands in front, or none of its shape
//! stands there, or memory was wanted; and in front of a text stands at most one value of its shape.
#![tactic(auto)]

mod derived;
mod format;
mod rows;

pub use derived::{Derive, Derived};
pub use format::{Ended, Format, Marked, Then, Word, read_whole};
pub use rows::{FlowRow, FlowRows, FractionRow, SideRow};
