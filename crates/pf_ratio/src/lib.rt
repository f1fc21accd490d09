//! The answer of a ratio problem: a fraction, a set, and numbers that certify both. Its text is five lines, of which each problem
//! chooses two words: its name, and the word of the fraction's line. Here such a text is written and read back. And what such numbers
//! drop from the set: the least marks that contain the first ones and spread along links.
#![tactic(auto)]

pub mod laws;
mod link;
mod marking;
mod sets;
mod text;

pub use link::Link;
pub use marking::{Links, mark_linked};
pub use sets::{has_some, is_rest};
pub use text::{Parts, read_answer, write_answer};
