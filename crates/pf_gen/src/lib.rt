//! A generator of test networks that everybody can draw again: the text of the kind `par` that a seed gives.
//!
//! Proved: `net_text` gives exactly the text of the definition, whose words are those of O'Neill's generator PCG XSH RR 64/32
//! in the order in which it gives them, and no answer but running out of memory stands beside it. Every such text is accepted as a
//! text of the kind `par`, with nothing after it, and gives the network of the definition. `summary_of` gives the number of
//! segments of that network's curve and the least values at its two ends, and `write_summary` prints exactly its text.
#![tactic(auto)]

mod drawing;
pub mod laws;
mod spelling;
mod summary;
mod writing;

pub use spelling::net_text;
pub use summary::{Summary, summary_of};
pub use writing::write_summary;
