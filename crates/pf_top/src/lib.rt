//! The top call: from the words and the bytes of a source to the bytes of a sink and a status.
//!
//! Proved, for all words, all bytes and all answers of memory, source and sinks: what each status says of the words and of
//! the bytes that were read, and what source and sinks then have. With `Done` the whole text of a right answer went out
//! and was flushed. Where no count of faults rose and memory was found, the status is the one that is due, so that every
//! accepted text is answered. Clauses on content hold where source and sink tell their bytes, all others for every one.
#![tactic(auto)]

mod commands;
mod divisible;
mod job;
pub mod laws;
mod messages;
mod running;
mod status;
mod text_net;
mod words;

pub use messages::tell;
pub use pf_text::Refusal;
pub use running::run;
pub use status::Status;
