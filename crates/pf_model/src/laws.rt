//! The laws of networks, flows, cuts and curves. Each is the contract of a function that does nothing, and speaks of every
//! network, flow and cut.

pub mod curves;
pub mod flows;
pub mod mirrors;
pub mod nesting;
pub mod parameters;
pub mod worked;
