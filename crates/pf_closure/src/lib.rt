//! Least ratio closures: among the nonempty sets of items that hold with each item all that it needs, the least ratio of cost
//! over weight, with the set that contains all others of that ratio.
//!
//! `least_ratio` gives both, with a number on each need that certifies them. `check_ratio` tests such numbers, exactly and without
//! memory, and what it accepts is best. `closure_net` is the parametric network whose least cuts are closures. The definitions
//! speak of sets of items, and of no network.
#![tactic(auto)]

mod checking;
mod dropping;
mod gathering;
mod items;
pub mod laws;
mod network;
mod ratio;
mod reading;
mod solving;
mod sums;
mod text;

pub use checking::{check_ratio, is_certified, is_certified_text};
pub use items::Items;
pub use network::closure_net;
pub use ratio::Ratio;
pub use reading::{ClosureKind, read_closure};
pub use solving::least_ratio;
pub use text::{read_ratio, write_ratio};
