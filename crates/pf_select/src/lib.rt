//! Product selections: parts cost money times a price, products earn a gain when all parts that they need are bought, and a
//! schedule is the best selection of parts at every price, with the prices at which it changes.
#![tactic(auto)]

mod answers;
mod catalogue;
mod certified;
mod checking;
mod dropping;
mod gathering;
pub mod laws;
mod network;
mod outline;
mod reading;
mod schedule;
mod solving;
mod worth;
mod writing;

pub use answers::read_schedule;
pub use catalogue::Catalogue;
pub use certified::{is_certified_schedule, is_certified_select_text};
pub use checking::check_schedule;
pub use reading::{SelectKind, read_select};
pub use schedule::Schedule;
pub use writing::write_schedule;
