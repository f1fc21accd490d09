//! Fair shares: several sources, each with a weight, push through one network into a sink. The shares are weighted max-min fair: a
//! source could have more only where one of at most its level, which is its share by its weight, has less.
#![tactic(auto)]

mod answers;
mod certified;
mod checking;
mod gathering;
mod grouped;
pub mod laws;
mod network;
mod reading;
mod shares;
mod sharing;
mod solving;
mod weighted;
mod writing;

pub use answers::read_shares;
pub use certified::{are_certified_shares, is_certified_shares_text};
pub use checking::check_shares;
pub use network::share_net;
pub use reading::{ShareKind, read_share};
pub use shares::Shares;
pub use sharing::Sharing;
pub use solving::fair;
pub use writing::write_shares;
