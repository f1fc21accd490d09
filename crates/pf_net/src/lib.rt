//! Monotone parametric networks with affine capacities. A `Net` is a network of the definition by its type: its arcs
//! keep the slope rule, no capacity is below 0 on its interval, and its numbers stay within the limits in which the crates
//! above compute. `Net::build` makes a rising one and `Net::build_falling` a falling one, or each answers the first reason against
//! it. The mirror of a network is the network of the other sense seen from the other end of the interval.
#![tactic(auto)]

mod mirrored;
mod net;
mod rules;
mod setting;
mod sums;

pub use mirrored::negated;
pub use net::{Net, NetBad};
pub use pf_model::{AffineArc, Sense};
pub use rules::{capacity, keeps_rule};
pub use setting::Setting;
