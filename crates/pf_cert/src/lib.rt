//! A test of whole least-cut functions apart from any search: points, cuts and a flow at each point are taken exactly where
//! they certify the curve of the network, whatever numbers and truth values stand in them. `check_curve` takes no memory, and goes over
//! the arcs a constant number of times for each point.
#![tactic(auto)]

mod certified;
mod check;
mod cuts;
mod flows;
mod points;

pub use certified::is_certified;
pub use check::check_curve;
