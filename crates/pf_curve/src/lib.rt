//! The least-cut function of a monotone parametric network: at one parameter, and whole. What is answered is the definition's,
//! over all sides, all flows and all parameters of the interval.
#![tactic(auto)]

mod between;
mod curve;
mod family;
mod finder;
mod function;
mod point;
mod point_at;
mod turning;

pub use between::Opened;
pub use curve::{Curve, CutFunction, Points, Rows, Sides};
pub use family::{Cut, Cuts};
pub use finder::Finder;
pub use function::{Flows, curve_of, cuts_of, flows_at};
pub use point::Point;
pub use point_at::{AtBad, at};
