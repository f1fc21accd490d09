//! Densest subgraphs: among the nonempty sets of vertices the greatest density, which is the weight of the edges inside over the cost of
//! the vertices, with the set that contains all others of that density.
//!
//! `densest` gives both, with a charge on each edge that certifies them. `check_dense` tests such charges, exactly and without memory,
//! and what it accepts is best. `dense_net` is the parametric network whose least cuts are the sets. The definitions speak of sets of
//! vertices, and of no network.
#![tactic(auto)]

mod charging;
mod check;
mod dense;
mod dropping;
pub mod laws;
mod network;
mod newton;
mod text;

pub use check::{check_dense, is_certified, is_certified_dense_text};
pub use dense::Dense;
pub use network::dense_net;
pub use newton::densest;
pub use text::{read_dense, write_dense};
