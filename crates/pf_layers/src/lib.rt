//! Layers: the best set, then the best of what it leaves, and so on. Over graphs a layer is the densest set beside the layers before it,
//! over items it is the set of least ratio that makes a closure with them. All layers are read off one least-cut function.
#![tactic(auto)]

pub mod laws;
mod layers;
mod numbering;
mod problem;
mod solving;
mod writing;

pub use layers::Layers;
pub use problem::{LayerProblem, read_layers};
pub use solving::{dense_layers, layers_of, ratio_layers};
pub use writing::write_layers;
