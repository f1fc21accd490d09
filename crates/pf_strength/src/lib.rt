//! The strength of a graph: the least ratio of the weight of the edges that cross a partition to the number of its parts less
//! one, with a partition that attains it and a certificate that no partition has a smaller ratio.
//!
//! `Strength::of` finds them, and `check_strength` judges any; the law that the certificate proves the strength stands in
//! `laws`. `write_strength` prints an answer, and `read_strength` reads exactly what it prints.
#![tactic(auto)]

mod check;
mod edge_lines;
pub mod laws;
mod newton;
mod partition_lines;
mod strength;
mod text;

pub use check::{check_strength, is_certified_strength_text};
pub use edge_lines::take_edge_row;
pub use partition_lines::{PartitionLines, take_partition};
pub use strength::Strength;
pub use text::{print_splits, read_strength, write_strength};
