//! The principal partition of a graph: for every level a partition that is best there, with a certificate.
//!
//! `Principal::of` finds it, and `check_principal` judges any; the law that the certificate proves it, and that at most one
//! answer's levels and partitions have a certificate, stands in `laws`. `write_principal` prints an answer, and
//! `read_principal` reads exactly what it prints.
#![tactic(auto)]

mod check;
mod family;
pub mod laws;
mod principal;
mod rows;
mod search;
mod steps;
mod text;

pub use check::{check_principal, is_certified_partition_text};
pub use principal::Principal;
pub use text::{read_principal, write_principal};
