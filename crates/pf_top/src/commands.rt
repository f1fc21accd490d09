// The commands, each of which is an impl of `Job`, and of `Checked` where its answers can be checked; and `generate`, which
// reads no text.
pub mod at;
pub mod closure;
pub mod curve;
pub mod densest;
pub mod generate;
pub mod layers;
pub mod partition;
pub mod reinforce;
pub mod select;
pub mod share;
pub mod strength;
pub mod sweep;
pub mod trees;
