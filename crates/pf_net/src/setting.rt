// What a network is of besides its arcs.
use pf_model::Sense;
use pf_rat::Rat;

/// A network but for its arcs: its sense, the number of its nodes, its source and its sink by their numbers from 0, and the two ends of
/// its interval.
#[derive(Clone, Copy)]
pub struct Setting {
    pub sense: Sense,
    pub nodes: u32,
    pub source: u32,
    pub sink: u32,
    pub low: Rat,
    pub high: Rat,
}
