//! Tests of what no clause says: how many pieces a curve opens and how many flows it carries, the labels of a sweep, equal values
//! of both engines, the fields of a piece, the network of a seed, streams in memory, and the adapters over streams of std. They stand
//! in a crate of their own, since the tests of a crate are proved together with the whole crate once more: this one has nothing but tests.
#![tactic(auto)]

#[cfg(test)]
mod curves;
#[cfg(test)]
mod engines;
#[cfg(test)]
mod networks;
#[cfg(test)]
mod pieces;
#[cfg(test)]
mod seeds;
#[cfg(test)]
mod streams;
#[cfg(test)]
mod sweeps;
