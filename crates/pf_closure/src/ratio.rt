// A ratio with its closure.
ghost use Rattle.std.specs.Prelude.{◌≡◌};
ghost use Rattle.pf_closure.specs.Certificate.{of_parts};

use pf_frame::{Numbers, Side};
use pf_rat::Rat;
use pf_ratio::Parts;
use std::marker::Model;

/// A ratio, the chosen items, and a number on each need in units of `1/q` of the ratio `p/q`, whatever they are.
#[derive(Drop)]
pub struct Ratio {
    parts: Parts,
}

impl Model for Ratio {
    ghost use Rattle.pf_closure.specs.Certificate.{RatioAnswer, of_parts};

    ghost Value = { RatioAnswer };

    ghost view = { λ r. of_parts r.parts };
}

impl Ratio {
    /// The answer of these parts, whatever they are: `chosen` is indexed by item, `routing` by need, in units of `1/q` of the
    /// ratio. It takes no memory.
    pub fn new(ratio: Rat, chosen: Side, routing: Numbers) -> Ratio
        ensures { result ≡ record { ratio = ratio; chosen = chosen; routing = routing } }
    {
        Ratio {
            parts: (ratio, (chosen, routing)),
        }
    }

    // The answer of these parts, as its text has them.
    pub(crate) fn of_parts(parts: Parts) -> Ratio
        ensures { result ≡ of_parts parts }
    {
        Ratio { parts }
    }

    // Its parts, as its text has them.
    pub(crate) fn parts(&self) -> &Parts
        ensures { self.now ≡ of_parts result.now }
    {
        &self.parts
    }

    /// The cost of the chosen items over their weight.
    pub fn ratio(&self) -> &Rat
        ensures { result.now ≡ self.now.ratio }
    {
        &self.parts.0
    }

    /// The chosen items, indexed by item.
    pub fn chosen(&self) -> &Side
        ensures { result.now ≡ self.now.chosen }
    {
        &self.parts.1.0
    }

    /// The numbers on the needs, indexed by need, in units of `1/q` of the ratio.
    pub fn routing(&self) -> &Numbers
        ensures { result.now ≡ self.now.routing }
    {
        &self.parts.1.1
    }
}
