// A density with its set.
ghost use Rattle.std.specs.Prelude.{◌≡◌};
ghost use Rattle.pf_dense.specs.Answer.{of_parts};

use pf_frame::{Numbers, Side};
use pf_rat::Rat;
use pf_ratio::Parts;
use std::marker::Model;

/// A density `p/q`, the vertices of a set, and for each edge what it charges its first end, in units of `1/(2q)`; its second end is
/// charged the rest of `2q` times its weight.
#[derive(Drop)]
pub struct Dense {
    parts: Parts,
}

impl Model for Dense {
    ghost use Rattle.pf_dense.specs.Answer.{DenseAnswer, of_parts};

    ghost Value = { DenseAnswer };

    ghost view = { λ d. of_parts d.parts };
}

impl Dense {
    /// The answer of these parts, whatever they are: `chosen` is indexed by vertices, `charges` by edges. It takes no memory.
    pub fn new(density: Rat, chosen: Side, charges: Numbers) -> Dense
        ensures { result ≡ record { density = density; chosen = chosen; charges = charges } }
    {
        Dense {
            parts: (density, (chosen, charges)),
        }
    }

    // The answer of these parts, as its text has them.
    pub(crate) fn of_parts(parts: Parts) -> Dense
        ensures { result ≡ of_parts parts }
    {
        Dense { parts }
    }

    // Its parts, as its text has them.
    pub(crate) fn parts(&self) -> &Parts
        ensures { self.now ≡ of_parts result.now }
    {
        &self.parts
    }

    /// The density.
    pub fn density(&self) -> &Rat
        ensures { result.now ≡ self.now.density }
    {
        &self.parts.0
    }

    /// The set, indexed by vertices.
    pub fn chosen(&self) -> &Side
        ensures { result.now ≡ self.now.chosen }
    {
        &self.parts.1.0
    }

    /// The charges to first ends, indexed by edges, in units of `1/(2q)` where the density is `p/q`.
    pub fn charges(&self) -> &Numbers
        ensures { result.now ≡ self.now.charges }
    {
        &self.parts.1.1
    }
}
