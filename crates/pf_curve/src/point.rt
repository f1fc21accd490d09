// A cut and a flow at one parameter.
ghost use Rattle.std.specs.Prelude.{◌≡◌};

use pf_frame::{Numbers, Side};
use pf_rat::Rat;
use std::marker::Model;

/// A side and a flow at a parameter. The side is indexed by node; the flow by arc, in units of `1/q` of the parameter `p/q`.
#[derive(Drop)]
pub struct Point {
    at: Rat,
    side: Side,
    flow: Numbers,
}

impl Model for Point {
    ghost use Rattle.pf_model.specs.Answer.{Point};

    ghost Value = { Point };

    ghost view = { λ p. record { at = p.at; side = p.side; flow = p.flow } };
}

impl Point {
    pub fn new(at: Rat, side: Side, flow: Numbers) -> Point
        ensures { result ≡ record { at = at; side = side; flow = flow } }
    {
        Point { at, side, flow }
    }

    /// The parameter.
    pub fn at(&self) -> &Rat
        ensures { result.now ≡ self.now.at }
    {
        &self.at
    }

    /// The side, indexed by node.
    pub fn side(&self) -> &Side
        ensures { result.now ≡ self.now.side }
    {
        &self.side
    }

    /// The flow, indexed by arc, in units of `1/q` of the parameter.
    pub fn flow(&self) -> &Numbers
        ensures { result.now ≡ self.now.flow }
    {
        &self.flow
    }
}
