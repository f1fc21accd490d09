// Layers with their levels.
ghost use Rattle.std.specs.Prelude.{◌≡◌};

use pf_curve::Points;
use pf_frame::Numbers;
use std::marker::Model;

/// A level for each layer, and for each vertex or item the number of its layer, from 1 on. Contracts see these two lists.
#[derive(Drop)]
pub struct Layers {
    levels: Points,
    layer: Numbers,
}

impl Model for Layers {
    ghost use Rattle.pf_layers.specs.Answer.{LayersAnswer};

    ghost Value = { LayersAnswer };

    ghost view = { λ l. record { levels = l.levels; layers = l.layer } };
}

impl Layers {
    /// The layers of these parts, whatever they are.
    pub fn new(levels: Points, layer: Numbers) -> Layers
        ensures { result ≡ record { levels = levels; layers = layer } }
    {
        Layers { levels, layer }
    }

    /// The levels, from the first layer's on.
    pub fn levels(&self) -> &Points
        ensures { result.now ≡ self.now.levels }
    {
        &self.levels
    }

    /// The number of each layer, from 1, indexed by vertex or item.
    pub fn layer(&self) -> &Numbers
        ensures { result.now ≡ self.now.layers }
    {
        &self.layer
    }
}
