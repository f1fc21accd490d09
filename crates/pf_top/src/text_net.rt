// Networks within the limits of texts.
ghost use Rattle.std.specs.Prelude.{◌≡◌};
ghost use Rattle.pf_text.specs.Kinds.{problem_of_lines};
ghost use Rattle.pf_lines.specs.Places.{lines_left};
ghost use Rattle.pf_lines.specs.Reading.{Agrees};
ghost use Rattle.pf_par.specs.Text.{par};
ghost use Rattle.pf_sweep.specs.Parameters.{HasNearEnds};

use pf_lines::{Lines, ReadBad};
use pf_net::Net;
use pf_par::read_par;
use std::alloc::Global;
use std::marker::Model;

/// A network whose ends are at most 2^33 in size, as every text gives it.
#[derive(Drop)]
pub struct TextNet {
    net: Net,
}

impl Model for TextNet {
    ghost use Rattle.pf_model.specs.Network.{Network};
    ghost use Rattle.pf_sweep.specs.Parameters.{HasNearEnds};

    ghost Value = { Network };

    ghost view = { λ t. t.net };

    ghost invariant = { λ t. HasNearEnds t.net };
}

impl TextNet {
    /// Reads the network, and leaves the reader of lines after its line `end`.
    pub fn read(alloc: Global, lines: &mut Lines<'_>) -> Result<TextNet, ReadBad>
        ensures judged { Agrees (problem_of_lines par (lines_left lines.old))
            (λ p. record { problem = p; rest = lines.new.rest; line = lines.new.number }) result }
    {
        match read_par(alloc, lines) {
            Ok(net) => Ok(TextNet { net }),
            Err(bad) => Err(bad),
        }
    }

    /// The network, whose ends are near.
    pub fn net(&self) -> &Net
        ensures value { result.now ≡ self.now }
        ensures ends { HasNearEnds self.now }
    {
        &self.net
    }
}
