// The core of a borrowed network between two nested cuts, opened without the piece.
ghost use Rattle.std.specs.Prelude.{◌≡◌, length, IfOk};
ghost use Rattle.pf_model.specs.Network.{IsNetworkCut};
ghost use Rattle.pf_piece.specs.Piece.{AreNested, IsLift, piece_of};
ghost use Rattle.pf_piece.specs.Cores.{IsCoreOf};

use crate::gathering::gathered;
use crate::opening::places_of;
use crate::piece::write_lift;
use pf_frame::NoMemory;
use pf_net::{Net, Setting};
use std::alloc::Global;
use std::marker::Model;

/// The core of the part of a network between two nested cuts, which it borrows: the part without the arcs between its source and its
/// sink. Its nodes are those of the `Piece`; its arcs are in any order. Contracts see the network and the two sides.
#[derive(Drop)]
pub struct Core<'a> {
    net: &'a Net,
    small: &'a [bool],
    large: &'a [bool],
    places: Vec<u32>,
    inner: Net,
}

impl<'a> Model for Core<'a> {
    ghost use Rattle.pf_piece.specs.Piece.{Between};
    ghost use Rattle.pf_piece.specs.Cores.{IsCore};

    ghost Value = { Between };

    ghost view = { λ c. record { net = c.net.now; small = c.small.now; large = c.large.now } };

    ghost invariant = { λ c. IsCore (record { net = c.net.now; small = c.small.now; large = c.large.now }) c.inner c.places.items };
}

impl<'a> Core<'a> {
    /// The core between two cuts of the network, of which the small one is contained in the large one. Takes time and memory in
    /// proportion to the nodes of the network and to the arcs at the nodes between the cuts; `NoMemory` where it was not found.
    pub fn between(
        alloc: Global,
        net: &'a Net,
        small: &'a [bool],
        large: &'a [bool],
    ) -> Result<Core<'a>, NoMemory>
        requires { AreNested net.now small.now large.now }
        ensures { IfOk result (λ c. c ≡ record { net = net.now; small = small.now; large = large.now }) }
    {
        // Gives the proof what every network keeps.
        let _ = net.frame().nodes();
        let (places, nodes) = places_of(alloc, net, small, large)?;
        let arcs = gathered(alloc, net, places.as_slice())?;
        let setting = Setting {
            sense: net.sense(),
            nodes,
            source: 0,
            sink: 1,
            low: *net.lo(),
            high: *net.hi(),
        };
        let inner = Net::from_setting(alloc, setting, arcs)?;
        Ok(Core {
            net,
            small,
            large,
            places,
            inner,
        })
    }

    /// The network of which it is a part.
    pub fn whole(&self) -> &'a Net
        ensures { result.now ≡ self.now.net }
    {
        self.net
    }

    /// The core as a network.
    pub fn net(&self) -> &Net
        ensures { IsCoreOf self.now result.now }
    {
        &self.inner
    }

    /// Writes the side of the network that a cut of the core stands for: the small side and the chosen nodes. `core_side` is indexed
    /// by the nodes of the core, `side` by those of the network.
    pub fn lift(&self, core_side: &[bool], side: &mut [bool])
        requires cut { IsNetworkCut (piece_of self.now) core_side.now }
        requires places { length side.old ≡ self.now.net.nodes }
        ensures { IsLift self.now core_side.now side.new }
    {
        write_lift(self.places.as_slice(), core_side, side);
    }
}
