// A piece of a borrowed network.
ghost use Rattle.std.specs.Prelude.{◌≡◌, ℕ, ◌<◌, ◌≤◌, length, slice_index_or, IfOk};
ghost use Rattle.pf_model.specs.Cut.{has};
ghost use Rattle.pf_model.specs.Network.{IsNetworkCut};
ghost use Rattle.pf_net.specs.Limits.{digraph_of};
ghost use Rattle.pf_piece.specs.Piece.{AreNested, IsLift, piece_of, core_of};
ghost use Rattle.pf_piece.specs.Held.{arc_at};

use crate::inner::inner_arcs;
use crate::opening::{ends_at, kept_of, places_of};
use pf_frame::{Frame, NoMemory};
use pf_net::{AffineArc, Net, Setting};
use std::alloc::Global;
use std::marker::Model;

/// The part of a network between two nested cuts, which it borrows. Node 0 is its source and stands for the small side; node 1 is its sink
/// and stands for all nodes outside the large one; the other nodes of the large side follow from 2 on, in the order of the network. Its arcs
/// are those of the network whose ends are two nodes of the piece, in the network's order. Contracts see the network and the two sides.
#[derive(Drop)]
pub struct Piece<'a> {
    net: &'a Net,
    small: &'a [bool],
    large: &'a [bool],
    places: Vec<u32>,
    kept: Vec<u32>,
    frame: Frame,
}

impl<'a> Model for Piece<'a> {
    ghost use Rattle.pf_piece.specs.Piece.{Between};
    ghost use Rattle.pf_piece.specs.Held.{IsPiece};

    ghost Value = { Between };

    ghost view = { λ p. record { net = p.net.now; small = p.small.now; large = p.large.now } };

    ghost invariant = { λ p. IsPiece (record { net = p.net.now; small = p.small.now; large = p.large.now }) p.places.items p.kept.items p.frame };
}

// Writes the side that a side of the piece lifts to: each node of the network is in it where the one that stands for it is in that.
pub fn write_lift(places: &[u32], piece_side: &[bool], side: &mut [bool])
    requires nodes { (v : ℕ) → v < length places.now → slice_index_or places.now v 0 < length piece_side.now }
    requires full { length side.old ≡ length places.now }
    ensures full { length side.new ≡ length places.now }
    ensures each { (v : ℕ) → v < length places.now → has side.new v ≡ has piece_side.now (slice_index_or places.now v 0) }
{
    'nodes: for v in 0..places.len() {
        side[v] = piece_side[places[v] as usize];
    }
}

impl<'a> Piece<'a> {
    /// The piece between two cuts of the network, of which the small one is contained in the large one. Takes memory in proportion to
    /// the nodes and arcs of the network; `NoMemory` where it was not found.
    pub fn between(
        alloc: Global,
        net: &'a Net,
        small: &'a [bool],
        large: &'a [bool],
    ) -> Result<Piece<'a>, NoMemory>
        requires { AreNested net.now small.now large.now }
        ensures { IfOk result (λ p. p ≡ record { net = net.now; small = small.now; large = large.now }) }
    {
        // Gives the proof what every network keeps.
        let _ = net.frame().nodes();
        let (places, nodes) = places_of(alloc, net, small, large)?;
        let kept = kept_of(alloc, net, places.as_slice())?;
        let ends = ends_at(alloc, net, places.as_slice(), kept.as_slice())?;
        let frame = Frame::from_ends(alloc, nodes, ends)?;
        Ok(Piece {
            net,
            small,
            large,
            places,
            kept,
            frame,
        })
    }

    /// The network.
    pub fn net(&self) -> &'a Net
        ensures { result.now ≡ self.now.net }
    {
        self.net
    }

    /// How many nodes the piece has, its source and its sink among them.
    pub fn node_count(&self) -> u32
        ensures { result ≡ (piece_of self.now).nodes }
    {
        self.frame.nodes()
    }

    /// How many arcs it has.
    pub fn arc_count(&self) -> u32
        ensures { result ≡ length (piece_of self.now).arcs }
    {
        self.frame.arcs()
    }

    /// The arc of the number `i`, from 0, between nodes of the piece.
    pub fn arc(&self, i: u32) -> AffineArc
        requires { i < length (piece_of self.now).arcs }
        ensures { result ≡ arc_at (piece_of self.now).arcs i }
    {
        let arc = self.net.arc(self.kept[i as usize]);
        AffineArc {
            tail: self.frame.tail(i),
            head: self.frame.head(i),
            a: arc.a,
            b: arc.b,
        }
    }

    /// Its nodes and arcs, without capacities.
    pub fn frame(&self) -> &Frame
        ensures { result.now ≡ digraph_of (piece_of self.now) }
    {
        &self.frame
    }

    /// Writes the side of the network that a cut of the piece stands for: the small side and the chosen nodes. `piece_side` is indexed
    /// by the nodes of the piece, `side` by those of the network.
    pub fn lift(&self, piece_side: &[bool], side: &mut [bool])
        requires cut { IsNetworkCut (piece_of self.now) piece_side.now }
        requires places { length side.old ≡ self.now.net.nodes }
        ensures { IsLift self.now piece_side.now side.new }
    {
        write_lift(self.places.as_slice(), piece_side, side);
    }

    /// The piece without the arcs between its source and its sink: a monotone network of the same sense with the same nodes, whose smallest least cut is
    /// that of the piece at every parameter.
    pub fn core(&self, alloc: Global) -> Result<Net, NoMemory>
        ensures { IfOk result (λ net. net ≡ core_of self.now) }
    {
        let arcs = inner_arcs(alloc, self)?;
        let nodes = self.node_count();
        let setting = Setting {
            sense: self.net.sense(),
            nodes,
            source: 0,
            sink: 1,
            low: *self.net.lo(),
            high: *self.net.hi(),
        };
        Net::from_setting(alloc, setting, arcs)
    }
}
