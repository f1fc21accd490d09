// The smallest least cut between two others of a rising network, found in the part of the network that lies between them.
ghost use Rattle.std.specs.Prelude.{◌≡◌, ◌≤◌, ◌+ℤ◌, false, length, nat_abs, replicate, ◌^◌, IfOk};
ghost use Rattle.pf_model.specs.declared.Sense.TheVariants.{Rising};
ghost use Rattle.pf_model.specs.Cut.{IsSmallestLeast};
ghost use Rattle.pf_model.specs.Network.{IsInInterval, cut_a, cut_b, line_of, network_at};
ghost use Rattle.pf_envelope.specs.Envelope.{IsLeastAt};
ghost use Rattle.pf_piece.specs.Laws.{AreEndsAt};
ghost use Rattle.pf_curve.specs.Cuts.{IsChosen, IsCutFound, IsLineOfCut, source_alone};

use crate::family::Cut;
use crate::finder::Finder;
use pf_frame::NoMemory;
use pf_net::Net;
use pf_piece::Core;
use pf_rat::{Line, Rat};
use std::alloc::Global;

/// How many pieces were opened, and how many nodes these had in all.
#[derive(Drop)]
pub struct Opened {
    pub pieces: u64,
    pub nodes: u64,
}

impl Opened {
    pub fn none() -> Opened
        ensures { result ≡ record { pieces = 0; nodes = 0 } }
    {
        Opened {
            pieces: 0,
            nodes: 0,
        }
    }

    // One more piece, with so many nodes.
    fn add(&mut self, nodes: u32) {
        self.pieces = self.pieces.saturating_add(1);
        self.nodes = self.nodes.saturating_add(u64::from(nodes));
    }
}

// A cut of a piece, indexed by its nodes, and by how much its line differs from that of the source alone.
#[derive(Drop)]
struct Chosen {
    side: Vec<bool>,
    a: i128,
    b: i128,
}

// Writes the smallest least cut, and tells by how much its line differs from that of the source alone. `side` holds no node.
fn write_core(core: &Net, finder: &mut Finder<'_>, at: &Rat, side: &mut [bool]) -> (i128, i128)
    requires inside { IsInInterval core.now at.now }
    requires same { finder.old ≡ core.now }
    requires source { core.now.source ≡ 0 }
    requires sink { core.now.sink ≡ 1 }
    requires nodes { 2 ≤ core.now.nodes }
    requires side { side.old ≡ replicate core.now.nodes false }
    ensures smallest { IsSmallestLeast (network_at core.now at.now) side.new }
    ensures a { cut_a core.now side.new ≡ cut_a core.now (source_alone core.now.nodes) +ℤ result.0 }
    ensures b { cut_b core.now side.new ≡ cut_b core.now (source_alone core.now.nodes) +ℤ result.1 }
    ensures sized { (nat_abs result.0 ≤ 2 ^ 120) × (nat_abs result.1 ≤ 2 ^ 120) }
{
    side[0] = true;
    let alone = core.cut_line(side);
    finder.write_cut(at, side);
    let line = core.cut_line(side);
    (line.a() - alone.a(), line.b() - alone.b())
}

// The smallest least cut of the core at a parameter of the interval.
fn find_in(alloc: Global, core: &Core<'_>, at: &Rat) -> Result<Chosen, NoMemory>
    requires { IsInInterval core.now.net at.now }
    ensures { IfOk result (λ found. IsChosen core.now at.now found.side.items found.a found.b) }
{
    let inner = core.net();
    let nodes = inner.frame().nodes() as usize;
    let mut finder = Finder::make(alloc, inner)?;
    let mut side = vec![in alloc; false; nodes]?;
    let (a, b) = write_core(inner, &mut finder, at, &mut side);
    Ok(Chosen { side, a, b })
}

// Writes the lift of the core's smallest least cut, and tells its line, where `line` is that of the small side. `side` is indexed by the
// nodes of the network.
fn write_lifted(core: &Core<'_>, line: &Line, chosen: &Chosen, at: &Rat, side: &mut [bool]) -> Line
    requires rising { core.now.net.sense ≡ Rising }
    requires ends { AreEndsAt core.now at.now }
    requires line { line.now ≡ line_of core.now.net core.now.small }
    requires chosen { IsChosen core.now at.now chosen.now.side.items chosen.now.a chosen.now.b }
    requires nodes { length side.old ≡ core.now.net.nodes }
    ensures smallest { IsSmallestLeast (network_at core.now.net at.now) side.new }
    ensures line { result ≡ line_of core.now.net side.new }
{
    // Gives the proof what every network keeps.
    let _ = core.whole().frame().nodes();
    core.lift(chosen.side.as_slice(), side);
    Line::new(line.a() + chosen.a, line.b() + chosen.b)
}

// The lift of the core's smallest least cut, where `line` is that of the small side.
fn lifted(
    alloc: Global,
    core: &Core<'_>,
    line: &Line,
    chosen: &Chosen,
    at: &Rat,
) -> Result<Cut, NoMemory>
    requires rising { core.now.net.sense ≡ Rising }
    requires inside { IsInInterval core.now.net at.now }
    requires ends { AreEndsAt core.now at.now }
    requires line { line.now ≡ line_of core.now.net core.now.small }
    requires chosen { IsChosen core.now at.now chosen.now.side.items chosen.now.a chosen.now.b }
    ensures found { IfOk result (λ m. IsCutFound core.now.net m.at m.line m.side.items) }
    ensures parameter { IfOk result (λ m. m.at ≡ at.now) }
    ensures least { IfOk result (λ m. IsLeastAt (IsLineOfCut core.now.net) m.line at.now) }
{
    let nodes = core.whole().frame().nodes() as usize;
    let mut side = vec![in alloc; false; nodes]?;
    let line = write_lifted(core, line, chosen, at, &mut side);
    Ok(Cut {
        at: *at,
        line,
        side,
    })
}

/// The smallest least cut of a rising network at a parameter between two, where the sides are the smallest least cuts at these,
/// and `line` is that of the small one.
pub fn find_between(
    alloc: Global,
    net: &Net,
    opened: &mut Opened,
    at: &Rat,
    line: &Line,
    small: &[bool],
    large: &[bool],
) -> Result<Cut, NoMemory>
    requires rising { net.now.sense ≡ Rising }
    requires inside { IsInInterval net.now at.now }
    requires line { line.now ≡ line_of net.now small.now }
    requires ends { AreEndsAt (record { net = net.now; small = small.now; large = large.now }) at.now }
    ensures found { IfOk result (λ m. IsCutFound net.now m.at m.line m.side.items) }
    ensures parameter { IfOk result (λ m. m.at ≡ at.now) }
    ensures least { IfOk result (λ m. IsLeastAt (IsLineOfCut net.now) m.line at.now) }
{
    // Gives the proof what every network keeps.
    let _ = net.frame().nodes();
    let core = Core::between(alloc, net, small, large)?;
    opened.add(core.net().frame().nodes());
    let chosen = find_in(alloc, &core, at)?;
    lifted(alloc, &core, line, &chosen, at)
}
