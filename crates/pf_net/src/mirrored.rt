// The numbers of a network's mirror.
ghost use Rattle.std.specs.Prelude.{◌≡◌, map, All, IfOk};
ghost use Rattle.pf_model.specs.Mirror.{negative, other_sense, mirror_arc};
ghost use Rattle.pf_net.specs.Limits.{IsSmallArc};

use pf_frame::NoMemory;
use pf_model::{AffineArc, Sense};
use pf_rat::Rat;
use std::alloc::Global;

/// The parameter with its sign turned.
pub fn negated(x: &Rat) -> Rat
    ensures { result ≡ negative x.now }
{
    Rat::new(-x.p(), x.q())
}

/// The other sense.
pub fn turned(sense: Sense) -> Sense
    ensures { result ≡ other_sense sense }
{
    match sense {
        Sense::Rising => Sense::Falling,
        Sense::Falling => Sense::Rising,
    }
}

// The arc with its slope negated.
fn mirrored(arc: &AffineArc) -> AffineArc
    requires { IsSmallArc arc.now }
    ensures { result ≡ mirror_arc arc.now }
{
    AffineArc {
        tail: arc.tail,
        head: arc.head,
        a: arc.a,
        b: -arc.b,
    }
}

/// The arcs with their slopes negated.
pub fn mirror_arcs(alloc: Global, arcs: &[AffineArc]) -> Result<Vec<AffineArc>, NoMemory>
    requires { All IsSmallArc arcs.now }
    ensures { IfOk result (λ made. made.items ≡ map mirror_arc arcs.now) }
{
    let mut made = Vec::with_capacity(alloc, arcs.len())?;
    'arcs: for i in 0..arcs.len() {
        made.push(mirrored(&arcs[i]))?;
    }
    Ok(made)
}
