// Sums over the arcs of a network.
ghost use Rattle.std.specs.Prelude.{◌≡◌, ◌<◌, ◌≤◌, ℕ, length, map, get_or, All};
ghost use Rattle.pf_model.specs.Cut.{sum_where, leaves};
ghost use Rattle.pf_model.specs.Network.{capacity_at, ends_of};
ghost use Rattle.pf_net.specs.Limits.{IsSmallArc};

use crate::rules::capacity;
use pf_model::AffineArc;
use pf_rat::{Line, Rat};

// Writes the capacity of each arc at `p/q`, in units of `1/q`.
pub fn capacities(arcs: &[AffineArc], at: &Rat, caps: &mut [i128])
    requires small { All IsSmallArc arcs.now }
    requires places { length caps.old ≡ length arcs.now }
    ensures { caps.new ≡ map (capacity_at at.now) arcs.now }
{
    'arcs: for i in 0..arcs.len() {
        caps[i] = capacity(&arcs[i], at);
    }
}

// The arc leads out of the side.
fn leads_out(side: &[bool], arc: &AffineArc) -> bool
    requires tail { arc.now.tail < length side.now }
    requires head { arc.now.head < length side.now }
    ensures { result ≡ leaves side.now (ends_of arc.now) }
{
    side[arc.tail as usize] && !side[arc.head as usize]
}

// The sums of `a` and of `b` over the arcs that leave the side.
pub fn line_of(arcs: &[AffineArc], side: &[bool]) -> Line
    requires small { All IsSmallArc arcs.now }
    requires few { length arcs.now ≤ 32768 }
    requires nodes { All (λ arc. (arc.tail < length side.now) × (arc.head < length side.now)) arcs.now }
    ensures { result ≡ record {
      a = sum_where (leaves side.now) (map ends_of arcs.now) (map (λ arc. arc.a) arcs.now);
      b = sum_where (leaves side.now) (map ends_of arcs.now) (map (λ arc. arc.b) arcs.now);
    } }
{
    let mut a: i128 = 0;
    let mut b: i128 = 0;
    'arcs: for arc in arcs {
        if leads_out(side, arc) {
            a += i128::from(arc.a);
            b += i128::from(arc.b);
        }
    }
    Line::new(a, b)
}
