// The network of five nodes and seven arcs, with breakpoints at 10/3 and 5.
ghost use Rattle.std.specs.Prelude.{◌≡◌, pos, IfOk};
ghost use Rattle.pf_model.specs.declared.Sense.TheVariants.{Rising};
ghost use Rattle.pf_sweep.specs.Parameters.{HasNearEnds};

use pf_net::{AffineArc, Net};
use pf_rat::Rat;
use std::alloc::Global;
use std::test::Fail;

pub fn arc(tail: u32, head: u32, a: i64, b: i64) -> AffineArc {
    AffineArc { tail, head, a, b }
}

pub fn five_nodes(alloc: Global) -> Result<Net, Fail>
    ensures nodes { IfOk result (λ net. net.nodes ≡ 5) }
    ensures source { IfOk result (λ net. net.source ≡ 0) }
    ensures sink { IfOk result (λ net. net.sink ≡ 4) }
    ensures low { IfOk result (λ net. net.low ≡ record { p = pos 0; q = pos 1 }) }
    ensures high { IfOk result (λ net. net.high ≡ record { p = pos 8; q = pos 1 }) }
    ensures near { IfOk result HasNearEnds }
    ensures rising { IfOk result (λ net. net.sense ≡ Rising) }
{
    let arcs = [
        arc(0, 1, 2, 1),
        arc(0, 2, 0, 2),
        arc(1, 3, 5, 0),
        arc(2, 3, 4, 0),
        arc(1, 2, 1, 0),
        arc(3, 4, 14, -1),
        arc(2, 4, 3, 0),
    ];
    Ok(Net::build(alloc, 5, 0, 4, Rat::new(0, 1), Rat::new(8, 1), &arcs)?)
}
