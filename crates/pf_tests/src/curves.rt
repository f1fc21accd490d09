// How many pieces are opened and how many flows are carried, which no clause says.
use crate::networks::five_nodes;
use pf_curve::{Cuts, Finder, Opened, cuts_of, flows_at};
use pf_envelope::envelope;
use std::test::Fail;

#[test]
fn three_pieces_are_opened(rt: HostRuntime) -> Result<(), Fail> {
    let net = five_nodes(rt.alloc())?;
    // Gives the proof what every network keeps.
    let _ = net.frame().nodes();
    let finder = Finder::make(rt.alloc(), &net)?;
    let mut family = Cuts {
        finder,
        opened: Opened::none(),
    };
    let parts = envelope(rt.alloc(), &mut family, net.lo(), net.hi())?;
    assert_eq!(rt; parts.len(), 3);
    assert_eq!(rt; family.opened.pieces, 3);
    assert_eq!(rt; family.opened.nodes, 5 + 4 + 3);
    Ok(())
}

#[test]
fn three_flows_are_carried(rt: HostRuntime) -> Result<(), Fail> {
    let net = five_nodes(rt.alloc())?;
    // Gives the proof what every network keeps.
    let _ = net.frame().nodes();
    let found = cuts_of(rt.alloc(), &net)?;
    let mut finder = Finder::make(rt.alloc(), &net)?;
    let flows = flows_at(rt.alloc(), &mut finder, found.points())?;
    assert_eq!(rt; flows.rows.get().len(), 4);
    assert_eq!(rt; flows.carried, 3);
    Ok(())
}
