// The network of five nodes and seven arcs, and its piece between the second and the third cut of its curve.
use crate::networks::five_nodes;
use pf_piece::Piece;
use std::test::Fail;

#[test]
fn three_nodes_and_four_arcs(rt: HostRuntime) -> Result<(), Fail> {
    let net = five_nodes(rt.alloc())?;
    let small = [true, true, true, false, false];
    let large = [true, true, true, true, false];
    let piece = Piece::between(rt.alloc(), &net, &small, &large)?;
    assert_eq!(rt; piece.node_count(), 3);
    assert_eq!(rt; piece.arc_count(), 4);
    let first = piece.arc(0);
    assert_eq!(rt; (first.tail, first.head, first.a), (0, 2, 5));
    let last = piece.arc(3);
    assert_eq!(rt; (last.tail, last.head, last.a), (0, 1, 3));
    Ok(())
}
