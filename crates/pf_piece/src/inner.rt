// The arcs of a piece that do not run between its source and its sink.
ghost use Rattle.std.specs.Prelude.{◌≡◌, ◌<◌, ◌||◌, nat_lt, length, IfOk};
ghost use Rattle.pf_piece.specs.Piece.{piece_of, with_inner_end};
ghost use Rattle.pf_piece.specs.Held.{arc_at};

use crate::piece::Piece;
use pf_frame::NoMemory;
use pf_net::AffineArc;
use std::alloc::Global;

// Whether an end of the arc is neither the source nor the sink.
fn has_inner_end(piece: &Piece<'_>, i: u32) -> bool
    requires { i < length (piece_of piece.now).arcs }
    ensures { result ≡ (nat_lt 1 (arc_at (piece_of piece.now).arcs i).tail || nat_lt 1 (arc_at (piece_of piece.now).arcs i).head) }
{
    let frame = piece.frame();
    1 < frame.tail(i) || 1 < frame.head(i)
}

/// The arcs of the piece with an end that is neither its source nor its sink.
pub fn inner_arcs(alloc: Global, piece: &Piece<'_>) -> Result<Vec<AffineArc>, NoMemory>
    ensures { IfOk result (λ arcs. arcs.items ≡ with_inner_end (piece_of piece.now).arcs) }
{
    let mut arcs = Vec::new(alloc);
    'arcs: for i in 0..piece.arc_count() {
        if has_inner_end(piece, i) {
            arcs.push(piece.arc(i))?;
        }
    }
    Ok(arcs)
}
