// The lists of a curve, seen from the other end of the interval.
ghost use Rattle.std.specs.Prelude.{◌≡◌, map, reverse, IfOk};
ghost use Rattle.pf_model.specs.Mirror.{negative, turned_points};

use crate::curve::{Points, Rows};
use pf_frame::{List, NoMemory};
use pf_net::negated;
use pf_rat::Rat;
use std::alloc::Global;

/// The items in reverse order. They stay where they are, and only the list is turned round.
pub fn turned<T: Drop>(list: List<T>) -> List<T>
    ensures { result ≡ reverse list }
{
    let mut items = list.into_vec();
    items.reverse();
    List::from_vec(items)
}

// Each parameter with its sign turned.
fn negated_points(alloc: Global, points: &[Rat]) -> Result<Points, NoMemory>
    ensures { IfOk result (λ made. made ≡ map negative points.now) }
{
    let mut made = Points::new(alloc);
    'points: for i in 0..points.len() {
        made.push(negated(&points[i]))?;
    }
    Ok(made)
}

/// The points negated and in reverse order.
pub fn turned_points(alloc: Global, points: &[Rat]) -> Result<Points, NoMemory>
    ensures { IfOk result (λ made. made ≡ turned_points points.now) }
{
    let made = negated_points(alloc, points)?;
    Ok(turned(made))
}

/// The flows in reverse order. Their numbers stay where they are.
pub fn turned_rows(rows: Rows) -> Rows
    ensures { result ≡ reverse rows }
{
    turned(rows)
}
