// The rows of a sweep, seen from the other end of the interval.
ghost use Rattle.std.specs.Prelude.{◌≡◌, map, reverse, IfOk};
ghost use Rattle.pf_sweep.specs.Rows.{turned_row};

use crate::rows::Rows;
use crate::sweep::SweepRow;
use pf_frame::NoMemory;
use std::alloc::Global;

// Each row with its parameter negated.
fn turned_each(alloc: Global, rows: &[SweepRow]) -> Result<Rows, NoMemory>
    ensures { IfOk result (λ made. made ≡ map turned_row rows.now) }
{
    let mut made = Rows::new(alloc);
    'rows: for i in 0..rows.len() {
        made.push(rows[i].turned())?;
    }
    Ok(made)
}

/// The rows with their parameters negated, in reverse order.
pub fn turned_rows(alloc: Global, rows: &[SweepRow]) -> Result<Rows, NoMemory>
    ensures { IfOk result (λ made. made ≡ reverse (map turned_row rows.now)) }
{
    let made = turned_each(alloc, rows)?;
    let mut items = made.into_vec();
    items.reverse();
    Ok(Rows::from_vec(items))
}
