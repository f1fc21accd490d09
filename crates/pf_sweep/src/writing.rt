// Writing of the rows of a sweep.
ghost use Rattle.std.specs.Prelude.{◌≡◌, ◌<◌, length, false};
ghost use Rattle.pf_io.specs.Printing.{Adds, is_spent};
ghost use Rattle.pf_sweep.specs.Text.{row_text, rows_text, sweep_text};

use crate::sweep::SweepRow;
use pf_io::{Failed, Printer, Sink, print_fraction_row, print_row};

// The line of a row.
fn print_one<K: Sink>(out: &mut Printer<'_, K>, j: usize, row: &SweepRow) -> Result<(), Failed>
    requires { is_spent out.old ≡ false }
    ensures { Adds out.old out.new (row_text j row.now) result }
{
    let at = row.at();
    print_fraction_row(out, b"x", &[j], &at, &[row.value(), i128::from(row.size())])
}

// The line of each row.
fn print_rows<K: Sink>(out: &mut Printer<'_, K>, rows: &[SweepRow]) -> Result<(), Failed>
    requires { is_spent out.old ≡ false }
    ensures { Adds out.old out.new (rows_text 0 rows.now) result }
{
    'rows: for j in 0..rows.len() {
        print_one(out, j, &rows[j])?;
    }
    Ok(())
}

/// Writes the answer to `sweep`: the number of steps, and then each row with its number, its parameter `P Q`, the least value in
/// units of `1/Q` and the least size. It takes no memory. `Failed` comes only where the sink's count of faults rose, and leaves the
/// printer spent.
pub fn write_sweep<K: Sink>(out: &mut Printer<'_, K>, rows: &[SweepRow]) -> Result<(), Failed>
    requires usable { is_spent out.old ≡ false }
    requires some { 0 < length rows.now }
    ensures { Adds out.old out.new (sweep_text rows.now) result }
{
    out.word(b"o sweep\n")?;
    print_row(out, b"k", &[rows.len() - 1], &[])?;
    print_rows(out, rows)?;
    out.word(b"end\n")
}
