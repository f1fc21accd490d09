// Writing of a summary.
ghost use Rattle.std.specs.Prelude.{◌≡◌, false};
ghost use Rattle.pf_io.specs.Printing.{Adds, is_spent};
ghost use Rattle.pf_gen.specs.Right.{summary_text};

use crate::summary::Summary;
use pf_io::{Failed, Printer, Sink, print_row};

/// Writes the summary: nodes, arcs, segments of the curve, and the least values at the low and at the high end of the
/// interval. It takes no memory. `Failed` comes only where the sink's count of faults rose, and leaves the printer spent.
pub fn write_summary<K: Sink>(out: &mut Printer<'_, K>, summary: &Summary) -> Result<(), Failed>
    requires { is_spent out.old ≡ false }
    ensures { Adds out.old out.new (summary_text summary.now) result }
{
    let counts = [
        summary.nodes as usize,
        summary.arcs as usize,
        summary.segments,
    ];
    let values = [summary.low_value, summary.high_value];
    out.word(b"o generate\n")?;
    print_row(out, b"g", &counts, &values)?;
    out.word(b"end\n")
}
