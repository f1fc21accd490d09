// Writing of layers.
ghost use Rattle.std.specs.Prelude.{◌≡◌, ◌++◌, [], ◌∷◌, length, false, codes};
ghost use Rattle.pf_io.specs.Printing.{Adds, is_spent};
ghost use Rattle.pf_text.specs.Spelling.{line, row_line};
ghost use Rattle.pf_layers.specs.Text.{levels_text, layers_text};

use crate::layers::Layers;
use pf_io::{Failed, Printer, Sink, print_fraction_row, print_row};
use pf_rat::Rat;

// The lines of all levels.
fn print_levels<K: Sink>(out: &mut Printer<'_, K>, levels: &[Rat]) -> Result<(), Failed>
    requires { is_spent out.old ≡ false }
    ensures { Adds out.old out.new (levels_text 0 levels.now) result }
{
    'lines: for j in 0..levels.len() {
        let level = &levels[j];
        print_fraction_row(out, b"l", &[j + 1], level, &[])?;
    }
    Ok(())
}

/// Writes the answer to `layers`: the number of layers, the level of each, and the number of its layer for each vertex or item. It takes
/// no memory. `Failed` comes only where the sink's count of faults rose, and leaves the printer spent.
pub fn write_layers<K: Sink>(out: &mut Printer<'_, K>, answer: &Layers) -> Result<(), Failed>
    requires { is_spent out.old ≡ false }
    ensures { Adds out.old out.new (layers_text answer.now) result }
{
    let levels = answer.levels().get();
    let numbers = answer.layer().get();
    let count = levels.len();
    out.word(b"o layers\n")?;
    print_row(out, b"k", &[count], &[])?;
    print_levels(out, levels)?;
    print_row(out, b"m", &[], numbers)?;
    out.word(b"end\n")
}
