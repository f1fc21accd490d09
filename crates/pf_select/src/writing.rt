// Writing of a schedule.
ghost use Rattle.std.specs.Prelude.{◌≡◌, ℕ, ◌++◌, [], ◌∷◌, length, drop, false, codes};
ghost use Rattle.pf_io.specs.Printing.{Adds, is_spent};
ghost use Rattle.pf_text.specs.Spelling.{fraction_line};
ghost use Rattle.pf_select.specs.Problem.{worth, selection_at};
ghost use Rattle.pf_select.specs.Right.{IsScheduleShape};
ghost use Rattle.pf_select.specs.Text.{change_text, changes_text, selections_text, charges_text, schedule_text};

use crate::catalogue::Catalogue;
use crate::schedule::Schedule;
use crate::worth::worth_at;
use pf_frame::FlowTable;
use pf_io::{Failed, Printer, Sink, print_fraction_row, print_row, print_rows, print_side_row};
use pf_rat::Rat;

// The line of price `j`, with what the selection before it is worth there in units of `1/q`.
fn print_price<K: Sink>(
    out: &mut Printer<'_, K>,
    catalogue: &Catalogue,
    j: usize,
    price: &Rat,
    before: &[bool],
) -> Result<(), Failed>
    requires usable { is_spent out.old ≡ false }
    requires full { length before.now ≡ length catalogue.now.costs }
    ensures { Adds out.old out.new (fraction_line (codes "b") (j ∷ []) price.now (worth catalogue.now price.now before.now ∷ [])) result }
{
    let value = worth_at(catalogue, price, before);
    print_fraction_row(out, b"b", &[j], price, &[value])
}

// The lines of price `j` and of the selection after it.
fn print_change<K: Sink>(
    out: &mut Printer<'_, K>,
    catalogue: &Catalogue,
    j: usize,
    price: &Rat,
    before: &[bool],
    set: &[bool],
) -> Result<(), Failed>
    requires usable { is_spent out.old ≡ false }
    requires full { length before.now ≡ length catalogue.now.costs }
    ensures { Adds out.old out.new (change_text j price.now (worth catalogue.now price.now before.now) set.now) result }
{
    print_price(out, catalogue, j, price, before)?;
    print_side_row(out, b"s", &[j], &[], set)
}

// The lines of all prices, and of the selections after them.
fn print_changes<K: Sink>(
    out: &mut Printer<'_, K>,
    catalogue: &Catalogue,
    answer: &Schedule,
) -> Result<(), Failed>
    requires usable { is_spent out.old ≡ false }
    requires shape { IsScheduleShape catalogue.now answer.now }
    ensures { Adds out.old out.new (changes_text catalogue.now 0 (selection_at answer.now.selections 0) answer.now.prices (drop 1 answer.now.selections)) result }
{
    let prices = answer.prices().get();
    'prices: for j in 0..prices.len() {
        let price = &prices[j];
        let before = answer.selection(j);
        let set = answer.selection(j + 1);
        print_change(out, catalogue, j + 1, price, before, set)?;
    }
    Ok(())
}

// The first selection, and the prices with the others.
fn print_selections<K: Sink>(
    out: &mut Printer<'_, K>,
    catalogue: &Catalogue,
    answer: &Schedule,
) -> Result<(), Failed>
    requires usable { is_spent out.old ≡ false }
    requires shape { IsScheduleShape catalogue.now answer.now }
    ensures { Adds out.old out.new (selections_text catalogue.now answer.now.prices answer.now.selections) result }
{
    print_side_row(out, b"s", &[0], &[], answer.selection(0))?;
    print_changes(out, catalogue, answer)
}

// The charges at each price.
fn print_charges<K: Sink>(out: &mut Printer<'_, K>, charges: &FlowTable) -> Result<(), Failed>
    requires { is_spent out.old ≡ false }
    ensures { Adds out.old out.new (charges_text 0 charges.now) result }
{
    print_rows(out, b"f", 1, charges)
}

/// Writes the answer to `select`: the number of prices; the first selection, and for each price what the selection before it is
/// worth there and the selection after it; and then the charges at each price. A selection is written part by part, charges need
/// by need, worths and charges in units of `1/q` of their price `p/q`. It takes no memory. `Failed` comes only where the sink's
/// count of faults rose, and leaves the printer spent.
pub fn write_schedule<K: Sink>(
    out: &mut Printer<'_, K>,
    catalogue: &Catalogue,
    answer: &Schedule,
) -> Result<(), Failed>
    requires usable { is_spent out.old ≡ false }
    requires shape { IsScheduleShape catalogue.now answer.now }
    ensures { Adds out.old out.new (schedule_text catalogue.now answer.now) result }
{
    let count = answer.prices().get().len();
    out.word(b"o select\n")?;
    print_row(out, b"k", &[count], &[])?;
    print_selections(out, catalogue, answer)?;
    print_charges(out, answer.charges())?;
    out.word(b"end\n")
}
