// Writing of a reinforcement.
ghost use Rattle.std.specs.Prelude.{◌≡◌, length, false};
ghost use Rattle.pf_io.specs.Printing.{Adds, is_spent};
ghost use Rattle.pf_reinforce.specs.Text.{threshold_line, thresholds_text, front_text, back_text, added_text, blocked_text, reinforcement_text, IsTextShape};

use crate::added::Added;
use crate::reinforcement::Reinforcement;
use pf_frame::FlowTable;
use pf_graph::Partition;
use pf_io::{
    Failed, Printer, Sink, print_fraction_row, print_head, print_labels, print_number, print_row,
};
use pf_rat::Rat;
use pf_strength::print_splits;

// The line of a threshold.
fn print_threshold<K: Sink>(
    out: &mut Printer<'_, K>,
    j: usize,
    price: &i128,
    labels: &[u32],
) -> Result<(), Failed>
    requires { is_spent out.old ≡ false }
    ensures { Adds out.old out.new (threshold_line j price.now labels.now) result }
{
    print_head(out, b"t", &[j])?;
    print_number(out, price)?;
    print_labels(out, b"", &[], labels)
}

// Each threshold, with its number.
fn print_thresholds<K: Sink>(
    out: &mut Printer<'_, K>,
    thresholds: &[i128],
    parts: &[Partition],
) -> Result<(), Failed>
    requires usable { is_spent out.old ≡ false }
    requires count { length parts.now ≡ length thresholds.now }
    ensures { Adds out.old out.new (thresholds_text 0 thresholds.now parts.now) result }
{
    'thresholds: for j in 0..thresholds.len() {
        let labels = parts[j].labels();
        print_threshold(out, j + 1, &thresholds[j], labels)?;
    }
    Ok(())
}

// The lines of numbers in front of the thresholds.
fn print_front<K: Sink>(
    out: &mut Printer<'_, K>,
    level: &Rat,
    cost: i128,
    added: &[i128],
    vector: &[i128],
) -> Result<(), Failed>
    requires { is_spent out.old ≡ false }
    ensures { Adds out.old out.new (front_text level.now cost added.now vector.now) result }
{
    out.word(b"o reinforce\n")?;
    print_fraction_row(out, b"d", &[], level, &[])?;
    print_row(out, b"c", &[], &[cost])?;
    print_row(out, b"x", &[], added)?;
    print_row(out, b"y", &[], vector)
}

// The thresholds, the splits, and the end.
fn print_back<K: Sink>(
    out: &mut Printer<'_, K>,
    thresholds: &[i128],
    parts: &[Partition],
    splits: &FlowTable,
) -> Result<(), Failed>
    requires usable { is_spent out.old ≡ false }
    requires count { length parts.now ≡ length thresholds.now }
    ensures { Adds out.old out.new (back_text thresholds.now parts.now splits.now) result }
{
    print_row(out, b"k", &[thresholds.len()], &[])?;
    print_thresholds(out, thresholds, parts)?;
    print_splits(out, splits)?;
    out.word(b"end\n")
}

// What is added.
fn print_added<K: Sink>(out: &mut Printer<'_, K>, answer: &Added) -> Result<(), Failed>
    requires usable { is_spent out.old ≡ false }
    requires count { length answer.now.parts ≡ length answer.now.thresholds }
    ensures { Adds out.old out.new (added_text answer.now) result }
{
    print_front(
        out,
        answer.level(),
        answer.cost(),
        answer.added().get(),
        answer.vector().get(),
    )?;
    print_back(
        out,
        answer.thresholds().get(),
        answer.parts().get(),
        answer.splits(),
    )
}

// What blocks it.
fn print_blocked<K: Sink>(out: &mut Printer<'_, K>, labels: &[u32]) -> Result<(), Failed>
    requires { is_spent out.old ≡ false }
    ensures { Adds out.old out.new (blocked_text labels.now) result }
{
    out.word(b"o reinforce\nnone\n")?;
    print_labels(out, b"s", &[], labels)?;
    out.word(b"end\n")
}

/// Writes the answer to `reinforce P/Q`: the level, the cost, what is added to each edge, the vector, each price with a label
/// for each vertex, and a split for each root; or a label for each vertex where the level is blocked. It takes no memory.
/// `Failed` comes only where the sink's count of faults rose, and leaves the printer spent.
pub fn write_reinforcement<K: Sink>(
    out: &mut Printer<'_, K>,
    answer: &Reinforcement,
) -> Result<(), Failed>
    requires usable { is_spent out.old ≡ false }
    requires shape { IsTextShape answer.now }
    ensures { Adds out.old out.new (reinforcement_text answer.now) result }
{
    match answer {
        Reinforcement::Added(added) => print_added(out, added),
        Reinforcement::Blocked(parts) => print_blocked(out, parts.labels()),
    }
}
