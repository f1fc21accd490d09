// Writing of shares.
ghost use Rattle.std.specs.Prelude.{◌≡◌, ◌+◌, ◌<◌, ◌≤◌, [], ◌∷◌, length, pos, nat_abs, false};
ghost use Rattle.pf_model.specs.Cut.{at_arc};
ghost use Rattle.pf_io.specs.Printing.{Adds, is_spent};
ghost use Rattle.pf_share.specs.Right.{IsGroupsShape, IsSharesShape};
ghost use Rattle.pf_share.specs.Text.{levels_text, share_line, node_text, shares_lines, shares_text};

use crate::shares::Shares;
use crate::sharing::Sharing;
use crate::weighted::share_of;
use pf_io::{Failed, Printer, Sink, print_fraction_row, print_row};
use pf_rat::Rat;

// Each level.
fn print_levels<K: Sink>(out: &mut Printer<'_, K>, levels: &[Rat]) -> Result<(), Failed>
    requires { is_spent out.old ≡ false }
    ensures { Adds out.old out.new (levels_text 0 levels.now) result }
{
    'levels: for j in 0..levels.len() {
        let level = &levels[j];
        print_fraction_row(out, b"l", &[j + 1], level, &[])?;
    }
    Ok(())
}

// The share of the node that texts number `v`.
fn print_share<K: Sink>(
    out: &mut Printer<'_, K>,
    v: usize,
    level: &Rat,
    weight: u32,
) -> Result<(), Failed>
    requires usable { is_spent out.old ≡ false }
    requires low { 1 ≤ weight }
    requires high { weight ≤ 1000000 }
    ensures { Adds out.old out.new (share_line v level.now (pos weight)) result }
{
    let share = share_of(level, weight);
    print_row(out, b"x", &[v], &[share.p, share.q])
}

// The share of the node `v`, which has no line where it is no source.
fn print_node<K: Sink>(
    out: &mut Printer<'_, K>,
    sharing: &Sharing,
    answer: &Shares,
    v: usize,
) -> Result<(), Failed>
    requires usable { is_spent out.old ≡ false }
    requires shape { IsGroupsShape sharing.now (length answer.now.levels) answer.now.groups }
    requires node { v < sharing.now.nodes }
    ensures { Adds out.old out.new (node_text answer.now.levels v (at_arc sharing.now.weights v) (at_arc answer.now.groups v)) result }
{
    // Gives the proof how many nodes there are at most.
    let _ = sharing.nodes();
    let weight = sharing.weight(v);
    if weight == 0 {
        return Ok(());
    }
    let group = answer.group(v);
    print_share(out, v + 1, answer.level(group), weight)
}

// The share of each source.
fn print_nodes<K: Sink>(
    out: &mut Printer<'_, K>,
    sharing: &Sharing,
    answer: &Shares,
) -> Result<(), Failed>
    requires usable { is_spent out.old ≡ false }
    requires shape { IsGroupsShape sharing.now (length answer.now.levels) answer.now.groups }
    ensures { Adds out.old out.new (shares_lines answer.now.levels 0 sharing.now.weights answer.now.groups) result }
{
    let count = sharing.nodes() as usize;
    'nodes: for v in 0..count {
        print_node(out, sharing, answer, v)?;
    }
    Ok(())
}

/// Writes the answer to `share`: the number of levels and the levels; for each node the number of its level, or 0; for each source its
/// share, which is its level times its weight; and for each arc a number, in units of `1/q` of the level `p/q` of its tail. It takes
/// no memory. `Failed` comes only where the sink's count of faults rose, and leaves the printer spent.
pub fn write_shares<K: Sink>(
    out: &mut Printer<'_, K>,
    sharing: &Sharing,
    answer: &Shares,
) -> Result<(), Failed>
    requires usable { is_spent out.old ≡ false }
    requires shape { IsSharesShape sharing.now answer.now }
    ensures { Adds out.old out.new (shares_text sharing.now answer.now) result }
{
    let levels = answer.levels().get();
    let groups = answer.groups().get();
    let flow = answer.flow().get();
    out.word(b"o share\n")?;
    print_row(out, b"k", &[levels.len()], &[])?;
    print_levels(out, levels)?;
    print_row(out, b"m", &[], groups)?;
    print_nodes(out, sharing, answer)?;
    print_row(out, b"f", &[], flow)?;
    out.word(b"end\n")
}
