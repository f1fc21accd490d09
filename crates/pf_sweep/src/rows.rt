// The rows of a sweep in equal steps.
ghost use Rattle.std.specs.Prelude.{◌≡◌, ◌≢◌, ◌↔◌, ◌+◌, ◌<◌, ◌≤◌, ◌^◌, ℤ, pos, ◌+ℤ◌, ◌-ℤ◌, ◌*ℤ◌, ◌≤ℤ◌, nat_abs, true, IfOk, Err};
ghost use Rattle.pf_model.specs.declared.Sense.TheVariants.{Rising, Falling};
ghost use Rattle.pf_net.specs.Limits.{IsBuilt};
ghost use Rattle.pf_sweep.specs.Parameters.{HasNearEnds, is_too_fine, most_unit, unit_of, step_units};
ghost use Rattle.pf_sweep.specs.Rows.{IsUnderway, IsAhead, IsSeen, AreFirstRows, AreRows};

use crate::sweep::{Sweep, SweepBad, SweepRow};
use crate::turning::turned_rows;
use pf_frame::{List, NoMemory};
use pf_net::{Net, Sense};
use pf_rat::Rat;
use pf_steps::Steps;
use std::alloc::Global;
use std::marker::Brand;
use std::sync::ledger::{Blank, Ledger};

/// Rows, by rising parameter.
pub type Rows = List<SweepRow>;

// The numerator of the one, times the denominator of the other.
fn cross(x: &Rat, y: &Rat) -> i128
    ensures { result ≡ x.now.p *ℤ y.now.q }
{
    x.p() * y.q()
}

// The product of both denominators.
fn common(x: &Rat, y: &Rat) -> i128
    ensures value { result ≡ x.now.q *ℤ y.now.q }
    ensures low { pos 1 ≤ℤ result }
    ensures high { result ≤ℤ pos (2 ^ 92) }
{
    x.q() * y.q()
}

// So many times a number.
fn times(x: i128, n: u32) -> i128
    requires size { nat_abs x ≤ 2 ^ 92 }
    requires most { n ≤ 100000 }
    ensures value { result ≡ x *ℤ pos n }
    ensures size { nat_abs result ≤ 2 ^ 110 }
{
    x * i128::from(n)
}

// The product of the denominators of both ends, times the number of steps.
fn unit(net: &Net, k: u32) -> i128
    requires some { 1 ≤ k }
    requires most { k ≤ 100000 }
    ensures value { result ≡ unit_of net.now k }
    ensures low { pos 1 ≤ℤ result }
    ensures size { nat_abs result ≤ 2 ^ 110 }
{
    times(common(net.lo(), net.hi()), k)
}

// From `low k` to `high k` by steps of `high - low`.
fn step(low: i128, high: i128, k: u32, j: u32) -> i128
    requires low { nat_abs low ≤ 2 ^ 73 }
    requires high { nat_abs high ≤ 2 ^ 73 }
    requires most { k ≤ 100000 }
    requires index { j ≤ k }
    ensures value { result ≡ (low *ℤ pos k) +ℤ ((high -ℤ low) *ℤ pos j) }
    ensures size { nat_abs result ≤ 2 ^ 111 }
{
    times(low, k) + times(high - low, j)
}

// The parameter of the number `j`, in units of that product.
fn numerator(net: &Net, k: u32, j: u32) -> i128
    requires some { 1 ≤ k }
    requires most { k ≤ 100000 }
    requires index { j ≤ k }
    requires ends { HasNearEnds net.now }
    requires fine { unit_of net.now k ≤ℤ pos most_unit }
    ensures value { result ≡ step_units net.now k j }
    ensures size { nat_abs result ≤ 2 ^ 111 }
{
    // Gives the proof what every network keeps.
    let _ = net.frame().nodes();
    let (lo, hi) = (net.lo(), net.hi());
    let low = cross(lo, hi);
    let high = cross(hi, lo);
    step(low, high, k, j)
}

// One more row, at the present parameter.
fn add_row(
    net: &Net,
    k: u32,
    j: u32,
    sweep: &mut Sweep<'_>,
    rows: &mut Rows,
) -> Result<(), NoMemory>
    requires net { sweep.old.net ≡ net.now }
    requires unit { sweep.old.unit ≡ unit_of net.now k }
    requires at { sweep.old.at ≡ step_units net.now k j }
    requires rows { AreFirstRows net.now k j rows.old }
    ensures same { sweep.new ≡ sweep.old }
    ensures rows { IfOk result (λ _. AreFirstRows net.now k (j + 1) rows.new) }
{
    let row = sweep.row();
    rows.push(row)?;
    Ok(())
}

// The end of a block of rows: the number of its last row, that row's parameter in units of the sweep, and the least value there.
#[derive(Clone, Copy)]
struct BlockEnd {
    row: u32,
    p: i128,
    least: i128,
}

// Goes ahead to the row `to`, the last of a block.
fn look_ahead<L: Ledger>(
    net: &Net,
    k: u32,
    to: u32,
    ahead: &mut Sweep<'_>,
    steps: &mut Steps<L>,
) -> BlockEnd
    requires some { 1 ≤ k }
    requires most { k ≤ 100000 }
    requires last { to ≤ k }
    requires ends { HasNearEnds net.now }
    requires fine { unit_of net.now k ≤ℤ pos most_unit }
    requires ahead { IsAhead net.now k to ahead.old }
    ensures row { result.row ≡ to }
    ensures seen { IsSeen net.now k result.row result.p result.least }
    ensures ahead { IsAhead net.now k (result.row + 1) ahead.new }
{
    // Gives the proof what every network keeps.
    let _ = net.frame().nodes();
    let p = numerator(net, k, to);
    ahead.advance(p, steps);
    let least = ahead.value();
    BlockEnd { row: to, p, least }
}

// The next row: that of the kept cut, if it has the least value at the block's end too; else the one after a step.
fn add_next<L: Ledger>(
    net: &Net,
    k: u32,
    j: u32,
    end: &BlockEnd,
    sweep: &mut Sweep<'_>,
    rows: &mut Rows,
    steps: &mut Steps<L>,
) -> Result<(), NoMemory>
    requires some { 1 ≤ k }
    requires most { k ≤ 100000 }
    requires index { j ≤ k }
    requires ends { HasNearEnds net.now }
    requires fine { unit_of net.now k ≤ℤ pos most_unit }
    requires sweep { IsUnderway net.now k j sweep.old rows.old }
    requires seen { IsSeen net.now k j end.now.p end.now.least }
    ensures { IfOk result (λ _. IsUnderway net.now k (j + 1) sweep.new rows.new) }
{
    // Gives the proof what every network keeps.
    let _ = net.frame().nodes();
    let p = numerator(net, k, j);
    match sweep.row_before(end.p, end.least, p) {
        Some(row) => {
            rows.push(row)?;
            Ok(())
        }
        None => {
            sweep.advance(p, steps);
            add_row(net, k, j, sweep, rows)?;
            Ok(())
        }
    }
}

// The rows of a block, from row `from` on.
fn add_block<L: Ledger>(
    net: &Net,
    k: u32,
    from: u32,
    end: &BlockEnd,
    sweep: &mut Sweep<'_>,
    rows: &mut Rows,
    steps: &mut Steps<L>,
) -> Result<(), NoMemory>
    requires some { 1 ≤ k }
    requires most { k ≤ 100000 }
    requires order { from ≤ end.now.row }
    requires last { end.now.row ≤ k }
    requires ends { HasNearEnds net.now }
    requires fine { unit_of net.now k ≤ℤ pos most_unit }
    requires sweep { IsUnderway net.now k from sweep.old rows.old }
    requires seen { IsSeen net.now k end.now.row end.now.p end.now.least }
    ensures { IfOk result (λ _. IsUnderway net.now k (end.now.row + 1) sweep.new rows.new) }
{
    // Gives the proof what every network keeps.
    let _ = net.frame().nodes();
    'each: for j in from..end.row + 1 {
        add_next(net, k, j, end, sweep, rows, steps)?;
    }
    Ok(())
}

// The last row of a block of so many rows, or of all.
fn last_of(from: u32, length: u32, k: u32) -> u32
    requires some { 1 ≤ length }
    requires few { length ≤ 330 }
    requires order { from ≤ k }
    requires most { k ≤ 100000 }
    ensures order { from ≤ result }
    ensures last { result ≤ k }
{
    (from + (length - 1)).min(k)
}

// How many rows to look ahead. A network has fewer breakpoints than nodes: so the square root of the number of steps a node, and at
// least four.
fn length_of(nodes: u32, k: u32) -> u32
    requires { nodes ≤ 8192 }
    ensures some { 1 ≤ result }
    ensures few { result ≤ 330 }
{
    'length: for length in 4..330u32 {
        if k <= length * length * nodes {
            return length;
        }
    }
    330
}

// The rows after the first one, with a counter that nobody reads.
fn add_rows<L: Ledger>(
    net: &Net,
    k: u32,
    sweep: &mut Sweep<'_>,
    ahead: &mut Sweep<'_>,
    rows: &mut Rows,
    blank: Blank,
) -> Result<(), NoMemory>
    requires name { blank.name ≡ L.name }
    requires parts { blank.parts ≡ L.parts }
    requires counter { 0 < blank.parts }
    requires some { 1 ≤ k }
    requires most { k ≤ 100000 }
    requires ends { HasNearEnds net.now }
    requires fine { unit_of net.now k ≤ℤ pos most_unit }
    requires sweep { IsUnderway net.now k 1 sweep.old rows.old }
    requires ahead { IsAhead net.now k 1 ahead.old }
    ensures { IfOk result (λ _. AreRows net.now k rows.new) }
{
    let (book, share) = blank.open::<L>();
    let mut steps = Steps::new(book, share);
    let length = length_of(net.frame().nodes(), k);
    let mut from = 1u32;
    'blocks: while from <= k {
        let to = last_of(from, length, k);
        let end = look_ahead(net, k, to, ahead, &mut steps);
        add_block(net, k, from, &end, sweep, rows, &mut steps)?;
        from = end.row + 1;
    }
    Ok(())
}

// All rows of a sweep that stands at the low end, as does the one that goes ahead.
fn rows_from(
    alloc: Global,
    net: &Net,
    k: u32,
    sweep: &mut Sweep<'_>,
    ahead: &mut Sweep<'_>,
) -> Result<Rows, SweepBad>
    requires some { 1 ≤ k }
    requires most { k ≤ 100000 }
    requires ends { HasNearEnds net.now }
    requires net { sweep.old.net ≡ net.now }
    requires unit { sweep.old.unit ≡ unit_of net.now k }
    requires at { sweep.old.at ≡ step_units net.now k 0 }
    requires fine { unit_of net.now k ≤ℤ pos most_unit }
    requires ahead { IsAhead net.now k 1 ahead.old }
    ensures rows { IfOk result (AreRows net.now k) }
    ensures fine { result ≢ Err SweepBad.TooFine }
{
    // Gives the proof what every network keeps.
    let _ = net.frame().nodes();
    let mut rows = Rows::new(alloc);
    add_row(net, k, 0, sweep, &mut rows)?;
    add_rows::<Brand>(net, k, sweep, ahead, &mut rows, Blank::new(1))?;
    Ok(rows)
}

// The rows of a rising network, by two sweeps, of which one goes ahead.
fn rising_rows(alloc: Global, net: &Net, k: u32) -> Result<Rows, SweepBad>
    requires rising { net.now.sense ≡ Rising }
    requires some { 1 ≤ k }
    requires most { k ≤ 100000 }
    requires ends { HasNearEnds net.now }
    ensures rows { IfOk result (AreRows net.now k) }
    ensures fine { (result ≡ Err SweepBad.TooFine) ↔ (is_too_fine k net.now ≡ true) }
{
    // Gives the proof what every network keeps.
    let _ = net.frame().nodes();
    let unit = unit(net, k);
    let mut sweep = Sweep::make(alloc, net, unit)?;
    let Ok(mut ahead) = Sweep::make(alloc, net, unit) else {
        return Err(SweepBad::NoMemory);
    };
    rows_from(alloc, net, k, &mut sweep, &mut ahead)
}

// Whether the unit of the steps is too great.
fn is_too_fine(net: &Net, k: u32) -> bool
    requires some { 1 ≤ k }
    requires most { k ≤ 100000 }
    ensures value { result ≡ is_too_fine k net.now }
    ensures built { IsBuilt net.now }
{
    let _ = net.frame().nodes();
    unit(net, k) > 1 << 40
}

// The rows of a falling network: those of its mirror, turned round.
fn falling_rows(alloc: Global, net: &Net, k: u32) -> Result<Rows, SweepBad>
    requires falling { net.now.sense ≡ Falling }
    requires some { 1 ≤ k }
    requires most { k ≤ 100000 }
    requires ends { HasNearEnds net.now }
    ensures rows { IfOk result (AreRows net.now k) }
    ensures fine { (result ≡ Err SweepBad.TooFine) ↔ (is_too_fine k net.now ≡ true) }
{
    if is_too_fine(net, k) {
        return Err(SweepBad::TooFine);
    }
    let other = net.mirror(alloc)?;
    let rows = rising_rows(alloc, &other, k)?;
    let made = turned_rows(alloc, rows.get())?;
    Ok(made)
}

/// The rows of `k` equal steps through the network's interval, from its low end to its high one: `k + 1` rows, by two sweeps of which
/// one goes ahead. They go through the mirror of a falling network. It is `TooFine` exactly where the product of the ends'
/// denominators and `k` is above `2^40`, and then no sweep is made. The only other error is `NoMemory`.
pub fn rows_of(alloc: Global, net: &Net, k: u32) -> Result<Rows, SweepBad>
    requires some { 1 ≤ k }
    requires most { k ≤ 100000 }
    requires ends { HasNearEnds net.now }
    ensures rows { IfOk result (AreRows net.now k) }
    ensures fine { (result ≡ Err SweepBad.TooFine) ↔ (is_too_fine k net.now ≡ true) }
{
    match net.sense() {
        Sense::Rising => rising_rows(alloc, net, k),
        Sense::Falling => falling_rows(alloc, net, k),
    }
}
