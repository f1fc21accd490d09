// Numbers in another unit.
ghost use Rattle.std.specs.Prelude.{◌≡◌, ℕ, ◌<◌, ◌≤◌, ◌^◌, length, ℤ, pos, neg_ℤ, ◌+ℤ◌, ◌*ℤ◌, ◌≤ℤ◌, ◌<ℤ◌, slice_set, true, IfSome};
ghost use Rattle.pf_model.specs.Cut.{at_arc};
ghost use Rattle.pf_frame.specs.Numbers.{IsBounded};
ghost use Rattle.pf_carry.specs.Carry.{IsUnit, IsCarriable, carried, floored};
ghost use Rattle.pf_carry.specs.Scaling.{IsFloor};
ghost use Rattle.pf_carry.specs.Trimming.{IsSummed};

use pf_frame::Frame;

// Below it a product with a unit keeps within 126 bits.
const SMALL: i128 = 1 << 80;

// Below it a number has 64 bits.
const SHORT: i128 = 1 << 64;

// The quotient, rounded down.
fn quotient(x: i128, d: i128) -> i128
    requires unit { IsUnit d }
    requires low { pos 0 ≤ℤ x }
    requires high { x ≤ℤ pos (2 ^ 126) }
    ensures floor { IsFloor x d result }
    ensures low { pos 0 ≤ℤ result }
{
    x / d
}

// The number times a unit.
fn times(x: i128, unit: i128) -> i128
    requires unit { IsUnit unit }
    requires low { pos 0 ≤ℤ x }
    requires high { x ≤ℤ pos (2 ^ 80) }
    ensures value { result ≡ x *ℤ unit }
    ensures low { pos 0 ≤ℤ result }
    ensures high { result ≤ℤ pos (2 ^ 126) }
{
    x * unit
}

// Whether `x` in units of `1/from` is at least `cap` in units of `1/to`; false where the products may be long.
fn fills(from: i128, to: i128, cap: i128, x: i128) -> bool
    requires from { IsUnit from }
    requires to { IsUnit to }
    requires cap { pos 0 ≤ℤ cap }
    requires low { pos 0 ≤ℤ x }
    ensures { result ≡ true → (cap *ℤ from) ≤ℤ (x *ℤ to) }
{
    if SMALL <= x || SMALL <= cap {
        return false;
    }
    times(cap, from) <= times(x, to)
}

// What is left of `x` after so many whole divisors.
fn remainder(x: i128, d: i128, whole: i128) -> i128
    requires unit { IsUnit d }
    requires high { x ≤ℤ (pos (2 ^ 75) *ℤ d) }
    requires floor { IsFloor x d whole }
    requires low { pos 0 ≤ℤ whole }
    ensures value { x ≡ (whole *ℤ d) +ℤ result }
    ensures low { pos 0 ≤ℤ result }
    ensures high { result <ℤ d }
{
    x - times(whole, d)
}

// A number of units of `1/from` that is below 1, in units of `1/to` and rounded down.
fn part(from: i128, to: i128, rest: i128) -> i128
    requires from { IsUnit from }
    requires to { IsUnit to }
    requires low { pos 0 ≤ℤ rest }
    requires high { rest <ℤ from }
    ensures floor { IsFloor (rest *ℤ to) from result }
    ensures low { pos 0 ≤ℤ result }
    ensures most { result ≤ℤ to }
{
    quotient(times(rest, to), from)
}

// `x` in units of `1/from`, in units of `1/to` and rounded down. The division comes before the product.
fn rescaled(from: i128, to: i128, x: i128) -> i128
    requires from { IsUnit from }
    requires to { IsUnit to }
    requires low { pos 0 ≤ℤ x }
    requires high { x ≤ℤ (pos (2 ^ 75) *ℤ from) }
    ensures floor { IsFloor (x *ℤ to) from result }
    ensures low { pos 0 ≤ℤ result }
{
    let whole = quotient(x, from);
    let rest = remainder(x, from, whole);
    times(whole, to) + part(from, to, rest)
}

// The same number, where it and the capacity have 64 bits, and both products with a unit too.
#[inline]
fn short_fitted(from: u64, to: u64, cap: u64, x: u64) -> Option<u64>
    requires { 1 ≤ from }
    ensures { IfSome result (λ number. pos number ≡ carried (pos from) (pos to) (pos cap) (pos x)) }
{
    let full = cap.checked_mul(from)?;
    let sent = x.checked_mul(to)?;
    if full <= sent {
        return Some(cap);
    }
    Some(sent / from)
}

// A number that has 64 bits.
#[inline]
fn short(x: i128) -> u64
    requires low { pos 0 ≤ℤ x }
    requires high { x <ℤ pos (2 ^ 64) }
    ensures { pos result ≡ x }
{
    x as u64
}

// The number in the new unit, rounded down and cut to the capacity. Most numbers are short.
#[inline]
fn fitted(from: i128, to: i128, cap: i128, x: i128) -> i128
    requires from { IsUnit from }
    requires to { IsUnit to }
    requires cap { pos 0 ≤ℤ cap }
    requires most { cap <ℤ pos (2 ^ 104) }
    requires low { pos 0 ≤ℤ x }
    requires high { x ≤ℤ (pos (2 ^ 75) *ℤ from) }
    ensures value { result ≡ carried from to cap x }
    ensures low { pos 0 ≤ℤ result }
    ensures most { result ≤ℤ cap }
{
    if x == 0 {
        return 0;
    }
    if x < SHORT && cap < SHORT {
        if let Some(number) = short_fitted(short(from), short(to), short(cap), short(x)) {
            return i128::from(number);
        }
    }
    long_fitted(from, to, cap, x)
}

// The same, however long the numbers are. Most numbers are full, so most divisions are left out.
#[cold]
#[inline(never)]
fn long_fitted(from: i128, to: i128, cap: i128, x: i128) -> i128
    requires from { IsUnit from }
    requires to { IsUnit to }
    requires cap { pos 0 ≤ℤ cap }
    requires most { cap <ℤ pos (2 ^ 104) }
    requires low { pos 0 ≤ℤ x }
    requires high { x ≤ℤ (pos (2 ^ 75) *ℤ from) }
    ensures value { result ≡ carried from to cap x }
    ensures low { pos 0 ≤ℤ result }
    ensures most { result ≤ℤ cap }
{
    if fills(from, to, cap, x) {
        return cap;
    }
    let number = rescaled(from, to, x);
    if cap <= number { cap } else { number }
}

/// Adds to one number.
pub fn add(numbers: &mut [i128], place: u32, amount: i128)
    requires place { place < length numbers.old }
    requires low { neg_ℤ (pos (2 ^ 120)) ≤ℤ at_arc numbers.old place }
    requires high { at_arc numbers.old place ≤ℤ pos (2 ^ 120) }
    requires amount_low { neg_ℤ (pos (2 ^ 120)) ≤ℤ amount }
    requires amount_high { amount ≤ℤ pos (2 ^ 120) }
    ensures { numbers.new ≡ slice_set numbers.old place (at_arc numbers.old place +ℤ amount) }
{
    numbers[place as usize] += amount;
}

/// Writes one number.
fn put(numbers: &mut [i128], place: u32, amount: i128)
    requires place { place < length numbers.old }
    requires low { pos 0 ≤ℤ amount }
    requires high { amount <ℤ pos (2 ^ 104) }
    ensures { numbers.new ≡ slice_set numbers.old place amount }
{
    numbers[place as usize] = amount;
}

/// Writes each number in the new unit, rounded down and cut to its capacity, and beside each node what leaves it less what enters it.
pub fn scale(
    frame: &Frame,
    from: i128,
    to: i128,
    caps: &[i128],
    flow: &mut [i128],
    sums: &mut [i128],
)
    requires from { IsUnit from }
    requires to { IsUnit to }
    requires caps { IsBounded frame.now caps.now }
    requires flow { IsCarriable frame.now from flow.old }
    requires room { frame.now.nodes ≤ length sums.old }
    ensures flow { flow.new ≡ floored from to caps.now flow.old }
    ensures sums { IsSummed frame.now flow.new sums.new }
{
    let _nodes = frame.nodes();
    sums.fill(0);
    'arcs: for i in 0..frame.arcs() {
        let number = fitted(from, to, caps[i as usize], flow[i as usize]);
        put(flow, i, number);
        add(sums, frame.tail(i), number);
        add(sums, frame.head(i), -number);
    }
}
