// The test of a schedule.
ghost use Rattle.std.specs.Prelude.{◌≡◌, ◌↔◌, IsTrue, ℕ, suc, ◌+◌, ◌<◌, ◌≤◌, ◌^◌, ◌<ℤ◌, pos, false, length, slice_index_or};
ghost use Rattle.std.specs.Bool.{OnTrue};
ghost use Rattle.pf_model.specs.Cut.{at_arc, has, IsContained};
ghost use Rattle.pf_model.specs.Fraction.{IsBelow};
ghost use Rattle.pf_frame.specs.Scratch.{Serves, KeepsPlaces};
ghost use Rattle.pf_select.specs.Problem.{price_at, selection_at, worth, IsProperPart, IsBestSchedule};
ghost use Rattle.pf_select.specs.Certificate.{charges_at, CertifiesPrice, CertifiesSchedule};
ghost use Rattle.pf_select.specs.Right.{IsChargesShape, IsScheduleShape};
ghost use Rattle.pf_select.specs.Tests.{PricesRise, SelectionsFall, AreNeeded, AreNonnegative, ArePaid, IsRest, CertifiesChanges, BeginsNeeded};

use crate::catalogue::Catalogue;
use crate::dropping::{mark_dropped, write_slacks};
use crate::schedule::Schedule;
use crate::worth::worth;
use pf_frame::Scratch;
use pf_rat::Rat;
use std::cmp::Ordering;

// Whether the one fraction is below the other.
fn is_below(x: &Rat, y: &Rat) -> bool
    ensures { IsTrue result ↔ IsBelow x.now y.now }
{
    match x.cmp(y) {
        Ordering::Less => true,
        Ordering::Equal => false,
        Ordering::Greater => false,
    }
}

// Whether price `j`, from 0, is above the one before it, or above 0 where it is the first.
fn is_above(prices: &[Rat], j: usize) -> bool
    requires { j < length prices.now }
    ensures { IsTrue result ↔ IsBelow (price_at prices.now j) (price_at prices.now (suc j)) }
{
    if j == 0 {
        return 0 < prices[0].p();
    }
    is_below(&prices[j - 1], &prices[j])
}

// Whether the prices rise strictly, from above 0.
fn prices_rise(prices: &[Rat]) -> bool
    ensures { IsTrue result ↔ PricesRise prices.now }
{
    'prices: for j in 0..prices.len() {
        if !is_above(prices, j) {
            return false;
        }
    }
    true
}

// Whether each part of the set is in the other one.
fn is_contained(set: &[bool], other: &[bool]) -> bool
    requires { length set.now ≡ length other.now }
    ensures { IsTrue result ↔ IsContained set.now other.now }
{
    'parts: for i in 0..set.len() {
        if set[i] && !other[i] {
            return false;
        }
    }
    true
}

// Whether each part of the set is in the other one, which has more.
fn is_proper_part(set: &[bool], other: &[bool]) -> bool
    requires { length set.now ≡ length other.now }
    ensures { IsTrue result ↔ IsProperPart set.now other.now }
{
    if is_same(set, other) {
        return false;
    }
    is_contained(set, other)
}

// Whether each selection is a proper part of the one before it.
fn selections_fall(catalogue: &Catalogue, answer: &Schedule) -> bool
    requires { IsScheduleShape catalogue.now answer.now }
    ensures { IsTrue result ↔ SelectionsFall answer.now.selections (length answer.now.prices) }
{
    let count = answer.prices().get().len();
    'selections: for j in 0..count {
        if !is_proper_part(answer.selection(j + 1), answer.selection(j)) {
            return false;
        }
    }
    true
}

// Marks the parts that some product needs.
fn mark_needed(needs: &[(u32, u32)], marks: &mut [bool])
    requires { (k : ℕ) → k < length needs.now → (slice_index_or needs.now k (0, 0)).1 < length marks.old }
    ensures full { length marks.new ≡ length marks.old }
    ensures needed { AreNeeded needs.now (length needs.now) marks.new }
{
    marks.fill(false);
    'needs: for k in 0..needs.len() {
        marks[needs[k].1 as usize] = true;
    }
}

// Whether the two sets have the same truth values.
fn is_same(first: &[bool], second: &[bool]) -> bool
    ensures { IsTrue result ↔ (first.now ≡ second.now) }
{
    first == second
}

// Whether no part is in the set.
fn is_empty(set: &[bool]) -> bool
    ensures { IsTrue result ↔ ((i : ℕ) → i < length set.now → has set.now i ≡ false) }
{
    'parts: for i in 0..set.len() {
        if set[i] {
            return false;
        }
    }
    true
}

// Whether none of the first numbers is below 0.
fn are_nonnegative(numbers: &[i128], count: usize) -> bool
    requires { count ≤ length numbers.now }
    ensures { IsTrue result ↔ AreNonnegative numbers.now count }
{
    'numbers: for i in 0..count {
        if numbers[i] < 0 {
            return false;
        }
    }
    true
}

// Whether the number in each marked place is 0.
fn are_paid(numbers: &[i128], marks: &[bool], count: usize) -> bool
    requires numbers { count ≤ length numbers.now }
    requires marks { count ≤ length marks.now }
    ensures { IsTrue result ↔ ArePaid numbers.now marks.now count }
{
    'products: for j in 0..count {
        if marks[j] && numbers[j] != 0 {
            return false;
        }
    }
    true
}

// Whether each part is in the set exactly where it is not marked.
fn is_rest(set: &[bool], marks: &[bool]) -> bool
    requires { length set.now ≤ length marks.now }
    ensures { IsTrue result ↔ IsRest set.now marks.now }
{
    'parts: for i in 0..set.len() {
        if set[i] == marks[i] {
            return false;
        }
    }
    true
}

// What an answer says at one price: the charges there, indexed by needs, and the selections up to it and from it on, indexed by parts.
#[derive(Clone, Copy)]
struct AtPrice<'a> {
    price: &'a Rat,
    charges: &'a [i128],
    before: &'a [bool],
    after: &'a [bool],
}

// Whether the charges certify the selection up to the price. The other four are working room, with at least one place per part or
// product.
fn certifies_price(
    catalogue: &Catalogue,
    at: AtPrice<'_>,
    on_parts: &mut [i128],
    by_products: &mut [i128],
    parts: &mut [bool],
    products: &mut [bool],
) -> bool
    requires charges { IsChargesShape catalogue.now at.charges.now }
    requires before { length at.before.now ≡ length catalogue.now.costs }
    requires on_parts { length catalogue.now.costs ≤ length on_parts.old }
    requires by_products { length catalogue.now.gains ≤ length by_products.old }
    requires parts { length catalogue.now.costs ≤ length parts.old }
    requires products { length catalogue.now.gains ≤ length products.old }
    ensures { IsTrue result ↔ CertifiesPrice catalogue.now at.entry.price.now at.entry.charges.now at.entry.before.now }
{
    let charges = at.charges;
    if !are_nonnegative(charges, charges.len()) {
        return false;
    }
    write_slacks(catalogue, at.price, charges, on_parts, by_products);
    if !are_nonnegative(on_parts, at.before.len()) {
        return false;
    }
    let count = catalogue.products() as usize;
    if !are_nonnegative(by_products, count) {
        return false;
    }
    mark_dropped(catalogue, charges, on_parts, parts, products);
    if !are_paid(by_products, products, count) {
        return false;
    }
    is_rest(at.before, parts)
}

// Whether the two selections are worth the same at the price.
fn is_equal_worth(catalogue: &Catalogue, at: AtPrice<'_>, products: &mut [bool]) -> bool
    requires before { length at.before.now ≡ length catalogue.now.costs }
    requires after { length at.after.now ≡ length catalogue.now.costs }
    requires products { length catalogue.now.gains ≤ length products.old }
    ensures { IsTrue result ↔ (worth catalogue.now at.entry.price.now at.entry.before.now ≡ worth catalogue.now at.entry.price.now at.entry.after.now) }
{
    let before = worth(catalogue, at.price, at.before, products);
    let after = worth(catalogue, at.price, at.after, products);
    before == after
}

// Whether the charges at each price certify the selection up to it, and the next one is worth the same there.
fn certifies_changes(
    catalogue: &Catalogue,
    answer: &Schedule,
    on_parts: &mut [i128],
    by_products: &mut [i128],
    parts: &mut [bool],
    products: &mut [bool],
) -> bool
    requires shape { IsScheduleShape catalogue.now answer.now }
    requires on_parts { length catalogue.now.costs ≤ length on_parts.old }
    requires by_products { length catalogue.now.gains ≤ length by_products.old }
    requires parts { length catalogue.now.costs ≤ length parts.old }
    requires products { length catalogue.now.gains ≤ length products.old }
    ensures { IsTrue result ↔ CertifiesChanges catalogue.now answer.now.prices answer.now.selections answer.now.charges }
{
    let prices = answer.prices().get();
    'prices: for j in 0..prices.len() {
        let price = &prices[j];
        let charges = answer.charges_at(j);
        let before = answer.selection(j);
        let after = answer.selection(j + 1);
        let at = AtPrice {
            price,
            charges,
            before,
            after,
        };
        if !certifies_price(catalogue, at, on_parts, by_products, parts, products) {
            return false;
        }
        if !is_equal_worth(catalogue, at, products) {
            return false;
        }
    }
    true
}

// Whether the first selection is the set of all needed parts. `marks` is working room, with one place per part.
fn begins(catalogue: &Catalogue, answer: &Schedule, marks: &mut [bool]) -> bool
    requires shape { IsScheduleShape catalogue.now answer.now }
    requires marks { length marks.old ≡ length catalogue.now.costs }
    ensures { IsTrue result ↔ BeginsNeeded catalogue.now answer.now.selections }
{
    // Gives the proof that needs name parts.
    let _ = catalogue.parts();
    mark_needed(catalogue.pairs(), marks);
    is_same(answer.selection(0), marks)
}

// The test, with working room for the sums and the marks of parts, and after them for those of products.
fn is_certified(
    catalogue: &Catalogue,
    answer: &Schedule,
    sums: &mut [i128],
    marks: &mut [bool],
) -> bool
    requires shape { IsScheduleShape catalogue.now answer.now }
    requires sums { length catalogue.now.costs + length catalogue.now.gains ≤ length sums.old }
    requires marks { length catalogue.now.costs + length catalogue.now.gains ≤ length marks.old }
    ensures { IsTrue result ↔ CertifiesSchedule catalogue.now answer.now.prices answer.now.selections answer.now.charges }
{
    let prices = answer.prices().get();
    if !prices_rise(prices) {
        return false;
    }
    if !selections_fall(catalogue, answer) {
        return false;
    }
    if !is_empty(answer.selection(prices.len())) {
        return false;
    }
    let count = catalogue.parts() as usize;
    let (on_parts, by_products) = sums.split_at_mut(count);
    let (parts, products) = marks.split_at_mut(count);
    if !begins(catalogue, answer, parts) {
        return false;
    }
    certifies_changes(catalogue, answer, on_parts, by_products, parts, products)
}

/// Whether the charges certify the schedule, which is then the best one at every price. It is exact, and takes no memory. The scratch
/// is for as many nodes as there are parts and products, and as many arcs as there are needs.
pub fn check_schedule(catalogue: &Catalogue, answer: &Schedule, scratch: &mut Scratch) -> bool
    requires shape { IsScheduleShape catalogue.now answer.now }
    requires room { Serves scratch.old (length catalogue.now.costs + length catalogue.now.gains) (length catalogue.now.needs) }
    ensures exact { IsTrue result ↔ CertifiesSchedule catalogue.now answer.now.prices answer.now.selections answer.now.charges }
    ensures places { KeepsPlaces scratch.old scratch.new }
    ensures best { OnTrue result (IsBestSchedule catalogue.now answer.now.prices answer.now.selections) }
{
    // Gives the proof the limits of the catalogue.
    let _ = catalogue.parts();
    is_certified(
        catalogue,
        answer,
        scratch.sums.as_mut_slice(),
        scratch.marks.as_mut_slice(),
    )
}
