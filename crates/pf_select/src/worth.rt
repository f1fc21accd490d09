// What a selection is worth.
ghost use Rattle.std.specs.Prelude.{◌≡◌, ℕ, ◌<◌, ◌≤◌, ◌^◌, ◌≤ℤ◌, pos, neg_ℤ, length, map, slice_index_or, if◌then◌else◌, slice_set, false};
ghost use Rattle.pf_model.specs.Cut.{has};
ghost use Rattle.pf_select.specs.Problem.{sum_of, worth};
ghost use Rattle.pf_select.specs.Tests.{AreGained};

use crate::catalogue::Catalogue;
use crate::dropping::scaled;
use pf_rat::Rat;

// The number where it counts, and else 0.
fn pick(counts: bool, number: u32) -> u32
    ensures { result ≡ (if counts then number else 0) }
{
    if counts { number } else { 0 }
}

// The sum of the numbers in marked places.
fn sum_marked(numbers: &[u32], marks: &[bool]) -> u64
    requires few { length numbers.now ≤ 10000 }
    requires small { (i : ℕ) → i < length numbers.now → slice_index_or numbers.now i 0 ≤ 1000000 }
    requires places { length numbers.now ≤ length marks.now }
    ensures sum { pos result ≡ sum_of (has marks.now) (map pos numbers.now) }
    ensures small { result ≤ 10000000000 }
{
    let mut sum: u64 = 0;
    'numbers: for i in 0..numbers.len() {
        sum += u64::from(pick(marks[i], numbers[i]));
    }
    sum
}

// Takes away the mark of a product where it needs a part that is not in the set.
fn unmark_product(held: bool, product: usize, products: &mut [bool])
    requires { product < length products.old }
    ensures { products.new ≡ (if held then products.old else slice_set products.old product false) }
{
    if !held {
        products[product] = false;
    }
}

// Marks the products that the selection gains.
fn mark_gained(catalogue: &Catalogue, set: &[bool], products: &mut [bool])
    requires full { length set.now ≡ length catalogue.now.costs }
    requires places { length catalogue.now.gains ≤ length products.old }
    ensures full { length products.new ≡ length products.old }
    ensures gained { AreGained catalogue.now.needs (length catalogue.now.needs) set.now products.new }
{
    // Gives the proof that needs name products and parts.
    let _ = catalogue.parts();
    let needs = catalogue.pairs();
    products.fill(true);
    'needs: for k in 0..needs.len() {
        unmark_product(set[needs[k].1 as usize], needs[k].0 as usize, products);
    }
}

/// What the selection is worth at the price, in units of `1/q` of it. `products` is working room, with at least one place per product.
pub fn worth(catalogue: &Catalogue, price: &Rat, set: &[bool], products: &mut [bool]) -> i128
    requires full { length set.now ≡ length catalogue.now.costs }
    requires places { length catalogue.now.gains ≤ length products.old }
    ensures value { result ≡ worth catalogue.now price.now set.now }
    ensures full { length products.new ≡ length products.old }
{
    // They tell the limits of the catalogue and of the price.
    let _ = catalogue.parts();
    let _ = price.q();
    mark_gained(catalogue, set, products);
    let gain = sum_marked(catalogue.gains(), products);
    let cost = sum_marked(catalogue.costs(), set);
    scaled(price.q(), gain) - scaled(price.p(), cost)
}

/// What the selection is worth at the price, in units of `1/q` of it. It takes no memory.
pub fn worth_at(catalogue: &Catalogue, price: &Rat, set: &[bool]) -> i128
    requires { length set.now ≡ length catalogue.now.costs }
    ensures { result ≡ worth catalogue.now price.now set.now }
{
    // Gives the proof the limits of the catalogue.
    let _ = catalogue.parts();
    let mut products = [false; 5000];
    worth(catalogue, price, set, &mut products)
}
