// What each part may still be charged and each product may still charge, and which of them are dropped.
ghost use Rattle.std.specs.Prelude.{◌≡◌, ℕ, ◌<◌, ◌≤◌, ◌^◌, ℤ, ◌-ℤ◌, ◌*ℤ◌, ◌≤ℤ◌, pos, neg_ℤ, List, length, slice_index_or, slice_set};
ghost use Rattle.pf_model.specs.Cut.{at_arc};
ghost use Rattle.pf_model.specs.Fraction.{Fraction};
ghost use Rattle.pf_select.specs.Certificate.{IsDropped};
ghost use Rattle.pf_select.specs.Dropping.{HasSlacks, IsNeedDropped, IsRound, AreCheap, IsUnmarked, IsScaled, ArePlaces, IsTaken};
ghost use Rattle.pf_select.specs.Tests.{AreSizes};

use crate::catalogue::Catalogue;
use pf_rat::Rat;

// The product of a number of a price and a sum of costs or gains.
pub fn scaled(k: i128, number: u64) -> i128
    requires low { neg_ℤ (pos (2 ^ 73)) ≤ℤ k }
    requires high { k ≤ℤ pos (2 ^ 73) }
    requires small { number ≤ 10000000000 }
    ensures value { result ≡ k *ℤ pos number }
    ensures low { neg_ℤ (pos (2 ^ 107)) ≤ℤ result }
    ensures high { result ≤ℤ pos (2 ^ 107) }
{
    k * i128::from(number)
}

// Takes from one number.
fn lower(sums: &mut [i128], v: usize, amount: i128)
    requires place { v < length sums.old }
    requires low { neg_ℤ (pos (2 ^ 120)) ≤ℤ at_arc sums.old v }
    requires high { at_arc sums.old v ≤ℤ pos (2 ^ 120) }
    requires amount_low { pos 0 ≤ℤ amount }
    requires amount_high { amount ≤ℤ pos (2 ^ 104) }
    ensures { sums.new ≡ slice_set sums.old v (at_arc sums.old v -ℤ amount) }
{
    sums[v] -= amount;
}

// Writes the products of a number with costs or gains into the first places.
fn write_scaled(k: i128, numbers: &[u32], sums: &mut [i128])
    requires low { neg_ℤ (pos (2 ^ 73)) ≤ℤ k }
    requires high { k ≤ℤ pos (2 ^ 73) }
    requires small { (i : ℕ) → i < length numbers.now → slice_index_or numbers.now i 0 ≤ 1000000 }
    requires places { length numbers.now ≤ length sums.old }
    ensures full { length sums.new ≡ length sums.old }
    ensures scaled { IsScaled k numbers.now (length numbers.now) sums.new }
{
    'numbers: for i in 0..numbers.len() {
        sums[i] = scaled(k, u64::from(numbers[i]));
    }
}

// Takes each charge from the places of its product and of its part.
fn take_charges(
    needs: &[(u32, u32)],
    charges: &[i128],
    on_parts: &mut [i128],
    by_products: &mut [i128],
)
    requires few { length needs.now ≤ 10000 }
    requires charges { length charges.now ≡ length needs.now }
    requires sizes { AreSizes charges.now (length charges.now) }
    requires products { ArePlaces (λ need. need.0) needs.now by_products.old }
    requires parts { ArePlaces (λ need. need.1) needs.now on_parts.old }
    ensures parts { IsTaken (λ need. need.1) needs.now charges.now (length needs.now) on_parts.old on_parts.new }
    ensures products { IsTaken (λ need. need.0) needs.now charges.now (length needs.now) by_products.old by_products.new }
{
    'needs: for k in 0..needs.len() {
        lower(by_products, needs[k].0 as usize, charges[k]);
        lower(on_parts, needs[k].1 as usize, charges[k]);
    }
}

/// Writes what each part may still be charged at the price, and what each product may still charge, into the first places.
pub fn write_slacks(
    catalogue: &Catalogue,
    price: &Rat,
    charges: &[i128],
    on_parts: &mut [i128],
    by_products: &mut [i128],
)
    requires charges { length charges.now ≡ length catalogue.now.needs }
    requires sizes { AreSizes charges.now (length charges.now) }
    requires parts { length catalogue.now.costs ≤ length on_parts.old }
    requires products { length catalogue.now.gains ≤ length by_products.old }
    ensures { HasSlacks catalogue.now price.now charges.now on_parts.new by_products.new }
{
    // Gives the proof the limits of the catalogue.
    let _ = catalogue.parts();
    let _ = price.q();
    write_scaled(price.p(), catalogue.costs(), on_parts);
    write_scaled(price.q(), catalogue.gains(), by_products);
    take_charges(catalogue.pairs(), charges, on_parts, by_products);
}

// Marks the parts that may still be charged.
fn mark_cheap(slacks: &[i128], count: usize, marks: &mut [bool])
    requires slacks { count ≤ length slacks.now }
    requires places { count ≤ length marks.old }
    ensures full { length marks.new ≡ length marks.old }
    ensures cheap { AreCheap slacks.now count marks.new }
{
    marks.fill(false);
    'parts: for i in 0..count {
        marks[i] = 0 < slacks[i];
    }
}

// Takes away each mark.
fn unmark(marks: &mut [bool])
    ensures full { length marks.new ≡ length marks.old }
    ensures none { IsUnmarked marks.new }
{
    marks.fill(false);
}

// Marks the part or the product of a need where the other one drops it, and tells whether it did.
fn drop_need(
    parts: &mut [bool],
    products: &mut [bool],
    product: usize,
    part: usize,
    charge: i128,
) -> bool
    requires product { product < length products.old }
    requires part { part < length parts.old }
    ensures { IsNeedDropped product part charge parts.old parts.new products.old products.new result }
{
    if parts[part] && !products[product] {
        products[product] = true;
        return true;
    }
    if 0 < charge && products[product] && !parts[part] {
        parts[part] = true;
        return true;
    }
    false
}

// One pass over the needs.
fn drop_round(
    catalogue: &Catalogue,
    charges: &[i128],
    parts: &mut [bool],
    products: &mut [bool],
) -> bool
    requires charges { length charges.now ≡ length catalogue.now.needs }
    requires sizes { AreSizes charges.now (length charges.now) }
    requires parts { length catalogue.now.costs ≤ length parts.old }
    requires products { length catalogue.now.gains ≤ length products.old }
    ensures { IsRound catalogue.now charges.now parts.old parts.new products.old products.new (length catalogue.now.needs) result }
{
    // Gives the proof that needs name products and parts.
    let _ = catalogue.parts();
    let needs = catalogue.pairs();
    let mut changed = false;
    'needs: for k in 0..needs.len() {
        let dropped = drop_need(
            parts,
            products,
            needs[k].0 as usize,
            needs[k].1 as usize,
            charges[k],
        );
        changed = changed || dropped;
    }
    changed
}

/// Marks the dropped parts and products, pass after pass until a pass marks none. `on_parts` holds what each part may still be charged.
pub fn mark_dropped(
    catalogue: &Catalogue,
    charges: &[i128],
    on_parts: &[i128],
    parts: &mut [bool],
    products: &mut [bool],
)
    requires charges { length charges.now ≡ length catalogue.now.needs }
    requires sizes { AreSizes charges.now (length charges.now) }
    requires slacks { length catalogue.now.costs ≤ length on_parts.now }
    requires parts { length catalogue.now.costs ≤ length parts.old }
    requires products { length catalogue.now.gains ≤ length products.old }
    ensures parts_full { length parts.new ≡ length parts.old }
    ensures products_full { length products.new ≡ length products.old }
    ensures dropped { (x : Fraction) (by_products : List ℤ) → HasSlacks catalogue.now x charges.now on_parts.now by_products → IsDropped catalogue.now x charges.now parts.new products.new }
{
    mark_cheap(on_parts, catalogue.costs().len(), parts);
    unmark(products);
    let mut changed = true;
    'rounds: while changed {
        changed = drop_round(catalogue, charges, parts, products);
    }
}
