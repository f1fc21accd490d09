// A sweep over the network of five nodes and seven arcs, in units of 1/8.
ghost use Rattle.std.specs.Prelude.{◌≡◌, ◌<◌, pos};

use crate::networks::five_nodes;
use pf_steps::Steps;
use pf_sweep::Sweep;
use std::alloc::Global;
use std::marker::Brand;
use std::sync::ledger::{Blank, Ledger};
use std::test::Fail;

// The sum of the labels of the inner nodes; the greatest number where there are not five labels.
fn inner_sum(labels: &[u32]) -> u64 {
    if labels.len() != 5 {
        return u64::MAX;
    }
    u64::from(labels[1]) + u64::from(labels[2]) + u64::from(labels[3])
}

// Whether there are as many labels, and none of the first list is above that of the second.
fn none_fell(before: &[u32], after: &[u32]) -> bool {
    if before.len() != after.len() {
        return false;
    }
    'nodes: for v in 0..before.len() {
        if after[v] < before[v] {
            return false;
        }
    }
    true
}

// Whether no label has fallen so far, and the sum after the first step.
#[derive(Clone, Copy)]
struct Seen {
    none_fell: bool,
    after_first: u64,
}

// What is seen after the step to `p`.
fn look(seen: &Seen, p: u32, before: &[u32], after: &[u32]) -> Seen {
    Seen {
        none_fell: seen.none_fell && none_fell(before, after),
        after_first: if p == 1 {
            inner_sum(after)
        } else {
            seen.after_first
        },
    }
}

// Goes on from 0 to the high end in steps of one unit.
fn climb<L: Ledger>(alloc: Global, sweep: &mut Sweep<'_>, blank: Blank) -> Result<Seen, Fail>
    requires name { blank.name ≡ L.name }
    requires parts { blank.parts ≡ L.parts }
    requires counter { 0 < blank.parts }
    requires low { sweep.old.net.low ≡ record { p = pos 0; q = pos 1 } }
    requires high { sweep.old.net.high ≡ record { p = pos 8; q = pos 1 } }
    requires unit { sweep.old.unit ≡ pos 8 }
    requires at { sweep.old.at ≡ pos 0 }
{
    let (book, share) = blank.open::<L>();
    let mut steps = Steps::new(book, share);
    let mut seen = Seen {
        none_fell: true,
        after_first: 0,
    };
    'each: for p in 1..65u32 {
        let before = Vec::from_slice(alloc, sweep.labels())?;
        sweep.advance(i128::from(p), &mut steps);
        seen = look(&seen, p, before.as_slice(), sweep.labels());
    }
    Ok(seen)
}

#[test]
fn labels_only_rise(rt: HostRuntime) -> Result<(), Fail> {
    let net = five_nodes(rt.alloc())?;
    let mut sweep = Sweep::make(rt.alloc(), &net, 8)?;
    let seen = climb::<Brand>(rt.alloc(), &mut sweep, Blank::new(1))?;
    assert!(rt; seen.none_fell);
    assert!(rt; 0 < seen.after_first);
    assert!(rt; inner_sum(sweep.labels()) <= 27);
    assert_eq!(rt; sweep.value(), 72);
    Ok(())
}
