// A level times a weight.
ghost use Rattle.std.specs.Prelude.{◌≡◌, ◌≤◌, ◌^◌, ◌*ℤ◌, ◌≤ℤ◌, pos, neg_ℤ};
ghost use Rattle.pf_model.specs.Fraction.{lowest};
ghost use Rattle.pf_share.specs.Certificate.{share_of};
ghost use Rattle.pf_share.specs.Weighted.{parts_of};

use pf_rat::Rat;

/// The fraction `p/q`, in lowest terms.
#[derive(Drop)]
pub struct Share {
    pub p: i128,
    pub q: i128,
}

// The product of two numerators, of a level and of a weight by the level's denominator.
fn product(p: i128, part: i128) -> i128
    requires low { neg_ℤ (pos (2 ^ 73)) ≤ℤ p }
    requires high { p ≤ℤ pos (2 ^ 73) }
    requires part_low { neg_ℤ (pos (2 ^ 20)) ≤ℤ part }
    requires part_high { part ≤ℤ pos (2 ^ 20) }
    ensures value { result ≡ p *ℤ part }
    ensures low { neg_ℤ (pos (2 ^ 93)) ≤ℤ result }
    ensures high { result ≤ℤ pos (2 ^ 93) }
{
    p * part
}

/// The share of a source of this level and weight: their product, in lowest terms. The weight is from 1 to 1000000. No product passes
/// 2^93, since the weight meets the denominator first.
pub fn share_of(level: &Rat, weight: u32) -> Share
    requires low { 1 ≤ weight }
    requires high { weight ≤ 1000000 }
    ensures value { parts_of result ≡ lowest (share_of level.now (pos weight)) }
    ensures p_low { neg_ℤ (pos (2 ^ 93)) ≤ℤ result.p }
    ensures p_high { result.p ≤ℤ pos (2 ^ 93) }
    ensures q_low { pos 1 ≤ℤ result.q }
    ensures q_high { result.q ≤ℤ pos (2 ^ 46) }
{
    let part = Rat::new(i128::from(weight), level.q());
    let p = product(level.p(), part.p());
    Share { p, q: part.q() }
}
