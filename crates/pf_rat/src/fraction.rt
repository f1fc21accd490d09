// Fractions and lines. They share their fields, so that no product is taken twice.
ghost use Rattle.std.specs.Prelude.{◌≡◌, ℕ, ◌<◌, ◌≤◌, ◌^◌, ℤ, pos, neg_ℤ, ◌≤ℤ◌, int_div, nat_abs, IfSome, IsNone, IsTrue, ◌↔◌, refl};
ghost use Rattle.std.specs.Bool.{MatchBool};
ghost use Rattle.std.specs.Ordering.{MatchOrdering, eq_by_cmp, as_partial_cmp};
ghost use Rattle.std.specs.Cmp.{eq_by_cmp_equiv, partial_equiv_from_equiv, partial_order_from_agreeing_total};
ghost use Rattle.std.specs.Int.{IsGcd};
ghost use Rattle.pf_model.specs.Fraction.{Fraction, IsParameter, IsBelow, IsAtMost, IsEqual, IsLowest, IsBoundedFraction, fraction_cmp, lowest};
ghost use Rattle.pf_model.proofs.FractionOrder.{fraction_cmp_total};
ghost use Rattle.pf_model.specs.Line.{AffineLine, IsBoundedLine, IsMeeting, value_at};

use std::cmp::Ordering;
use std::marker::Model;

/// The fraction `p / q` in lowest terms, with `|p| <= 2^73` and `1 <= q <= 2^46`. Zero is `0 / 1`, so equal fractions are
/// the same value. The order is that of the fractions.
#[derive(Clone, Copy, Debug)]
pub struct Rat {
    numerator: i128,
    denominator: i128,
}

impl Model for Rat {
    ghost use Rattle.pf_model.specs.Fraction.{Fraction, IsBoundedFraction, IsLowest};

    ghost Value = { Fraction };

    ghost view = { λ r. record { p = r.numerator; q = r.denominator } };

    ghost inverse = { λ x. record { numerator = x.p; denominator = x.q } };

    ghost invariant = { λ r. IsBoundedFraction (record { p = r.numerator; q = r.denominator }) × IsLowest (record { p = r.numerator; q = r.denominator }) };
}

/// The line `a + b l` over the parameter `l`, with `|a| <= 2^71` and `|b| <= 2^45`.
#[derive(Clone, Copy, PartialEq, Eq, Debug)]
pub struct Line {
    constant: i128,
    slope: i128,
}

impl Model for Line {
    ghost use Rattle.pf_model.specs.Line.{AffineLine, IsBoundedLine};

    ghost Value = { AffineLine };

    ghost view = { λ l. record { a = l.constant; b = l.slope } };

    ghost inverse = { λ x. record { constant = x.a; slope = x.b } };

    ghost invariant = { λ l. IsBoundedLine (record { a = l.constant; b = l.slope }) };
}

// The greatest number that divides both, by Euclid's rule.
fn greatest_divisor(a: u128, b: u128) -> u128
    ensures { IsGcd a b result }
{
    let mut x = a;
    let mut y = b;
    'steps: while y != 0 {
        let rest = x % y;
        x = y;
        y = rest;
    }
    x
}

fn quotient(number: i128, divisor: u128) -> i128
    requires low { 0 < divisor }
    requires high { divisor ≤ 2 ^ 46 }
    requires size { nat_abs number ≤ 2 ^ 120 }
    ensures { result ≡ int_div number (pos divisor) }
{
    number / divisor as i128
}

impl Rat {
    /// The fraction `p / q`, in lowest terms. The caller has `|p| <= 2^73` and `1 <= q <= 2^46`.
    pub fn new(p: i128, q: i128) -> Rat
        requires { IsBoundedFraction (record { p = p; q = q }) }
        ensures value { result ≡ lowest (record { p = p; q = q }) }
        ensures equal { IsEqual result (record { p = p; q = q }) }
        ensures lowest { IsLowest result }
        ensures bounds { IsBoundedFraction result }
    {
        let divisor = greatest_divisor(p.unsigned_abs(), q.unsigned_abs());
        Rat {
            numerator: quotient(p, divisor),
            denominator: quotient(q, divisor),
        }
    }

    /// The whole number `p`, as `p / 1`. The caller has `|p| <= 2^73`.
    pub fn from_integer(p: i128) -> Rat
        requires low { neg_ℤ (pos (2 ^ 73)) ≤ℤ p }
        requires high { p ≤ℤ pos (2 ^ 73) }
        ensures { result ≡ record { p = p; q = pos 1 } }
    {
        Rat {
            numerator: p,
            denominator: 1,
        }
    }

    /// The numerator in lowest terms; the sign is the fraction's.
    pub fn p(&self) -> i128
        ensures value { result ≡ self.now.p }
        ensures bounds { IsBoundedFraction self.now }
        ensures lowest { IsLowest self.now }
    {
        self.numerator
    }

    /// The denominator in lowest terms, at least 1.
    pub fn q(&self) -> i128
        ensures value { result ≡ self.now.q }
        ensures bounds { IsBoundedFraction self.now }
        ensures lowest { IsLowest self.now }
    {
        self.denominator
    }

    /// Whether this fraction is below the other, or equal to it: `<=`, with what it says of the two.
    pub fn is_at_most(&self, other: &Rat) -> bool
        ensures { MatchBool result (IsAtMost self.now other.now) (IsBelow other.now self.now) }
    {
        match self.cmp(other) {
            Ordering::Less => true,
            Ordering::Equal => true,
            Ordering::Greater => false,
        }
    }
}

impl PartialEq for Rat {
    ghost eq = { eq_by_cmp fraction_cmp };

    ghost laws = { partial_equiv_from_equiv (eq_by_cmp_equiv fraction_cmp_total) };

    /// Whether the two are the same fraction.
    fn eq(&self, other: &Rat) -> bool
        ensures is { result ≡ eq_by_cmp fraction_cmp self.now other.now }
        ensures same { IsTrue result ↔ (self.now ≡ other.now) }
    {
        self.cmp(other).is_eq()
    }
}

impl Eq for Rat {
    ghost laws = { eq_by_cmp_equiv fraction_cmp_total };
}

impl PartialOrd for Rat {
    ghost partial_cmp = { as_partial_cmp fraction_cmp };

    ghost laws = { partial_order_from_agreeing_total fraction_cmp fraction_cmp_total (λ x y. refl) (λ x y. refl) };

    fn partial_cmp(&self, other: &Rat) -> Option<Ordering> {
        Some(self.cmp(other))
    }
}

impl Ord for Rat {
    ghost cmp = { fraction_cmp };

    ghost total = { fraction_cmp_total };

    ghost matches_partial_cmp = { λ x y. refl };

    ghost matches_eq = { λ x y. refl };

    /// The order of the two fractions, by their cross products.
    fn cmp(&self, other: &Rat) -> Ordering
        ensures is { result ≡ fraction_cmp self.now other.now }
        ensures order { MatchOrdering result (IsBelow self.now other.now) (IsEqual self.now other.now) (IsBelow other.now self.now) }
        ensures same { IsEqual self.now other.now → self.now ≡ other.now }
        ensures parameters { IsParameter self.now × IsParameter other.now }
    {
        (self.numerator * other.denominator).cmp(&(other.numerator * self.denominator))
    }
}

impl Line {
    /// The line `a + b l`. The caller has `|a| <= 2^71` and `|b| <= 2^45`.
    pub fn new(a: i128, b: i128) -> Line
        requires { IsBoundedLine (record { a = a; b = b }) }
        ensures { result ≡ record { a = a; b = b } }
    {
        Line {
            constant: a,
            slope: b,
        }
    }

    /// The value at the parameter 0.
    pub fn a(&self) -> i128
        ensures value { result ≡ self.now.a }
        ensures bounds { IsBoundedLine self.now }
    {
        self.constant
    }

    /// The slope.
    pub fn b(&self) -> i128
        ensures value { result ≡ self.now.b }
        ensures bounds { IsBoundedLine self.now }
    {
        self.slope
    }

    /// The value `a q + b p` at the parameter `p / q`, in units of `1/q`.
    pub fn at(&self, at: &Rat) -> i128
        ensures { result ≡ value_at self.now at.now }
    {
        self.constant * at.denominator + self.slope * at.numerator
    }
}

/// The one parameter at which two lines have the same value. None comes exactly where their slopes are equal, even where
/// the lines are.
pub fn meet(first: &Line, second: &Line) -> Option<Rat>
    ensures none { IsNone result ↔ (first.now.b ≡ second.now.b) }
    ensures some { IfSome result (IsMeeting first.now second.now) }
{
    let across = first.constant - second.constant;
    let up = second.slope - first.slope;
    if up == 0 {
        None
    } else if 0 < up {
        Some(Rat::new(across, up))
    } else {
        Some(Rat::new(-across, -up))
    }
}
