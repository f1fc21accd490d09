// Reading of texts with one spelling.
ghost use Rattle.std.specs.Prelude.{◌≡◌, ◌≢◌, ◌↔◌, ◌++◌, ◌≤ℤ◌, ℕ, ℤ, List, true, IfNone, IfSome, IsTrue, length};
ghost use Rattle.std.specs.List.{take_while};
ghost use Rattle.std.specs.Bool.{OnFalse, OnTrue};
ghost use Rattle.std.specs.Fmt.{signed_decimal};
ghost use Rattle.pf_text.specs.Numbers.{is_digit, number_front};
ghost use Rattle.pf_lines.specs.Values.{is_canonical};

use crate::numbers::{is_digit, split_sign, whole_between};
use crate::short::{Front, short_front};
use std::marker::Model;

/// A text that is read from its front, in which words and numbers have one spelling.
///
/// A clause sees what is not taken yet.
#[derive(Drop)]
pub struct Exact<'a> {
    rest: &'a [u8],
}

impl<'a> Model for Exact<'a> {
    ghost Value = { List ℕ };

    ghost view = { λ exact. exact.rest.now };
}

// How many digits stand in front.
fn count_digits(bytes: &[u8]) -> usize
    ensures { result ≡ length (take_while is_digit bytes.now) }
{
    bytes.iter().take_while(|b| is_digit(**b)).count()
}

// The longest front that is an optional `-` and digits, and what follows it.
fn split_number(text: &[u8]) -> (&[u8], &[u8])
    ensures front { result.0.now ≡ number_front text.now }
    ensures whole { text.now ≡ result.0.now ++ result.1.now }
{
    let (negative, digits) = split_sign(text);
    let count = count_digits(digits);
    if negative {
        text.split_at(1 + count)
    } else {
        text.split_at(count)
    }
}

// Whether no zero stands in front of another digit, also after a `-`.
#[inline]
fn is_canonical(front: &[u8]) -> bool
    ensures { result ≡ is_canonical front.now }
{
    match front {
        [b'0', _, ..] => false,
        [b'-', b'0', ..] => false,
        _ => true,
    }
}

// Whether the number has its one spelling, and lies from `min` to `max`.
#[inline]
fn is_taken(front: &Front<'_>, min: i128, max: i128) -> bool
    ensures canonical { result ≡ true → is_canonical front.now.bytes.now ≡ true }
    ensures low { result ≡ true → min ≤ℤ front.now.number }
    ensures high { result ≡ true → front.now.number ≤ℤ max }
{
    is_canonical(front.bytes) && min <= front.number && front.number <= max
}

impl<'a> Exact<'a> {
    /// Reads a text from its front. It takes no memory.
    pub fn new(text: &'a [u8]) -> Exact<'a>
        ensures { result ≡ text.now }
    {
        Exact { rest: text }
    }

    /// What is not taken yet.
    pub fn rest(&self) -> &'a [u8]
        ensures { result.now ≡ self.now }
    {
        self.rest
    }

    /// Takes the word, if the rest begins with it.
    pub fn word(&mut self, word: &[u8]) -> bool
        ensures found { IsTrue result ↔ ((rest : List ℕ) × (self.old ≡ word.now ++ rest)) }
        ensures taken { OnTrue result (self.old ≡ word.now ++ self.new) }
        ensures kept { OnFalse result (self.new ≡ self.old) }
    {
        match self.rest.strip_prefix(word) {
            Some(rest) => {
                self.rest = rest;
                true
            }
            None => false,
        }
    }

    /// Takes the longest front that is an optional `-` and digits, if it is the decimal text of a
    /// number from `min` to `max`. So `-0` and leading zeros are refused.
    pub fn num(&mut self, min: i128, max: i128) -> Option<i128>
        ensures front { IfSome result (λ n. number_front self.old ≡ signed_decimal n) }
        ensures range { IfSome result (λ n. (min ≤ℤ n) × (n ≤ℤ max)) }
        ensures taken { IfSome result (λ n. self.old ≡ signed_decimal n ++ self.new) }
        ensures none { IfNone result ((n : ℤ) → min ≤ℤ n → n ≤ℤ max → number_front self.old ≢ signed_decimal n) }
        ensures kept { IfNone result (self.new ≡ self.old) }
    {
        if let Some(front) = short_front(self.rest) {
            if is_taken(&front, min, max) {
                self.rest = front.rest;
                return Some(front.number);
            }
        }
        self.long_num(min, max)
    }

    // The same, however many digits there are. What is refused comes here.
    #[cold]
    #[inline(never)]
    fn long_num(&mut self, min: i128, max: i128) -> Option<i128>
        ensures front { IfSome result (λ n. number_front self.old ≡ signed_decimal n) }
        ensures range { IfSome result (λ n. (min ≤ℤ n) × (n ≤ℤ max)) }
        ensures taken { IfSome result (λ n. self.old ≡ signed_decimal n ++ self.new) }
        ensures none { IfNone result ((n : ℤ) → min ≤ℤ n → n ≤ℤ max → number_front self.old ≢ signed_decimal n) }
        ensures kept { IfNone result (self.new ≡ self.old) }
    {
        let (front, rest) = split_number(self.rest);
        if !is_canonical(front) {
            return None;
        }
        let Ok(number) = whole_between(front, min, max) else {
            return None;
        };
        self.rest = rest;
        Some(number)
    }
}
