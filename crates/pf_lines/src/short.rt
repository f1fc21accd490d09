// Numbers of at most 18 digits in front of a text, read in one pass.
ghost use Rattle.std.specs.Prelude.{IfSome};
ghost use Rattle.pf_lines.specs.Short.{AreDigits, IsFront};

use crate::numbers::{is_digit, split_sign};

// A value from it on, with one more digit, has more than 18 digits.
const FULL: u64 = 100_000_000_000_000_000;

// The value of digits, and how many they are.
#[derive(Drop)]
struct Digits {
    value: u64,
    count: usize,
}

/// A number in front of a text: its value, its bytes, and what follows them.
#[derive(Drop)]
pub struct Front<'a> {
    pub number: i128,
    pub bytes: &'a [u8],
    pub rest: &'a [u8],
}

// The digits in front. Where there is none, the value may be long.
#[inline]
fn short_digits(bytes: &[u8]) -> Option<Digits>
    ensures { IfSome result (λ digits. AreDigits bytes.now digits.value digits.count) }
{
    let mut value: u64 = 0;
    'digits: for count in 0..bytes.len() {
        if !is_digit(bytes[count]) {
            return Some(Digits { value, count });
        }
        if value >= FULL {
            return None;
        }
        value = value * 10 + u64::from(bytes[count] - 48);
    }
    Some(Digits {
        value,
        count: bytes.len(),
    })
}

/// The longest front that is an optional `-` and digits, where it is a short number. Where there is none, the front may
/// be a long number.
#[inline]
pub fn short_front(text: &[u8]) -> Option<Front<'_>>
    ensures { IfSome result (λ front. IsFront text.now front.number front.bytes.now front.rest.now) }
{
    let (negative, digits) = split_sign(text);
    let short = short_digits(digits)?;
    if short.count == 0 {
        return None;
    }
    if negative {
        let (bytes, rest) = text.split_at(short.count + 1);
        return Some(Front {
            number: -i128::from(short.value),
            bytes,
            rest,
        });
    }
    let (bytes, rest) = text.split_at(short.count);
    Some(Front {
        number: i128::from(short.value),
        bytes,
        rest,
    })
}
