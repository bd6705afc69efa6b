// Multiply and divide: the halves of a product, quotient and remainder, of words that are read signed or unsigned.
ghost use Rattle.std.specs.Prelude.{◌≡◌, if◌then◌else◌};
ghost use Rattle.words.specs.Multiply.{is_negative, size_of, with_sign, differ, integer_word, product_low, product_high, quotient_of, remainder_of};

use crate::{Division, ONES, Reading, SIGN};

// How many words there are: what a one in the high half of a product stands for.
const WORDS: u64 = 1 << 32;

fn is_negative(reading: Reading, x: u32) -> bool
    ensures { result ≡ is_negative reading x }
{
    match reading {
        Reading::Unsigned => false,
        Reading::Signed => SIGN <= x,
    }
}

fn size(reading: Reading, x: u32) -> u32
    ensures { result ≡ size_of reading x }
{
    if is_negative(reading, x) {
        x.wrapping_neg()
    } else {
        x
    }
}

// The word of a size with its sign.
fn with_sign(negative: bool, size: u32) -> u32
    ensures { result ≡ integer_word (with_sign negative size) }
{
    if negative { size.wrapping_neg() } else { size }
}

// What the unsigned high half of a * b has too much where a is negative: b.
fn excess(reading: Reading, a: u32, b: u32) -> u32
    ensures { result ≡ (if is_negative reading a then b else 0) }
{
    if is_negative(reading, a) { b } else { 0 }
}

pub fn product_low(a: u32, b: u32) -> u32
    ensures { result ≡ product_low a b }
{
    a.wrapping_mul(b)
}

fn high_unsigned(a: u32, b: u32) -> u32
    ensures { result ≡ product_high Reading.Unsigned Reading.Unsigned a b }
{
    (a as u64 * b as u64 / WORDS) as u32
}

pub fn product_high(first: Reading, second: Reading, a: u32, b: u32) -> u32
    ensures { result ≡ product_high first second a b }
{
    high_unsigned(a, b)
        .wrapping_sub(excess(first, a, b))
        .wrapping_sub(excess(second, b, a))
}

// One division of sizes serves the quotient, the remainder and both readings.
pub fn divided(reading: Reading, a: u32, b: u32) -> Division
    ensures { (result.quotient ≡ quotient_of reading a b) × (result.remainder ≡ remainder_of reading a b) }
{
    if b == 0 {
        return Division {
            quotient: ONES,
            remainder: a,
        };
    }
    let negative = is_negative(reading, a);
    let different = negative != is_negative(reading, b);
    let size_a = size(reading, a);
    let size_b = size(reading, b);
    Division {
        quotient: with_sign(different, size_a / size_b),
        remainder: with_sign(negative, size_a % size_b),
    }
}
