// Bytes and numbers as ASCII text. A writer writes from index `at` on, as much as the lent slice has
// room for, and returns the index after that. The slice and the index stay two parameters: a writer
// that holds both must be lent again for each part, and its callers still need the index.
#![tactic(auto)]

ghost use Rattle.std.specs.Prelude.{[], ◌∷◌, ◌≡◌, ◌≤◌, ◌<◌, length, IfSome};
ghost use Rattle.text.specs.Digits.{digit_told, digits, places_of, decimal, signed};
ghost use Rattle.text.specs.Digits.{glyph};
ghost use Rattle.text.specs.Writing.{Delivers, Puts};

// The bases in which numbers are written; no digit's value is as large as the first.
pub const HEX: u64 = 16;

const DECIMAL: u64 = 10;

// What the byte of a letter is above its digit: `a` is ten.
const LETTERS: u8 = 87;

// The words from here on are negative.
const SIGN: u32 = 0x8000_0000;

// The value of a lower-case hexadecimal digit.
#[tactic(auto, unfolding(crate::specs::Digits::digit_of))]
pub fn digit_of(b: u8) -> Option<u64>
    ensures told { result ≡ digit_told b }
    ensures below { IfSome result (λ d. d < 16) }
{
    match b {
        b'0'..=b'9' => Some((b - b'0') as u64),
        b'a'..=b'f' => Some((b - LETTERS) as u64),
        _ => None,
    }
}

// The byte of a digit.
#[tactic(auto, unfolding(crate::specs::Digits::glyph))]
fn glyph(d: u64) -> u8
    requires { d < 16 }
    ensures { result ≡ glyph d }
{
    if d < DECIMAL {
        b'0' + d as u8
    } else {
        LETTERS + d as u8
    }
}

// How many decimal digits n has.
fn places_of(n: u64) -> u8
    ensures { result ≡ places_of n }
{
    match n.checked_ilog10() {
        Some(k) => k as u8 + 1,
        None => 1,
    }
}

// Writes a byte, or another item of a buffer.
pub fn put_byte<T: Copy>(out: &mut [T], at: usize, b: T) -> usize
    ensures { Puts out.old at (b ∷ []) out.new result }
{
    if at < out.len() {
        out[at] = b;
        at + 1
    } else {
        at
    }
}

// Writes some bytes, or other items.
pub fn put_bytes<T: Copy>(out: &mut [T], at: usize, text: &[T]) -> usize
    ensures { Puts out.old at text.now out.new result }
{
    if out.len() <= at {
        return at;
    }
    let n = text.len().min(out.len() - at);
    out[at..at + n].copy_from_slice(&text[..n]);
    at + n
}

// Writes a whole answer from the start on, or nothing where it does not fit; returns whether it did.
pub fn deliver(out: &mut [u8], text: &[u8]) -> bool
    ensures { Delivers text.now out.old out.new result }
{
    if text.len() <= out.len() {
        put_bytes(out, 0, text);
        true
    } else {
        false
    }
}

// Writes the last `count` digits of n, the first of them first.
fn put_digits(out: &mut [u8], at: usize, base: u64, count: u8, n: u64) -> usize
    requires { (0 < base) × (base ≤ 16) }
    ensures { Puts out.old at (digits base count n) out.new result }
{
    if count == 0 {
        at
    } else {
        let end = put_digits(out, at, base, count - 1, n / base);
        put_byte(out, end, glyph(n % base))
    }
}

// Writes the last `count` hexadecimal digits of n.
pub fn put_hex(out: &mut [u8], at: usize, count: u8, n: u64) -> usize
    ensures { Puts out.old at (digits 16 count n) out.new result }
{
    put_digits(out, at, HEX, count, n)
}

// Writes n in decimal.
#[tactic(auto, unfolding(crate::specs::Digits::decimal))]
pub fn put_decimal(out: &mut [u8], at: usize, n: u64) -> usize
    ensures { Puts out.old at (decimal n) out.new result }
{
    put_digits(out, at, DECIMAL, places_of(n), n)
}

// Writes a word in signed decimal.
pub fn put_signed(out: &mut [u8], at: usize, v: u32) -> usize
    ensures { Puts out.old at (signed v) out.new result }
{
    if v < SIGN {
        put_decimal(out, at, v as u64)
    } else {
        let end = put_byte(out, at, b'-');
        put_decimal(out, end, (SIGN - (v - SIGN)) as u64)
    }
}

// How many bytes `put_signed` writes where it has room.
pub fn signed_length(v: u32) -> usize
    ensures { (result ≡ length (signed v)) × (result ≤ 11) }
{
    if v < SIGN {
        places_of(v as u64) as usize
    } else {
        1 + places_of((SIGN - (v - SIGN)) as u64) as usize
    }
}
