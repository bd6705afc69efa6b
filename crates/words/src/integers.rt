// What the integer instructions compute of words: bitwise, shifts, signed order, sign extension.
ghost use Rattle.std.specs.Prelude.{◌≡◌, ◌+◌, ◌-◌, ◌*◌, ◌%◌, ◌^◌, ◌<◌, ◌≤◌, if◌then◌else◌, bit_and, bit_or, bit_xor, nat_lt};
ghost use Rattle.words.specs.Words.{sign_extend, sll_of, srl_of, sra_of, less_signed, slt_of, sltu_of};

use crate::{BITS, ONES};

pub fn and(a: u32, b: u32) -> u32
    ensures { result ≡ bit_and a b }
{
    a & b
}

pub fn or(a: u32, b: u32) -> u32
    ensures { result ≡ bit_or a b }
{
    a | b
}

pub fn xor(a: u32, b: u32) -> u32
    ensures { result ≡ bit_xor a b }
{
    a ^ b
}

pub fn sll(a: u32, k: u32) -> u32
    ensures { result ≡ sll_of a k }
{
    a << (k % BITS)
}

pub fn srl(a: u32, k: u32) -> u32
    ensures { result ≡ srl_of a k }
{
    a >> (k % BITS)
}

pub fn sra(a: u32, k: u32) -> u32
    ensures { result ≡ sra_of a k }
{
    (a.cast_signed() >> (k % BITS)).cast_unsigned()
}

pub fn less_signed(a: u32, b: u32) -> bool
    ensures { result ≡ less_signed a b }
{
    a.cast_signed() < b.cast_signed()
}

pub fn slt(a: u32, b: u32) -> u32
    ensures { result ≡ slt_of a b }
{
    u32::from(less_signed(a, b))
}

pub fn sltu(a: u32, b: u32) -> u32
    ensures { result ≡ sltu_of a b }
{
    u32::from(a < b)
}

pub(crate) fn power(k: u32) -> u32
    requires { k < 32 }
    ensures { (result ≡ 2 ^ k) × (0 < result) × (result ≤ 2147483648) }
{
    1 << k
}

// The low bits of x, p = 2 ^ bits.
fn extend(x: u32, p: u32) -> u32
    requires { (0 < p) × (p ≤ 2147483648) }
    ensures { result ≡ (if nat_lt (2 * (x % p)) p then x % p else x % p + (2 ^ 32 - p)) }
{
    let low = x % p;
    if 2 * low < p {
        low
    } else {
        low + (ONES - p + 1)
    }
}

pub fn sign_extend(x: u32, bits: u32) -> u32
    ensures { result ≡ sign_extend x bits }
{
    if bits < BITS {
        extend(x, power(bits))
    } else {
        x
    }
}
