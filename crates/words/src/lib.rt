// Words of 32 bits as numbers: what the integer instructions compute of them; little-endian bytes and single bits of lent buffers.
#![tactic(auto)]

mod bit_buffers;
mod buffers;
mod integers;
mod multiply;

pub use bit_buffers::{get_bit, put_bit};
pub use buffers::{load8, load16, load32, put_word, store8, store16, store32, word_at};
pub use integers::{and, less_signed, or, sign_extend, sll, slt, sltu, sra, srl, xor};
pub use multiply::{divided, product_high, product_low};

// Bits of a word, its highest bit, and the word of ones.
pub const BITS: u32 = 32;

pub const SIGN: u32 = 1 << 31;

pub const ONES: u32 = 0xFFFF_FFFF;

// How a word is read as an integer.
#[derive(Clone, Copy)]
pub enum Reading {
    Unsigned,
    Signed,
}

#[derive(Clone, Copy)]
pub struct Division {
    pub quotient: u32,
    pub remainder: u32,
}
