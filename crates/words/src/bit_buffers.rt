// One bit of a lent buffer of bytes, the lowest of a byte first.
ghost use Rattle.std.specs.Prelude.{◌≡◌, ◌<◌};
ghost use Rattle.words.specs.Words.{bit_at, with_bit, put_bit};

use crate::buffers::byte_from;
use crate::integers::power;

const BITS_OF_BYTE: usize = 8;

pub fn get_bit(t: &[u8], g: usize) -> u32
    ensures { result ≡ bit_at t.now g }
{
    (u32::from(byte_from(t, g / BITS_OF_BYTE, 0)) >> (g % BITS_OF_BYTE)) % 2
}

fn with_bit(b: u32, k: u32, v: u32) -> u32
    requires { (b < 256) × (k < 8) }
    ensures { (result ≡ with_bit b k v) × (result < 256) }
{
    let p = power(k);
    (b / p / 2 * 2 + v % 2) * p + b % p
}

pub fn put_bit(t: &mut [u8], g: usize, v: u32)
    ensures { t.new ≡ put_bit t.old g v }
{
    let at = g / BITS_OF_BYTE;
    if at < t.len() {
        t[at] = with_bit(u32::from(t[at]), (g % BITS_OF_BYTE) as u32, v) as u8;
    }
}
