// Little-endian bytes of a lent buffer, and elements of a buffer of words. Outside a buffer 0 is read and nothing is stored.
ghost use Rattle.std.specs.Prelude.{◌≡◌, ℕ, ◌+◌, ◌<◌, ◌≤◌, slice_index, slice_set};
ghost use Rattle.words.specs.Words.{le8, le16, le32, put_list, set8, set16, set32};

use std::array;

// Below this place no place and width together wrap.
const FAR: usize = 1 << 63;

// Byte k from a place on; 0 outside the buffer.
pub(crate) fn byte_from(m: &[u8], at: usize, k: usize) -> u8
    ensures { result ≡ slice_index m.now (at + k) }
{
    if at < m.len() {
        if k < m.len() - at { m[at + k] } else { 0 }
    } else {
        0
    }
}

// N bytes from a place on; 0 for each outside the buffer. Bytes that all lie in it are read, and stored, after one test: the other, that the sum
// does not wrap, goes where the place is a u32.
fn bytes_from<const N: usize>(m: &[u8], at: usize) -> [u8; N]
    requires { N ≤ 4 }
    ensures { (k : ℕ) → k < N → slice_index result k ≡ slice_index m.now (at + k) }
{
    if at < FAR {
        if at + N <= m.len() {
            return *m[at..at + N].first_chunk().unwrap();
        }
    }
    array::from_fn(|k| byte_from(m, at, k))
}

// Byte k from a place on set; outside the buffer nothing is.
fn put_byte_from(m: &mut [u8], at: usize, k: usize, byte: u8)
    ensures { m.new ≡ slice_set m.old (at + k) byte }
{
    if at < m.len() {
        if k < m.len() - at {
            m[at + k] = byte;
        }
    }
}

// N bytes from a place on set; outside the buffer none is.
fn put_bytes<const N: usize>(m: &mut [u8], at: usize, bytes: [u8; N])
    requires { N ≤ 4 }
    ensures { m.new ≡ put_list bytes.entry m.old at }
{
    if at < FAR {
        if at + N <= m.len() {
            m[at..at + N].copy_from_slice(&bytes);
            return;
        }
    }
    for (k, byte) in bytes.iter().enumerate() {
        put_byte_from(m, at, k, *byte);
    }
}

pub fn load8(m: &[u8], at: usize) -> u32
    ensures { result ≡ le8 m.now at }
{
    u32::from(byte_from(m, at, 0))
}

pub fn load16(m: &[u8], at: usize) -> u32
    ensures { result ≡ le16 m.now at }
{
    u32::from(u16::from_le_bytes(bytes_from(m, at)))
}

pub fn load32(m: &[u8], at: usize) -> u32
    ensures { result ≡ le32 m.now at }
{
    u32::from_le_bytes(bytes_from(m, at))
}

pub fn store8(m: &mut [u8], at: usize, v: u32)
    ensures { m.new ≡ set8 m.old at v }
{
    let [low, ..] = v.to_le_bytes();
    put_byte_from(m, at, 0, low);
}

pub fn store16(m: &mut [u8], at: usize, v: u32)
    ensures { m.new ≡ set16 m.old at v }
{
    let [low, high, ..] = v.to_le_bytes();
    put_bytes(m, at, [low, high]);
}

pub fn store32(m: &mut [u8], at: usize, v: u32)
    ensures { m.new ≡ set32 m.old at v }
{
    put_bytes(m, at, v.to_le_bytes());
}

// Element i of a buffer of words; 0 outside.
pub fn word_at(l: &[u32], i: usize) -> u32
    ensures { result ≡ slice_index l.now i }
{
    l.get(i).copied().unwrap_or(0)
}

// Element i set; outside nothing is. By a test and the index, since of the element that `get_mut` lends the kit says nothing after the write.
pub fn put_word(l: &mut [u32], i: usize, v: u32)
    ensures { l.new ≡ slice_set l.old i v }
{
    if i < l.len() {
        l[i] = v;
    }
}
