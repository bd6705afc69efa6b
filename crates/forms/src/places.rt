// Operands of long words in their places, a function a format, and of any word by its format. Of each field its low bits.
// Some differ only in how many bits of a field they take: each stands as the standard draws it.
ghost use Rattle.std.specs.Prelude.{◌≡◌};
ghost use Rattle.forms.specs.Encoding.{place_r, place_i, place_s, place_b, place_u, place_j, place_f, place_of};

use crate::Format;
use crate::short_places::{
    place_branch, place_double, place_eights, place_full, place_jump, place_load_double,
    place_load_word, place_six, place_six_eight, place_sixteens, place_store_double,
    place_store_word, place_wide, place_word,
};

fn place_r(a: u32, b: u32, c: u32) -> u32
    ensures { result ≡ place_r a b c }
{
    a % 32 * 128 + b % 32 * 0x8000 + c % 32 * 0x10_0000
}

fn place_i(a: u32, b: u32, c: u32) -> u32
    ensures { result ≡ place_i a b c }
{
    a % 32 * 128 + b % 32 * 0x8000 + c % 4096 * 0x10_0000
}

fn place_s(a: u32, b: u32, c: u32) -> u32
    ensures { result ≡ place_s a b c }
{
    c % 32 * 128 + a % 32 * 0x8000 + b % 32 * 0x10_0000 + c / 32 % 128 * 0x200_0000
}

fn place_b(a: u32, b: u32, c: u32) -> u32
    ensures { result ≡ place_b a b c }
{
    c / 2048 % 2 * 128
        + c / 2 % 16 * 256
        + a % 32 * 0x8000
        + b % 32 * 0x10_0000
        + c / 32 % 64 * 0x200_0000
        + c / 4096 % 2 * 0x8000_0000
}

fn place_u(b: u32, c: u32) -> u32
    ensures { result ≡ place_u b c }
{
    b % 32 * 128 + c % 0x10_0000 * 4096
}

fn place_j(b: u32, c: u32) -> u32
    ensures { result ≡ place_j b c }
{
    b % 32 * 128
        + c / 4096 % 256 * 4096
        + c / 2048 % 2 * 0x10_0000
        + c / 2 % 1024 * 0x20_0000
        + c / 0x10_0000 % 2 * 0x8000_0000
}

fn place_f(b: u32, c: u32) -> u32
    ensures { result ≡ place_f b c }
{
    c % 16 * 0x10_0000 + b % 16 * 0x100_0000
}

#[tactic(auto, unfolding(crate::specs::Encoding::place_of))]
pub(crate) fn place(format: Format, a: u32, b: u32, c: u32) -> u32
    ensures { result ≡ place_of format a b c }
{
    match format {
        Format::R => place_r(a, b, c),
        Format::I => place_i(a, b, c),
        Format::S => place_s(a, b, c),
        Format::B => place_b(a, b, c),
        Format::U => place_u(b, c),
        Format::J => place_j(b, c),
        Format::Pair => place_r(b, c, 0),
        Format::CsrImmediate => place_i(a, c, b),
        Format::NoOperands => 0,
        Format::FenceSets => place_f(b, c),
        Format::Ciw => place_wide(b, c),
        Format::ClWord => place_word(a, b, c),
        Format::ClDouble => place_double(a, b, c),
        Format::CsWord => place_word(b, a, c),
        Format::CsDouble => place_double(b, a, c),
        Format::Ci => place_six(b, c),
        Format::CiSixteens => place_sixteens(c),
        Format::CbSix => place_six_eight(b, c),
        Format::Ca => place_eights(b, c),
        Format::Cj => place_jump(c),
        Format::Cb => place_branch(b, c),
        Format::CiWord => place_load_word(b, c),
        Format::CiDouble => place_load_double(b, c),
        Format::CssWord => place_store_word(b, c),
        Format::CssDouble => place_store_double(b, c),
        Format::Cr => place_full(b, c),
        Format::CrOne => place_full(c, 0),
    }
}
