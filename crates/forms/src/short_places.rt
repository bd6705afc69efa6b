// Operands of halves in their places, a function a format. Of each field its low bits.
ghost use Rattle.std.specs.Prelude.{◌≡◌};
ghost use Rattle.forms.specs.Encoding.{place_wide, place_word, place_double, place_six, place_six_eight, place_sixteens, place_eights, place_jump};
ghost use Rattle.forms.specs.Encoding.{place_branch};
ghost use Rattle.forms.specs.Encoding.{place_load_word, place_load_double, place_store_word, place_store_double, place_full};

pub(crate) fn place_wide(b: u32, c: u32) -> u32
    ensures { result ≡ place_wide b c }
{
    b % 8 * 4 + c / 8 % 2 * 32 + c / 4 % 2 * 64 + c / 64 % 16 * 128 + c / 16 % 4 * 2048
}

pub(crate) fn place_word(l: u32, h: u32, c: u32) -> u32
    ensures { result ≡ place_word l h c }
{
    l % 8 * 4 + c / 64 % 2 * 32 + c / 4 % 2 * 64 + h % 8 * 128 + c / 8 % 8 * 1024
}

pub(crate) fn place_double(l: u32, h: u32, c: u32) -> u32
    ensures { result ≡ place_double l h c }
{
    l % 8 * 4 + c / 64 % 4 * 32 + h % 8 * 128 + c / 8 % 8 * 1024
}

pub(crate) fn place_six(b: u32, c: u32) -> u32
    ensures { result ≡ place_six b c }
{
    c % 32 * 4 + b % 32 * 128 + c / 32 % 2 * 4096
}

pub(crate) fn place_six_eight(b: u32, c: u32) -> u32
    ensures { result ≡ place_six_eight b c }
{
    c % 32 * 4 + b % 8 * 128 + c / 32 % 2 * 4096
}

pub(crate) fn place_sixteens(c: u32) -> u32
    ensures { result ≡ place_sixteens c }
{
    c / 32 % 2 * 4 + c / 128 % 4 * 8 + c / 64 % 2 * 32 + c / 16 % 2 * 64 + c / 512 % 2 * 4096
}

pub(crate) fn place_eights(b: u32, c: u32) -> u32
    ensures { result ≡ place_eights b c }
{
    c % 8 * 4 + b % 8 * 128
}

pub(crate) fn place_jump(c: u32) -> u32
    ensures { result ≡ place_jump c }
{
    c / 32 % 2 * 4
        + c / 2 % 8 * 8
        + c / 128 % 2 * 64
        + c / 64 % 2 * 128
        + (c / 1024 % 2 * 256 + c / 256 % 4 * 512 + c / 16 % 2 * 2048 + c / 2048 % 2 * 4096)
}

pub(crate) fn place_branch(b: u32, c: u32) -> u32
    ensures { result ≡ place_branch b c }
{
    c / 32 % 2 * 4
        + c / 2 % 4 * 8
        + c / 64 % 4 * 32
        + b % 8 * 128
        + c / 8 % 4 * 1024
        + c / 256 % 2 * 4096
}

pub(crate) fn place_load_word(b: u32, c: u32) -> u32
    ensures { result ≡ place_load_word b c }
{
    c / 64 % 4 * 4 + c / 4 % 8 * 16 + b % 32 * 128 + c / 32 % 2 * 4096
}

pub(crate) fn place_load_double(b: u32, c: u32) -> u32
    ensures { result ≡ place_load_double b c }
{
    c / 64 % 8 * 4 + c / 8 % 4 * 32 + b % 32 * 128 + c / 32 % 2 * 4096
}

pub(crate) fn place_store_word(b: u32, c: u32) -> u32
    ensures { result ≡ place_store_word b c }
{
    b % 32 * 4 + c / 64 % 4 * 128 + c / 4 % 16 * 512
}

pub(crate) fn place_store_double(b: u32, c: u32) -> u32
    ensures { result ≡ place_store_double b c }
{
    b % 32 * 4 + c / 64 % 8 * 128 + c / 8 % 8 * 1024
}

pub(crate) fn place_full(b: u32, c: u32) -> u32
    ensures { result ≡ place_full b c }
{
    c % 32 * 4 + b % 32 * 128
}
