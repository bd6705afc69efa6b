// What depends on a word's length.
ghost use Rattle.std.specs.Prelude.{◌≡◌, ◌%◌, ◌==◌, cond};

// Two low bits 11 make a word a long one, of four bytes.
pub(crate) fn by_length<T: Copy>(w: u32, long: T, half: T) -> T
    ensures { result ≡ cond (w % 4 == 3) long half }
{
    if w % 4 == 3 { long } else { half }
}
