// What is listed of a word: a row and no operand, one, two or three; the operand of LUI and its like.
ghost use Rattle.std.specs.Prelude.{◌≡◌};
ghost use Rattle.forms.specs.Shapes.{upper_of, three, two, one, bare};

use crate::Shape;

pub(crate) fn bare(row: u32) -> Shape
    ensures { result ≡ bare row }
{
    Shape {
        row,
        count: 0,
        a: 0,
        b: 0,
        c: 0,
    }
}

pub(crate) fn one(row: u32, c: u32) -> Shape
    ensures { result ≡ one row c }
{
    Shape {
        count: 1,
        c,
        ..bare(row)
    }
}

pub(crate) fn two(row: u32, b: u32, c: u32) -> Shape
    ensures { result ≡ two row b c }
{
    Shape {
        count: 2,
        b,
        ..one(row, c)
    }
}

pub(crate) fn three(row: u32, a: u32, b: u32, c: u32) -> Shape
    ensures { result ≡ three row a b c }
{
    Shape {
        count: 3,
        a,
        ..two(row, b, c)
    }
}

pub(crate) fn upper(w: u32) -> u32
    ensures { result ≡ upper_of w }
{
    words::sign_extend(w / 4096 % 0x10_0000, 20)
}
