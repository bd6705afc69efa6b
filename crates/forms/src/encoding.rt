// The word of a row and operands: the row's fixed bits, and the operands where its format has them.
ghost use Rattle.std.specs.Prelude.{◌≡◌};
ghost use Rattle.forms.specs.Encoding.{encode_of};

use crate::Row;
use crate::places::place;
use crate::table::{ROWS, TABLE};

// 0 where there is no such row: rules of what is listed speak of `encode_of`, a word of any row.
pub fn encode(row: usize, a: u32, b: u32, c: u32) -> u32
    ensures { result ≡ encode_of row a b c }
{
    if row < ROWS {
        let Row(_, _, fixed, format) = TABLE[row];
        return fixed.wrapping_add(place(format, a, b, c));
    }
    0
}
