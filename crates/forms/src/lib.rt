// What is listed of a word, and back: the row of its name and its operands; the word of a row and operands.
#![tactic(auto)]

mod encoding;
mod places;
mod rows;
mod shapes;
mod short_places;
mod short_shapes;
mod table;

ghost use Rattle.std.specs.Prelude.{◌≡◌};
ghost use Rattle.forms.specs.ShortShapes.{shape_of};

pub use encoding::encode;
use rows::long_shape;
use short_shapes::short_shape;
pub use table::{ROWS, TABLE};

// Where a word has its operands: the standard's formats of long words and of halves, some by the operands or the immediate that they have here. Of two
// registers, of a CSR's number and an immediate, and of FENCE's sets are formats of their own.
#[derive(Clone, Copy, Debug, PartialEq, Eq)]
pub enum Format {
    R,
    I,
    S,
    B,
    U,
    J,
    Pair,
    CsrImmediate,
    NoOperands,
    FenceSets,
    Ciw,
    ClWord,
    ClDouble,
    CsWord,
    CsDouble,
    Ci,
    CiSixteens,
    CbSix,
    Ca,
    Cj,
    Cb,
    CiWord,
    CiDouble,
    CssWord,
    CssDouble,
    Cr,
    CrOne,
}

// A row: its name, the name's last eight bytes as a number, the bits that all its words have, and the format of its operands.
#[derive(Clone, Copy)]
pub struct Row(pub &'static str, pub u64, pub u32, pub Format);

// The row of a name, and as many operands as count says; the last one is c. No Options: an operand that is missing is 0 where a format places it.
#[derive(Clone, Copy)]
pub struct Shape {
    pub row: u32,
    pub count: u32,
    pub a: u32,
    pub b: u32,
    pub c: u32,
}

// What is listed of a word; a number that is no long word is taken as a half.
#[tactic(auto, unfolding(crate::specs::ShortShapes::shape_of))]
pub fn shape_of(w: u32) -> Shape
    ensures { result ≡ shape_of w }
{
    if w % 4 == 3 {
        return long_shape(w);
    }
    short_shape(short_forms::short_form(w))
}
