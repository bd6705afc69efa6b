// The lines of a sheet, written into a buffer from index `at` on, as far as the buffer reaches. Each
// function returns the index after what it wrote.
ghost use Rattle.std.specs.Prelude.{cond, [], ◌∷◌, ◌++◌, ◌≡◌, ◌≤◌, length};
ghost use Rattle.text.specs.Digits.{digits};
ghost use Rattle.text.specs.Writing.{Puts, newline, tab};
ghost use Rattle.sheets.specs.Sheet.{letters_of, rights_text, line_text, sheet_text, word};

use sheets::{Region, letters};
use text::{put_byte, put_bytes, put_hex};

// The digits of a number.
const DIGITS: u8 = 8;

// A right's letter, where the right is there.
fn put_right(out: &mut [u8], at: usize, on: bool, letter: u8) -> usize
    ensures { Puts out.old at (cond on (letter ∷ []) []) out.new result }
{
    if on { put_byte(out, at, letter) } else { at }
}

// r, w, x.
fn put_rights(out: &mut [u8], at: usize, rights: u32) -> usize
    ensures { Puts out.old at (rights_text rights) out.new result }
{
    let a = put_right(out, at, rights % 2 == 1, b'r');
    let b = put_right(out, a, rights / 2 % 2 == 1, b'w');
    put_right(out, b, rights / 4 % 2 == 1, b'x')
}

// A name's letters.
pub fn put_name(out: &mut [u8], at: usize, name: [u8; 16]) -> usize
    ensures { Puts out.old at (letters_of name) out.new result }
{
    let n = letters(name);
    put_bytes(out, at, &name[0..n])
}

// The word, a tab, and the name.
fn put_head(out: &mut [u8], at: usize, name: [u8; 16]) -> usize
    ensures { Puts out.old at (word ++ (tab ∷ letters_of name)) out.new result }
{
    let a = put_bytes(out, at, b"region\t");
    put_name(out, a, name)
}

// A tab and eight digits.
fn put_number(out: &mut [u8], at: usize, n: u32) -> usize
    ensures { Puts out.old at (tab ∷ digits 16 8 n) out.new result }
{
    let a = put_byte(out, at, b'\t');
    put_hex(out, a, DIGITS, u64::from(n))
}

// A tab, the rights, and the newline.
fn put_tail(out: &mut [u8], at: usize, rights: u32) -> usize
    ensures { Puts out.old at (tab ∷ (rights_text rights ++ (newline ∷ []))) out.new result }
{
    let a = put_byte(out, at, b'\t');
    let b = put_rights(out, a, rights);
    put_byte(out, b, b'\n')
}

// A region's line and its newline.
fn put_line(out: &mut [u8], at: usize, r: &Region) -> usize
    ensures { Puts out.old at (line_text r.now ++ (newline ∷ [])) out.new result }
{
    let a = put_head(out, at, r.name);
    let b = put_number(out, a, r.start);
    let c = put_number(out, b, r.size);
    put_tail(out, c, r.rights)
}

// The lines of regions, from the buffer's start on.
pub(crate) fn put_lines(out: &mut [u8], regions: &[Region]) -> usize
    ensures { Puts out.old 0 (sheet_text regions.now) out.new result × (result ≤ length out.old) }
{
    let mut at = 0;
    for r in regions {
        at = put_line(out, at, r);
    }
    at
}
