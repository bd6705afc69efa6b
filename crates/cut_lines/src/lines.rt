// What belongs to a line, written into a buffer from index `at` on, as far as the buffer reaches. Each
// function returns the index after what it wrote. Buffer and index stay apart, as the writers of
// `text` take them.
ghost use Rattle.std.specs.Prelude.{◌≡◌, ◌≤◌, length, if◌then◌else◌, is_ok};
ghost use Rattle.cut_lines.specs.Lines.{cut_text, no_text, region_text, yes_text};
ghost use Rattle.cut_lines.specs.Scanning.{answered, last_text, outcome, step_text};
ghost use Rattle.cut_lines.specs.Writing.{has_room, longest};
ghost use Rattle.text.specs.Writing.{Puts};

use crate::{Fields, LINE, LONGEST, NoRoom, Scan};
use bounds::{CutError, CutRegion};
use text::{put_byte, put_bytes, put_decimal, put_hex};

// The hexadecimal digits of a low bound, and of a high bound of 33 bits.
const LOW_DIGITS: u8 = 8;

const HIGH_DIGITS: u8 = 9;

// A line's value has the length in its lower word and the base above that.
const WORD: u64 = 0x1_0000_0000;

// Refuses where the buffer has too little room for the longest line.
pub(crate) fn need_room(out: &[u8], at: usize) -> Result<(), NoRoom>
    ensures { is_ok result ≡ has_room out.now at }
{
    // Twice a test: a byte of the input asks it, and by `saturating_sub` it is built thrice as long.
    if at > out.len() || out.len() - at < LONGEST {
        return Err(NoRoom);
    }
    Ok(())
}

fn put_exact(out: &mut [u8], at: usize, exact: bool) -> usize
    ensures { Puts out.old at (if exact then yes_text else no_text) out.new result }
{
    if exact {
        put_bytes(out, at, b"yes\n")
    } else {
        put_bytes(out, at, b"no\n")
    }
}

// A region's bounds and whether they are exact.
fn put_region(out: &mut [u8], at: usize, cut: CutRegion) -> usize
    ensures { Puts out.old at (region_text cut) out.new result }
{
    let a = put_hex(out, at, LOW_DIGITS, u64::from(cut.region.low));
    let b = put_byte(out, a, b'\t');
    let c = put_hex(out, b, HIGH_DIGITS, cut.region.high);
    let d = put_byte(out, c, b'\t');
    put_exact(out, d, cut.exact)
}

#[tactic(auto, unfolding(crate::specs::Lines::cut_text))]
fn put_cut(out: &mut [u8], at: usize, answer: Result<CutRegion, CutError>) -> usize
    ensures { Puts out.old at (cut_text answer) out.new result }
{
    match answer {
        Ok(cut) => put_region(out, at, cut),
        Err(CutError::PastEnd) => put_bytes(out, at, b"bad\t6\n"),
    }
}

// The cut that the line asked for, or that it is ill-formed.
#[tactic(auto, unfolding(crate::specs::Scanning::outcome))]
fn put_outcome(out: &mut [u8], at: usize, fields: Option<Fields>) -> usize
    ensures { Puts out.old at (outcome fields) out.new result }
{
    match fields {
        Some(f) if f.place == LINE => {
            let base = (f.value / WORD) as u32;
            let length = (f.value % WORD) as u32;
            put_cut(out, at, bounds::cut(base, length))
        }
        _ => put_bytes(out, at, b"bad\tline\n"),
    }
}

// The whole output line.
pub(crate) fn put_line(out: &mut [u8], at: usize, s: Scan) -> usize
    ensures { (length (answered s) ≤ longest) × Puts out.old at (answered s) out.new result }
{
    let a = put_decimal(out, at, s.number);
    let b = put_byte(out, a, b'\t');
    put_outcome(out, b, s.fields)
}

// What belongs to a byte of the input: the output line where the byte ends a line, else nothing.
#[tactic(auto, unfolding(crate::specs::Scanning::step_text))]
pub(crate) fn put_step(out: &mut [u8], at: usize, s: Scan, b: u8) -> usize
    ensures { (length (step_text s b) ≤ longest) × Puts out.old at (step_text s b) out.new result }
{
    if b == b'\n' { put_line(out, at, s) } else { at }
}

// What belongs to the end of the input.
#[tactic(auto, unfolding(crate::specs::Scanning::last_text))]
pub(crate) fn put_last(out: &mut [u8], at: usize, s: Scan) -> usize
    ensures { (length (last_text s) ≤ longest) × Puts out.old at (last_text s) out.new result }
{
    if s.has_begun() {
        put_line(out, at, s)
    } else {
        at
    }
}
