// The names that differ, in order.
ghost use Rattle.std.specs.Prelude.{◌≡◌, [], ◌∷◌, ◌++◌, ◌≤◌, length};
ghost use Rattle.text.specs.Writing.{Puts, newline};
ghost use Rattle.sheets.specs.Sheet.{letters_of};
ghost use Rattle.sheet_compare.specs.Compare.{considered, least_of, less, list_text, next_name, sooner, stands};

use sheet_writer::put_name;
use sheets::{NAME_BYTES, Region};
use text::put_byte;

// Two sheets have at most so many names.
const MOST_NAMES: usize = 128;

// Whether a name comes before another. By its own loop: the library's `<` of arrays takes three times as long for each letter in common.
fn less(a: &[u8; 16], b: &[u8; 16]) -> bool
    ensures { result ≡ less a.now b.now }
{
    for i in 0..NAME_BYTES {
        if a[i] != b[i] {
            return a[i] < b[i];
        }
    }
    false
}

// Whether a region is among those of a sheet: with the same name, start, size and rights.
fn stands(r: &Region, sheet: &[Region]) -> bool
    ensures { result ≡ stands r.now sheet.now }
{
    sheet.contains(r)
}

// Whether a name comes before the one picked, if any was.
#[tactic(auto, unfolding(crate::specs::Compare::sooner))]
fn sooner(picked: Option<[u8; 16]>, name: &[u8; 16]) -> bool
    ensures { result ≡ sooner picked name.now }
{
    match picked {
        None => true,
        Some(p) => less(name, &p),
    }
}

// A region's name, where it may be the next one.
#[tactic(auto, unfolding(crate::specs::Compare::considered))]
fn consider(
    last: &[u8; 16],
    picked: Option<[u8; 16]>,
    r: &Region,
    other: &[Region],
) -> Option<[u8; 16]>
    ensures { result ≡ considered last.now picked r.now other.now }
{
    if less(last, &r.name) && sooner(picked, &r.name) && !stands(r, other) {
        Some(r.name)
    } else {
        picked
    }
}

// The least of a sheet's names that may be the next one, and of the one picked.
#[tactic(auto, unfolding(crate::specs::Compare::least_of))]
fn least_of(
    last: &[u8; 16],
    picked: Option<[u8; 16]>,
    sheet: &[Region],
    other: &[Region],
) -> Option<[u8; 16]>
    ensures { result ≡ least_of last.now picked sheet.now other.now }
{
    sheet
        .iter()
        .fold(picked, |best, r| consider(last, best, r, other))
}

// The least name after the last that differs.
#[tactic(auto, unfolding(crate::specs::Compare::next_name))]
fn next_name(last: &[u8; 16], one: &[Region], two: &[Region]) -> Option<[u8; 16]>
    ensures { result ≡ next_name last.now one.now two.now }
{
    let picked = least_of(last, None, one, two);
    least_of(last, picked, two, one)
}

// A name and its newline.
fn put_name_line(out: &mut [u8], at: usize, name: [u8; 16]) -> usize
    ensures { Puts out.old at (letters_of name ++ (newline ∷ [])) out.new result }
{
    let a = put_name(out, at, name);
    put_byte(out, a, b'\n')
}

// Writes the names, from the buffer's start on.
pub(crate) fn put_names(out: &mut [u8], one: &[Region], two: &[Region]) -> usize
    ensures { Puts out.old 0 (list_text one.now two.now) out.new result × (result ≤ length out.old) }
{
    let mut last = [0; NAME_BYTES];
    let mut at = 0;
    for _ in 0..MOST_NAMES {
        let Some(name) = next_name(&last, one, two) else {
            return at;
        };
        at = put_name_line(out, at, name);
        last = name;
    }
    at
}
