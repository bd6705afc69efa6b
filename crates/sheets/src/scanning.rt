// The state after one more byte of a line, and the region of a line.
ghost use Rattle.std.specs.Prelude.{◌≡◌, ◌+◌, ◌*◌, ◌%◌, ◌≤◌, ◌<◌, ◌^◌, length, drop, take};
ghost use Rattle.std.specs.Prelude.{true, ◌⊎◌};
ghost use Rattle.sheets.specs.Scanning.{Lined, advanced, in_name, in_rights, in_word, padded, region_told, right_of, scan, whole};

use crate::names::{NAME_BYTES, is_letter};
use crate::{Field, Line, Region, Scan};
use text::digit_of;

// The word that begins a line.
const WORD: [u8; 6] = [b'r', b'e', b'g', b'i', b'o', b'n'];

// The digits of a number.
const DIGITS: usize = 8;

// Where a line's name begins.
const NAME_PLACE: usize = 7;

// A field's start, before anything was read.
fn begin(field: Field) -> Scan
    ensures { result ≡ scan field 0 0 0 0 0 }
{
    Scan {
        field,
        count: 0,
        letters: 0,
        start: 0,
        size: 0,
        rights: 0,
    }
}

#[tactic(auto, unfolding(crate::specs::Scanning::in_word))]
fn in_word(s: Scan, b: u8) -> Scan
    ensures { result ≡ in_word s b }
{
    let n = s.count;
    if n < 6 {
        if b == WORD[n] {
            Scan { count: n + 1, ..s }
        } else {
            begin(Field::Spoiled)
        }
    } else if b == b'\t' {
        Scan {
            field: Field::Name,
            count: 0,
            ..s
        }
    } else {
        begin(Field::Spoiled)
    }
}

// The field after the name has as many letters as were counted.
#[tactic(auto, unfolding(crate::specs::Scanning::in_name))]
fn in_name(s: Scan, b: u8) -> Scan
    ensures { result ≡ in_name s b }
{
    let n = s.count;
    if is_letter(b) {
        if n < NAME_BYTES {
            Scan { count: n + 1, ..s }
        } else {
            begin(Field::Spoiled)
        }
    } else if b == b'\t' && 0 < n {
        Scan {
            field: Field::Start,
            letters: n,
            count: 0,
            ..s
        }
    } else {
        begin(Field::Spoiled)
    }
}

fn with_digit(v: u32, d: u64) -> u32
    requires { d < 16 }
    ensures { result ≡ v % 2 ^ 28 * 16 + d }
{
    v % 0x1000_0000 * 16 + d as u32
}

// Either number: a digit, of which there are eight, or the tab after them.
#[tactic(auto, unfolding(crate::specs::Scanning::advanced, crate::specs::Scanning::in_start, crate::specs::Scanning::in_size))]
fn in_number(s: Scan, b: u8) -> Scan
    requires { (s.field ≡ Field.Start) ⊎ (s.field ≡ Field.Size) }
    ensures { result ≡ advanced s b }
{
    let first = s.field == Field::Start;
    let n = s.count;
    if n < DIGITS {
        match digit_of(b) {
            Some(d) if first => Scan {
                count: n + 1,
                start: with_digit(s.start, d),
                ..s
            },
            Some(d) => Scan {
                count: n + 1,
                size: with_digit(s.size, d),
                ..s
            },
            None => begin(Field::Spoiled),
        }
    } else if b == b'\t' {
        Scan {
            field: if first { Field::Size } else { Field::Rights },
            count: 0,
            ..s
        }
    } else {
        begin(Field::Spoiled)
    }
}

#[tactic(auto, unfolding(crate::specs::Scanning::right_of))]
fn right_of(b: u8) -> u32
    ensures { (result ≡ right_of b) × (result ≤ 4) }
{
    match b {
        b'r' => 1,
        b'w' => 2,
        b'x' => 4,
        _ => 0,
    }
}

#[tactic(auto, unfolding(crate::specs::Scanning::in_rights))]
fn in_rights(s: Scan, b: u8) -> Scan
    ensures { result ≡ in_rights s b }
{
    let right = right_of(b);
    if s.rights < right {
        Scan {
            count: 0,
            rights: s.rights + right,
            ..s
        }
    } else {
        begin(Field::Spoiled)
    }
}

// A byte of the line.
#[tactic(auto, unfolding(crate::specs::Scanning::advanced))]
fn advance(s: Scan, b: u8) -> Scan
    ensures { result ≡ advanced s b }
{
    match s.field {
        Field::Word => in_word(s, b),
        Field::Name => in_name(s, b),
        Field::Start | Field::Size => in_number(s, b),
        Field::Rights => in_rights(s, b),
        Field::Spoiled => begin(Field::Spoiled),
    }
}

// The first line of a text.
pub(crate) fn first_line(text: &[u8]) -> Line
    ensures { Lined text.now 0 result.scan result.length }
{
    let mut scan = begin(Field::Word);
    for (i, b) in text.iter().enumerate() {
        if *b == b'\n' {
            return Line { scan, length: i };
        }
        scan = advance(scan, *b);
    }
    Line {
        scan,
        length: text.len(),
    }
}

// Some letters, with zeros after them.
fn name_of(letters: &[u8]) -> [u8; 16]
    requires { length letters.now ≤ 16 }
    ensures { result ≡ padded letters.now }
{
    let mut name = [0; 16];
    name[..letters.len()].copy_from_slice(letters);
    name
}

// The region of a text's first line that left the state s, where the line may end there.
#[tactic(auto, unfolding(crate::specs::Scanning::whole, crate::specs::Scanning::region_told, crate::specs::Scanning::region_in))]
pub(crate) fn region_in(text: &[u8], s: Scan) -> Option<Region>
    requires { whole s ≡ true → (7 + s.letters ≤ length text.now) × (s.letters ≤ 16) }
    ensures { result ≡ region_told text.now s }
{
    if s.field != Field::Rights || s.rights == 0 {
        return None;
    }
    Some(Region {
        name: name_of(&text[NAME_PLACE..NAME_PLACE + s.letters]),
        start: s.start,
        size: s.size,
        rights: s.rights,
    })
}
