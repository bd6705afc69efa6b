// Two sheets compared.
#![tactic(auto)]

mod names;

ghost use Rattle.std.specs.Prelude.{◌≡◌, ℕ, ◌^◌, ◌<◌};
ghost use Rattle.sheet_compare.specs.Compare.{Compares, error_fits, error_line, error_number};

use names::put_names;
use sheets::Refusal;
use text::deliver;

// Why there is no list: the first bad line of a sheet, or too little room.
#[derive(Clone, Copy, Debug, PartialEq, Eq)]
pub enum CompareError {
    BadFirst(usize),
    BadSecond(usize),
    NoRoom,
}

impl Refusal for CompareError {
    ghost number = { error_number };

    ghost line = { error_line };

    ghost fits = { error_fits };

    fn number(self) -> u64 {
        match self {
            CompareError::BadFirst(_) => 13,
            CompareError::BadSecond(_) => 14,
            CompareError::NoRoom => 10,
        }
    }

    fn line(self) -> usize {
        match self {
            CompareError::BadFirst(n) | CompareError::BadSecond(n) => n,
            CompareError::NoRoom => 0,
        }
    }
}

// Lists the names that differ, and returns how many bytes were written; where it fails, nothing is.
// The list is made first: at most 128 names of 16 letters and a newline.
pub fn compare(first: &[u8], second: &[u8], out: &mut [u8]) -> Result<usize, CompareError>
    ensures { Compares first.now second.now out.old out.new result }
{
    let a = sheets::read(first, false).map_err(|e| CompareError::BadFirst(e.line))?;
    let b = sheets::read(second, false).map_err(|e| CompareError::BadSecond(e.line))?;
    let mut text = [0u8; 2176];
    let n = put_names(&mut text, a.sheet.regions(), b.sheet.regions());
    if deliver(out, &text[0..n]) {
        Ok(n)
    } else {
        Err(CompareError::NoRoom)
    }
}
