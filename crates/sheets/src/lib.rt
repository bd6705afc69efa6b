// Map sheets: reading one, alone or at the front of an image.
#![tactic(auto)]

mod names;
mod refusals;
mod regions;
mod scanning;
mod tests;

ghost use Rattle.std.specs.Prelude.{◌≡◌, take};
ghost use Rattle.sheets.specs.declared.SheetError.TheVariants.{Bad};
ghost use Rattle.sheets.specs.Scanning.{Reads, closed_at, refused_at};

pub use names::{NAME_BYTES, letters, same};
pub use refusals::Refusal;
pub use regions::{Sheet, nothing};
use scanning::{first_line, region_in};
pub use tests::follows;

// At most so many regions to a sheet.
pub const MOST_REGIONS: usize = 64;

// A region of a board or of an image.
#[derive(Clone, Copy, Debug, PartialEq, Eq)]
pub struct Region {
    // the letters of its name, and zeros after them
    pub name: [u8; 16],
    pub start: u32,
    pub size: u32,
    // r 1, w 2, x 4
    pub rights: u32,
}

// The fields of a line, and the one of a line that cannot be well-formed any more.
#[derive(Clone, Copy, Debug, PartialEq, Eq)]
pub enum Field {
    Word,
    Name,
    Start,
    Size,
    Rights,
    Spoiled,
}

// The state between two bytes of a line.
#[derive(Clone, Copy, Debug, PartialEq, Eq)]
pub struct Scan {
    // the field that is being read
    pub field: Field,
    // how many bytes of it were read
    pub count: usize,
    // what was read before: how many letters, and the numbers
    pub letters: usize,
    pub start: u32,
    pub size: u32,
    pub rights: u32,
}

// A line: the state at its end, and its length without a newline.
#[derive(Clone, Copy, Debug, PartialEq, Eq)]
pub struct Line {
    pub scan: Scan,
    pub length: usize,
}

// The number of a sheet's first bad line, from 1.
#[derive(Clone, Copy, Debug, PartialEq, Eq)]
pub struct BadLine {
    pub line: usize,
}

// Why nothing was written: the first bad line, or too little room.
#[derive(Clone, Copy, Debug, PartialEq, Eq)]
pub enum SheetError {
    Bad(usize),
    NoRoom,
}

impl From<BadLine> for SheetError {
    ghost from_gives = { λ e r. r ≡ Bad e.line };

    fn from(e: BadLine) -> SheetError {
        SheetError::Bad(e.line)
    }
}

// A sheet that was read, and the index after its end.
#[derive(Clone, Copy)]
pub struct Reading {
    pub sheet: Sheet,
    pub end: usize,
}

// A bad line.
pub fn refused(line: usize) -> Result<Reading, BadLine>
    ensures { result ≡ refused_at line }
{
    Err(BadLine { line })
}

// The sheet of the first of some regions, that ends at an index: without a region its first line is bad.
#[tactic(auto, unfolding(crate::specs::Scanning::closed_at, crate::specs::Scanning::ended_as))]
pub fn closed(regions: [Region; 64], count: usize, end: usize) -> Result<Reading, BadLine>
    ensures { result ≡ closed_at (take count regions) end }
{
    let sheet = Sheet::first(regions, count).ended()?;
    Ok(Reading { sheet, end })
}

// Reads a sheet: a whole text, or an image's text up to an empty line.
pub fn read(text: &[u8], image: bool) -> Result<Reading, BadLine>
    ensures { Reads image text.now result }
{
    let mut sheet = Sheet::new();
    let mut rest = text;
    while !rest.is_empty() {
        let line = first_line(rest);
        let bad = BadLine {
            line: sheet.regions().len() + 1,
        };
        if line.length == rest.len() {
            return Err(bad);
        }
        if image && line.length == 0 {
            let sheet = sheet.ended()?;
            return Ok(Reading {
                sheet,
                end: text.len() - rest.len() + 1,
            });
        }
        let Some(r) = region_in(rest, line.scan) else {
            return Err(bad);
        };
        if !sheet.admit(r) {
            return Err(bad);
        }
        rest = &rest[line.length + 1..];
    }
    if image {
        return Err(BadLine {
            line: sheet.regions().len() + 1,
        });
    }
    let sheet = sheet.ended()?;
    Ok(Reading {
        sheet,
        end: text.len(),
    })
}
