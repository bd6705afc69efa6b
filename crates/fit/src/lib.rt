// Two images and one board: the payload of the image that fits, in place.
#![tactic(auto)]

ghost use Rattle.std.specs.Prelude.{◌≡◌, ℕ, ◌^◌, ◌<◌};
ghost use Rattle.fit.specs.Fit.{Handed, fits, held, within};
ghost use Rattle.fit.specs.Fit.{image_number, line_in, number_in, part_in, refusal_fits, refusal_line, refusal_number};

use sheets::{Refusal, Region};

// One of the two images.
#[derive(Clone, Copy, Debug, PartialEq, Eq)]
pub enum Image {
    First = 1,
    Second = 2,
}

impl Image {
    pub fn number(self) -> u64
        ensures { result ≡ image_number self }
    {
        self as u64
    }
}

// Why no image is chosen; a bad sheet with its first bad line.
#[derive(Clone, Copy, Debug, PartialEq, Eq)]
pub enum NoFit {
    Neither,
    BadBoard(usize),
    BadFirst(usize),
    BadSecond(usize),
}

impl Refusal for NoFit {
    ghost number = { refusal_number };

    ghost line = { refusal_line };

    ghost fits = { refusal_fits };

    fn number(self) -> u64 {
        match self {
            NoFit::Neither => 16,
            NoFit::BadBoard(_) => 17,
            NoFit::BadFirst(_) => 18,
            NoFit::BadSecond(_) => 19,
        }
    }

    fn line(self) -> usize {
        match self {
            NoFit::Neither => 0,
            NoFit::BadBoard(n) | NoFit::BadFirst(n) | NoFit::BadSecond(n) => n,
        }
    }
}

// The image that fits, and its payload: a part of that image itself.
#[derive(Clone, Copy, Debug, PartialEq, Eq)]
pub struct Fitting<'a> {
    pub image: Image,
    pub payload: &'a [u8],
}

// Whether a region lies in a region of the board that has its rights.
fn within(r: &Region, b: &Region) -> bool
    ensures { result ≡ within r.now b.now }
{
    b.start <= r.start
        && u64::from(r.start) + u64::from(r.size) <= u64::from(b.start) + u64::from(b.size)
        && r.rights & b.rights == r.rights
}

// Whether it lies in one of the board's.
#[tactic(auto, unfolding(crate::specs::Fit::held))]
fn held(r: &Region, board: &[Region]) -> bool
    ensures { result ≡ held r.now board.now }
{
    board.iter().any(|b| within(r, b))
}

#[tactic(auto, unfolding(crate::specs::Fit::fits))]
fn fits(board: &[Region], image: &[Region]) -> bool
    ensures { result ≡ fits board.now image.now }
{
    image.iter().all(|r| held(r, board))
}

// Judges the board's sheet, then the first image's, then the second's. Hands back the payload of the
// first image that fits the board, a part of that image itself and no copy; or why there is none.
pub fn fit<'a>(board: &[u8], first: &'a [u8], second: &'a [u8]) -> Result<Fitting<'a>, NoFit>
    ensures { Handed board.now first.now second.now (part_in result) (number_in result) (line_in result) }
{
    let b = sheets::read(board, false).map_err(|e| NoFit::BadBoard(e.line))?;
    let f = sheets::read(first, true).map_err(|e| NoFit::BadFirst(e.line))?;
    let s = sheets::read(second, true).map_err(|e| NoFit::BadSecond(e.line))?;
    if fits(b.sheet.regions(), f.sheet.regions()) {
        return Ok(Fitting {
            image: Image::First,
            payload: &first[f.end..],
        });
    }
    if fits(b.sheet.regions(), s.sheet.regions()) {
        return Ok(Fitting {
            image: Image::Second,
            payload: &second[s.end..],
        });
    }
    Err(NoFit::Neither)
}
