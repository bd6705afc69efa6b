// The bounds of a metadata word at an address, and the cut of a request.
#![tactic(auto)]

ghost use Rattle.std.specs.Prelude.{◌≡◌};
ghost use Rattle.bounds.specs.Cutting.{answer_number};

mod cutting;
mod decoding;
mod lengths;
mod shifts;

pub use cutting::{cut, is_unrounded, with_cut};
pub use decoding::{bounds, same_bounds};
pub use lengths::{alignment_mask, representable_length};

// Addresses are below 2^32.
pub(crate) const SPACE: u64 = 0x1_0000_0000;

// High bounds are below 2^33.
pub(crate) const TWICE_SPACE: u64 = 0x2_0000_0000;

// The units that a field T or B of nine bits counts: a block.
pub(crate) const BLOCK_UNITS: u64 = 512;

// The most units that a cut may have.
pub(crate) const MOST_UNITS: u64 = 511;

// The largest exponent that the field E holds as it is.
pub(crate) const MOST_STORED: u32 = 14;

// The field that stands for the widest exponent, and that exponent.
pub(crate) const WIDEST_FIELD: u32 = 15;

pub(crate) const WIDEST: u32 = 24;

// Document 01's number of a request that ends past 2^32.
const PAST_END: u32 = 6;

// The bounds [low, high).
#[derive(Clone, Copy, Debug, PartialEq, Eq)]
pub struct Region {
    pub low: u32,
    pub high: u64,
}

// A cut's region, and whether it is the request.
#[derive(Clone, Copy, Debug, PartialEq, Eq)]
pub struct CutRegion {
    pub region: Region,
    pub exact: bool,
}

// Why a cut asked by plain numbers is refused: the request ends past 2^32.
#[derive(Clone, Copy, Debug, PartialEq, Eq)]
pub enum CutError {
    PastEnd,
}

impl CutError {
    // Document 01's number of the refusal.
    pub fn number(self) -> u32
        ensures { result ≡ answer_number (Err self) }
    {
        match self {
            CutError::PastEnd => PAST_END,
        }
    }
}
