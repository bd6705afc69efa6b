// CRepresentableAlignmentMask and CRoundRepresentableLength.
ghost use Rattle.std.specs.Prelude.{◌≡◌};
ghost use Rattle.bounds.specs.Lengths.{alignment_mask, representable_length};

use crate::SPACE;
use crate::cutting::cut_exponent;

// The mask of addresses at which a region of that length is not rounded.
pub fn alignment_mask(length: u32) -> u32
    ensures { result ≡ alignment_mask length }
{
    let e = cut_exponent(0, length);
    u32::MAX - e.ones() as u32
}

// The length rounded up to that alignment, modulo 2^32.
pub fn representable_length(length: u32) -> u32
    ensures { result ≡ representable_length length }
{
    let e = cut_exponent(0, length);
    (e.round_up(length as u64) % SPACE) as u32
}
