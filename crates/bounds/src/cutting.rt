// The cut of a request.
ghost use Rattle.std.specs.Prelude.{◌≡◌, ◌+◌, ◌^◌, ◌<◌, ◌≤◌};
ghost use Rattle.bounds.specs.Cutting.{fits_at, cut_exponent, scale_field, with_cut, unrounded, CutPromise, region_answer};
ghost use Rattle.bounds.specs.Cutting.{suggestion};

use crate::decoding::bounds;
use crate::shifts::Exponent;
use crate::{CutError, CutRegion, MOST_STORED, MOST_UNITS, SPACE, WIDEST, WIDEST_FIELD};
use choices::both;

// The bits of a length above the nine of a field.
const SPARE_BITS: u32 = 23;

// Whether the request, rounded outwards to units of 2^e, has at most 511 of them.
fn fits_at(base: u64, end: u64, e: Exponent) -> bool
    requires { (base < 2 ^ 32) × (end < 2 ^ 33) }
    ensures { result ≡ fits_at base end e.value }
{
    e.round_up(end) <= e.block(base) + e.scaled(MOST_UNITS)
}

// The exponent that the length's leading zeros propose: in units of any lesser one the length alone is more than 511. Every cut takes this
// difference, and by a test it is built shorter than by `saturating_sub`.
fn suggestion(length: u32) -> Exponent
    ensures { result.value ≡ suggestion length }
{
    let zeros = length.leading_zeros();
    let value = if zeros < SPARE_BITS {
        SPARE_BITS - zeros
    } else {
        0
    };
    Exponent { value }
}

// The least exponent that fits: the one that is proposed, or the next.
pub(crate) fn cut_exponent(base: u32, length: u32) -> Exponent
    ensures { result.value ≡ cut_exponent base (base + length) }
{
    let e = suggestion(length);
    if MOST_STORED < e.value {
        return Exponent { value: WIDEST };
    }
    if fits_at(base as u64, base as u64 + length as u64, e) {
        return e;
    }
    if e.value < MOST_STORED {
        return Exponent { value: e.value + 1 };
    }
    Exponent { value: WIDEST }
}

// The field E of an exponent.
fn scale_field(e: Exponent) -> u32
    ensures { result ≡ scale_field e.value }
{
    if e.value == WIDEST {
        WIDEST_FIELD
    } else {
        e.value
    }
}

// The metadata word with E, T and B of the cut of [base, base + length).
pub fn with_cut(metadata: u32, base: u32, length: u32) -> u32
    ensures { result ≡ with_cut metadata base (base + length) }
{
    let e = cut_exponent(base, length);
    let end = base as u64 + length as u64;
    let top = e.field_of(end + e.ones());
    let bottom = e.field_of(base as u64);
    metadata::with_bounds(metadata, scale_field(e), top, bottom)
}

// Whether rounding changes neither end.
pub fn is_unrounded(base: u32, length: u32) -> bool
    ensures { result ≡ unrounded base (base + length) }
{
    let e = cut_exponent(base, length);
    let start = base as u64;
    let end = base as u64 + length as u64;
    both(e.block(start) == start, e.round_up(end) == end)
}

// The cut of a request that ends by 2^32.
fn cut_within(base: u32, length: u32) -> CutRegion
    ensures { result ≡ region_answer base (base + length) }
{
    let region = bounds(base, with_cut(0, base, length));
    let end = base as u64 + length as u64;
    let exact = both(region.low == base, region.high == end);
    CutRegion { region, exact }
}

// The answer to a cut asked by plain numbers.
pub fn cut(base: u32, length: u32) -> Result<CutRegion, CutError>
    ensures { CutPromise base length result }
{
    if SPACE < base as u64 + length as u64 {
        return Err(CutError::PastEnd);
    }
    Ok(cut_within(base, length))
}
