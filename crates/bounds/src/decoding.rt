// The bounds of a metadata word at an address.
ghost use Rattle.std.specs.Prelude.{◌≡◌, ◌<◌, ◌≤◌, ◌&&◌, ◌==◌};
ghost use Rattle.bounds.specs.Bounds.{exponent_of, low_at, high_at, bounds_of};

use crate::shifts::{Exponent, span};
use crate::{Region, SPACE, TWICE_SPACE, WIDEST, WIDEST_FIELD};
use choices::choose;

// The exponent of a field E: a choice, built as a conditional move.
fn exponent(field: u32) -> Exponent
    requires { field < 16 }
    ensures { result.value ≡ exponent_of field }
{
    Exponent {
        value: choose(field == WIDEST_FIELD, WIDEST, field),
    }
}

// Low and high of a metadata word at an address: a shift down to units, a shift up for the base, and one for the span. Where the
// base lies below 0 its unit stands modulo 2^64; both bounds are remainders by divisors of that.
pub fn bounds(address: u32, metadata: u32) -> Region
    ensures { result ≡ bounds_of address metadata }
{
    let e = exponent(metadata::scale_of(metadata));
    let top = metadata::top_of(metadata);
    let base = metadata::base_of(metadata);
    let start = e.base_unit(address, base) << e.value;
    let low = start % SPACE;
    let end = start.wrapping_add(e.scaled(span(top, base)));
    Region {
        low: low as u32,
        high: end % TWICE_SPACE,
    }
}

// Whether both bounds are the same at another address: at the widest exponent always, else in the same block.
pub fn same_bounds(address: u32, to: u32, metadata: u32) -> bool
    ensures { result ≡ (low_at to metadata == low_at address metadata && high_at to metadata == high_at address metadata) }
{
    let e = exponent(metadata::scale_of(metadata));
    if e.value == WIDEST {
        return true;
    }
    let base = metadata::base_of(metadata);
    e.base_block(to, base) == e.base_block(address, base)
}
