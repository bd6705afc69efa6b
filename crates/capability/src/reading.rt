// What a capability is: its bounds, rights, seal and tag.
ghost use Rattle.std.specs.Prelude.{◌≡◌, ◌&&◌, ◌<◌, ◌^◌, leb};
ghost use Rattle.capability.specs.Capability.{low, high, rights, grants, sealed, unsealed, tagged, covers};

use crate::{Capability, UNSEALED};
use bounds::Region;

// Low and high bound.
pub fn bounds_of(c: Capability) -> Region
    ensures { (result ≡ record { low = low c; high = high c }) × (result.high < 2 ^ 33) }
{
    bounds::bounds(c.address, c.metadata)
}

// The rights that the capability's code holds and those also granted, for checks.
pub fn rights_of(c: Capability) -> u32
    ensures { (result ≡ rights c) × (result < 4096) }
{
    metadata::rights(c.metadata)
}

// The same, for what is no check: read in place, so that a call of it costs none.
pub fn indexed_rights(c: Capability) -> u32
    ensures { (result ≡ rights c) × (result < 4096) }
{
    metadata::indexed_rights(c.metadata)
}

// Whether right k is among them, by its number, 0 to 11.
pub fn has_right(c: Capability, k: u32) -> bool
    ensures { result ≡ grants c k }
{
    metadata::has(rights_of(c), k)
}

// Whether it has a type.
pub fn is_sealed(c: Capability) -> bool
    ensures { result ≡ sealed c }
{
    metadata::otype(c.metadata) != UNSEALED
}

pub(crate) fn is_unsealed(c: Capability) -> bool
    ensures { result ≡ unsealed c }
{
    metadata::otype(c.metadata) == UNSEALED
}

// Whether its tag is set.
pub fn is_tagged(c: Capability) -> bool
    ensures { result ≡ tagged c }
{
    c.tag == 1
}

// Whether a region contains [base, end).
fn contains(region: Region, base: u64, end: u64) -> bool
    ensures { result ≡ (leb region.low base && leb end region.high) }
{
    choices::both(region.low as u64 <= base, end <= region.high)
}

// Whether the capability's region contains [base, end), in whole numbers.
pub fn covers_range(c: Capability, base: u64, end: u64) -> bool
    ensures { result ≡ covers c base end }
{
    contains(bounds_of(c), base, end)
}
