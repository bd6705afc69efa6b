// Sealing and unsealing, and the types of sealed capabilities.
ghost use Rattle.std.specs.Prelude.{◌≡◌, ◌&&◌, ◌<◌, leb, ltb};
ghost use Rattle.capability.specs.Sealing.{object_type, is_sentry, permitted_type, address_in_bounds, authorizes};
ghost use Rattle.capability.specs.Sealing.{with_object_type, seal_of, global_mask, unseal_of};

use crate::changing::keep_tag_if;
use crate::reading::{bounds_of, has_right, is_sealed, is_tagged};
use crate::{Capability, SENTRY, SENTRY_ENABLING, UNSEALED};
use bounds::Region;

// What the type of data has beyond its three stored bits.
const DATA_TYPES: u32 = 8;

// The types of code beside the sentries, and those of data.
const FIRST_CODE_TYPE: u32 = 6;

const LAST_CODE_TYPE: u32 = 7;

const FIRST_DATA_TYPE: u32 = 9;

const LAST_DATA_TYPE: u32 = 15;

// All rights but GL.
const WITHOUT_GL: u32 = metadata::ALL_RIGHTS - (1 << metadata::GL);

// The 4-bit type.
pub fn object_type(c: Capability) -> u32
    ensures { (result ≡ object_type c) × (result < 16) }
{
    let t = metadata::otype(c.metadata);
    choices::choose(
        choices::both(is_sealed(c), !has_right(c, metadata::EX)),
        DATA_TYPES + t,
        t,
    )
}

// Whether x is one of low to high.
fn within(x: u32, low: u32, high: u32) -> bool
    ensures { result ≡ (leb low x && leb x high) }
{
    choices::both(low <= x, x <= high)
}

// Whether the capability is executable, with a sentry's type.
pub fn is_sentry(c: Capability) -> bool
    ensures { result ≡ is_sentry c }
{
    choices::both(
        has_right(c, metadata::EX),
        within(metadata::otype(c.metadata), SENTRY, SENTRY_ENABLING),
    )
}

// Whether the capability may be sealed with a type.
fn permitted_type(c: Capability, t: u32) -> bool
    ensures { result ≡ permitted_type c t }
{
    if has_right(c, metadata::EX) {
        choices::either(
            within(t, SENTRY, SENTRY_ENABLING),
            within(t, FIRST_CODE_TYPE, LAST_CODE_TYPE),
        )
    } else {
        within(t, FIRST_DATA_TYPE, LAST_DATA_TYPE)
    }
}

// Whether an address lies in a region.
fn holds(region: Region, address: u32) -> bool
    ensures { result ≡ (leb region.low address && ltb address region.high) }
{
    choices::both(region.low <= address, (address as u64) < region.high)
}

// Whether the capability's own address lies in its bounds.
fn address_in_bounds(c: Capability) -> bool
    ensures { result ≡ address_in_bounds c }
{
    holds(bounds_of(c), c.address)
}

// Whether the capability is an authority by right k.
fn authorizes(c: Capability, k: u32) -> bool
    ensures { result ≡ authorizes c k }
{
    let granted = choices::both(has_right(c, k), address_in_bounds(c));
    choices::both(is_tagged(c), choices::both(!is_sealed(c), granted))
}

// The capability with the three stored bits of another type.
pub fn with_object_type(c: Capability, t: u32) -> Capability
    ensures { result ≡ with_object_type c t }
{
    let metadata = metadata::with_type(c.metadata, t);
    Capability { metadata, ..c }
}

// CSeal.
pub fn seal(c: Capability, authority: Capability) -> Capability
    ensures { result ≡ seal_of c authority }
{
    let allowed = choices::both(
        authorizes(authority, metadata::SE),
        permitted_type(c, authority.address),
    );
    let kept = keep_tag_if(choices::both(!is_sealed(c), allowed), c);
    with_object_type(kept, authority.address)
}

// All rights, without GL where the authority lacks it.
fn global_mask(authority: Capability) -> u32
    ensures { result ≡ global_mask authority }
{
    choices::choose(
        has_right(authority, metadata::GL),
        metadata::ALL_RIGHTS,
        WITHOUT_GL,
    )
}

// CUnseal.
pub fn unseal(c: Capability, authority: Capability) -> Capability
    ensures { result ≡ unseal_of c authority }
{
    let allowed = choices::both(
        authorizes(authority, metadata::US),
        authority.address == object_type(c),
    );
    let kept = keep_tag_if(choices::both(is_sealed(c), allowed), c);
    let narrowed = metadata::narrow(c.metadata, global_mask(authority));
    let metadata = metadata::with_type(narrowed, UNSEALED);
    Capability { metadata, ..kept }
}
