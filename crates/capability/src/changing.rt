// Another address, other bounds, fewer rights: each keeps the tag only by its own rule.
ghost use Rattle.std.specs.Prelude.{◌≡◌, ◌&&◌, ◌+◌};
ghost use Rattle.capability.specs.Capability.{capability, cut_word, integer, clear_tag, keep_tag_if, unsealed};
ghost use Rattle.capability.specs.Capability.{covers, same_bounds, move_of, set_bounds_of, set_bounds_exact_of, narrow_of};

use crate::Capability;
use crate::reading::{covers_range, is_unsealed};

// An integer as a register holds it: no metadata, no tag.
pub fn integer(x: u32) -> Capability
    ensures { result ≡ integer x }
{
    Capability {
        address: x,
        metadata: 0,
        tag: 0,
    }
}

// The capability without its tag.
pub fn clear_tag(c: Capability) -> Capability
    ensures { result ≡ clear_tag c }
{
    Capability { tag: 0, ..c }
}

// The capability with its tag kept where the test passes, else cleared.
pub(crate) fn keep_tag_if(test: bool, c: Capability) -> Capability
    ensures { result ≡ keep_tag_if test c }
{
    let tag = choices::choose(test, c.tag, 0);
    Capability { tag, ..c }
}

// Whether both bounds are the same at another address.
fn same_bounds(c: Capability, to: u32) -> bool
    ensures { result ≡ same_bounds c to }
{
    bounds::same_bounds(c.address, to, c.metadata)
}

// The capability at another address.
pub fn move_address(c: Capability, to: u32) -> Capability
    ensures { result ≡ move_of c to }
{
    let kept = choices::both(is_unsealed(c), same_bounds(c, to));
    keep_tag_if(kept, Capability { address: to, ..c })
}

// Whether the capability's region contains [address, address + length).
fn covers_cut(c: Capability, length: u32) -> bool
    ensures { result ≡ covers c c.address (c.address + length) }
{
    let start = c.address as u64;
    covers_range(c, start, start + length as u64)
}

// The capability cut to [address, address + length), with its tag kept where it is not sealed and the test passes.
fn cut_if(test: bool, c: Capability, length: u32) -> Capability
    ensures { result ≡ keep_tag_if (unsealed c && test) (capability c.address (cut_word c length) c.tag) }
{
    let kept = keep_tag_if(choices::both(is_unsealed(c), test), c);
    let metadata = bounds::with_cut(c.metadata, c.address, length);
    Capability { metadata, ..kept }
}

// CSetBounds.
pub fn set_bounds(c: Capability, length: u32) -> Capability
    ensures { result ≡ set_bounds_of c length }
{
    cut_if(covers_cut(c, length), c, length)
}

// CSetBoundsExact.
pub fn set_bounds_exact(c: Capability, length: u32) -> Capability
    ensures { result ≡ set_bounds_exact_of c length }
{
    let inside = covers_cut(c, length);
    let exact = choices::both(inside, bounds::is_unrounded(c.address, length));
    cut_if(exact, c, length)
}

// CAndPerm: no right that is not in the mask.
pub fn narrow_rights(c: Capability, mask: u32) -> Capability
    ensures { result ≡ narrow_of c mask }
{
    let kept = keep_tag_if(is_unsealed(c), c);
    let metadata = metadata::narrow(c.metadata, mask);
    Capability { metadata, ..kept }
}
