// What a capability loses as it is loaded.
ghost use Rattle.std.specs.Prelude.{◌≡◌, not, ◌&&◌};
ghost use Rattle.metadata.specs.Rights.{has, GL, LG, SD, LM, MC};
ghost use Rattle.capability.specs.Capability.{keep_tag_if, sealed, tagged};
ghost use Rattle.capability.specs.Loading.{loses_if, without, loaded_of, revocable};

use crate::Capability;
use crate::changing::keep_tag_if;
use crate::reading::{is_sealed, is_tagged, rights_of};

// All rights but GL and LG.
const WITHOUT_GLOBAL: u32 = metadata::ALL_RIGHTS - (1 << metadata::GL) - (1 << metadata::LG);

// All rights but SD and LM.
const WITHOUT_MUTABLE: u32 = metadata::ALL_RIGHTS - (1 << metadata::SD) - (1 << metadata::LM);

// The value with its rights narrowed to a mask where the test passes.
fn loses_if(test: bool, mask: u32, v: Capability) -> Capability
    ensures { result ≡ loses_if test mask v }
{
    if test {
        let metadata = metadata::narrow(v.metadata, mask);
        Capability { metadata, ..v }
    } else {
        v
    }
}

// Without LG among the authority's rights a tagged value keeps neither GL nor LG.
fn lose_global(granted: u32, v: Capability) -> Capability
    ensures { result ≡ loses_if (tagged v && not (has granted LG)) (without GL LG) v }
{
    let lost = choices::both(is_tagged(v), !metadata::has(granted, metadata::LG));
    loses_if(lost, WITHOUT_GLOBAL, v)
}

// Without LM a tagged value that is not sealed keeps neither SD nor LM.
fn lose_mutable(granted: u32, v: Capability) -> Capability
    ensures { result ≡ loses_if (tagged v && (not (has granted LM) && not (sealed v))) (without SD LM) v }
{
    let open = choices::both(!metadata::has(granted, metadata::LM), !is_sealed(v));
    loses_if(choices::both(is_tagged(v), open), WITHOUT_MUTABLE, v)
}

// Without MC the tag goes.
fn lose_tag(granted: u32, v: Capability) -> Capability
    ensures { result ≡ keep_tag_if (has granted MC) v }
{
    keep_tag_if(metadata::has(granted, metadata::MC), v)
}

// A value as it is loaded through an authority, whose rights are read once.
pub fn loaded(authority: Capability, value: Capability) -> Capability
    ensures { result ≡ loaded_of authority value }
{
    let granted = rights_of(authority);
    lose_tag(granted, lose_mutable(granted, lose_global(granted, value)))
}

// Whether the revocation test is for this value: it is tagged, can neither seal nor unseal, and has no U0.
pub fn is_revocable(v: Capability) -> bool
    ensures { result ≡ revocable v }
{
    let held = rights_of(v);
    let seals = choices::either(
        metadata::has(held, metadata::SE),
        metadata::has(held, metadata::US),
    );
    let spared = choices::either(seals, metadata::has(held, metadata::U0));
    choices::both(is_tagged(v), !spared)
}
