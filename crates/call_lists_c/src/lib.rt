// The list of calls for C: what crate call_lists promises, under the name of `include/oddersnow.h`: a static library exports its own functions alone.
#![tactic(auto)]

ghost use Rattle.capability.specs.Capability.{capability};
ghost use Rattle.call_lists.specs.Lists.{ListedNumber};

// 0, or the number of the first refusal: 4 for a tag, 11 for a size, 12 for a kind.
#[unsafe(no_mangle)]
pub extern "C" fn oddersnow_calls(
    address: u32,
    metadata: u32,
    tag: u32,
    kinds: &[u32],
    values: &[u32],
    out: &mut [u32],
) -> u32
    ensures { ListedNumber (capability address metadata tag) kinds.now values.now out.old out.new result }
{
    call_lists::oddersnow_calls(address, metadata, tag, kinds, values, out)
}
