// The list of calls for C and Rust, in numbers and slices.
ghost use Rattle.capability.specs.Capability.{capability};
ghost use Rattle.call_lists.specs.Lists.{ListedNumber};

use crate::lists::run_calls;
use capability::Capability;

// Document 01's number of what is not refused.
const RAN: u32 = 0;

// 0, or the number of the first refusal: 4 for a tag, 11 for a size, 12 for a kind.
#[unsafe(no_mangle)]
pub extern "C" fn oddersnow_calls(
    address: u32,
    metadata: u32,
    tag: u32,
    kinds: &[u32],
    values: &[u32],
    out: &mut [u32],
) -> u32
    ensures { ListedNumber (capability address metadata tag) kinds.now values.now out.old out.new result }
{
    let c = Capability {
        address,
        metadata,
        tag,
    };
    match run_calls(c, kinds, values, out) {
        Ok(_) => RAN,
        Err(e) => e.number(),
    }
}
