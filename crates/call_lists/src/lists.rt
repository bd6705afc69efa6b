// A list of calls, each given what the last one returned; every capability returned is written to the lent words.
ghost use Rattle.std.specs.Prelude.{◌≡◌, ◌+◌, ◌*◌, ◌≤◌, length, true};
ghost use Rattle.call_lists.specs.Lists.{all_known, calls_of, put_words, sizes_fit, Written, Listed};

use crate::calls::make_call;
use crate::{Call, ListError, MOST_TAG, WORDS};
use capability::Capability;
use choices::all_three;

// How many kinds there are.
const KINDS: u32 = 4;

// Whether every kind is known.
fn all_known(kinds: &[u32]) -> bool
    ensures { result ≡ all_known kinds.now }
{
    kinds.iter().all(|kind| *kind < KINDS)
}

// As many values as kinds, and three words for each.
fn sizes_fit(kinds: usize, values: usize, out: usize) -> bool
    ensures { result ≡ sizes_fit kinds values out }
{
    all_three(values == kinds, out % WORDS == 0, out / WORDS == kinds)
}

// The words of the capability at number i: written by index, for of a chunk of a lent slice the kit says nothing after the write.
fn put_words(out: &mut [u32], i: usize, c: Capability)
    requires { 3 * i + 3 ≤ length out.old }
    ensures { out.new ≡ put_words out.old i c }
{
    out[WORDS * i] = c.address;
    out[WORDS * i + 1] = c.metadata;
    out[WORDS * i + 2] = c.tag;
}

// All calls, and what each returned.
fn write_calls(c: Capability, kinds: &[u32], values: &[u32], out: &mut [u32]) -> Capability
    requires known { all_known kinds.now ≡ true }
    requires sizes { (length values.now ≡ length kinds.now) × (length out.old ≡ 3 * length kinds.now) }
    ensures { Written c (calls_of kinds.now values.now) result out.new }
{
    let mut s = c;
    for (n, kind) in kinds.iter().enumerate() {
        let call = Call::try_from((*kind, values[n])).unwrap();
        s = make_call(s, call);
        put_words(out, n, s);
    }
    s
}

// A list from a capability: each call has a kind, and a length, an address or a mask. The two lie side by side, as C lends them.
pub fn run_calls(
    c: Capability,
    kinds: &[u32],
    values: &[u32],
    out: &mut [u32],
) -> Result<Capability, ListError>
    ensures { Listed c kinds.now values.now out.old out.new result }
{
    if MOST_TAG < c.tag {
        return Err(ListError::BadTag);
    }
    if !sizes_fit(kinds.len(), values.len(), out.len()) {
        return Err(ListError::WrongSize);
    }
    if !all_known(kinds) {
        return Err(ListError::UnknownKind);
    }
    Ok(write_calls(c, kinds, values, out))
}
