// One call on a capability, and the call that a kind and a value stand for.
ghost use Rattle.std.specs.Prelude.{◌≡◌, if◌then◌else◌, Ok, Err};
ghost use Rattle.call_lists.specs.Calls.{make_call};
ghost use Rattle.call_lists.specs.Lists.{call_of, is_known};
ghost use Rattle.call_lists.specs.declared.ListError.TheVariants.{UnknownKind};

use crate::{Call, ListError};
use capability::Capability;

// The kinds, as they are lent.
const CUT: u32 = 0;

const EXACT_CUT: u32 = 1;

const MOVE: u32 = 2;

const NARROWING: u32 = 3;

// One call of document 01, "Lists of cuts, moves and narrowings".
pub fn make_call(c: Capability, call: Call) -> Capability
    ensures { result ≡ make_call call c }
{
    match call {
        Call::Cut(length) => capability::set_bounds(c, length),
        Call::ExactCut(length) => capability::set_bounds_exact(c, length),
        Call::Move(to) => capability::move_address(c, to),
        Call::Narrow(mask) => capability::narrow_rights(c, mask),
    }
}

// From a kind and a value.
impl TryFrom<(u32, u32)> for Call {
    type Error = ListError;

    ghost try_from_gives = { λ lent call. call ≡ (if is_known lent.0 then Ok (call_of lent.0 lent.1) else Err UnknownKind) };

    fn try_from(lent: (u32, u32)) -> Result<Call, ListError> {
        let (kind, value) = lent;
        match kind {
            CUT => Ok(Call::Cut(value)),
            EXACT_CUT => Ok(Call::ExactCut(value)),
            MOVE => Ok(Call::Move(value)),
            NARROWING => Ok(Call::Narrow(value)),
            _ => Err(ListError::UnknownKind),
        }
    }
}
