// At which addresses MTCC and MEPCC may stand.
ghost use Rattle.std.specs.Prelude.{◌≡◌, ◌<◌};
ghost use Rattle.state.specs.Addresses.{legalized, vector_alignment, return_alignment};

use crate::{RETURN_ALIGNMENT, VECTOR_ALIGNMENT};
use capability::Capability;

// A capability with its low address bits cleared, by the address-move rule.
#[tactic(auto, unfolding(crate::specs::Addresses::legalized))]
fn legalized<const UNIT: u32>(c: Capability) -> Capability
    requires { 0 < UNIT }
    ensures { result ≡ legalized UNIT c }
{
    capability::move_address(c, c.address / UNIT * UNIT)
}

// MTCC where it is used.
pub fn vector(c: Capability) -> Capability
    ensures { result ≡ legalized vector_alignment c }
{
    legalized::<VECTOR_ALIGNMENT>(c)
}

// MEPCC where it is used.
pub fn return_address(c: Capability) -> Capability
    ensures { result ≡ legalized return_alignment c }
{
    legalized::<RETURN_ALIGNMENT>(c)
}
