// The checks that come before an effect, in the order in which they happen, and the trap of the first that fails.
ghost use Rattle.std.specs.Prelude.{◌≡◌, not};
ghost use Rattle.state.specs.Checks.{capability_trap, checked, fail_if, in_bounds, access_cause, system_access, bounds_cause, no_cause};

// A cause is a number, and 0 none: mtval holds it, and these functions take any, so an enum would ask more of callers.
use crate::{
    BOUNDS_CAUSE, CAPABILITY_FAULT, Effect, NO_CAUSE, SEAL_CAUSE, SYSTEM_CAUSE, TAG_CAUSE,
};
use capability::Capability;

// A capability trap that names a register and a cause.
pub fn capability_trap(register: u32, cause: u32) -> Effect
    ensures { result ≡ capability_trap register cause }
{
    Effect::Trap {
        cause: CAPABILITY_FAULT,
        value: register % 64 * 32 + cause % 32,
    }
}

// The effect where no check failed, else the capability trap.
pub fn checked_effect(register: u32, cause: u32, e: Effect) -> Effect
    ensures { result ≡ checked register cause e }
{
    if cause == NO_CAUSE {
        e
    } else {
        capability_trap(register, cause)
    }
}

// Whether width bytes at an address are in a capability's bounds.
pub fn in_bounds(c: Capability, address: u32, width: u32) -> bool
    ensures { result ≡ in_bounds c address width }
{
    capability::covers_range(c, address as u64, address as u64 + width as u64)
}

// The cause where a target or an access is out of bounds.
pub fn bounds_cause(inside: bool) -> u32
    ensures { result ≡ fail_if (not inside) bounds_cause no_cause }
{
    if inside { NO_CAUSE } else { BOUNDS_CAUSE }
}

// The cause for which an access through a capability traps, or 0.
pub fn access_cause(c: Capability, k: u32, right: u32, address: u32, width: u32) -> u32
    ensures { result ≡ access_cause c k right address width }
{
    if !capability::is_tagged(c) {
        return TAG_CAUSE;
    }
    if capability::is_sealed(c) {
        return SEAL_CAUSE;
    }
    if !metadata::has(capability::rights_of(c), k) {
        return right;
    }
    if !in_bounds(c, address, width) {
        return BOUNDS_CAUSE;
    }
    NO_CAUSE
}

// The cause for which a special register or MRET is refused, or 0.
pub fn system_access(pcc: Capability) -> u32
    ensures { result ≡ system_access pcc }
{
    if !metadata::has(capability::rights_of(pcc), metadata::SR) {
        return SYSTEM_CAUSE;
    }
    NO_CAUSE
}
