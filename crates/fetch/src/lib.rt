// The fetch in halves: the instruction that stands at PCC, a half or a long word, or the trap of the first check that fails.
#![tactic(auto)]

ghost use Rattle.std.specs.Prelude.{◌≡◌, ◌+◌, cond, length, nat_le};
ghost use Rattle.short_forms.specs.Standing.{half_bytes};
ghost use Rattle.state.specs.Memory.{place_of};
ghost use Rattle.state.specs.Checks.{fetch_fault};
ghost use Rattle.fetch.specs.Fetch.{fault, shut_out, second_of, stands_of, fetched_at, fetch_of};

use capability::Capability;
use short_forms::{HALF_BYTES, LONG_BYTES};
use state::{
    BOUNDS_CAUSE, CAPABILITY_FAULT, EXECUTE_CAUSE, FETCH_FAULT, FETCH_MISALIGNED, NO_CAUSE,
    PCC_REGISTER, Place, TARGET_ALIGNMENT,
};

// What a fetch finds: a long word or a half.
#[derive(Clone, Copy)]
pub enum Fetched {
    Long(u32),
    Half(u32),
}

// What traps before anything is executed: mcause and mtval.
#[derive(Clone, Copy)]
pub struct Trap {
    pub cause: u32,
    pub value: u32,
}

// A capability trap of PCC.
#[tactic(auto, unfolding(crate::specs::Fetch::shut_out))]
fn shut_out(cause: u32) -> Trap
    ensures { Err result ≡ shut_out cause }
{
    Trap {
        cause: CAPABILITY_FAULT,
        value: PCC_REGISTER * 32 + cause % 32,
    }
}

// A long word: its second half in bounds, then in memory.
#[tactic(auto, unfolding(crate::specs::Fetch::second_of))]
fn second_half(pcc: Capability, word: u32, inside: bool) -> Result<Fetched, Trap>
    ensures { result ≡ second_of pcc word inside }
{
    if !state::in_bounds(pcc, pcc.address, LONG_BYTES) {
        return Err(shut_out(BOUNDS_CAUSE));
    }
    if inside {
        return Ok(Fetched::Long(word));
    }
    Err(Trap {
        cause: FETCH_FAULT,
        value: pcc.address.wrapping_add(HALF_BYTES),
    })
}

// A first half and the four bytes that start with it, of which the last two are in memory or not.
#[tactic(auto, unfolding(crate::specs::Fetch::stands_of))]
fn stands(pcc: Capability, half: u32, word: u32, inside: bool) -> Result<Fetched, Trap>
    ensures { result ≡ stands_of pcc half word inside }
{
    match half % 4 {
        3 => second_half(pcc, word, inside),
        _ => Ok(Fetched::Half(half)),
    }
}

fn outside(pcc: Capability) -> Trap
    ensures { Err result ≡ fault fetch_fault pcc.address }
{
    Trap {
        cause: FETCH_FAULT,
        value: pcc.address,
    }
}

// At a place from memory's start on: one load of four bytes, of which those outside memory are 0, gives both halves.
fn fetched_from(pcc: Capability, at: u32, mem: &[u8]) -> Result<Fetched, Trap>
    ensures { result ≡ cond (nat_le (at + half_bytes) (length mem.now)) (fetched_at (Place.At at) pcc mem.now)
        (fault fetch_fault pcc.address) }
{
    let size = mem.len() as u64;
    if at as u64 + LONG_BYTES as u64 <= size {
        let word = words::load32(mem, at as usize);
        return stands(pcc, word % 0x1_0000, word, true);
    }
    if at as u64 + HALF_BYTES as u64 <= size {
        let word = words::load32(mem, at as usize);
        return stands(pcc, word % 0x1_0000, word, false);
    }
    Err(outside(pcc))
}

// After PCC's checks: alignment, then the first half in memory.
fn fetched_at(pcc: Capability, start: u32, mem: &[u8]) -> Result<Fetched, Trap>
    ensures { result ≡ fetched_at (place_of start (length mem.now) pcc.address half_bytes) pcc mem.now }
{
    if pcc.address % TARGET_ALIGNMENT != 0 {
        return Err(Trap {
            cause: FETCH_MISALIGNED,
            value: pcc.address,
        });
    }
    if start <= pcc.address {
        return fetched_from(pcc, pcc.address - start, mem);
    }
    Err(outside(pcc))
}

// The fetch at PCC.
#[tactic(auto, unfolding(crate::specs::Fetch::fetch_of))]
pub fn fetch(pcc: Capability, start: u32, mem: &[u8]) -> Result<Fetched, Trap>
    ensures { result ≡ fetch_of pcc start mem.now }
{
    let cause = state::access_cause(pcc, metadata::EX, EXECUTE_CAUSE, pcc.address, HALF_BYTES);
    if cause == NO_CAUSE {
        fetched_at(pcc, start, mem)
    } else {
        Err(shut_out(cause))
    }
}
