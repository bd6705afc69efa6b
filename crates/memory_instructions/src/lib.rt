// What loads and stores do: the checks of the authority, the place in memory, then the value or the bytes.
#![tactic(auto)]

ghost use Rattle.std.specs.Prelude.{◌≡◌, ℕ, List, not};
ghost use Rattle.state.specs.Lent.{lent};
ghost use Rattle.state.specs.Registers.{register_at};
ghost use Rattle.capability.specs.Capability.{keep_tag_if};
ghost use Rattle.memory_instructions.specs.Access.{loaded_value, address_of, DoneAt, load_effect, store_effect, filtered, revoked_value};
ghost use Rattle.memory_instructions.specs.Access.{load_capability_effect, store_capability_check, store_capability_effect, memory_effect};

use capability::Capability;
use instructions::{LoadKind, MemoryInstruction, StoreKind};
use metadata::{GL, LD, MC, SD, SL};
use state::{
    Board, Effect, GRANULE_BYTES, LOAD_CAUSE, LOAD_FAULT, LOAD_MISALIGNED, Place, Revocation,
    SEAL_CAUSE, STORE_CAPABILITY_CAUSE, STORE_CAUSE, STORE_FAULT, STORE_LOCAL_CAUSE,
    STORE_MISALIGNED, TAG_CAUSE,
};
use std::num::wrapping_add_u32;

// The value of a load at a place of memory.
#[tactic(auto, unfolding(crate::specs::Access::loaded_value))]
fn loaded_value(kind: LoadKind, mem: &[u8], at: usize) -> u32
    ensures { result ≡ loaded_value kind mem.now at }
{
    match kind {
        LoadKind::Lb => words::sign_extend(words::load8(mem, at), 8),
        LoadKind::Lh => words::sign_extend(words::load16(mem, at), 16),
        LoadKind::Lw => words::load32(mem, at),
        LoadKind::Lbu => words::load8(mem, at),
        LoadKind::Lhu => words::load16(mem, at),
    }
}

// An access through a register: its number, what it holds, and the address.
#[derive(Clone, Copy)]
struct Access {
    register: u32,
    authority: Capability,
    address: u32,
}

impl Access {
    #[tactic(auto, using(state::proofs::Laws::integer_is))]
    fn through(regs: &[u32], register: u32, offset: u32) -> Access
        ensures { (result.register ≡ register) × (result.authority ≡ register_at regs.now register)
            × (result.address ≡ address_of regs.now register offset) }
    {
        let authority = state::register_at(regs, register);
        Access {
            register,
            authority,
            address: wrapping_add_u32(authority.address, offset),
        }
    }
}

// What an access does at its place, or the trap with the address where there is none.
fn at_place<F: FnOnce(u32) -> Effect>(
    p: Place,
    misaligned: u32,
    fault: u32,
    address: u32,
    access: F,
) -> Effect
    requires { F.IsAlwaysCallable access }
    ensures { DoneAt p misaligned fault address (F.post access) result }
{
    match p {
        Place::Misaligned => Effect::Trap {
            cause: misaligned,
            value: address,
        },
        Place::Outside => Effect::Trap {
            cause: fault,
            value: address,
        },
        Place::At(at) => access(at),
    }
}

// LB, LH, LW, LBU, LHU.
#[tactic(auto, unfolding(crate::specs::Access::load_effect, crate::specs::Access::load_at))]
fn load(kind: LoadKind, rd: u32, a: Access, start: u32, mem: &[u8]) -> Effect
    ensures { result ≡ load_effect kind rd a.register a.address a.authority start mem.now }
{
    let width = state::load_width(kind);
    let cause = state::access_cause(a.authority, LD, LOAD_CAUSE, a.address, width);
    let place = state::place_of(start, mem.len(), a.address, width);
    let done = at_place(
        place,
        LOAD_MISALIGNED,
        LOAD_FAULT,
        a.address,
        |at| Effect::Write {
            rd,
            value: capability::integer(loaded_value(kind, mem, at as usize)),
        },
    );
    state::checked_effect(a.register, cause, done)
}

// SB, SH, SW.
#[tactic(auto, unfolding(crate::specs::Access::store_effect, crate::specs::Access::store_at))]
fn store(kind: StoreKind, a: Access, value: u32, start: u32, size: usize) -> Effect
    ensures { result ≡ store_effect kind a.register a.address value a.authority start size }
{
    let width = state::store_width(kind);
    let cause = state::access_cause(a.authority, SD, STORE_CAUSE, a.address, width);
    let place = state::place_of(start, size, a.address, width);
    let done = at_place(
        place,
        STORE_MISALIGNED,
        STORE_FAULT,
        a.address,
        |at| Effect::Store { kind, at, value },
    );
    state::checked_effect(a.register, cause, done)
}

// Whether the revocation test takes a value's tag: its low bound lies in a marked granule. Outside the window counts as clear.
#[tactic(auto, unfolding(crate::specs::Access::revoked_value))]
pub fn is_revoked(board: Board, revoked: &[u8], v: Capability) -> bool
    ensures { result ≡ revoked_value board revoked.now v }
{
    let b = capability::bounds_of(v);
    match state::revocation_at(board, revoked, b.low) {
        Revocation::Outside => false,
        Revocation::Clear => false,
        Revocation::Marked => capability::is_revocable(v),
    }
}

// A value with its tag cleared where the test passes.
fn clear_if(clear: bool, v: Capability) -> Capability
    ensures { result ≡ keep_tag_if (not clear) v }
{
    if clear { Capability { tag: 0, ..v } } else { v }
}

// The load filter: the losses of missing rights, then revocation.
#[tactic(auto, unfolding(crate::specs::Access::filtered))]
fn filter(authority: Capability, value: Capability, board: Board, revoked: &[u8]) -> Capability
    ensures { (mem tags : List ℕ) → result ≡ filtered authority value (lent board mem tags revoked.now) }
{
    let v = capability::loaded(authority, value);
    clear_if(is_revoked(board, revoked, v), v)
}

// CLC.
#[tactic(auto, unfolding(crate::specs::Access::load_capability_effect, crate::specs::Access::load_capability_at))]
fn load_capability(
    rd: u32,
    a: Access,
    board: Board,
    mem: &[u8],
    tags: &[u8],
    revoked: &[u8],
) -> Effect
    ensures { result ≡ load_capability_effect rd a.register a.address a.authority (lent board mem.now tags.now revoked.now) }
{
    let cause = state::access_cause(a.authority, LD, LOAD_CAUSE, a.address, GRANULE_BYTES);
    let place = state::place_of(board.start, mem.len(), a.address, GRANULE_BYTES);
    let done = at_place(place, LOAD_MISALIGNED, LOAD_FAULT, a.address, |at| {
        let value = state::capability_in(mem, tags, at);
        Effect::Write {
            rd,
            value: filter(a.authority, value, board, revoked),
        }
    });
    state::checked_effect(a.register, cause, done)
}

// The cause for which a store of a capability traps, or 0: the authority's tag, seal and SD; MC and SL, which a tagged value asks, SL a local one; bounds.
#[tactic(auto, unfolding(crate::specs::Access::store_capability_check))]
fn store_capability_cause(authority: Capability, value: Capability, address: u32) -> u32
    ensures { result ≡ store_capability_check authority value address }
{
    let rights = capability::rights_of(authority);
    let tagged = capability::is_tagged(value);
    let global = capability::has_right(value, GL);
    if !capability::is_tagged(authority) {
        return TAG_CAUSE;
    }
    if capability::is_sealed(authority) {
        return SEAL_CAUSE;
    }
    if !metadata::has(rights, SD) {
        return STORE_CAUSE;
    }
    if choices::both(tagged, !metadata::has(rights, MC)) {
        return STORE_CAPABILITY_CAUSE;
    }
    if choices::all_three(tagged, !global, !metadata::has(rights, SL)) {
        return STORE_LOCAL_CAUSE;
    }
    state::bounds_cause(state::in_bounds(authority, address, GRANULE_BYTES))
}

// CSC.
#[tactic(auto, unfolding(crate::specs::Access::store_capability_effect, crate::specs::Access::store_capability_at))]
fn store_capability(a: Access, value: Capability, start: u32, size: usize) -> Effect
    ensures { result ≡ store_capability_effect a.register a.address value a.authority start size }
{
    let cause = store_capability_cause(a.authority, value, a.address);
    let place = state::place_of(start, size, a.address, GRANULE_BYTES);
    let done = at_place(place, STORE_MISALIGNED, STORE_FAULT, a.address, |at| {
        Effect::StoreCapability { at, value }
    });
    state::checked_effect(a.register, cause, done)
}

#[tactic(auto, unfolding(crate::specs::Access::memory_effect))]
pub fn memory_effect(
    i: MemoryInstruction,
    regs: &[u32],
    board: Board,
    mem: &[u8],
    tags: &[u8],
    revoked: &[u8],
) -> Effect
    ensures { result ≡ memory_effect i regs.now (lent board mem.now tags.now revoked.now) }
{
    match i {
        MemoryInstruction::Load {
            kind,
            rd,
            rs1,
            offset,
        } => load(
            kind,
            rd,
            Access::through(regs, rs1, offset),
            board.start,
            mem,
        ),
        MemoryInstruction::Store {
            kind,
            rs1,
            rs2,
            offset,
        } => {
            let a = Access::through(regs, rs1, offset);
            store(
                kind,
                a,
                state::integer_at(regs, rs2),
                board.start,
                mem.len(),
            )
        }
        MemoryInstruction::LoadCapability { rd, rs1, offset } => {
            let a = Access::through(regs, rs1, offset);
            load_capability(rd, a, board, mem, tags, revoked)
        }
        MemoryInstruction::StoreCapability { rs1, rs2, offset } => {
            let a = Access::through(regs, rs1, offset);
            store_capability(a, state::register_at(regs, rs2), board.start, mem.len())
        }
    }
}
