// What jumps, branches and MRET do.
#![tactic(auto)]

ghost use Rattle.std.specs.Prelude.{◌≡◌, ◌+◌, ◌*◌, ◌/◌, not, ◌&&◌, ◌||◌};
ghost use Rattle.capability.specs.Capability.{integer};
ghost use Rattle.state.specs.Registers.{pc_of, integer_at, register_at};
ghost use Rattle.words.specs.Words.{wrap};
ghost use Rattle.jump_instructions.specs.Editions.{later_table, accepts, link_type, report_status, later_status, jump_status};
ghost use Rattle.jump_instructions.specs.Jumps.{link_of, aligned, target_cause, jal_effect, jalr_cause, jalr_effect, taken};
ghost use Rattle.jump_instructions.specs.Jumps.{taken_effect, branch_effect, mret_effect, jump_effect};

use capability::{Capability, SENTRY, SENTRY_DISABLING, SENTRY_ENABLING};
use instructions::{BranchKind, Csr, JumpInstruction};
use state::{
    EXECUTE_CAUSE, Effect, FETCH_MISALIGNED, LATER_EDITION, MEPCC_INDEX, PCC_REGISTER, SEAL_CAUSE,
    TAG_CAUSE, TARGET_ALIGNMENT, TARGET_BYTES,
};
use std::num::wrapping_add_u32;

// The types of return sentries: 4 disables and 5 enables interrupts.
pub const RETURN_DISABLING: u32 = 4;

pub const RETURN_ENABLING: u32 = 5;

// The register that a call links and a return goes through, and the one that a jump without a link names.
pub const LINK_REGISTER: u32 = 1;

pub const NO_LINK: u32 = 0;

// ---- what the edition decides

// Whether the later edition's table has a target of a type for a jump that links cd and goes through cs1.
#[tactic(auto, unfolding(crate::specs::Editions::later_table))]
fn later_table(t: u32, cd: u32, cs1: u32) -> bool
    ensures { result ≡ later_table t cd cs1 }
{
    if choices::both(cd == NO_LINK, cs1 == LINK_REGISTER) {
        return choices::either(t == RETURN_DISABLING, t == RETURN_ENABLING);
    }
    if cd == LINK_REGISTER {
        return choices::both(SENTRY <= t, t <= SENTRY_ENABLING);
    }
    t == SENTRY
}

// Whether a jump accepts a sealed target.
#[tactic(auto, unfolding(crate::specs::Editions::accepts))]
pub fn accepts(edition: u32, c: Capability, cd: u32, cs1: u32) -> bool
    ensures { result ≡ accepts edition c cd cs1 }
{
    if edition == LATER_EDITION {
        choices::both(
            capability::has_right(c, metadata::EX),
            later_table(metadata::otype(c.metadata), cd, cs1),
        )
    } else {
        capability::is_sentry(c)
    }
}

// The type of a link: an enabling one if MIE is set, else a disabling one.
#[tactic(auto, unfolding(crate::specs::Editions::link_type))]
pub fn link_type(edition: u32, mstatus: u32) -> u32
    ensures { result ≡ link_type edition mstatus }
{
    let enabled = state::mie_of(mstatus) == 1;
    if edition == LATER_EDITION {
        choices::choose(enabled, RETURN_ENABLING, RETURN_DISABLING)
    } else {
        choices::choose(enabled, SENTRY_ENABLING, SENTRY_DISABLING)
    }
}

#[tactic(auto, unfolding(crate::specs::Editions::report_status))]
fn report_status(t: u32, mstatus: u32) -> u32
    ensures { result ≡ report_status t mstatus }
{
    if t == SENTRY_DISABLING {
        return state::with_mie(mstatus, 0);
    }
    if t == SENTRY_ENABLING {
        return state::with_mie(mstatus, 1);
    }
    mstatus
}

#[tactic(auto, unfolding(crate::specs::Editions::later_status))]
fn later_status(t: u32, mstatus: u32) -> u32
    ensures { result ≡ later_status t mstatus }
{
    if choices::either(t == SENTRY_DISABLING, t == RETURN_DISABLING) {
        return state::with_mie(mstatus, 0);
    }
    if choices::either(t == SENTRY_ENABLING, t == RETURN_ENABLING) {
        return state::with_mie(mstatus, 1);
    }
    mstatus
}

// mstatus after a jump by a target of a type.
#[tactic(auto, unfolding(crate::specs::Editions::jump_status))]
pub fn jump_status(edition: u32, t: u32, mstatus: u32) -> u32
    ensures { result ≡ jump_status edition t mstatus }
{
    if edition == LATER_EDITION {
        later_status(t, mstatus)
    } else {
        report_status(t, mstatus)
    }
}

// ---- jumps

// The link of a jump of some bytes: PCC after it, sealed.
#[tactic(auto, unfolding(crate::specs::Jumps::link_of))]
fn link_of(bytes: u32, edition: u32, pcc: Capability, mstatus: u32) -> Capability
    ensures { result ≡ link_of bytes edition pcc mstatus }
{
    let next = capability::move_address(pcc, wrapping_add_u32(pcc.address, bytes));
    capability::with_object_type(next, link_type(edition, mstatus))
}

// The effect where a target is aligned, else the trap.
#[tactic(auto, unfolding(crate::specs::Jumps::aligned))]
fn aligned_effect(target: u32, e: Effect) -> Effect
    ensures { result ≡ aligned target e }
{
    if target % TARGET_ALIGNMENT == 0 {
        e
    } else {
        Effect::Trap {
            cause: FETCH_MISALIGNED,
            value: target,
        }
    }
}

// The cause for which a target is out of bounds, or 0.
#[tactic(auto, unfolding(crate::specs::Jumps::target_cause))]
fn target_cause(c: Capability, target: u32) -> u32
    ensures { result ≡ target_cause c target }
{
    state::bounds_cause(state::in_bounds(c, target, TARGET_BYTES))
}

// CJAL.
#[tactic(auto, unfolding(crate::specs::Jumps::jal_effect))]
fn jal(bytes: u32, edition: u32, rd: u32, offset: u32, regs: &[u32]) -> Effect
    ensures { result ≡ jal_effect bytes edition rd (wrap (pc_of regs.now + offset)) regs.now }
{
    let pcc = state::pcc_of(regs);
    let mstatus = state::csr_at(regs, Csr::Mstatus);
    let target = wrapping_add_u32(pcc.address, offset);
    let jump = Effect::Jump {
        rd,
        link: link_of(bytes, edition, pcc, mstatus),
        target: capability::move_address(pcc, target),
        mstatus,
    };
    state::checked_effect(
        PCC_REGISTER,
        target_cause(pcc, target),
        aligned_effect(target, jump),
    )
}

// Whether a target may not be jumped to: sealed, and not accepted or with an offset.
fn is_shut(sealed: bool, accepted: bool, still: bool) -> bool
    ensures { result ≡ (sealed && (not accepted || not still)) }
{
    sealed && (!accepted || !still)
}

// The cause for which a target may not be jumped to, or 0: tag, seal, EX, bounds.
#[tactic(auto, unfolding(crate::specs::Jumps::jalr_cause))]
fn jalr_cause(edition: u32, rd: u32, rs1: u32, c: Capability, offset: u32, target: u32) -> u32
    ensures { result ≡ jalr_cause edition rd rs1 c offset target }
{
    if !capability::is_tagged(c) {
        return TAG_CAUSE;
    }
    if is_shut(
        capability::is_sealed(c),
        accepts(edition, c, rd, rs1),
        offset == 0,
    ) {
        return SEAL_CAUSE;
    }
    if !capability::has_right(c, metadata::EX) {
        return EXECUTE_CAUSE;
    }
    target_cause(c, target)
}

// CJALR.
#[tactic(auto, using(state::proofs::Laws::integer_is), unfolding(crate::specs::Jumps::jalr_effect))]
fn jalr(bytes: u32, edition: u32, rd: u32, rs1: u32, offset: u32, regs: &[u32]) -> Effect
    ensures { result ≡ jalr_effect bytes edition rd rs1 offset (wrap (integer_at regs.now rs1 + offset) / 2 * 2)
        (register_at regs.now rs1) regs.now }
{
    let c = state::register_at(regs, rs1);
    let target = wrapping_add_u32(c.address, offset) / 2 * 2;
    let mstatus = state::csr_at(regs, Csr::Mstatus);
    let jump = Effect::Jump {
        rd,
        link: link_of(bytes, edition, state::pcc_of(regs), mstatus),
        target: capability::move_address(capability::with_object_type(c, 0), target),
        mstatus: jump_status(edition, metadata::otype(c.metadata), mstatus),
    };
    state::checked_effect(
        rs1,
        jalr_cause(edition, rd, rs1, c, offset, target),
        aligned_effect(target, jump),
    )
}

// Whether a branch is taken.
#[tactic(auto, unfolding(crate::specs::Jumps::taken))]
pub fn is_taken(kind: BranchKind, a: u32, b: u32) -> bool
    ensures { result ≡ taken kind a b }
{
    match kind {
        BranchKind::Beq => a == b,
        BranchKind::Bne => a != b,
        BranchKind::Blt => words::less_signed(a, b),
        BranchKind::Bge => !words::less_signed(a, b),
        BranchKind::Bltu => a < b,
        BranchKind::Bgeu => !(a < b),
    }
}

// A taken branch.
#[tactic(auto, unfolding(crate::specs::Jumps::taken_effect))]
fn take(offset: u32, regs: &[u32]) -> Effect
    ensures { result ≡ taken_effect (wrap (pc_of regs.now + offset)) regs.now }
{
    let pcc = state::pcc_of(regs);
    let target = wrapping_add_u32(pcc.address, offset);
    let jump = go_to(
        capability::move_address(pcc, target),
        state::csr_at(regs, Csr::Mstatus),
    );
    state::checked_effect(
        PCC_REGISTER,
        target_cause(pcc, target),
        aligned_effect(target, jump),
    )
}

// A jump that links no register.
fn go_to(target: Capability, mstatus: u32) -> Effect
    ensures { result ≡ Effect.Jump 0 (integer 0) target mstatus }
{
    Effect::Jump {
        rd: 0,
        link: capability::integer(0),
        target,
        mstatus,
    }
}

#[tactic(auto, unfolding(crate::specs::Jumps::branch_effect))]
fn branch(takes: bool, offset: u32, regs: &[u32]) -> Effect
    ensures { result ≡ branch_effect takes (wrap (pc_of regs.now + offset)) regs.now }
{
    if takes {
        take(offset, regs)
    } else {
        Effect::Advance
    }
}

#[tactic(auto, unfolding(crate::specs::Jumps::mret_effect))]
fn mret(regs: &[u32]) -> Effect
    ensures { result ≡ mret_effect regs.now }
{
    let back = state::return_address(state::capability_at(regs, MEPCC_INDEX));
    let mstatus = state::return_status(state::csr_at(regs, Csr::Mstatus));
    state::checked_effect(
        PCC_REGISTER,
        state::system_access(state::pcc_of(regs)),
        go_to(back, mstatus),
    )
}

// What a jump of some bytes does, in an edition.
#[tactic(auto, using(state::proofs::Laws::integer_is), unfolding(crate::specs::Jumps::jump_effect))]
pub fn jump_effect(bytes: u32, edition: u32, i: JumpInstruction, regs: &[u32]) -> Effect
    ensures { result ≡ jump_effect bytes edition i regs.now }
{
    match i {
        JumpInstruction::Jal { rd, offset } => jal(bytes, edition, rd, offset, regs),
        JumpInstruction::Jalr { rd, rs1, offset } => jalr(bytes, edition, rd, rs1, offset, regs),
        JumpInstruction::Branch {
            kind,
            rs1,
            rs2,
            offset,
        } => {
            let takes = is_taken(
                kind,
                state::integer_at(regs, rs1),
                state::integer_at(regs, rs2),
            );
            branch(takes, offset, regs)
        }
        JumpInstruction::Mret => mret(regs),
    }
}
