// What FENCE, WFI, ECALL, EBREAK, the CSR instructions and CSpecialRW do.
#![tactic(auto)]

ghost use Rattle.std.specs.Prelude.{◌≡◌};
ghost use Rattle.system_instructions.specs.System.{csr_asked, csr_written, csr_writes, csr_write, csr_effect, scr_value, special_write};
ghost use Rattle.system_instructions.specs.System.{special_effect, system_effect};

use capability::Capability;
use instructions::{Csr, CsrKind, Scr, SystemInstruction};
use state::{BREAKPOINT, ENVIRONMENT_CALL, Effect, GENERAL_COUNT, PCC_REGISTER};

// What a CSR instruction asks to write.
#[tactic(auto, unfolding(crate::specs::System::csr_asked))]
fn csr_asked(kind: CsrKind, old: u32, operand: u32) -> u32
    ensures { result ≡ csr_asked kind old operand }
{
    match kind {
        CsrKind::Csrrw => operand,
        CsrKind::Csrrs => words::or(old, operand),
        CsrKind::Csrrc => words::and(old, !operand),
    }
}

// What is written of it.
#[tactic(auto, unfolding(crate::specs::System::csr_written))]
fn csr_written(csr: Csr, old: u32, asked: u32) -> u32
    ensures { result ≡ csr_written csr old asked }
{
    match csr {
        Csr::Mstatus => state::written_status(old, asked),
        Csr::Mcause => asked,
        Csr::Mtval => asked,
        Csr::Mshwm => state::clear_low(asked),
        Csr::Mshwmb => state::clear_low(asked),
    }
}

// Whether there is a write at all, by the register or the immediate that is named.
#[tactic(auto, unfolding(crate::specs::System::csr_writes))]
fn csr_writes(kind: CsrKind, named: u32) -> bool
    ensures { result ≡ csr_writes kind named }
{
    match kind {
        CsrKind::Csrrw => true,
        CsrKind::Csrrs => named != 0,
        CsrKind::Csrrc => named != 0,
    }
}

// The read, and the write where there is one.
#[tactic(auto, unfolding(crate::specs::System::csr_write))]
fn csr_write(writes: bool, csr: Csr, rd: u32, old: u32, value: u32) -> Effect
    ensures { result ≡ csr_write writes csr rd old value }
{
    if writes {
        Effect::WriteCsr {
            rd,
            old,
            csr,
            value,
        }
    } else {
        Effect::Write {
            rd,
            value: capability::integer(old),
        }
    }
}

#[tactic(auto, unfolding(crate::specs::System::csr_effect))]
fn csr_effect(kind: CsrKind, csr: Csr, rd: u32, named: u32, operand: u32, regs: &[u32]) -> Effect
    ensures { result ≡ csr_effect kind csr rd named operand regs.now }
{
    let old = state::csr_at(regs, csr);
    let value = csr_written(csr, old, csr_asked(kind, old, operand));
    let access = state::system_access(state::pcc_of(regs));
    state::checked_effect(
        PCC_REGISTER,
        access,
        csr_write(csr_writes(kind, named), csr, rd, old, value),
    )
}

// A special register as it is read or written.
#[tactic(auto, unfolding(crate::specs::System::scr_value))]
fn scr_value(scr: Scr, c: Capability) -> Capability
    ensures { result ≡ scr_value scr c }
{
    match scr {
        Scr::Mtcc => state::vector(c),
        Scr::Mtdc => c,
        Scr::Mscratchc => c,
        Scr::Mepcc => state::return_address(c),
    }
}

// The read, and the write where cs1 is not c0.
#[tactic(auto, unfolding(crate::specs::System::special_write))]
fn special_write(scr: Scr, rd: u32, rs1: u32, old: Capability, value: Capability) -> Effect
    ensures { result ≡ special_write scr rd rs1 old value }
{
    if rs1 % GENERAL_COUNT == 0 {
        Effect::Write { rd, value: old }
    } else {
        Effect::WriteScr {
            rd,
            old,
            scr,
            value,
        }
    }
}

// CSpecialRW.
#[tactic(auto, unfolding(crate::specs::System::special_effect))]
fn special(scr: Scr, rd: u32, rs1: u32, regs: &[u32]) -> Effect
    ensures { result ≡ special_effect scr rd rs1 regs.now }
{
    let old = scr_value(scr, state::capability_at(regs, state::scr_index(scr)));
    let value = scr_value(scr, state::register_at(regs, rs1));
    let access = state::system_access(state::pcc_of(regs));
    state::checked_effect(
        PCC_REGISTER + state::scr_number(scr),
        access,
        special_write(scr, rd, rs1, old, value),
    )
}

#[tactic(auto, unfolding(crate::specs::System::system_effect))]
pub fn system_effect(i: SystemInstruction, regs: &[u32]) -> Effect
    ensures { result ≡ system_effect i regs.now }
{
    match i {
        SystemInstruction::Fence => Effect::Advance,
        SystemInstruction::Wfi => Effect::Advance,
        SystemInstruction::Ecall => Effect::Trap {
            cause: ENVIRONMENT_CALL,
            value: 0,
        },
        SystemInstruction::Ebreak => Effect::Trap {
            cause: BREAKPOINT,
            value: 0,
        },
        SystemInstruction::CsrRegister { kind, csr, rd, rs1 } => {
            csr_effect(
                kind,
                csr,
                rd,
                rs1 % GENERAL_COUNT,
                state::integer_at(regs, rs1),
                regs,
            )
        }
        SystemInstruction::CsrImmediate {
            kind,
            csr,
            rd,
            value,
        } => csr_effect(kind, csr, rd, value, value, regs),
        SystemInstruction::SpecialRw { scr, rd, rs1 } => special(scr, rd, rs1, regs),
    }
}
