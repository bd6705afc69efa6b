// System instructions: opcodes MISC-MEM and SYSTEM.
ghost use Rattle.std.specs.Prelude.{◌≡◌};
ghost use Rattle.instructions.specs.Decode.{fence_of, csr_register_of, csr_immediate_of, csr_of, whole_of, system_of};

use crate::{Csr, CsrKind, Instruction, JumpInstruction, LAST_REGISTER, SystemInstruction};

// The words that are an instruction as a whole.
pub const ECALL: u32 = 0x0000_0073;

pub const EBREAK: u32 = 0x0010_0073;

pub const WFI: u32 = 0x1050_0073;

pub const MRET: u32 = 0x3020_0073;

// The numbers of the control and status registers that there are.
pub const MSTATUS: u32 = 0x300;

pub const MCAUSE: u32 = 0x342;

pub const MTVAL: u32 = 0x343;

pub const MSHWM: u32 = 0xBC1;

pub const MSHWMB: u32 = 0xBC2;

// MISC-MEM: FENCE, whatever its other fields.
#[tactic(auto, using(words::proofs::Tests::tests), unfolding(crate::specs::Decode::fence_of))]
pub(crate) fn decode_fence(f3: u32) -> Instruction
    ensures { result ≡ fence_of f3 }
{
    if f3 != 0 {
        return Instruction::Illegal;
    }
    Instruction::System(SystemInstruction::Fence)
}

// A CSR and a register, or five bits in its place.
#[tactic(auto, using(words::proofs::Tests::tests), unfolding(crate::specs::Decode::csr_register_of))]
fn csr_register(kind: CsrKind, csr: Csr, rd: u32, rs1: u32) -> Instruction
    ensures { result ≡ csr_register_of kind csr rd rs1 }
{
    if rd > LAST_REGISTER || rs1 > LAST_REGISTER {
        return Instruction::Illegal;
    }
    Instruction::System(SystemInstruction::CsrRegister { kind, csr, rd, rs1 })
}

#[tactic(auto, using(words::proofs::Tests::tests), unfolding(crate::specs::Decode::csr_immediate_of))]
fn csr_immediate(kind: CsrKind, csr: Csr, rd: u32, value: u32) -> Instruction
    ensures { result ≡ csr_immediate_of kind csr rd value }
{
    if rd > LAST_REGISTER {
        return Instruction::Illegal;
    }
    Instruction::System(SystemInstruction::CsrImmediate {
        kind,
        csr,
        rd,
        value,
    })
}

#[tactic(auto, using(words::proofs::Tests::tests), unfolding(crate::specs::Decode::csr_of))]
pub(crate) fn decode_csr(f3: u32, csr: Csr, rd: u32, rs1: u32) -> Instruction
    ensures { result ≡ csr_of f3 csr rd rs1 }
{
    match f3 {
        1 => return csr_register(CsrKind::Csrrw, csr, rd, rs1),
        2 => return csr_register(CsrKind::Csrrs, csr, rd, rs1),
        3 => return csr_register(CsrKind::Csrrc, csr, rd, rs1),
        5 => return csr_immediate(CsrKind::Csrrw, csr, rd, rs1),
        6 => return csr_immediate(CsrKind::Csrrs, csr, rd, rs1),
        7 => return csr_immediate(CsrKind::Csrrc, csr, rd, rs1),
        _ => return Instruction::Illegal,
    }
}

#[tactic(auto, using(words::proofs::Tests::tests), unfolding(crate::specs::Decode::whole_of))]
pub(crate) fn decode_whole(w: u32) -> Instruction
    ensures { result ≡ whole_of w }
{
    match w {
        ECALL => return Instruction::System(SystemInstruction::Ecall),
        EBREAK => return Instruction::System(SystemInstruction::Ebreak),
        WFI => return Instruction::System(SystemInstruction::Wfi),
        MRET => return Instruction::Jump(JumpInstruction::Mret),
        _ => return Instruction::Illegal,
    }
}

// SYSTEM: whole words under funct3 0, CSR instructions under the others.
#[tactic(auto, using(words::proofs::Tests::tests), unfolding(crate::specs::Decode::system_of))]
pub(crate) fn decode_system<const KEPT: bool>(
    w: u32,
    f3: u32,
    number: u32,
    rd: u32,
    rs1: u32,
) -> Instruction
    ensures { result ≡ system_of w f3 number rd rs1 }
{
    match f3 {
        0 => return decode_whole(w),
        _ => match number {
            MSTATUS => return decode_csr(f3, Csr::Mstatus, rd, rs1),
            MCAUSE => return decode_csr(f3, Csr::Mcause, rd, rs1),
            MTVAL => return decode_csr(f3, Csr::Mtval, rd, rs1),
            MSHWM => return decode_csr(f3, Csr::Mshwm, rd, rs1),
            MSHWMB => return decode_csr(f3, Csr::Mshwmb, rd, rs1),
            _ => return Instruction::Illegal,
        },
    }
}
