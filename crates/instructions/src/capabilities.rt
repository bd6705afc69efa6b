// Capability instructions: opcodes CAPABILITY, AUIPCC and AUICGP.
ghost use Rattle.std.specs.Prelude.{◌≡◌};
ghost use Rattle.instructions.specs.Decode.{special_of, source_dest_of, rows, row_of, two_source_of, capability_of, auipcc_of, auicgp_of};

use crate::{
    CapabilityInstruction, Inspection, Instruction, LAST_REGISTER, Scr, SystemInstruction, selected,
};

// The numbers of the special capability registers.
pub const MTCC: u32 = 28;

pub const MTDC: u32 = 29;

pub const MSCRATCHC: u32 = 30;

pub const MEPCC: u32 = 31;

fn special(scr: Scr, rd: u32, rs1: u32) -> Instruction
    ensures { result ≡ Instruction.System (SystemInstruction.SpecialRw scr rd rs1) }
{
    Instruction::System(SystemInstruction::SpecialRw { scr, rd, rs1 })
}

// CSpecialRW: the rs2 field is the number of a special register.
#[tactic(auto, using(words::proofs::Tests::tests), unfolding(crate::specs::Decode::special_of))]
pub(crate) fn decode_special(number: u32, rd: u32, rs1: u32) -> Instruction
    ensures { result ≡ special_of number rd rs1 }
{
    match number {
        MTCC => return special(Scr::Mtcc, rd, rs1),
        MTDC => return special(Scr::Mtdc, rd, rs1),
        MSCRATCHC => return special(Scr::Mscratchc, rd, rs1),
        MEPCC => return special(Scr::Mepcc, rd, rs1),
        _ => return Instruction::Illegal,
    }
}

fn inspect(what: Inspection, rd: u32, rs1: u32) -> Instruction
    ensures { result ≡ Instruction.Capability (CapabilityInstruction.Inspect what rd rs1) }
{
    Instruction::Capability(CapabilityInstruction::Inspect { what, rd, rs1 })
}

// Two registers: the rs2 field selects.
#[tactic(auto, using(words::proofs::Tests::tests), unfolding(crate::specs::Decode::source_dest_of))]
pub(crate) fn decode_source_dest(func: u32, rd: u32, rs1: u32) -> Instruction
    ensures { result ≡ source_dest_of func rd rs1 }
{
    match func {
        0x00 => return inspect(Inspection::GetPerm, rd, rs1),
        0x01 => return inspect(Inspection::GetType, rd, rs1),
        0x02 => return inspect(Inspection::GetBase, rd, rs1),
        0x03 => return inspect(Inspection::GetLen, rd, rs1),
        0x04 => return inspect(Inspection::GetTag, rd, rs1),
        0x08 => return inspect(Inspection::RoundLength, rd, rs1),
        0x09 => return inspect(Inspection::AlignmentMask, rd, rs1),
        0x0a => return Instruction::Capability(CapabilityInstruction::Move { rd, rs1 }),
        0x0b => return Instruction::Capability(CapabilityInstruction::ClearTag { rd, rs1 }),
        0x0f => return inspect(Inspection::GetAddr, rd, rs1),
        0x17 => return inspect(Inspection::GetHigh, rd, rs1),
        0x18 => return inspect(Inspection::GetTop, rd, rs1),
        _ => return Instruction::Illegal,
    }
}

// Two sources: the row of funct7 is looked up only where the second is a register, which costs the run less.
fn two_sources<const KEPT: bool>(f7: u32, rd: u32, rs1: u32, rs2: u32) -> Instruction
    ensures { result ≡ row_of rows f7 rd rs1 rs2 Instruction.Illegal }
{
    if rs2 > LAST_REGISTER {
        return Instruction::Illegal;
    }
    match selected::<KEPT>(f7) {
        Some(what) => {
            return Instruction::Capability(CapabilityInstruction::Combine { what, rd, rs1, rs2 });
        }
        None => return Instruction::Illegal,
    }
}

// Three registers: funct7 selects.
#[tactic(auto, using(words::proofs::Tests::tests), unfolding(crate::specs::Decode::two_source_of))]
fn decode_two_source<const KEPT: bool>(f7: u32, rd: u32, rs1: u32, rs2: u32) -> Instruction
    ensures { result ≡ two_source_of f7 rd rs1 rs2 }
{
    match f7 {
        0x01 => return decode_special(rs2, rd, rs1),
        0x7f => return decode_source_dest(rs2, rd, rs1),
        _ => return two_sources::<KEPT>(f7, rd, rs1, rs2),
    }
}

// CAPABILITY: funct3 selects three registers or two and an immediate.
#[tactic(auto, using(words::proofs::Tests::tests), unfolding(crate::specs::Decode::capability_of))]
pub(crate) fn decode_capability<const KEPT: bool>(
    f3: u32,
    f7: u32,
    rd: u32,
    rs1: u32,
    rs2: u32,
    offset: u32,
    length: u32,
) -> Instruction
    ensures { result ≡ capability_of f3 f7 rd rs1 rs2 offset length }
{
    if rd > LAST_REGISTER || rs1 > LAST_REGISTER {
        return Instruction::Illegal;
    }
    match f3 {
        0 => return decode_two_source::<KEPT>(f7, rd, rs1, rs2),
        1 => {
            return Instruction::Capability(CapabilityInstruction::IncAddrImm { rd, rs1, offset });
        }
        2 => {
            return Instruction::Capability(CapabilityInstruction::SetBoundsImm { rd, rs1, length });
        }
        _ => return Instruction::Illegal,
    }
}

// AUIPCC, AUICGP: twenty bits that count units of 2^11.
#[tactic(auto, using(words::proofs::Tests::tests), unfolding(crate::specs::Decode::auipcc_of))]
pub(crate) fn decode_auipcc(rd: u32, offset: u32) -> Instruction
    ensures { result ≡ auipcc_of rd offset }
{
    if rd > LAST_REGISTER {
        return Instruction::Illegal;
    }
    Instruction::Capability(CapabilityInstruction::AuiPcc { rd, offset })
}

#[tactic(auto, using(words::proofs::Tests::tests), unfolding(crate::specs::Decode::auicgp_of))]
pub(crate) fn decode_auicgp(rd: u32, offset: u32) -> Instruction
    ensures { result ≡ auicgp_of rd offset }
{
    if rd > LAST_REGISTER {
        return Instruction::Illegal;
    }
    Instruction::Capability(CapabilityInstruction::AuiCgp { rd, offset })
}
