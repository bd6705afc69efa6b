// Instructions, and the decoder from a word to one, by value: a module for each family of opcodes, and `decode` over them. The rows of their matches are
// the tables of the standard and of the report: funct3, funct7 and the rs2 field as numbers, each beside its instruction's name.
// An arm of a match returns at once: where arms meet, the text that the check generates is about three times as long.
#![tactic(auto)]

mod capabilities;
mod fields;
mod integer;
mod jumps;
mod memory;
mod opcodes;
mod system;

ghost use Rattle.std.specs.Prelude.{◌≡◌};
ghost use Rattle.instructions.specs.Decode.{Selected, decode_of};

use capabilities::{decode_auicgp, decode_auipcc, decode_capability};
use fields::{
    POW_3, POW_5, POW_7, POW_12, POW_15, POW_20, POW_25, aui_offset, imm_b, imm_i, imm_j, imm_s,
    imm_u,
};
use integer::{decode_lui, decode_op, decode_op_imm};
use jumps::{decode_branch, decode_jal, decode_jalr};
use memory::{decode_load, decode_store};
use system::{decode_fence, decode_system};

// There are sixteen registers, so a field of five bits can name what is none.
pub const LAST_REGISTER: u32 = 15;

#[derive(Clone, Copy)]
pub enum Alu {
    Add,
    Sub,
    Sll,
    Slt,
    Sltu,
    Xor,
    Srl,
    Sra,
    Or,
    And,
}

// Multiply and divide stand apart from Alu: no immediate is multiplied, and every integer instruction would take longer.
#[derive(Clone, Copy)]
pub enum MultiplyKind {
    Mul,
    Mulh,
    Mulhsu,
    Mulhu,
}

#[derive(Clone, Copy)]
pub enum DivideKind {
    Div,
    Divu,
    Rem,
    Remu,
}

#[derive(Clone, Copy)]
pub enum BranchKind {
    Beq,
    Bne,
    Blt,
    Bge,
    Bltu,
    Bgeu,
}

#[derive(Clone, Copy)]
pub enum LoadKind {
    Lb,
    Lh,
    Lw,
    Lbu,
    Lhu,
}

#[derive(Clone, Copy)]
pub enum StoreKind {
    Sb,
    Sh,
    Sw,
}

#[derive(Clone, Copy)]
pub enum CsrKind {
    Csrrw,
    Csrrs,
    Csrrc,
}

#[derive(Clone, Copy)]
pub enum Csr {
    Mstatus,
    Mcause,
    Mtval,
    Mshwm,
    Mshwmb,
}

// Special capability registers, numbers 28, 29, 30, 31.
#[derive(Clone, Copy)]
pub enum Scr {
    Mtcc,
    Mtdc,
    Mscratchc,
    Mepcc,
}

// What is read of a capability, or of a length, into an integer register.
#[derive(Clone, Copy)]
pub enum Inspection {
    GetPerm,
    GetType,
    GetBase,
    GetLen,
    GetTag,
    RoundLength,
    AlignmentMask,
    GetAddr,
    GetHigh,
    GetTop,
}

// What is made of two source registers.
#[derive(Clone, Copy)]
pub enum Combination {
    SetBounds,
    SetBoundsExact,
    Seal,
    Unseal,
    AndPerm,
    SetAddr,
    IncAddr,
    SubAddr,
    SetHigh,
    TestSubset,
    SetEqualExact,
}

// What funct7 selects of them: the rows of the report's table, beside their enum. A row more is a row here.
pub(crate) fn selected<const KEPT: bool>(f7: u32) -> Option<Combination>
    ensures { Selected f7 result }
{
    match f7 {
        0x08 => return Some(Combination::SetBounds),
        0x09 => return Some(Combination::SetBoundsExact),
        0x0b => return Some(Combination::Seal),
        0x0c => return Some(Combination::Unseal),
        0x0d => return Some(Combination::AndPerm),
        0x10 => return Some(Combination::SetAddr),
        0x11 => return Some(Combination::IncAddr),
        0x14 => return Some(Combination::SubAddr),
        0x16 => return Some(Combination::SetHigh),
        0x20 => return Some(Combination::TestSubset),
        0x21 => return Some(Combination::SetEqualExact),
        _ => return None,
    }
}

#[derive(Clone, Copy)]
pub enum IntegerInstruction {
    Lui {
        rd: u32,
        value: u32,
    },
    OpImm {
        op: Alu,
        rd: u32,
        rs1: u32,
        value: u32,
    },
    Op {
        op: Alu,
        rd: u32,
        rs1: u32,
        rs2: u32,
    },
    Multiply {
        kind: MultiplyKind,
        rd: u32,
        rs1: u32,
        rs2: u32,
    },
    Divide {
        kind: DivideKind,
        rd: u32,
        rs1: u32,
        rs2: u32,
    },
}

#[derive(Clone, Copy)]
pub enum JumpInstruction {
    Jal {
        rd: u32,
        offset: u32,
    },
    Jalr {
        rd: u32,
        rs1: u32,
        offset: u32,
    },
    Branch {
        kind: BranchKind,
        rs1: u32,
        rs2: u32,
        offset: u32,
    },
    Mret,
}

#[derive(Clone, Copy)]
pub enum MemoryInstruction {
    Load {
        kind: LoadKind,
        rd: u32,
        rs1: u32,
        offset: u32,
    },
    Store {
        kind: StoreKind,
        rs1: u32,
        rs2: u32,
        offset: u32,
    },
    LoadCapability {
        rd: u32,
        rs1: u32,
        offset: u32,
    },
    StoreCapability {
        rs1: u32,
        rs2: u32,
        offset: u32,
    },
}

#[derive(Clone, Copy)]
pub enum CapabilityInstruction {
    AuiPcc {
        rd: u32,
        offset: u32,
    },
    AuiCgp {
        rd: u32,
        offset: u32,
    },
    IncAddrImm {
        rd: u32,
        rs1: u32,
        offset: u32,
    },
    SetBoundsImm {
        rd: u32,
        rs1: u32,
        length: u32,
    },
    Move {
        rd: u32,
        rs1: u32,
    },
    ClearTag {
        rd: u32,
        rs1: u32,
    },
    Inspect {
        what: Inspection,
        rd: u32,
        rs1: u32,
    },
    Combine {
        what: Combination,
        rd: u32,
        rs1: u32,
        rs2: u32,
    },
}

#[derive(Clone, Copy)]
pub enum SystemInstruction {
    Fence,
    Wfi,
    Ecall,
    Ebreak,
    CsrRegister {
        kind: CsrKind,
        csr: Csr,
        rd: u32,
        rs1: u32,
    },
    CsrImmediate {
        kind: CsrKind,
        csr: Csr,
        rd: u32,
        value: u32,
    },
    SpecialRw {
        scr: Scr,
        rd: u32,
        rs1: u32,
    },
}

#[derive(Clone, Copy)]
pub enum Instruction {
    Integer(IntegerInstruction),
    Jump(JumpInstruction),
    Memory(MemoryInstruction),
    Capability(CapabilityInstruction),
    System(SystemInstruction),
    // A case, and no Option of the five: every match over it would be a match in a match.
    Illegal,
}

// The instruction that a word is.
#[tactic(auto, using(words::proofs::Tests::tests), unfolding(crate::specs::Decode::decode_of))]
pub fn decode(word: u32) -> Instruction
    ensures { result ≡ decode_of word }
{
    decode_for::<false>(word)
}

// The same, compiled once for each engine: the quick one KEPT what it decodes. A step of the plain machine has its decoder compiled in only while that has one
// caller, and called by the second engine too it costs the plain one tens of the host's instructions a step.
#[tactic(auto, using(words::proofs::Tests::tests), unfolding(crate::specs::Decode::decode_of))]
pub fn decode_for<const KEPT: bool>(word: u32) -> Instruction
    ensures { result ≡ decode_of word }
{
    let rd = word / POW_7 % POW_5;
    let f3 = word / POW_12 % POW_3;
    let rs1 = word / POW_15 % POW_5;
    let rs2 = word / POW_20 % POW_5;
    let f7 = word / POW_25 % POW_7;
    let upper = word / POW_20 % POW_12;
    match word % POW_7 {
        opcodes::LOAD => return decode_load(f3, rd, rs1, imm_i(word)),
        opcodes::MISC_MEM => return decode_fence(f3),
        opcodes::OP_IMM => return decode_op_imm(f3, f7, rd, rs1, rs2, imm_i(word)),
        opcodes::AUIPCC => return decode_auipcc(rd, aui_offset(word)),
        opcodes::STORE => return decode_store(f3, rs1, rs2, imm_s(word)),
        opcodes::OP => return decode_op(f3, f7, rd, rs1, rs2),
        opcodes::LUI => return decode_lui(rd, imm_u(word)),
        opcodes::CAPABILITY => {
            return decode_capability::<KEPT>(f3, f7, rd, rs1, rs2, imm_i(word), upper);
        }
        opcodes::BRANCH => return decode_branch(f3, rs1, rs2, imm_b(word)),
        opcodes::JALR => return decode_jalr(f3, rd, rs1, imm_i(word)),
        opcodes::JAL => return decode_jal(rd, imm_j(word)),
        opcodes::SYSTEM => return decode_system::<KEPT>(word, f3, upper, rd, rs1),
        opcodes::AUICGP => return decode_auicgp(rd, aui_offset(word)),
        _ => return Instruction::Illegal,
    }
}
