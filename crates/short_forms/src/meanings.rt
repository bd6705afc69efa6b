// What a form is, as the decoder of long words would say it: no long word is made on the way.
ghost use Rattle.std.specs.Prelude.{◌≡◌};
ghost use Rattle.instructions.specs.Decode.{naming_of};
ghost use Rattle.short_forms.specs.Long.{unless_hint};
ghost use Rattle.short_forms.specs.Meaning.{meaning_of};

use crate::ShortForm;
use instructions::{
    Alu, BranchKind, CapabilityInstruction, Instruction, IntegerInstruction, JumpInstruction,
    LAST_REGISTER, LoadKind, MemoryInstruction, StoreKind, SystemInstruction,
};

// The registers that a form names without a field: the stack's capability, and the link of a call.
const SP: u32 = 2;

const RA: u32 = 1;

// An instruction that names a register by a full field.
fn naming(n: u32, i: Instruction) -> Instruction
    ensures { result ≡ naming_of n i }
{
    if n > LAST_REGISTER {
        return Instruction::Illegal;
    }
    i
}

// The register that a form writes whose source and destination are one: none where it would only be copied.
#[tactic(auto, using(words::proofs::Tests::tests), unfolding(crate::specs::Long::unless_hint))]
fn unless_hint(rd: u32, operand: u32) -> u32
    ensures { result ≡ unless_hint rd operand }
{
    if operand == 0 { 0 } else { rd }
}

// An immediate operation on a register in place.
fn in_place(op: Alu, rd: u32, value: u32) -> Instruction
    ensures { result ≡ Instruction.Integer (IntegerInstruction.OpImm op (unless_hint rd value) rd value) }
{
    op_imm(op, unless_hint(rd, value), rd, value)
}

fn op_imm(op: Alu, rd: u32, rs1: u32, value: u32) -> Instruction
    ensures { result ≡ Instruction.Integer (IntegerInstruction.OpImm op rd rs1 value) }
{
    Instruction::Integer(IntegerInstruction::OpImm { op, rd, rs1, value })
}

fn op(op: Alu, rd: u32, rs1: u32, rs2: u32) -> Instruction
    ensures { result ≡ Instruction.Integer (IntegerInstruction.Op op rd rs1 rs2) }
{
    Instruction::Integer(IntegerInstruction::Op { op, rd, rs1, rs2 })
}

fn lui(rd: u32, value: u32) -> Instruction
    ensures { result ≡ Instruction.Integer (IntegerInstruction.Lui rd value) }
{
    Instruction::Integer(IntegerInstruction::Lui { rd, value })
}

// The address of a capability moved on from the stack's.
fn from_sp(rd: u32, value: u32) -> Instruction
    ensures { result ≡ Instruction.Capability (CapabilityInstruction.IncAddrImm rd 2 value) }
{
    Instruction::Capability(CapabilityInstruction::IncAddrImm {
        rd,
        rs1: SP,
        offset: value,
    })
}

fn lw(rd: u32, rs1: u32, offset: u32) -> Instruction
    ensures { result ≡ Instruction.Memory (MemoryInstruction.Load LoadKind.Lw rd rs1 offset) }
{
    Instruction::Memory(MemoryInstruction::Load {
        kind: LoadKind::Lw,
        rd,
        rs1,
        offset,
    })
}

fn clc(rd: u32, rs1: u32, offset: u32) -> Instruction
    ensures { result ≡ Instruction.Memory (MemoryInstruction.LoadCapability rd rs1 offset) }
{
    Instruction::Memory(MemoryInstruction::LoadCapability { rd, rs1, offset })
}

fn sw(rs1: u32, rs2: u32, offset: u32) -> Instruction
    ensures { result ≡ Instruction.Memory (MemoryInstruction.Store StoreKind.Sw rs1 rs2 offset) }
{
    Instruction::Memory(MemoryInstruction::Store {
        kind: StoreKind::Sw,
        rs1,
        rs2,
        offset,
    })
}

fn csc(rs1: u32, rs2: u32, offset: u32) -> Instruction
    ensures { result ≡ Instruction.Memory (MemoryInstruction.StoreCapability rs1 rs2 offset) }
{
    Instruction::Memory(MemoryInstruction::StoreCapability { rs1, rs2, offset })
}

fn jal(rd: u32, offset: u32) -> Instruction
    ensures { result ≡ Instruction.Jump (JumpInstruction.Jal rd offset) }
{
    Instruction::Jump(JumpInstruction::Jal { rd, offset })
}

fn jalr(rd: u32, rs1: u32) -> Instruction
    ensures { result ≡ Instruction.Jump (JumpInstruction.Jalr rd rs1 0) }
{
    Instruction::Jump(JumpInstruction::Jalr { rd, rs1, offset: 0 })
}

// A comparison with c0.
fn branch(kind: BranchKind, rs1: u32, offset: u32) -> Instruction
    ensures { result ≡ Instruction.Jump (JumpInstruction.Branch kind rs1 0 offset) }
{
    Instruction::Jump(JumpInstruction::Branch {
        kind,
        rs1,
        rs2: 0,
        offset,
    })
}

// What a form is; for each engine, as short_form_for.
#[tactic(auto, using(words::proofs::Tests::tests), unfolding(crate::specs::Meaning::meaning_of))]
pub fn meaning_for<const KEPT: bool>(s: ShortForm) -> Instruction
    ensures { result ≡ meaning_of s }
{
    match s {
        ShortForm::Addi4spn { rd, value } => return from_sp(rd, value),
        ShortForm::Lw { rd, rs1, offset } => return lw(rd, rs1, offset),
        ShortForm::Ld { rd, rs1, offset } => return clc(rd, rs1, offset),
        ShortForm::Sw { rs1, rs2, offset } => return sw(rs1, rs2, offset),
        ShortForm::Sd { rs1, rs2, offset } => return csc(rs1, rs2, offset),
        ShortForm::Addi { rd, value } => return naming(rd, in_place(Alu::Add, rd, value)),
        ShortForm::Jal { offset } => return jal(RA, offset),
        ShortForm::Li { rd, value } => return naming(rd, op_imm(Alu::Add, rd, 0, value)),
        ShortForm::Addi16sp { value } => return from_sp(SP, value),
        ShortForm::Lui { rd, value } => return naming(rd, lui(rd, value)),
        ShortForm::Srli { rd, shamt } => return in_place(Alu::Srl, rd, shamt),
        ShortForm::Srai { rd, shamt } => return in_place(Alu::Sra, rd, shamt),
        ShortForm::Andi { rd, value } => return op_imm(Alu::And, rd, rd, value),
        ShortForm::Sub { rd, rs2 } => return op(Alu::Sub, rd, rd, rs2),
        ShortForm::Xor { rd, rs2 } => return op(Alu::Xor, rd, rd, rs2),
        ShortForm::Or { rd, rs2 } => return op(Alu::Or, rd, rd, rs2),
        ShortForm::And { rd, rs2 } => return op(Alu::And, rd, rd, rs2),
        ShortForm::J { offset } => return jal(0, offset),
        ShortForm::Beqz { rs1, offset } => return branch(BranchKind::Beq, rs1, offset),
        ShortForm::Bnez { rs1, offset } => return branch(BranchKind::Bne, rs1, offset),
        ShortForm::Slli { rd, shamt } => return naming(rd, in_place(Alu::Sll, rd, shamt)),
        ShortForm::Lwsp { rd, offset } => return naming(rd, lw(rd, SP, offset)),
        ShortForm::Ldsp { rd, offset } => return naming(rd, clc(rd, SP, offset)),
        ShortForm::Jr { rs1 } => return naming(rs1, jalr(0, rs1)),
        ShortForm::Mv { rd, rs2 } => return naming(rd, naming(rs2, op(Alu::Add, rd, 0, rs2))),
        ShortForm::Ebreak => return Instruction::System(SystemInstruction::Ebreak),
        ShortForm::Jalr { rs1 } => return naming(rs1, jalr(RA, rs1)),
        ShortForm::Add { rd, rs2 } => return naming(rd, naming(rs2, op(Alu::Add, rd, rd, rs2))),
        ShortForm::Swsp { rs2, offset } => return naming(rs2, sw(SP, rs2, offset)),
        ShortForm::Sdsp { rs2, offset } => return naming(rs2, csc(SP, rs2, offset)),
        ShortForm::NoForm => return Instruction::Illegal,
    }
}
