// Integer instructions: opcodes OP, OP-IMM and LUI.
ghost use Rattle.std.specs.Prelude.{◌≡◌};
ghost use Rattle.instructions.specs.Decode.{alu_of, shift_left_of, shift_right_of, op_imm_of, op32_of, multiply_of, op_by_of, op_of, lui_of};

use crate::{Alu, DivideKind, Instruction, IntegerInstruction, LAST_REGISTER, MultiplyKind};

// funct7 under OP and of the shifts by an immediate: of multiply and divide the second, of SUB, SRA and SRAI the third.
pub const BASE: u32 = 0;

pub const MULTIPLY: u32 = 1;

pub const ALTERNATE: u32 = 0x20;

// What funct3 selects in OP and OP-IMM alike.
#[tactic(auto, using(words::proofs::Tests::tests), unfolding(crate::specs::Decode::alu_of))]
fn alu_of(f3: u32) -> Alu
    ensures { result ≡ alu_of f3 }
{
    match f3 {
        0 => Alu::Add,
        1 => Alu::Sll,
        2 => Alu::Slt,
        3 => Alu::Sltu,
        4 => Alu::Xor,
        5 => Alu::Srl,
        6 => Alu::Or,
        _ => Alu::And,
    }
}

fn op_imm(op: Alu, rd: u32, rs1: u32, value: u32) -> Instruction
    ensures { result ≡ Instruction.Integer (IntegerInstruction.OpImm op rd rs1 value) }
{
    Instruction::Integer(IntegerInstruction::OpImm { op, rd, rs1, value })
}

#[tactic(auto, using(words::proofs::Tests::tests), unfolding(crate::specs::Decode::shift_left_of))]
fn decode_shift_left(f7: u32, rd: u32, rs1: u32, shamt: u32) -> Instruction
    ensures { result ≡ shift_left_of f7 rd rs1 shamt }
{
    if f7 != BASE {
        return Instruction::Illegal;
    }
    op_imm(Alu::Sll, rd, rs1, shamt)
}

#[tactic(auto, using(words::proofs::Tests::tests), unfolding(crate::specs::Decode::shift_right_of))]
fn decode_shift_right(f7: u32, rd: u32, rs1: u32, shamt: u32) -> Instruction
    ensures { result ≡ shift_right_of f7 rd rs1 shamt }
{
    match f7 {
        BASE => return op_imm(Alu::Srl, rd, rs1, shamt),
        ALTERNATE => return op_imm(Alu::Sra, rd, rs1, shamt),
        _ => return Instruction::Illegal,
    }
}

// OP-IMM: a register and an immediate; the amount of a shift stands in the rs2 field, and funct7 above it.
#[tactic(auto, using(words::proofs::Tests::tests), unfolding(crate::specs::Decode::op_imm_of))]
pub(crate) fn decode_op_imm(
    f3: u32,
    f7: u32,
    rd: u32,
    rs1: u32,
    shamt: u32,
    value: u32,
) -> Instruction
    ensures { result ≡ op_imm_of f3 f7 rd rs1 shamt value }
{
    if rd > LAST_REGISTER || rs1 > LAST_REGISTER {
        return Instruction::Illegal;
    }
    match f3 {
        1 => return decode_shift_left(f7, rd, rs1, shamt),
        5 => return decode_shift_right(f7, rd, rs1, shamt),
        _ => return op_imm(alu_of(f3), rd, rs1, value),
    }
}

fn op(op: Alu, rd: u32, rs1: u32, rs2: u32) -> Instruction
    ensures { result ≡ Instruction.Integer (IntegerInstruction.Op op rd rs1 rs2) }
{
    Instruction::Integer(IntegerInstruction::Op { op, rd, rs1, rs2 })
}

#[tactic(auto, using(words::proofs::Tests::tests), unfolding(crate::specs::Decode::op32_of))]
fn decode_op_32(f3: u32, rd: u32, rs1: u32, rs2: u32) -> Instruction
    ensures { result ≡ op32_of f3 rd rs1 rs2 }
{
    match f3 {
        0 => return op(Alu::Sub, rd, rs1, rs2),
        5 => return op(Alu::Sra, rd, rs1, rs2),
        _ => return Instruction::Illegal,
    }
}

fn multiply(kind: MultiplyKind, rd: u32, rs1: u32, rs2: u32) -> Instruction
    ensures { result ≡ Instruction.Integer (IntegerInstruction.Multiply kind rd rs1 rs2) }
{
    Instruction::Integer(IntegerInstruction::Multiply { kind, rd, rs1, rs2 })
}

fn divide(kind: DivideKind, rd: u32, rs1: u32, rs2: u32) -> Instruction
    ensures { result ≡ Instruction.Integer (IntegerInstruction.Divide kind rd rs1 rs2) }
{
    Instruction::Integer(IntegerInstruction::Divide { kind, rd, rs1, rs2 })
}

#[tactic(auto, using(words::proofs::Tests::tests), unfolding(crate::specs::Decode::multiply_of))]
fn decode_multiply(f3: u32, rd: u32, rs1: u32, rs2: u32) -> Instruction
    ensures { result ≡ multiply_of f3 rd rs1 rs2 }
{
    match f3 {
        0 => return multiply(MultiplyKind::Mul, rd, rs1, rs2),
        1 => return multiply(MultiplyKind::Mulh, rd, rs1, rs2),
        2 => return multiply(MultiplyKind::Mulhsu, rd, rs1, rs2),
        3 => return multiply(MultiplyKind::Mulhu, rd, rs1, rs2),
        4 => return divide(DivideKind::Div, rd, rs1, rs2),
        5 => return divide(DivideKind::Divu, rd, rs1, rs2),
        6 => return divide(DivideKind::Rem, rd, rs1, rs2),
        _ => return divide(DivideKind::Remu, rd, rs1, rs2),
    }
}

#[tactic(auto, using(words::proofs::Tests::tests), unfolding(crate::specs::Decode::op_by_of))]
fn decode_op_by(f3: u32, f7: u32, rd: u32, rs1: u32, rs2: u32) -> Instruction
    ensures { result ≡ op_by_of f3 f7 rd rs1 rs2 }
{
    match f7 {
        BASE => return op(alu_of(f3), rd, rs1, rs2),
        MULTIPLY => return decode_multiply(f3, rd, rs1, rs2),
        ALTERNATE => return decode_op_32(f3, rd, rs1, rs2),
        _ => return Instruction::Illegal,
    }
}

// OP: two registers.
#[tactic(auto, using(words::proofs::Tests::tests), unfolding(crate::specs::Decode::op_of))]
pub(crate) fn decode_op(f3: u32, f7: u32, rd: u32, rs1: u32, rs2: u32) -> Instruction
    ensures { result ≡ op_of f3 f7 rd rs1 rs2 }
{
    if rd > LAST_REGISTER || rs1 > LAST_REGISTER || rs2 > LAST_REGISTER {
        return Instruction::Illegal;
    }
    decode_op_by(f3, f7, rd, rs1, rs2)
}

// LUI.
#[tactic(auto, using(words::proofs::Tests::tests), unfolding(crate::specs::Decode::lui_of))]
pub(crate) fn decode_lui(rd: u32, value: u32) -> Instruction
    ensures { result ≡ lui_of rd value }
{
    if rd > LAST_REGISTER {
        return Instruction::Illegal;
    }
    Instruction::Integer(IntegerInstruction::Lui { rd, value })
}
