// What LUI and the instructions of OP-IMM and OP do.
#![tactic(auto)]

ghost use Rattle.std.specs.Prelude.{◌≡◌};
ghost use Rattle.capability.specs.Capability.{integer};
ghost use Rattle.integer_instructions.specs.Integer.{alu_of, multiplied_of, reading_of, part_of, divided_of, integer_effect};

use instructions::{Alu, DivideKind, IntegerInstruction, MultiplyKind};
use state::Effect;
use std::num::{wrapping_add_u32, wrapping_sub_u32};
use words::{Division, Reading};

#[tactic(auto, unfolding(crate::specs::Integer::alu_of))]
pub fn alu(op: Alu, a: u32, b: u32) -> u32
    ensures { result ≡ alu_of op a b }
{
    match op {
        Alu::Add => wrapping_add_u32(a, b),
        Alu::Sub => wrapping_sub_u32(a, b),
        Alu::Sll => words::sll(a, b),
        Alu::Slt => words::slt(a, b),
        Alu::Sltu => words::sltu(a, b),
        Alu::Xor => words::xor(a, b),
        Alu::Srl => words::srl(a, b),
        Alu::Sra => words::sra(a, b),
        Alu::Or => words::or(a, b),
        Alu::And => words::and(a, b),
    }
}

#[tactic(auto, unfolding(crate::specs::Integer::multiplied_of))]
pub fn multiplied(kind: MultiplyKind, a: u32, b: u32) -> u32
    ensures { result ≡ multiplied_of kind a b }
{
    match kind {
        MultiplyKind::Mul => words::product_low(a, b),
        MultiplyKind::Mulh => words::product_high(Reading::Signed, Reading::Signed, a, b),
        MultiplyKind::Mulhsu => words::product_high(Reading::Signed, Reading::Unsigned, a, b),
        MultiplyKind::Mulhu => words::product_high(Reading::Unsigned, Reading::Unsigned, a, b),
    }
}

#[tactic(auto, unfolding(crate::specs::Integer::reading_of))]
fn reading_of(kind: DivideKind) -> Reading
    ensures { result ≡ reading_of kind }
{
    match kind {
        DivideKind::Div => Reading::Signed,
        DivideKind::Divu => Reading::Unsigned,
        DivideKind::Rem => Reading::Signed,
        DivideKind::Remu => Reading::Unsigned,
    }
}

#[tactic(auto, unfolding(crate::specs::Integer::part_of))]
fn part(kind: DivideKind, both: Division) -> u32
    ensures { result ≡ part_of kind both.quotient both.remainder }
{
    match kind {
        DivideKind::Div => both.quotient,
        DivideKind::Divu => both.quotient,
        DivideKind::Rem => both.remainder,
        DivideKind::Remu => both.remainder,
    }
}

#[tactic(auto, unfolding(crate::specs::Integer::divided_of))]
pub fn divided(kind: DivideKind, a: u32, b: u32) -> u32
    ensures { result ≡ divided_of kind a b }
{
    part(kind, words::divided(reading_of(kind), a, b))
}

// A register written with an integer.
fn write_integer(rd: u32, value: u32) -> Effect
    ensures { result ≡ Effect.Write rd (integer value) }
{
    Effect::Write {
        rd,
        value: capability::integer(value),
    }
}

#[tactic(auto, unfolding(crate::specs::Integer::integer_effect))]
pub fn integer_effect(i: IntegerInstruction, regs: &[u32]) -> Effect
    ensures { result ≡ integer_effect i regs.now }
{
    match i {
        IntegerInstruction::Lui { rd, value } => write_integer(rd, value),
        IntegerInstruction::OpImm { op, rd, rs1, value } => {
            write_integer(rd, alu(op, state::integer_at(regs, rs1), value))
        }
        IntegerInstruction::Op { op, rd, rs1, rs2 } => write_integer(
            rd,
            alu(
                op,
                state::integer_at(regs, rs1),
                state::integer_at(regs, rs2),
            ),
        ),
        IntegerInstruction::Multiply { kind, rd, rs1, rs2 } => write_integer(
            rd,
            multiplied(
                kind,
                state::integer_at(regs, rs1),
                state::integer_at(regs, rs2),
            ),
        ),
        IntegerInstruction::Divide { kind, rd, rs1, rs2 } => write_integer(
            rd,
            divided(
                kind,
                state::integer_at(regs, rs1),
                state::integer_at(regs, rs2),
            ),
        ),
    }
}
