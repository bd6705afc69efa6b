// Turns of the integer instructions: the result is written, and on. All but ADDI are of a register that is not c0.
ghost use Rattle.std.specs.Prelude.{◌≡◌, ◌≤◌, length, slice_index};
ghost use Rattle.state.specs.Layout.{register_words};
ghost use Rattle.capability.specs.Capability.{integer};
ghost use Rattle.integer_instructions.specs.Integer.{alu_of, multiplied_of, divided_of};
ghost use Rattle.quick.specs.Turns.{Writable, went_on, written_at};

use crate::registers;
use instructions::{Alu, DivideKind, MultiplyKind};
use std::num::wrapping_add_u32;

// LUI.
pub(crate) fn put(at: u32, value: u32, regs: &mut [u32], to: u32)
    requires { (length regs.old ≡ register_words) × Writable at }
    ensures { regs.new ≡ went_on to (written_at at (integer value) regs.old) }
{
    registers::write_some(regs, at, capability::integer(value), to);
}

// An integer written to any register.
pub(crate) fn put_any(at: u32, value: u32, regs: &mut [u32], to: u32)
    requires { (length regs.old ≡ register_words) × (at ≤ 45) }
    ensures { regs.new ≡ went_on to (written_at at (integer value) regs.old) }
{
    registers::write(regs, at, capability::integer(value), to);
}

// ADDI, the most frequent of OP-IMM; NOP is one, so c0 may be written.
pub(crate) fn add_immediate(at: u32, from: u32, value: u32, regs: &mut [u32], to: u32)
    requires { (length regs.old ≡ register_words) × (at ≤ 45) × (from ≤ 45) }
    ensures { regs.new
        ≡ went_on to (written_at at (integer (alu_of Alu.Add (slice_index regs.old from) value)) regs.old) }
{
    let sum = wrapping_add_u32(registers::read(regs, from), value);
    put_any(at, sum, regs, to);
}

// OP-IMM.
pub(crate) fn immediate(op: Alu, at: u32, from: u32, value: u32, regs: &mut [u32], to: u32)
    requires { (length regs.old ≡ register_words) × Writable at × (from ≤ 45) }
    ensures { regs.new
        ≡ went_on to (written_at at (integer (alu_of op (slice_index regs.old from) value)) regs.old) }
{
    let result = integer_instructions::alu(op, registers::read(regs, from), value);
    put(at, result, regs, to);
}

// OP.
pub(crate) fn two(op: Alu, at: u32, from: u32, other: u32, regs: &mut [u32], to: u32)
    requires { (length regs.old ≡ register_words) × Writable at × (from ≤ 45) × (other ≤ 45) }
    ensures { regs.new ≡ went_on to
        (written_at at (integer (alu_of op (slice_index regs.old from) (slice_index regs.old other))) regs.old) }
{
    let a = registers::read(regs, from);
    let b = registers::read(regs, other);
    put(at, integer_instructions::alu(op, a, b), regs, to);
}

// MUL and its high halves.
pub(crate) fn multiply(
    kind: MultiplyKind,
    at: u32,
    from: u32,
    other: u32,
    regs: &mut [u32],
    to: u32,
)
    requires { (length regs.old ≡ register_words) × Writable at × (from ≤ 45) × (other ≤ 45) }
    ensures { regs.new ≡ went_on to
        (written_at at (integer (multiplied_of kind (slice_index regs.old from) (slice_index regs.old other))) regs.old) }
{
    let a = registers::read(regs, from);
    let b = registers::read(regs, other);
    put(at, integer_instructions::multiplied(kind, a, b), regs, to);
}

// DIV and REM.
pub(crate) fn divide(kind: DivideKind, at: u32, from: u32, other: u32, regs: &mut [u32], to: u32)
    requires { (length regs.old ≡ register_words) × Writable at × (from ≤ 45) × (other ≤ 45) }
    ensures { regs.new ≡ went_on to
        (written_at at (integer (divided_of kind (slice_index regs.old from) (slice_index regs.old other))) regs.old) }
{
    let a = registers::read(regs, from);
    let b = registers::read(regs, other);
    put(at, integer_instructions::divided(kind, a, b), regs, to);
}
