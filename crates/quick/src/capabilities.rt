// Turns of the capability instructions that the engine knows: the result is written, and on.
ghost use Rattle.std.specs.Prelude.{◌≡◌, ◌≤◌, length, slice_index};
ghost use Rattle.state.specs.Layout.{register_words};
ghost use Rattle.capability.specs.Capability.{move_of, set_bounds_of};
ghost use Rattle.capability_instructions.specs.Derivation.{moved_by};
ghost use Rattle.quick.specs.Turns.{went_on, written_at, held_at};

use crate::registers;
use std::num::wrapping_add_u32;

// CIncAddrImm, AUIPCC and AUICGP.
pub(crate) fn increment(at: u32, from: u32, offset: u32, regs: &mut [u32], to: u32)
    requires { (length regs.old ≡ register_words) × (at ≤ 45) × (from ≤ 48) }
    ensures { regs.new
        ≡ went_on to (written_at at (moved_by (held_at from regs.old) offset) regs.old) }
{
    let c = registers::read_capability(regs, from);
    let moved = capability::move_address(c, wrapping_add_u32(c.address, offset));
    registers::write(regs, at, moved, to);
}

// CSetBoundsImm.
pub(crate) fn cut(at: u32, from: u32, size: u32, regs: &mut [u32], to: u32)
    requires { (length regs.old ≡ register_words) × (at ≤ 45) × (from ≤ 45) }
    ensures { regs.new
        ≡ went_on to (written_at at (set_bounds_of (held_at from regs.old) size) regs.old) }
{
    let c = registers::read_capability(regs, from);
    registers::write(regs, at, capability::set_bounds(c, size), to);
}

// CMove.
pub(crate) fn copy(at: u32, from: u32, regs: &mut [u32], to: u32)
    requires { (length regs.old ≡ register_words) × (at ≤ 45) × (from ≤ 45) }
    ensures { regs.new ≡ went_on to (written_at at (held_at from regs.old) regs.old) }
{
    let c = registers::read_capability(regs, from);
    registers::write(regs, at, c, to);
}

// CSetAddr.
pub(crate) fn set_address(at: u32, from: u32, other: u32, regs: &mut [u32], to: u32)
    requires { (length regs.old ≡ register_words) × (at ≤ 45) × (from ≤ 45) × (other ≤ 45) }
    ensures { regs.new
        ≡ went_on to (written_at at (move_of (held_at from regs.old) (slice_index regs.old other)) regs.old) }
{
    let c = registers::read_capability(regs, from);
    let address = registers::read(regs, other);
    registers::write(regs, at, capability::move_address(c, address), to);
}

// CIncAddr.
pub(crate) fn increment_by(at: u32, from: u32, other: u32, regs: &mut [u32], to: u32)
    requires { (length regs.old ≡ register_words) × (at ≤ 45) × (from ≤ 45) × (other ≤ 45) }
    ensures { regs.new
        ≡ went_on to (written_at at (moved_by (held_at from regs.old) (slice_index regs.old other)) regs.old) }
{
    let offset = registers::read(regs, other);
    increment(at, from, offset, regs, to);
}
