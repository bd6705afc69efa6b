// The turn of an operation: each has its own function.
ghost use Rattle.std.specs.Prelude.{◌≡◌, length};
ghost use Rattle.state.specs.Layout.{register_words};
ghost use Rattle.operations.specs.Means.{Placed};
ghost use Rattle.state.specs.Lent.{state};
ghost use Rattle.quick.specs.Rows.{Good};
ghost use Rattle.quick.specs.Steady.{TurnedBy};

use crate::registers::PCC_PLACE;
use crate::{Took, capabilities, integers, jumps, memory, registers};
use operations::Operation;
use state::Board;
use std::num::wrapping_add_u32;

// A turn of an operation of some bytes.
pub(crate) fn turn(
    op: Operation,
    bytes: u32,
    rows: &mut [u64; 99],
    regs: &mut [u32],
    board: Board,
    mem: &mut [u8],
    tags: &mut [u8],
    revoked: &[u8],
) -> Took
    requires { (length regs.old ≡ register_words) × Placed op × Good board.start (length mem.old) rows.old }
    ensures { Good board.start (length mem.old) rows.new
        × TurnedBy board revoked.now op bytes (state regs.old mem.old tags.old)
        (state regs.new mem.new tags.new) result }
{
    let to = wrapping_add_u32(regs[PCC_PLACE], bytes);
    let start = board.start;
    match op {
        Operation::Plain => Err(None),
        Operation::Put { at, value } => {
            integers::put(at, value, regs, to);
            Ok(None)
        }
        Operation::AddImmediate { at, from, value } => {
            integers::add_immediate(at, from, value, regs, to);
            Ok(None)
        }
        Operation::Immediate {
            op,
            at,
            from,
            value,
        } => {
            integers::immediate(op, at, from, value, regs, to);
            Ok(None)
        }
        Operation::Two {
            op,
            at,
            from,
            other,
        } => {
            integers::two(op, at, from, other, regs, to);
            Ok(None)
        }
        Operation::Multiply {
            kind,
            at,
            from,
            other,
        } => {
            integers::multiply(kind, at, from, other, regs, to);
            Ok(None)
        }
        Operation::Divide {
            kind,
            at,
            from,
            other,
        } => {
            integers::divide(kind, at, from, other, regs, to);
            Ok(None)
        }
        Operation::Go { offset } => jumps::take_go(offset, rows, regs, start, mem.len()),
        Operation::JumpLink { rd, offset } => {
            jumps::take_link(board.edition, rd, offset, rows, regs, start, mem.len(), to)
        }
        Operation::JumpRegister { rd, rs1, offset } => {
            jumps::take_register(
                board.edition,
                rd,
                rs1,
                offset,
                rows,
                regs,
                start,
                mem.len(),
                to,
            )
        }
        Operation::Branch {
            kind,
            from,
            other,
            offset,
        } => { jumps::take_branch(kind, from, other, offset, rows, regs, start, mem.len(), to) }
        Operation::LoadWord { at, from, offset } => {
            memory::take_word(at, from, offset, rows, regs, start, mem, to)
        }
        Operation::LoadSmall {
            kind,
            at,
            from,
            offset,
        } => { memory::take_small(kind, at, from, offset, rows, regs, start, mem, to) }
        Operation::StoreWord {
            from,
            other,
            offset,
        } => { memory::take_store_word(from, other, offset, rows, regs, start, mem, tags, to) }
        Operation::StoreSmall {
            kind,
            from,
            other,
            offset,
        } => {
            memory::take_store_small(kind, from, other, offset, rows, regs, start, mem, tags, to)
        }
        Operation::LoadCapability { at, from, offset } => {
            memory::take_load_capability(
                at, from, offset, rows, regs, board, mem, tags, revoked, to,
            )
        }
        Operation::StoreCapability {
            from,
            other,
            offset,
        } => {
            memory::take_store_capability(from, other, offset, rows, regs, start, mem, tags, to)
        }
        Operation::Increment { at, from, offset } => {
            capabilities::increment(at, from, offset, regs, to);
            Ok(None)
        }
        Operation::Cut { at, from, length } => {
            capabilities::cut(at, from, length, regs, to);
            Ok(None)
        }
        Operation::Copy { at, from } => {
            capabilities::copy(at, from, regs, to);
            Ok(None)
        }
        Operation::SetAddress { at, from, other } => {
            capabilities::set_address(at, from, other, regs, to);
            Ok(None)
        }
        Operation::IncrementBy { at, from, other } => {
            capabilities::increment_by(at, from, other, regs, to);
            Ok(None)
        }
        Operation::Address { at, from } => {
            integers::put_any(at, registers::read(regs, from), regs, to);
            Ok(None)
        }
        Operation::LoadByte {
            kind,
            at,
            from,
            offset,
        } => { memory::take_byte(kind, at, from, offset, rows, regs, start, mem, to) }
    }
}
