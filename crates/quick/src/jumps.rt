// Jumps to a target in PCC's remembered row, after which PCC is itself at the target: one word of it changes.
ghost use Rattle.std.specs.Prelude.{◌≡◌, ◌%◌, ◌≤◌, true, false, length};
ghost use Rattle.state.specs.Layout.{register_words};
ghost use Rattle.quick.specs.Rows.{Good};
ghost use Rattle.quick.specs.Jumps.{Lands, Went, GoTurns, BranchTurns, link_at, LinkTurns, shut, RegisterTurns};
ghost use Rattle.quick.specs.Steady.{SteadyIf};
ghost use Rattle.quick.specs.Turns.{is_done};

use crate::pace::{STATUS_PLACE, WORD_PLACE};
use crate::registers::PCC_PLACE;
use crate::rows::ROW_OF_PCC;
use crate::{Took, registers, rows};
use capability::Capability;
use instructions::BranchKind;
use state::{TARGET_ALIGNMENT, TARGET_BYTES};
use std::num::wrapping_add_u32;

// Whether PCC, where it is tagged, is itself at a target. A turn is of a tagged PCC: nothing is asked of its tag here.
fn is_landing(rows: &[u64; 99], pcc: Capability, to: u32) -> bool
    ensures { result ≡ true → Lands rows.now pcc to }
{
    if to % TARGET_ALIGNMENT != 0 {
        return false;
    }
    rows::in_row(rows, ROW_OF_PCC, pcc, to, TARGET_BYTES)
}

// PCC at a target by an even offset; else nothing is changed. Alignment is not asked: PCC of a turn is even.
fn go_to(rows: &[u64; 99], regs: &mut [u32], start: u32, size: usize, to: u32) -> Took
    requires { (length regs.old ≡ register_words) × Good start size rows.now }
    ensures { Went start size to regs.old regs.new result }
{
    if rows::in_row(
        rows,
        ROW_OF_PCC,
        registers::read_pcc(regs),
        to,
        TARGET_BYTES,
    ) {
        registers::go_on(regs, to);
        return Ok(None);
    }
    Err(None)
}

// CJAL to c0.
pub(crate) fn take_go(
    offset: u32,
    rows: &[u64; 99],
    regs: &mut [u32],
    start: u32,
    size: usize,
) -> Took
    requires { (length regs.old ≡ register_words) × Good start size rows.now × (offset % 2 ≡ 0) }
    ensures { GoTurns start offset regs.old regs.new result
        × SteadyIf (is_done result) regs.old regs.new }
{
    let to = wrapping_add_u32(regs[PCC_PLACE], offset);
    go_to(rows, regs, start, size, to)
}

// A branch; to is the address after it.
pub(crate) fn take_branch(
    kind: BranchKind,
    from: u32,
    other: u32,
    offset: u32,
    rows: &[u64; 99],
    regs: &mut [u32],
    start: u32,
    size: usize,
    to: u32,
) -> Took
    requires { (length regs.old ≡ register_words) × (from ≤ 45) × (other ≤ 45) × Good start size rows.now × (offset % 2 ≡ 0) }
    ensures { BranchTurns start kind from other offset to regs.old regs.new result
        × SteadyIf (is_done result) regs.old regs.new }
{
    let a = registers::read(regs, from);
    let b = registers::read(regs, other);
    if jump_instructions::is_taken(kind, a, b) {
        let target = wrapping_add_u32(regs[PCC_PLACE], offset);
        return go_to(rows, regs, start, size, target);
    }
    registers::go_on(regs, to);
    Ok(None)
}

// The link of a jump: PCC's word at the address after it, sealed.
fn link_at(edition: u32, next: u32, word: u32, mstatus: u32) -> Capability
    ensures { result ≡ link_at edition next word mstatus }
{
    let after = Capability {
        address: next,
        metadata: word,
        tag: 1,
    };
    capability::with_object_type(after, jump_instructions::link_type(edition, mstatus))
}

// CJAL with a link; next is the address after it.
pub(crate) fn take_link(
    edition: u32,
    rd: u32,
    offset: u32,
    rows: &[u64; 99],
    regs: &mut [u32],
    start: u32,
    size: usize,
    next: u32,
) -> Took
    requires { (length regs.old ≡ register_words) × Good start size rows.now }
    ensures { LinkTurns start edition rd offset next regs.old regs.new result
        × SteadyIf (is_done result) regs.old regs.new }
{
    let to = wrapping_add_u32(regs[PCC_PLACE], offset);
    let pcc = registers::read_pcc(regs);
    if !is_landing(rows, pcc, to) {
        return Err(None);
    }
    let link = link_at(edition, next, pcc.metadata, regs[STATUS_PLACE]);
    registers::write(regs, operations::place_of(rd), link, to);
    Ok(None)
}

// Whether a sealed capability may be jumped to.
fn is_entered(edition: u32, rd: u32, rs1: u32, offset: u32, c: Capability) -> bool
    ensures { result ≡ true → shut edition rd rs1 offset c ≡ false }
{
    if !capability::is_sealed(c) {
        return true;
    }
    if offset != 0 {
        return false;
    }
    jump_instructions::accepts(edition, c, rd, rs1)
}

// CJALR to a capability of PCC's word, mstatus as it is; next is the address after it.
pub(crate) fn take_register(
    edition: u32,
    rd: u32,
    rs1: u32,
    offset: u32,
    rows: &[u64; 99],
    regs: &mut [u32],
    start: u32,
    size: usize,
    next: u32,
) -> Took
    requires { (length regs.old ≡ register_words) × Good start size rows.now }
    ensures { RegisterTurns start edition rd rs1 offset next regs.old regs.new result
        × SteadyIf (is_done result) regs.old regs.new }
{
    let c = registers::read_capability(regs, operations::place_of(rs1));
    let to = wrapping_add_u32(c.address, offset) / 2 * 2;
    let open = capability::with_object_type(c, 0);
    let word = regs[WORD_PLACE];
    let mstatus = regs[STATUS_PLACE];
    if open.metadata != word {
        return Err(None);
    }
    if !rows::has(rows, ROW_OF_PCC, open, to, TARGET_BYTES) {
        return Err(None);
    }
    if !is_entered(edition, rd, rs1, offset, c) {
        return Err(None);
    }
    if jump_instructions::jump_status(edition, metadata::otype(c.metadata), mstatus) != mstatus {
        return Err(None);
    }
    registers::write(
        regs,
        operations::place_of(rd),
        link_at(edition, next, word, mstatus),
        to,
    );
    Ok(None)
}
