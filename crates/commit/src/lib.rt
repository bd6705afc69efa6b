// Applying an effect to the lent buffers: the only place that writes them.
#![tactic(auto)]

ghost use Rattle.std.specs.Prelude.{◌≡◌, slice_set};
ghost use Rattle.words.specs.Words.{set_bytes};
ghost use Rattle.state.specs.Layout.{csr_index};
ghost use Rattle.state.specs.Memory.{store_width, granule_bytes};
ghost use Rattle.state.specs.Lent.{state};
ghost use Rattle.commit.specs.Commit.{advanced, trapped, jumped, with_scr, with_csr, stored, retagged, stored_capability, written_by, apply_effect};
ghost use Rattle.commit.specs.Kept.{with_store, with_trap, kept_after};

use capability::Capability;
use instructions::{Csr, Scr, StoreKind};
use state::{Effect, GRANULE, GRANULE_BYTES, MEPCC_INDEX, MTCC_INDEX, PCC_INDEX};
use watch::Watch;

// What a run keeps beside the buffers: how many steps trapped, and the watch record. It goes through the commit, and not the commit's answer back to the
// loop: so an instruction that stores nothing and does not trap does nothing for it.
#[derive(Clone, Copy)]
pub struct Kept {
    pub trapped: u32,
    pub watch: Watch,
}

impl Kept {
    // After a store of some bytes at an address.
    fn with_store(self, address: u32, width: u32) -> Kept
        ensures { result ≡ with_store self address width }
    {
        Kept {
            watch: self.watch.touched(address, width),
            ..self
        }
    }

    // After a trap.
    fn with_trap(self) -> Kept
        ensures { result ≡ with_trap self }
    {
        Kept {
            trapped: self.trapped.wrapping_add(1),
            ..self
        }
    }
}

// PCC after an instruction of some bytes.
#[tactic(auto, unfolding(crate::specs::Commit::advanced))]
pub fn advance(regs: &mut [u32], bytes: u32)
    ensures { regs.new ≡ advanced bytes regs.old }
{
    let pcc = state::pcc_of(regs);
    let next = capability::move_address(pcc, pcc.address.wrapping_add(bytes));
    state::set_capability(regs, PCC_INDEX, next);
}

// The three CSRs on trap entry.
fn set_csrs(regs: &mut [u32], mstatus: u32, cause: u32, value: u32)
    ensures { regs.new ≡ slice_set
        (slice_set (slice_set regs.old (csr_index Csr.Mstatus) mstatus) (csr_index Csr.Mcause) cause) (csr_index Csr.Mtval) value }
{
    state::set_csr(regs, Csr::Mstatus, mstatus);
    state::set_csr(regs, Csr::Mcause, cause);
    state::set_csr(regs, Csr::Mtval, value);
}

// Trap entry.
#[tactic(auto, unfolding(crate::specs::Commit::trapped))]
fn enter_trap(regs: &mut [u32], cause: u32, value: u32)
    ensures { regs.new ≡ trapped regs.old cause value }
{
    let from = state::return_address(state::pcc_of(regs));
    let to = state::vector(state::capability_at(regs, MTCC_INDEX));
    let mstatus = state::trap_status(state::csr_at(regs, Csr::Mstatus));
    state::set_capability(regs, MEPCC_INDEX, from);
    state::set_capability(regs, PCC_INDEX, to);
    set_csrs(regs, mstatus, cause, value);
}

// A jump: the link, PCC and mstatus.
#[tactic(auto, unfolding(crate::specs::Commit::jumped))]
fn jump(regs: &mut [u32], rd: u32, link: Capability, target: Capability, mstatus: u32)
    ensures { regs.new ≡ jumped regs.old rd link target mstatus }
{
    state::write_register(regs, rd, link);
    state::set_capability(regs, PCC_INDEX, target);
    state::set_csr(regs, Csr::Mstatus, mstatus);
}

// A special register written, and the register that receives its old value.
#[tactic(auto, unfolding(crate::specs::Commit::with_scr))]
fn write_scr(regs: &mut [u32], bytes: u32, rd: u32, old: Capability, scr: Scr, value: Capability)
    ensures { regs.new ≡ with_scr bytes regs.old rd old scr value }
{
    state::write_register(regs, rd, old);
    state::set_capability(regs, state::scr_index(scr), value);
    advance(regs, bytes);
}

// A CSR written, and the register that receives its old value.
#[tactic(auto, unfolding(crate::specs::Commit::with_csr))]
fn write_csr(regs: &mut [u32], bytes: u32, rd: u32, old: u32, csr: Csr, value: u32)
    ensures { regs.new ≡ with_csr bytes regs.old rd old csr value }
{
    state::write_register(regs, rd, capability::integer(old));
    state::set_csr(regs, csr, value);
    advance(regs, bytes);
}

// The bytes of a store.
fn put_bytes(mem: &mut [u8], kind: StoreKind, at: usize, value: u32)
    ensures { mem.new ≡ set_bytes (store_width kind) mem.old at value }
{
    match kind {
        StoreKind::Sb => words::store8(mem, at, value),
        StoreKind::Sh => words::store16(mem, at, value),
        StoreKind::Sw => words::store32(mem, at, value),
    }
}

// A store's bytes, and the tag of their granule cleared.
#[tactic(auto, unfolding(crate::specs::Commit::stored, crate::specs::Commit::retagged))]
pub fn store(mem: &mut [u8], tags: &mut [u8], kind: StoreKind, at: u32, value: u32)
    ensures { (mem.new ≡ stored mem.old (store_width kind) at value)
        × (tags.new ≡ retagged mem.old tags.old (store_width kind) at 0) }
{
    if at as u64 + state::store_width(kind) as u64 <= mem.len() as u64 {
        put_bytes(mem, kind, at as usize, value);
        words::put_bit(tags, at as usize / GRANULE, 0);
    }
}

// A capability's words, and its tag.
#[tactic(auto, unfolding(crate::specs::Commit::stored_capability, crate::specs::Commit::retagged))]
pub fn store_capability(mem: &mut [u8], tags: &mut [u8], at: u32, c: Capability)
    ensures { (mem.new ≡ stored_capability mem.old at c)
        × (tags.new ≡ retagged mem.old tags.old granule_bytes at c.tag) }
{
    if at as u64 + GRANULE as u64 <= mem.len() as u64 {
        let i = at as usize;
        words::store32(mem, i, c.address);
        words::store32(mem, i + 4, c.metadata);
        words::put_bit(tags, i / GRANULE, c.tag);
    }
}

// All but time: the effect of an instruction of some bytes, and the mark, which a store may move. Answers what is kept.
#[tactic(auto, unfolding(crate::specs::Kept::kept_after, crate::specs::Commit::retires))]
fn write_effect(
    regs: &mut [u32],
    start: u32,
    mem: &mut [u8],
    tags: &mut [u8],
    bytes: u32,
    e: Effect,
    kept: Kept,
) -> Kept
    ensures { (result ≡ kept_after start e kept) × (state regs.new mem.new tags.new
        ≡ written_by start bytes e (state regs.old mem.old tags.old)) }
{
    match e {
        Effect::Advance => {
            advance(regs, bytes);
            kept
        }
        Effect::Write { rd, value } => {
            state::write_register(regs, rd, value);
            advance(regs, bytes);
            kept
        }
        Effect::Store { kind, at, value } => {
            let address = start.wrapping_add(at);
            // First: so the loop is shortest.
            let after = kept.with_store(address, state::store_width(kind));
            store(mem, tags, kind, at, value);
            advance(regs, bytes);
            state::move_mark(regs, address);
            after
        }
        Effect::StoreCapability { at, value } => {
            let address = start.wrapping_add(at);
            let after = kept.with_store(address, GRANULE_BYTES);
            store_capability(mem, tags, at, value);
            advance(regs, bytes);
            state::move_mark(regs, address);
            after
        }
        Effect::Jump {
            rd,
            link,
            target,
            mstatus,
        } => {
            jump(regs, rd, link, target, mstatus);
            kept
        }
        Effect::WriteScr {
            rd,
            old,
            scr,
            value,
        } => {
            write_scr(regs, bytes, rd, old, scr, value);
            kept
        }
        Effect::WriteCsr {
            rd,
            old,
            csr,
            value,
        } => {
            write_csr(regs, bytes, rd, old, csr, value);
            kept
        }
        Effect::Trap { cause, value } => {
            enter_trap(regs, cause, value);
            kept.with_trap()
        }
    }
}

// The effect of an instruction of some bytes on the lent buffers, memory from a start on. Answers what is kept.
#[tactic(auto, unfolding(crate::specs::Commit::apply_effect))]
pub fn commit_effect(
    regs: &mut [u32],
    start: u32,
    mem: &mut [u8],
    tags: &mut [u8],
    bytes: u32,
    e: Effect,
    kept: Kept,
) -> Kept
    ensures { (result ≡ kept_after start e kept) × (state regs.new mem.new tags.new
        ≡ apply_effect start bytes e (state regs.old mem.old tags.old)) }
{
    let kept_now = write_effect(regs, start, mem, tags, bytes, e, kept);
    state::tick(regs);
    kept_now
}
