// The register file of a turn: registers read and written by their places, PCC moved on by one word, time one on.
ghost use Rattle.std.specs.Prelude.{◌≡◌, ◌≤◌, length, slice_index};
ghost use Rattle.state.specs.Layout.{register_words};
ghost use Rattle.state.specs.Marks.{marked};
ghost use Rattle.quick.specs.Turns.{pcc_place, Writable, went_on, written_at, held_at};

use capability::Capability;
use state::{CONTROL_START, TIME_INDEX};
use std::num::wrapping_add_u32;

// The places of PCC's address, and of the mark and its base.
pub(crate) const PCC_PLACE: usize = 48;

const MARK_PLACE: usize = CONTROL_START + 3;

const BASE_PLACE: usize = CONTROL_START + 4;

// PCC at an address of the same word, and time one on.
pub(crate) fn go_on(regs: &mut [u32], to: u32)
    requires { length regs.old ≡ register_words }
    ensures { regs.new ≡ went_on to regs.old }
{
    regs[PCC_PLACE] = to;
    let low = wrapping_add_u32(regs[TIME_INDEX], 1);
    regs[TIME_INDEX] = low;
    if low == 0 {
        regs[TIME_INDEX + 1] = wrapping_add_u32(regs[TIME_INDEX + 1], 1);
    }
}

// A register written, and on.
pub(crate) fn write(regs: &mut [u32], at: u32, c: Capability, to: u32)
    requires { (length regs.old ≡ register_words) × (at ≤ 45) }
    ensures { regs.new ≡ went_on to (written_at at c regs.old) }
{
    let i = at as usize;
    if i != 0 {
        regs[i] = c.address;
        regs[i + 1] = c.metadata;
        regs[i + 2] = c.tag;
    }
    go_on(regs, to);
}

// A register that is not c0 written, and on.
pub(crate) fn write_some(regs: &mut [u32], at: u32, c: Capability, to: u32)
    requires { (length regs.old ≡ register_words) × Writable at }
    ensures { regs.new ≡ went_on to (written_at at c regs.old) }
{
    let i = at as usize;
    regs[i] = c.address;
    regs[i + 1] = c.metadata;
    regs[i + 2] = c.tag;
    go_on(regs, to);
}

// The integer in a register.
pub(crate) fn read(regs: &[u32], from: u32) -> u32
    requires { (length regs.now ≡ register_words) × (from ≤ 45) }
    ensures { result ≡ slice_index regs.now from }
{
    regs[from as usize]
}

// The capability at a place.
pub(crate) fn read_capability(regs: &[u32], from: u32) -> Capability
    requires { (length regs.now ≡ register_words) × (from ≤ 48) }
    ensures { result ≡ held_at from regs.now }
{
    let i = from as usize;
    Capability {
        address: regs[i],
        metadata: regs[i + 1],
        tag: regs[i + 2],
    }
}

// PCC.
pub(crate) fn read_pcc(regs: &[u32]) -> Capability
    requires { length regs.now ≡ register_words }
    ensures { result ≡ held_at pcc_place regs.now }
{
    read_capability(regs, PCC_PLACE as u32)
}

// The mark after a store at an address.
pub(crate) fn mark(regs: &mut [u32], address: u32)
    requires { length regs.old ≡ register_words }
    ensures { regs.new ≡ marked address regs.old }
{
    if regs[BASE_PLACE] <= address {
        if address < regs[MARK_PLACE] {
            regs[MARK_PLACE] = state::clear_low(address);
        }
    }
}
