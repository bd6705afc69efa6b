// The register file, read and written. Outside the lent words a read gives 0 and a write changes nothing.
ghost use Rattle.std.specs.Prelude.{◌≡◌, slice_set};
ghost use Rattle.state.specs.Layout.{csr_index};
ghost use Rattle.state.specs.Registers.{capability_at, set_capability, register_at, write_register, integer_at, pcc_of, csr_at};

use crate::layout::csr_index;
use crate::{CAPABILITY_WORDS, GENERAL_COUNT, PCC_INDEX};
use capability::Capability;
use instructions::Csr;

// Capability i of the register file.
pub fn capability_at(regs: &[u32], i: u32) -> Capability
    ensures { result ≡ capability_at regs.now i }
{
    let at = i as usize * CAPABILITY_WORDS;
    if at + CAPABILITY_WORDS <= regs.len() {
        Capability {
            address: regs[at],
            metadata: regs[at + 1],
            tag: regs[at + 2],
        }
    } else {
        Capability {
            address: words::word_at(regs, at),
            metadata: words::word_at(regs, at + 1),
            tag: words::word_at(regs, at + 2),
        }
    }
}

// Capability i of the register file set.
pub fn set_capability(regs: &mut [u32], i: u32, c: Capability)
    ensures { regs.new ≡ set_capability regs.old i c }
{
    let at = i as usize * CAPABILITY_WORDS;
    if at + CAPABILITY_WORDS <= regs.len() {
        regs[at] = c.address;
        regs[at + 1] = c.metadata;
        regs[at + 2] = c.tag;
    } else {
        words::put_word(regs, at, c.address);
        words::put_word(regs, at + 1, c.metadata);
        words::put_word(regs, at + 2, c.tag);
    }
}

// Register c0 to c15.
pub fn register_at(regs: &[u32], r: u32) -> Capability
    ensures { result ≡ register_at regs.now r }
{
    capability_at(regs, r % GENERAL_COUNT)
}

// A register written; c0 stays.
pub fn write_register(regs: &mut [u32], rd: u32, c: Capability)
    ensures { regs.new ≡ write_register regs.old rd c }
{
    if rd % GENERAL_COUNT != 0 {
        set_capability(regs, rd % GENERAL_COUNT, c);
    }
}

// The integer in a register: its address.
pub fn integer_at(regs: &[u32], r: u32) -> u32
    ensures { result ≡ integer_at regs.now r }
{
    words::word_at(regs, (r % GENERAL_COUNT) as usize * CAPABILITY_WORDS)
}

pub fn pcc_of(regs: &[u32]) -> Capability
    ensures { result ≡ pcc_of regs.now }
{
    capability_at(regs, PCC_INDEX)
}

pub fn csr_at(regs: &[u32], csr: Csr) -> u32
    ensures { result ≡ csr_at regs.now csr }
{
    words::word_at(regs, csr_index(csr))
}

pub fn set_csr(regs: &mut [u32], csr: Csr, value: u32)
    ensures { regs.new ≡ slice_set regs.old (csr_index csr) value }
{
    words::put_word(regs, csr_index(csr), value);
}
