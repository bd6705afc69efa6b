// The stack's high-water mark.
ghost use Rattle.std.specs.Prelude.{◌≡◌};
ghost use Rattle.state.specs.Marks.{cleared, marked};

use crate::registers::{csr_at, set_csr};
use instructions::Csr;

// What a word of the pair is a multiple of where it is written.
pub const MARK_GRAIN: u32 = 16;

// A word with its low four bits cleared.
pub fn clear_low(word: u32) -> u32
    ensures { result ≡ cleared word }
{
    word / MARK_GRAIN * MARK_GRAIN
}

// The mark after a store at an address: it comes down to one that lies below it and not below the base.
pub fn move_mark(regs: &mut [u32], address: u32)
    ensures { regs.new ≡ marked address regs.old }
{
    if csr_at(regs, Csr::Mshwmb) <= address {
        if address < csr_at(regs, Csr::Mshwm) {
            set_csr(regs, Csr::Mshwm, clear_low(address));
        }
    }
}
