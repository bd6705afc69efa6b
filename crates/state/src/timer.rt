// Time, its compare and the interrupt.
ghost use Rattle.std.specs.Prelude.{◌≡◌, ◌+◌, ◌^◌, ◌<◌, slice_index};
ghost use Rattle.state.specs.Timer.{long_of, interrupted, ticked};

use crate::registers::csr_at;
use crate::status::mie_of;
use crate::{COMPARE_INDEX, TIME_INDEX};
use instructions::Csr;

// What the low bit of a high word weighs.
const HIGH_WEIGHT: u64 = 0x1_0000_0000;

// The 64-bit number of two words, the low one first: time's or its compare's.
fn long_at(regs: &[u32], at: usize) -> u64
    requires { at < 2 ^ 32 }
    ensures { result ≡ long_of (slice_index regs.now at) (slice_index regs.now (at + 1)) }
{
    words::word_at(regs, at + 1) as u64 * HIGH_WEIGHT + words::word_at(regs, at) as u64
}

// Whether the timer's interrupt is due.
#[tactic(auto, unfolding(crate::specs::Timer::interrupted, crate::specs::Timer::time_of, crate::specs::Timer::compare_of))]
pub fn interrupt_due(regs: &[u32]) -> bool
    ensures { result ≡ interrupted regs.now }
{
    mie_of(csr_at(regs, Csr::Mstatus)) == 1
        && long_at(regs, COMPARE_INDEX) <= long_at(regs, TIME_INDEX)
}

// Time one on.
pub fn tick(regs: &mut [u32])
    ensures { regs.new ≡ ticked regs.old }
{
    let next = long_at(regs, TIME_INDEX).wrapping_add(1);
    words::put_word(regs, TIME_INDEX, (next % HIGH_WEIGHT) as u32);
    words::put_word(regs, TIME_INDEX + 1, (next / HIGH_WEIGHT) as u32);
}
