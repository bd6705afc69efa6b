// Where the special registers and the control words stand in the register file.
ghost use Rattle.std.specs.Prelude.{◌≡◌, ◌<◌};
ghost use Rattle.state.specs.Layout.{csr_index, scr_index, scr_number};

use crate::{CONTROL_START, MEPCC_INDEX, MSCRATCHC_INDEX, MTCC_INDEX, MTDC_INDEX};
use instructions::{Csr, Scr};

// The place of a special register among the capabilities.
pub fn scr_index(scr: Scr) -> u32
    ensures { result ≡ scr_index scr }
{
    match scr {
        Scr::Mtcc => MTCC_INDEX,
        Scr::Mtdc => MTDC_INDEX,
        Scr::Mscratchc => MSCRATCHC_INDEX,
        Scr::Mepcc => MEPCC_INDEX,
    }
}

// A special register's own number, as the decoder has them.
pub fn scr_number(scr: Scr) -> u32
    ensures { (result ≡ scr_number scr) × (result < 32) }
{
    match scr {
        Scr::Mtcc => 28,
        Scr::Mtdc => 29,
        Scr::Mscratchc => 30,
        Scr::Mepcc => 31,
    }
}

// The place of a control word.
pub fn csr_index(csr: Csr) -> usize
    ensures { result ≡ csr_index csr }
{
    match csr {
        Csr::Mstatus => CONTROL_START,
        Csr::Mcause => CONTROL_START + 1,
        Csr::Mtval => CONTROL_START + 2,
        Csr::Mshwm => CONTROL_START + 3,
        Csr::Mshwmb => CONTROL_START + 4,
    }
}
