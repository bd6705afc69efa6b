// The lent state: the register file, places in memory, the checks of an access, and what one instruction does to the state.
#![tactic(auto)]

mod addresses;
mod checks;
mod layout;
mod marks;
mod memory;
mod registers;
mod status;
mod timer;

pub use addresses::{return_address, vector};
use capability::Capability;
pub use checks::{
    access_cause, bounds_cause, capability_trap, checked_effect, in_bounds, system_access,
};
use instructions::{Csr, Scr, StoreKind};
pub use layout::{csr_index, scr_index, scr_number};
pub use marks::{clear_low, move_mark};
pub use memory::{capability_in, load_width, place_of, revocation_at, store_width};
pub use registers::{
    capability_at, csr_at, integer_at, pcc_of, register_at, set_capability, set_csr, write_register,
};
pub use status::{mie_of, return_status, trap_status, with_mie, written_status};
pub use timer::{interrupt_due, tick};

// The words of a capability in the register file, how many capabilities, control words and words of the timer it holds, and so how many words it has.
pub const CAPABILITY_WORDS: usize = 3;

pub const GENERAL_COUNT: u32 = 16;

pub const CAPABILITY_COUNT: usize = 21;

pub const CONTROL_COUNT: usize = 5;

pub const TIMER_COUNT: usize = 4;

pub const CONTROL_START: usize = CAPABILITY_COUNT * CAPABILITY_WORDS;

pub const REGISTER_WORDS: usize = CONTROL_START + CONTROL_COUNT + TIMER_COUNT;

// The places of time's and compare's low words.
pub const TIME_INDEX: usize = CONTROL_START + CONTROL_COUNT;

pub const COMPARE_INDEX: usize = TIME_INDEX + 2;

// The places of PCC and the special registers among the capabilities.
pub const PCC_INDEX: u32 = GENERAL_COUNT;

pub const MTCC_INDEX: u32 = GENERAL_COUNT + 1;

pub const MTDC_INDEX: u32 = GENERAL_COUNT + 2;

pub const MSCRATCHC_INDEX: u32 = GENERAL_COUNT + 3;

pub const MEPCC_INDEX: u32 = GENERAL_COUNT + 4;

// The bytes that a jump's target must have in bounds, those of the shortest instruction, and what its address is a multiple of.
pub const TARGET_BYTES: u32 = 2;

pub const TARGET_ALIGNMENT: u32 = 2;

// What an address of MTCC is cut to where it is used, and what an address of MEPCC is.
pub const VECTOR_ALIGNMENT: u32 = 4;

pub const RETURN_ALIGNMENT: u32 = 2;

// The bytes of a granule, which has one tag and one revocation bit; and as an index of a buffer.
pub const GRANULE_BYTES: u32 = 8;

pub const GRANULE: usize = 8;

// mcause.
pub const FETCH_MISALIGNED: u32 = 0;

pub const FETCH_FAULT: u32 = 1;

pub const ILLEGAL_INSTRUCTION: u32 = 2;

pub const BREAKPOINT: u32 = 3;

pub const LOAD_MISALIGNED: u32 = 4;

pub const LOAD_FAULT: u32 = 5;

pub const STORE_MISALIGNED: u32 = 6;

pub const STORE_FAULT: u32 = 7;

pub const ENVIRONMENT_CALL: u32 = 11;

pub const CAPABILITY_FAULT: u32 = 28;

pub const TIMER_INTERRUPT: u32 = 0x8000_0007;

// The causes of capability traps, 0 for none, and PCC's number in mtval.
pub const NO_CAUSE: u32 = 0;

pub const BOUNDS_CAUSE: u32 = 1;

pub const TAG_CAUSE: u32 = 2;

pub const SEAL_CAUSE: u32 = 3;

pub const EXECUTE_CAUSE: u32 = 17;

pub const LOAD_CAUSE: u32 = 18;

pub const STORE_CAUSE: u32 = 19;

pub const STORE_CAPABILITY_CAUSE: u32 = 21;

pub const STORE_LOCAL_CAUSE: u32 = 22;

pub const SYSTEM_CAUSE: u32 = 24;

pub const PCC_REGISTER: u32 = 32;

// The part of memory that the revocation bits are for, its start counted from memory's.
#[derive(Clone, Copy)]
pub struct Window {
    pub start: u32,
    pub size: u32,
}

// What is lent as numbers: memory's start, the window of the revocation bits, and the edition of the architecture.
#[derive(Clone, Copy)]
pub struct Board {
    pub start: u32,
    pub window: Window,
    pub edition: u32,
}

// The editions: the report, and the later one.
pub const REPORT_EDITION: u32 = 0;

pub const LATER_EDITION: u32 = 1;

// What the revocation bits say of an address: it lies outside their window, or its granule is clear or marked. Names, since an Option of a bool says less.
#[derive(Clone, Copy)]
pub enum Revocation {
    Outside,
    Clear,
    Marked,
}

// Where an access of some bytes lies in memory. No Result: each of the three has its own trap or effect at every use, so one match stays plainest.
#[derive(Clone, Copy)]
pub enum Place {
    At(u32),
    Misaligned,
    Outside,
}

// What one instruction does, decided before anything is written.
#[derive(Clone, Copy)]
pub enum Effect {
    Advance,
    Write {
        rd: u32,
        value: Capability,
    },
    Store {
        kind: StoreKind,
        at: u32,
        value: u32,
    },
    StoreCapability {
        at: u32,
        value: Capability,
    },
    Jump {
        rd: u32,
        link: Capability,
        target: Capability,
        mstatus: u32,
    },
    WriteScr {
        rd: u32,
        old: Capability,
        scr: Scr,
        value: Capability,
    },
    WriteCsr {
        rd: u32,
        old: u32,
        csr: Csr,
        value: u32,
    },
    Trap {
        cause: u32,
        value: u32,
    },
}
