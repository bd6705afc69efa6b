// A capability as a register holds it, and what may be asked of it and done to it.
#![tactic(auto)]

mod changing;
mod loading;
mod reading;
mod sealing;

pub use changing::{clear_tag, integer, move_address, narrow_rights, set_bounds, set_bounds_exact};
pub use loading::{is_revocable, loaded};
pub use reading::{
    bounds_of, covers_range, has_right, indexed_rights, is_sealed, is_tagged, rights_of,
};
pub use sealing::{is_sentry, object_type, seal, unseal, with_object_type};

// The types: none, and those of sentries, which leave, disable and enable interrupts. Numbers and no enum, since a word may hold any of its eight.
pub const UNSEALED: u32 = 0;

pub const SENTRY: u32 = 1;

pub const SENTRY_DISABLING: u32 = 2;

pub const SENTRY_ENABLING: u32 = 3;

// Address, metadata word, and tag, 0 or 1: three words, as they are lent to C and as `Good` (specs/Capability) speaks of them.
#[derive(Clone, Copy)]
pub struct Capability {
    pub address: u32,
    pub metadata: u32,
    pub tag: u32,
}
