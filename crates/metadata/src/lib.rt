// The metadata word of a capability: its fields, and the rights that its permission code stands for.
#![tactic(auto)]

mod codes;
mod masks;
mod word;

pub use codes::{encode, has, narrow};
pub use masks::{indexed_rights, rights};
pub use word::{
    base_of, join, otype, permissions, scale_of, split, top_of, with_bounds, with_type,
};

// The numbers of the twelve rights: numbers and no enum, since a right is a bit of the masks that programs and C hand over.
pub const GL: u32 = 0;

pub const LG: u32 = 1;

pub const SD: u32 = 2;

pub const LM: u32 = 3;

pub const SL: u32 = 4;

pub const LD: u32 = 5;

pub const MC: u32 = 6;

pub const SR: u32 = 7;

pub const EX: u32 = 8;

pub const US: u32 = 9;

pub const SE: u32 = 10;

pub const U0: u32 = 11;

// All twelve.
pub const ALL_RIGHTS: u32 = 0xFFF;

#[derive(Clone, Copy)]
pub struct Fields {
    pub reserved: u32,
    pub permissions: u32,
    pub otype: u32,
    pub scale: u32,
    pub top: u32,
    pub base: u32,
}
