// Numbers scaled and rounded by powers of 2: the only shifts by a variable count.
ghost use Rattle.std.specs.Prelude.{◌≡◌, ◌+◌, ◌-◌, ◌*◌, ◌/◌, ◌%◌, ◌^◌, ◌<◌, ◌≤◌};
ghost use Rattle.bounds.specs.Bounds.{less};
ghost use Rattle.bounds.specs.Cutting.{round_up};

use crate::BLOCK_UNITS;

// An exponent, 24 at most: a unit is 2^value addresses.
#[derive(Clone, Copy)]
pub(crate) struct Exponent {
    pub(crate) value: u32,
    ghost small: { value ≤ 24 },
}

impl Exponent {
    // b units, for a field b of nine bits: a number with its limit, as the readers of metadata promise it.
    pub(crate) fn scaled(self, b: u64) -> u64
        requires { b < 512 }
        ensures { (result ≡ b * 2 ^ self.value) × (result < 2 ^ 33) }
    {
        b << self.value
    }

    // The start of the unit that holds a.
    pub(crate) fn block(self, a: u64) -> u64
        ensures { (result ≡ a / 2 ^ self.value * 2 ^ self.value) × (result ≤ a) }
    {
        (a >> self.value) << self.value
    }

    // The block of 512 units that the base stands in, counted from 1: floor((q - base) / 512) + 1 for the address's unit q.
    pub(crate) fn base_block(self, address: u32, base: u32) -> u64
        requires { base < 512 }
        ensures { (result ≡ (address / 2 ^ self.value + 512 - base) / 512) × (result ≤ 2 ^ 23) }
    {
        ((address as u64 >> self.value) + BLOCK_UNITS - base as u64) / BLOCK_UNITS
    }

    // The unit that the base stands at, modulo 2^64: the last up to the address's own whose low nine bits are the field's.
    pub(crate) fn base_unit(self, address: u32, base: u32) -> u64
        requires { base < 512 }
        ensures { result ≡ (2 ^ 64 + ((address / 2 ^ self.value + 512 - base) / 512 * 512 + base) - 512) % 2 ^ 64 }
    {
        let unit = address as u64 >> self.value;
        unit.wrapping_sub(unit.wrapping_sub(base as u64) % BLOCK_UNITS)
    }

    // One less than a unit.
    pub(crate) fn ones(self) -> u64
        ensures { (result ≡ 2 ^ self.value - 1) × (result < 2 ^ 24) }
    {
        (1u64 << self.value) - 1
    }

    // The field of nine bits of a number in units.
    pub(crate) fn field_of(self, x: u64) -> u32
        ensures { (result ≡ x / 2 ^ self.value % 2 ^ 9) × (result < 512) }
    {
        ((x >> self.value) % BLOCK_UNITS) as u32
    }

    // x rounded up to whole units.
    pub(crate) fn round_up(self, x: u64) -> u64
        requires { x < 2 ^ 33 }
        ensures { (result ≡ round_up self.value x) × (result < 2 ^ 34) }
    {
        self.block(x + self.ones())
    }
}

// How many units the top stands above the base.
pub(crate) fn span(top: u32, base: u32) -> u64
    requires { (top < 512) × (base < 512) }
    ensures { (base + result ≡ less top base * 512 + top) × (result < 512) }
{
    (top as u64 + BLOCK_UNITS - base as u64) % BLOCK_UNITS
}
