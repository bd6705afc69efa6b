// The cutter and the bounds lookup for C: what crate label promises, under the names of `include/oddersnow.h`. A static library exports its own
// functions alone.
#![tactic(auto)]

ghost use Rattle.std.specs.Prelude.{◌≡◌};
ghost use Rattle.bounds.specs.Bounds.{bounds_of};
ghost use Rattle.bounds.specs.Cutting.{answer_exact, answer_high, answer_low, answer_number, cut_of};

// 0, or 6 where the request ends past 2^32.
#[unsafe(no_mangle)]
pub extern "C" fn oddersnow_cut_number(base: u32, length: u32) -> u32
    ensures { result ≡ answer_number (cut_of base length) }
{
    label::oddersnow_cut_number(base, length)
}

#[unsafe(no_mangle)]
pub extern "C" fn oddersnow_cut_low(base: u32, length: u32) -> u32
    ensures { result ≡ answer_low (cut_of base length) }
{
    label::oddersnow_cut_low(base, length)
}

#[unsafe(no_mangle)]
pub extern "C" fn oddersnow_cut_high(base: u32, length: u32) -> u64
    ensures { result ≡ answer_high (cut_of base length) }
{
    label::oddersnow_cut_high(base, length)
}

// 1 where the region is the request, else 0.
#[unsafe(no_mangle)]
pub extern "C" fn oddersnow_cut_exact(base: u32, length: u32) -> u32
    ensures { result ≡ answer_exact (cut_of base length) }
{
    label::oddersnow_cut_exact(base, length)
}

// The bounds of a metadata word at an address.
#[unsafe(no_mangle)]
pub extern "C" fn oddersnow_bounds_low(address: u32, metadata: u32) -> u32
    ensures { result ≡ (bounds_of address metadata).low }
{
    label::oddersnow_bounds_low(address, metadata)
}

#[unsafe(no_mangle)]
pub extern "C" fn oddersnow_bounds_high(address: u32, metadata: u32) -> u64
    ensures { result ≡ (bounds_of address metadata).high }
{
    label::oddersnow_bounds_high(address, metadata)
}
