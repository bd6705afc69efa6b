// The cutter and the bounds lookup for C, asked by plain numbers. `include/oddersnow.h` declares
// them. A refused cut has a number of its own, and each of its other values is 0.
#![tactic(auto)]

ghost use Rattle.std.specs.Prelude.{◌≡◌};
ghost use Rattle.bounds.specs.Bounds.{bounds_of};
ghost use Rattle.bounds.specs.Cutting.{answer_exact, answer_high, answer_low, answer_number, cut_of};
ghost use Rattle.label.specs.Answers.{Says};

use bounds::{CutError, CutRegion, Region};
use choices::one_if;

// Document 01's number of what is not refused.
const ANSWERED: u32 = 0;

// A cut's answer as numbers: a function for C gives one of them.
#[derive(Clone, Copy)]
struct Numbers {
    number: u32,
    low: u32,
    high: u64,
    exact: u32,
}

impl From<Result<CutRegion, CutError>> for Numbers {
    ghost from_gives = { λ answer numbers. Says numbers answer };

    fn from(answer: Result<CutRegion, CutError>) -> Numbers {
        match answer {
            Ok(cut) => Numbers {
                number: ANSWERED,
                low: cut.region.low,
                high: cut.region.high,
                exact: one_if(cut.exact),
            },
            Err(e) => Numbers {
                number: e.number(),
                low: 0,
                high: 0,
                exact: 0,
            },
        }
    }
}

fn cut_numbers(base: u32, length: u32) -> Numbers
    ensures { Says result (cut_of base length) }
{
    Numbers::from(bounds::cut(base, length))
}

// 0, or 6 where the request ends past 2^32.
#[unsafe(no_mangle)]
pub extern "C" fn oddersnow_cut_number(base: u32, length: u32) -> u32
    ensures { result ≡ answer_number (cut_of base length) }
{
    cut_numbers(base, length).number
}

#[unsafe(no_mangle)]
pub extern "C" fn oddersnow_cut_low(base: u32, length: u32) -> u32
    ensures { result ≡ answer_low (cut_of base length) }
{
    cut_numbers(base, length).low
}

#[unsafe(no_mangle)]
pub extern "C" fn oddersnow_cut_high(base: u32, length: u32) -> u64
    ensures { result ≡ answer_high (cut_of base length) }
{
    cut_numbers(base, length).high
}

// 1 where the region is the request, else 0.
#[unsafe(no_mangle)]
pub extern "C" fn oddersnow_cut_exact(base: u32, length: u32) -> u32
    ensures { result ≡ answer_exact (cut_of base length) }
{
    cut_numbers(base, length).exact
}

fn bounds_at(address: u32, metadata: u32) -> Region
    ensures { (result.low ≡ (bounds_of address metadata).low) × (result.high ≡ (bounds_of address metadata).high) }
{
    bounds::bounds(address, metadata)
}

// The bounds of a metadata word at an address.
#[unsafe(no_mangle)]
pub extern "C" fn oddersnow_bounds_low(address: u32, metadata: u32) -> u32
    ensures { result ≡ (bounds_of address metadata).low }
{
    bounds_at(address, metadata).low
}

#[unsafe(no_mangle)]
pub extern "C" fn oddersnow_bounds_high(address: u32, metadata: u32) -> u64
    ensures { result ≡ (bounds_of address metadata).high }
{
    bounds_at(address, metadata).high
}
