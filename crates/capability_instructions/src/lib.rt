// What the instructions that inspect, derive and compare capabilities do. None of them traps.
#![tactic(auto)]

ghost use Rattle.std.specs.Prelude.{◌≡◌};
ghost use Rattle.capability_instructions.specs.Derivation.{moved_by, at_most_word, length_of, inspected, subset, equal_exact, truth, combined};
ghost use Rattle.capability_instructions.specs.Derivation.{capability_effect};

use capability::Capability;
use instructions::{CapabilityInstruction, Combination, Inspection};
use state::Effect;
use std::num::{wrapping_add_u32, wrapping_sub_u32};

// c3, the global pointer that AUICGP adds to.
pub const GLOBAL_POINTER: u32 = 3;

// The largest word, and 2^33, the modulus of a length.
pub const LARGEST_WORD: u32 = 0xFFFF_FFFF;

pub const LENGTH_MODULUS: u64 = 0x2_0000_0000;

// A capability with its address moved by an offset.
fn moved_by(c: Capability, offset: u32) -> Capability
    ensures { result ≡ moved_by c offset }
{
    capability::move_address(c, wrapping_add_u32(c.address, offset))
}

// A number, or the largest word if it is larger.
fn at_most_word(x: u64) -> u32
    ensures { result ≡ at_most_word x }
{
    u32::try_from(x).unwrap_or(LARGEST_WORD)
}

// The 33-bit length of a capability.
#[tactic(auto, unfolding(crate::specs::Derivation::length_of))]
fn length_of(c: Capability) -> u64
    ensures { result ≡ length_of c }
{
    let r = capability::bounds_of(c);
    (r.high + LENGTH_MODULUS - r.low as u64) % LENGTH_MODULUS
}

// The number that an inspection gives.
#[tactic(auto, unfolding(crate::specs::Derivation::inspected))]
fn inspect(what: Inspection, c: Capability) -> u32
    ensures { result ≡ inspected what c }
{
    match what {
        Inspection::GetPerm => capability::indexed_rights(c),
        Inspection::GetType => capability::object_type(c),
        Inspection::GetBase => capability::bounds_of(c).low,
        Inspection::GetLen => at_most_word(length_of(c)),
        Inspection::GetTag => c.tag,
        Inspection::RoundLength => bounds::representable_length(c.address),
        Inspection::AlignmentMask => bounds::alignment_mask(c.address),
        Inspection::GetAddr => c.address,
        Inspection::GetHigh => c.metadata,
        Inspection::GetTop => at_most_word(capability::bounds_of(c).high),
    }
}

// Whether the bounds and rights of d are within those of c, and the tags equal.
#[tactic(auto, unfolding(crate::specs::Derivation::subset))]
fn is_subset(c: Capability, d: Capability) -> bool
    ensures { result ≡ subset c d }
{
    let x = capability::bounds_of(c);
    let y = capability::bounds_of(d);
    let held = capability::rights_of(d);
    choices::all_four(
        c.tag == d.tag,
        x.low <= y.low,
        y.high <= x.high,
        words::and(held, capability::rights_of(c)) == held,
    )
}

// Whether all three words are equal.
#[tactic(auto, unfolding(crate::specs::Derivation::equal_exact))]
fn is_equal(c: Capability, d: Capability) -> bool
    ensures { result ≡ equal_exact c d }
{
    choices::all_three(
        c.address == d.address,
        c.metadata == d.metadata,
        c.tag == d.tag,
    )
}

fn truth_of(b: bool) -> Capability
    ensures { result ≡ truth b }
{
    capability::integer(choices::one_if(b))
}

// What two registers combine to.
#[tactic(auto, unfolding(crate::specs::Derivation::combined))]
fn combine(what: Combination, c: Capability, d: Capability) -> Capability
    ensures { result ≡ combined what c d }
{
    match what {
        Combination::SetBounds => capability::set_bounds(c, d.address),
        Combination::SetBoundsExact => capability::set_bounds_exact(c, d.address),
        Combination::Seal => capability::seal(c, d),
        Combination::Unseal => capability::unseal(c, d),
        Combination::AndPerm => capability::narrow_rights(c, d.address),
        Combination::SetAddr => capability::move_address(c, d.address),
        Combination::IncAddr => moved_by(c, d.address),
        Combination::SubAddr => capability::integer(wrapping_sub_u32(c.address, d.address)),
        Combination::SetHigh => Capability {
            metadata: d.address,
            tag: 0,
            ..c
        },
        Combination::TestSubset => truth_of(is_subset(c, d)),
        Combination::SetEqualExact => truth_of(is_equal(c, d)),
    }
}

// A register written.
fn write(rd: u32, value: Capability) -> Effect
    ensures { result ≡ Effect.Write rd value }
{
    Effect::Write { rd, value }
}

#[tactic(auto, unfolding(crate::specs::Derivation::capability_effect))]
pub fn capability_effect(i: CapabilityInstruction, regs: &[u32]) -> Effect
    ensures { result ≡ capability_effect i regs.now }
{
    match i {
        CapabilityInstruction::AuiPcc { rd, offset } => {
            write(rd, moved_by(state::pcc_of(regs), offset))
        }
        CapabilityInstruction::AuiCgp { rd, offset } => {
            write(
                rd,
                moved_by(state::register_at(regs, GLOBAL_POINTER), offset),
            )
        }
        CapabilityInstruction::IncAddrImm { rd, rs1, offset } => {
            write(rd, moved_by(state::register_at(regs, rs1), offset))
        }
        CapabilityInstruction::SetBoundsImm { rd, rs1, length } => {
            let c = state::register_at(regs, rs1);
            write(rd, capability::set_bounds(c, length))
        }
        CapabilityInstruction::Move { rd, rs1 } => write(rd, state::register_at(regs, rs1)),
        CapabilityInstruction::ClearTag { rd, rs1 } => {
            write(rd, capability::clear_tag(state::register_at(regs, rs1)))
        }
        CapabilityInstruction::Inspect { what, rd, rs1 } => {
            write(
                rd,
                capability::integer(inspect(what, state::register_at(regs, rs1))),
            )
        }
        CapabilityInstruction::Combine { what, rd, rs1, rs2 } => {
            let c = state::register_at(regs, rs1);
            let d = state::register_at(regs, rs2);
            write(rd, combine(what, c, d))
        }
    }
}
