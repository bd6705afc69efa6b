// What the capabilities of a state reach: the first place that holds one with some rights and a byte of a range of addresses.
#![tactic(auto)]

mod outside;

ghost use Rattle.std.specs.Prelude.{◌≡◌, ◌==◌, if◌then◌else◌, ◌&&◌, ◌+◌, ◌-◌, ◌*◌, ◌≤◌, ◌<◌, ◌^◌, leb, ltb, length};
ghost use Rattle.state.specs.Layout.{capability_count};
ghost use Rattle.state.specs.Lent.{state};
ghost use Rattle.machine.specs.Refusals.{most_memory, number_in};
ghost use Rattle.reach.specs.Reach.{end, reaches_into, places_in, first_of, first_reach};
ghost use Rattle.reach.specs.Search.{tags_of_byte, byte_clear, granule_passes, clear_from};
ghost use Rattle.reach.specs.Reach.{asked_refusal, reach_refusal, reach_answer, packed_reach, ReachPromise, query_of};

use bounds::Region;
use capability::Capability;
use machine::{Refusal, refuse_unless};
use metadata::ALL_RIGHTS;
use outside::range_end;
pub use outside::{oddersnow_reach_outside, reach_outside};
use state::{Board, CAPABILITY_COUNT, GRANULE, GRANULE_BYTES, REPORT_EDITION, Window};

// What is asked: a range of addresses, its end a whole number, and the rights that a capability must have to count.
#[derive(Clone, Copy)]
pub struct Query {
    pub low: u32,
    pub length: u32,
    pub rights: u32,
}

// The end of the address space, the bits of a byte of tags, and the place of a number, 2^48, in an answer for C.
const SPACE: u64 = 0x1_0000_0000;

const TAGS_OF_BYTE: u32 = 8;

pub const NUMBER_PLACE: u64 = 0x1_0000_0000_0000;

// The places of a state with a memory of size bytes: the capability registers, then the granules.
fn places_in(size: usize) -> usize
    ensures { result ≡ places_in size }
{
    CAPABILITY_COUNT + size / GRANULE
}

// ---- one capability

// Whether bounds are in order, and none past the address space: the machine's own test, of bounds that are read once for both tests here.
fn is_sound(region: Region) -> bool
    ensures { result ≡ (leb region.low region.high && leb region.high (2 ^ 32)) }
{
    region.low as u64 <= region.high && region.high <= SPACE
}

// Whether bounds have a byte in common with the range, where it is not empty.
fn overlaps(region: Region, q: Query) -> bool
    ensures { result ≡ (ltb region.low region.high && (ltb region.low (end q) && ltb q.low region.high)) }
{
    let low = region.low as u64;
    low < region.high && low < range_end(q) && (q.low as u64) < region.high
}

// Whether a capability counts.
#[tactic(auto, unfolding(crate::specs::Reach::reaches_into, machine::specs::Refusals::sound))]
fn reaches(q: Query, c: Capability) -> bool
    ensures { result ≡ reaches_into q c }
{
    if !capability::is_tagged(c) {
        return false;
    }
    if q.length == 0 {
        return false;
    }
    let region = capability::bounds_of(c);
    if !is_sound(region) {
        return true;
    }
    if capability::rights_of(c) & q.rights != q.rights {
        return false;
    }
    overlaps(region, q)
}

// ---- all places

// Whether a granule is the first of a byte of tags, and none of them is set.
#[tactic(auto, unfolding(crate::specs::Search::byte_clear))]
fn is_byte_clear(tags: &[u8], granule: u32) -> bool
    ensures { result ≡ byte_clear tags.now granule }
{
    granule % TAGS_OF_BYTE == 0 && words::load8(tags, (granule / TAGS_OF_BYTE) as usize) == 0
}

// How many granules from one on are passed over, none of which counts: all of a byte of tags that is clear, else this one. 0 where it counts:
// the loop adds what it answers, so a number serves it as it is.
#[tactic(auto, unfolding(crate::specs::Search::clear_from))]
fn clear_from(mem: &[u8], tags: &[u8], q: Query, granule: u32) -> u32
    requires { granule < 2 ^ 17 }
    ensures { (result ≡ clear_from q mem.now tags.now granule) × (result ≤ tags_of_byte) }
{
    if is_byte_clear(tags, granule) {
        return TAGS_OF_BYTE;
    }
    if reaches(q, state::capability_in(mem, tags, granule * GRANULE_BYTES)) {
        return 0;
    }
    1
}

// The first place from one on, of those in memory. Clear bytes of tags are passed over whole, so the loop goes by no range.
fn first_granule(mem: &[u8], tags: &[u8], q: Query, from: u32) -> Option<u32>
    requires { (capability_count ≤ from) × (length mem.now ≤ most_memory) }
    ensures { result ≡ first_of (places_in (length mem.now) - from) (granule_passes q mem.now tags.now) from }
{
    let mut p = from;
    while (p as usize) < places_in(mem.len()) {
        let clear = clear_from(mem, tags, q, p - CAPABILITY_COUNT as u32);
        if clear == 0 {
            return Some(p);
        }
        p += clear;
    }
    None
}

// The first place from one on. Nothing is refused.
pub(crate) fn first_place(regs: &[u32], mem: &[u8], tags: &[u8], q: Query, from: u32) -> Option<u32>
    requires { length mem.now ≤ most_memory }
    ensures { result ≡ first_reach q (state regs.now mem.now tags.now) from }
{
    let behind = CAPABILITY_COUNT as u32;
    match (from..behind).find(|p| reaches(q, state::capability_at(regs, *p))) {
        Some(p) => Some(p),
        None => first_granule(mem, tags, q, from.max(behind)),
    }
}

// ---- the refusals. What is lent goes by its parts, as C and the machine lend it: a struct of them would be made for one call.

// The refusals of what is asked: a mask of more than the twelve rights, and a number that is no place.
#[tactic(auto, using(machine::proofs::Laws::test_passed, machine::proofs::Laws::test_failed), unfolding(crate::specs::Reach::asked_refusal))]
fn asked_refusal(q: Query, size: usize, from: u32) -> Result<(), Refusal>
    ensures { number_in result ≡ asked_refusal q size from }
{
    refuse_unless(q.rights <= ALL_RIGHTS, Refusal::Rights)?;
    refuse_unless((from as usize) < places_in(size), Refusal::Place)
}

// A step's answer to what is lent, but for registers that are not sound: they count, and are no refusal.
fn but_unsound(found: Result<(), Refusal>) -> Result<(), Refusal>
    ensures { number_in result ≡ (if number_in found == 8 then 0 else number_in found) }
{
    match found {
        Err(Refusal::Bounds) => Ok(()),
        Err(why) => Err(why),
        Ok(()) => Ok(()),
    }
}

// The first refusal that applies: a step's own, of a call of no steps and with no window; then those of what is asked.
pub(crate) fn refusal(
    regs: &[u32],
    start: u32,
    mem: &[u8],
    tags: &[u8],
    q: Query,
    from: u32,
) -> Result<(), Refusal>
    ensures { number_in result ≡ reach_refusal start q from (state regs.now mem.now tags.now) }
{
    let board = Board {
        start,
        window: Window { start: 0, size: 0 },
        edition: REPORT_EDITION,
    };
    but_unsound(machine::refusal(0, regs, board, mem, tags, &tags[0..0]))?;
    asked_refusal(q, mem.len(), from)
}

// The first place from one on whose capability counts. Nothing is written.
#[tactic(auto, using(crate::proofs::Laws::reach_refused, crate::proofs::Laws::reach_done, crate::proofs::Laws::accepted_size))]
pub fn reach(
    regs: &[u32],
    start: u32,
    mem: &[u8],
    tags: &[u8],
    q: Query,
    from: u32,
) -> Result<Option<u32>, Refusal>
    ensures { ReachPromise start q from (state regs.now mem.now tags.now) result }
{
    refusal(regs, start, mem, tags, q, from)?;
    Ok(first_place(regs, mem, tags, q, from))
}

// ---- for C

// number * 2^48 + place + 1, or + 0 where there is none.
pub(crate) fn pack(answer: Result<Option<u32>, Refusal>) -> u64
    ensures { result ≡ packed_reach answer }
{
    match answer {
        Ok(Some(place)) => place as u64 + 1,
        Ok(None) => 0,
        Err(why) => why.number() as u64 * NUMBER_PLACE,
    }
}

// The same search by plain numbers, its answer as one number.
#[unsafe(no_mangle)]
pub extern "C" fn oddersnow_reach(
    regs: &[u32],
    start: u32,
    mem: &[u8],
    tags: &[u8],
    low: u32,
    length: u32,
    rights: u32,
    from: u32,
) -> u64
    ensures { result ≡ packed_reach (reach_answer start (query_of low length rights) from
        (state regs.now mem.now tags.now)) }
{
    let q = Query {
        low,
        length,
        rights,
    };
    pack(reach(regs, start, mem, tags, q, from))
}
