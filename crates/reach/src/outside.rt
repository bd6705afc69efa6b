// The search of what stands outside a range of whole granules: the granules that lie in the range are passed over.
ghost use Rattle.std.specs.Prelude.{◌≡◌, ◌≤◌};
ghost use Rattle.state.specs.Lent.{state};
ghost use Rattle.machine.specs.Refusals.{number_in};
ghost use Rattle.reach.specs.Reach.{end, packed_reach, query_of};
ghost use Rattle.reach.specs.Outside.{is_hidden, found_hidden, place_behind, at_edges, outside_refusal, outside_answer, OutsidePromise};

use crate::{Query, first_place, pack, refusal};
use machine::{Refusal, refuse_unless};
use state::{CAPABILITY_COUNT, GRANULE_BYTES};

// ---- the granules of the range

// The range's end, a whole number.
pub(crate) fn range_end(q: Query) -> u64
    ensures { result ≡ end q }
{
    q.low as u64 + q.length as u64
}

// Whether a place is a granule that lies in the range.
fn is_hidden(start: u32, q: Query, place: u32) -> bool
    ensures { result ≡ is_hidden start q place }
{
    if (place as usize) < CAPABILITY_COUNT {
        return false;
    }
    let granule = place - CAPABILITY_COUNT as u32;
    let address = start as u64 + granule as u64 * GRANULE_BYTES as u64;
    q.low as u64 <= address && address < range_end(q)
}

// Whether what was found is one.
fn is_found_hidden(start: u32, q: Query, found: Option<u32>) -> bool
    ensures { result ≡ found_hidden start q found }
{
    found.is_some_and(|place| is_hidden(start, q, place))
}

// The place behind them.
fn place_behind(start: u32, q: Query) -> u32
    requires { start ≤ end q }
    ensures { result ≡ place_behind start q }
{
    CAPABILITY_COUNT as u32 + ((range_end(q) - start as u64) / GRANULE_BYTES as u64) as u32
}

// ---- the search

// Whether the range begins and ends at the edge of a granule.
fn is_at_edges(q: Query) -> bool
    ensures { result ≡ at_edges q }
{
    q.low % GRANULE_BYTES == 0 && range_end(q) % GRANULE_BYTES as u64 == 0
}

// The first refusal that applies: those of `reach`, then a range that cuts a granule.
#[tactic(auto, using(machine::proofs::Laws::test_passed, machine::proofs::Laws::test_failed, crate::proofs::Passing::refused_as_reach, crate::proofs::Passing::refused_by_edges))]
fn outside_refusal(
    regs: &[u32],
    start: u32,
    mem: &[u8],
    tags: &[u8],
    q: Query,
    from: u32,
) -> Result<(), Refusal>
    ensures { number_in result ≡ outside_refusal start q from (state regs.now mem.now tags.now) }
{
    refusal(regs, start, mem, tags, q, from)?;
    refuse_unless(is_at_edges(q), Refusal::Range)
}

// The first place from one on whose capability counts and that is no granule of the range. Those are one row of places: where the first find is one
// of them, the search goes on behind them all. Nothing is written.
pub fn reach_outside(
    regs: &[u32],
    start: u32,
    mem: &[u8],
    tags: &[u8],
    q: Query,
    from: u32,
) -> Result<Option<u32>, Refusal>
    ensures { OutsidePromise start q from (state regs.now mem.now tags.now) result }
{
    outside_refusal(regs, start, mem, tags, q, from)?;
    let found = first_place(regs, mem, tags, q, from);
    if !is_found_hidden(start, q, found) {
        return Ok(found);
    }
    Ok(first_place(regs, mem, tags, q, place_behind(start, q)))
}

// ---- for C

// The same search by plain numbers, its answer as one number.
#[unsafe(no_mangle)]
pub extern "C" fn oddersnow_reach_outside(
    regs: &[u32],
    start: u32,
    mem: &[u8],
    tags: &[u8],
    low: u32,
    length: u32,
    rights: u32,
    from: u32,
) -> u64
    ensures { result ≡ packed_reach (outside_answer start (query_of low length rights) from
        (state regs.now mem.now tags.now)) }
{
    let q = Query {
        low,
        length,
        rights,
    };
    pack(reach_outside(regs, start, mem, tags, q, from))
}
