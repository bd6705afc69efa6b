// Entries: the code that is kept, by slot. A key of 0 is no entry. Keys are an array of their own, which is let go at once: an array of keys with what was
// found, or of Option, was tried, and long loops then took a twelfth more than plain steps do.
ghost use Rattle.std.specs.Prelude.{◌≡◌, ◌+◌, ◌^◌, ◌<◌, ◌≤◌, true, ◌≢◌};
ghost use Rattle.quick.specs.Entries.{slots, entries, slot_of, slot_at, ReadyAt};
ghost use Rattle.quick.specs.Entries.{OpenIf, FoundIf, FirstLook, FoundAs, ClearedUnless, cleared_slot, cleared_near, forgotten};

use crate::{Found, Store};
use capability::Capability;
use instructions::Instruction;
use operations::Operation;
use short_forms::{HALF_BYTES, LONG_BYTES};
use state::{EXECUTE_CAUSE, NO_CAUSE, TARGET_ALIGNMENT};
use std::num::wrapping_add_u32;

// How many slots there are, and entries: each slot has two, so that two pieces of code at any distance can both be kept.
const SLOTS: usize = 1024;

pub(crate) const ENTRIES: usize = 2048;

// What stands in the place of an entry that there is not.
pub(crate) const ABSENT: Found = Found {
    bytes: 0,
    op: Operation::Plain,
};

// The slot of an address.
pub(crate) fn slot_of(address: u32) -> usize
    ensures { (result ≡ slot_of address) × (result < slots) }
{
    address as usize / 2 % SLOTS
}

// Whether a fetch at PCC meets no fault, whichever length stands there.
fn is_open(pcc: Capability, start: u32, size: usize) -> bool
    ensures { OpenIf result start size pcc }
{
    if pcc.tag != 1 {
        return false;
    }
    if pcc.address % TARGET_ALIGNMENT != 0 {
        return false;
    }
    if pcc.address < start {
        return false;
    }
    if (size as u64) < (pcc.address - start) as u64 + LONG_BYTES as u64 {
        return false;
    }
    state::access_cause(pcc, metadata::EX, EXECUTE_CAUSE, pcc.address, LONG_BYTES) == NO_CAUSE
}

// An instruction of some bytes at PCC, where PCC is itself after it.
fn standing(pcc: Capability, bytes: u32, x: Instruction) -> Option<Found>
    ensures { FoundAs pcc bytes x result }
{
    let next = capability::move_address(pcc, wrapping_add_u32(pcc.address, bytes));
    if next.tag != 1 {
        return None;
    }
    Some(Found {
        bytes,
        op: operations::operation_of(x),
    })
}

// What stands at PCC, unless it was looked up just now and no entry serves.
pub(crate) fn look(missed: bool, pcc: Capability, start: u32, mem: &[u8]) -> Option<Found>
    ensures { FoundIf start mem.now pcc result × FirstLook missed result }
{
    if missed {
        return None;
    }
    if !is_open(pcc, start, mem.len()) {
        return None;
    }
    let word = words::load32(mem, (pcc.address - start) as usize);
    match word % 4 {
        3 => return standing(pcc, LONG_BYTES, instructions::decode_for::<true>(word)),
        _ => return standing(
            pcc,
            HALF_BYTES,
            short_forms::instruction_for::<true>(word % 0x1_0000),
        ),
    }
}

// No entry left at a slot.
fn clear_slot(keys: &mut [u64; 2048], half: usize)
    ensures { keys.new ≡ cleared_slot half keys.old }
{
    let slot = half % SLOTS;
    keys[slot] = 0;
    keys[slot + SLOTS] = 0;
}

// No entry left at the five slots around an address.
fn clear_near(keys: &mut [u64; 2048], address: usize)
    requires { address < 2 ^ 33 }
    ensures { keys.new ≡ cleared_near address keys.old }
{
    let first = address / 2 + SLOTS - 1;
    clear_slot(keys, first);
    clear_slot(keys, first + 1);
    clear_slot(keys, first + 2);
    clear_slot(keys, first + 3);
    clear_slot(keys, first + 4);
}

// The entries after a store.
pub(crate) fn forget(keys: &mut [u64; 2048], low: u64, high: u64, start: u32, stored: Option<Store>)
    ensures { keys.new ≡ forgotten low high start stored keys.old }
{
    let Some(s) = stored else {
        return;
    };
    if s.at as u64 + s.width as u64 <= low {
        return;
    }
    if high <= s.at as u64 {
        return;
    }
    clear_near(keys, start as usize + s.at as usize);
}

// The key of an address, by PCC's metadata word as a key has it.
pub(crate) fn key_of(base: u64, address: u32) -> u64
    requires { base + 2 ^ 32 ≤ 2 ^ 64 }
    ensures { result ≡ base + address }
{
    base + address as u64
}

// The entry that step k stands at, for a key of a slot.
pub(crate) fn entry_for(
    k: u64,
    limit: u64,
    keys: &[u64; 2048],
    slot: usize,
    key: u64,
) -> Option<usize>
    requires { slot < slots }
    ensures { ReadyAt result k limit keys.now key }
{
    if limit <= k {
        return None;
    }
    if keys[slot] == key {
        return Some(slot);
    }
    let other = slot + SLOTS;
    if keys[other] == key {
        return Some(other);
    }
    None
}

// What tosses between two entries: a number times MIX, in halves of 2^32.
const MIX: u64 = 0x9E37_79B9;

const HALF: u64 = 0x8000_0000;

// The entry that new code of a slot takes: the first, unless that is in use; else either, by time, so that code which runs no more does not stay.
pub(crate) fn room_at(keys: &[u64; 2048], slot: usize, time: u32) -> usize
    requires { slot < slots }
    ensures { (slot_at result ≡ slot) × (result < entries) }
{
    if keys[slot] == 0 {
        return slot;
    }
    if time as u64 * MIX / HALF % 2 == 0 {
        return slot;
    }
    slot + SLOTS
}

// Whether some plain steps are known to have stored nothing: it was a single one, which trapped.
pub(crate) fn stored_nothing(steps: u32, trapped: u32) -> bool
    ensures { result ≡ true → (steps ≡ 1) × (trapped ≢ 0) }
{
    steps == 1 && trapped != 0
}

// No entry left after steps of which nothing is known; they stay after those that stored nothing.
pub(crate) fn clear_unless(keys: &mut [u64; 2048], nothing: bool)
    ensures { ClearedUnless nothing keys.old keys.new }
{
    if nothing {
        return;
    }
    keys.fill(0);
}
