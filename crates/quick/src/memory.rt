// Loads and stores of a turn: done where the authority's reach is remembered and has the bytes; else nothing is changed, and the plain step does it.
ghost use Rattle.std.specs.Prelude.{◌≡◌, ◌+◌, ◌<◌, ◌≤◌, true, false, not, length};
ghost use Rattle.state.specs.Layout.{register_words};
ghost use Rattle.words.specs.Words.{le32, put_bit};
ghost use Rattle.capability.specs.Capability.{keep_tag_if};
ghost use Rattle.state.specs.Memory.{load_width, store_width};
ghost use Rattle.state.specs.Lent.{state, lent};
ghost use Rattle.memory_instructions.specs.Access.{loaded_value, revoked_value};
ghost use Rattle.operations.specs.Means.{OneByte};
ghost use Rattle.quick.specs.Rows.{Good};
ghost use Rattle.quick.specs.Memory.{Place, Loads, Stores, LoadsCapability, StoresCapability, Aligned, MayHold, stored_bytes};

use crate::registers::{go_on, mark, read, read_capability, write};
use crate::rows::{ROWS_OF_STORES, reaches};
use crate::{Store, Took};
use capability::Capability;
use instructions::{LoadKind, StoreKind};
use metadata::{GL, LD, MC, SD, SL};
use state::{Board, GRANULE, GRANULE_BYTES};
use std::num::{wrapping_add_u32, wrapping_sub_u32};

// What the second, third and fourth byte of a word count.
const SECOND: u32 = 1 << 8;

const THIRD: u32 = 1 << 16;

const FOURTH: u32 = 1 << 24;

fn wide(x: u8) -> u32
    ensures { (result ≡ x) × (result < 256) }
{
    x as u32
}

// The word at a place whose four bytes are in memory: no test.
fn word_at(mem: &[u8], at: usize) -> u32
    requires { at + 4 ≤ length mem.now }
    ensures { result ≡ le32 mem.now at }
{
    wide(mem[at])
        + wide(mem[at + 1]) * SECOND
        + wide(mem[at + 2]) * THIRD
        + wide(mem[at + 3]) * FOURTH
}

// LW.
pub(crate) fn take_word(
    at: u32,
    from: u32,
    offset: u32,
    rows: &mut [u64; 99],
    regs: &mut [u32],
    start: u32,
    mem: &[u8],
    to: u32,
) -> Took
    requires { (length regs.old ≡ register_words) × (at ≤ 45) × Place from × Good start (length mem.now) rows.old }
    ensures { Good start (length mem.now) rows.new
        × Loads LoadKind.Lw at from offset to start mem.now regs.old regs.new result }
{
    let c = read_capability(regs, from);
    let address = wrapping_add_u32(c.address, offset);
    if address % 4 != 0 {
        return Err(None);
    }
    if !reaches(rows, from as usize, c, LD, address, 4, start, mem.len()) {
        return Err(None);
    }
    let v = word_at(mem, (address - start) as usize);
    write(regs, at, capability::integer(v), to);
    Ok(None)
}

// Whether an address is aligned for a load of one or two bytes; one of four is not for `take_small`.
fn is_small_aligned(kind: LoadKind, address: u32) -> bool
    ensures { result ≡ true → Aligned address (load_width kind) }
{
    match kind {
        LoadKind::Lb => true,
        LoadKind::Lbu => true,
        LoadKind::Lh => address % 2 == 0,
        LoadKind::Lhu => address % 2 == 0,
        LoadKind::Lw => false,
    }
}

fn small_value(kind: LoadKind, mem: &[u8], at: usize) -> u32
    ensures { result ≡ loaded_value kind mem.now at }
{
    match kind {
        LoadKind::Lb => words::sign_extend(words::load8(mem, at), 8),
        LoadKind::Lbu => words::load8(mem, at),
        LoadKind::Lh => words::sign_extend(words::load16(mem, at), 16),
        LoadKind::Lhu => words::load16(mem, at),
        LoadKind::Lw => words::load32(mem, at),
    }
}

fn byte_value(kind: LoadKind, mem: &[u8], at: usize) -> u32
    requires { OneByte kind }
    ensures { result ≡ loaded_value kind mem.now at }
{
    let v = words::load8(mem, at);
    match kind {
        LoadKind::Lb => words::sign_extend(v, 8),
        LoadKind::Lbu => v,
        LoadKind::Lh => v,
        LoadKind::Lhu => v,
        LoadKind::Lw => v,
    }
}

// LB, LBU.
pub(crate) fn take_byte(
    kind: LoadKind,
    at: u32,
    from: u32,
    offset: u32,
    rows: &mut [u64; 99],
    regs: &mut [u32],
    start: u32,
    mem: &[u8],
    to: u32,
) -> Took
    requires { (length regs.old ≡ register_words) × (at ≤ 45) × Place from × Good start (length mem.now) rows.old × OneByte kind }
    ensures { Good start (length mem.now) rows.new
        × Loads kind at from offset to start mem.now regs.old regs.new result }
{
    let c = read_capability(regs, from);
    let address = wrapping_add_u32(c.address, offset);
    if !reaches(rows, from as usize, c, LD, address, 1, start, mem.len()) {
        return Err(None);
    }
    let v = byte_value(kind, mem, (address - start) as usize);
    write(regs, at, capability::integer(v), to);
    Ok(None)
}

// LH, LHU.
pub(crate) fn take_small(
    kind: LoadKind,
    at: u32,
    from: u32,
    offset: u32,
    rows: &mut [u64; 99],
    regs: &mut [u32],
    start: u32,
    mem: &[u8],
    to: u32,
) -> Took
    requires { (length regs.old ≡ register_words) × (at ≤ 45) × Place from × Good start (length mem.now) rows.old }
    ensures { Good start (length mem.now) rows.new
        × Loads kind at from offset to start mem.now regs.old regs.new result }
{
    let c = read_capability(regs, from);
    let address = wrapping_add_u32(c.address, offset);
    if !is_small_aligned(kind, address) {
        return Err(None);
    }
    let width = state::load_width(kind);
    if !reaches(rows, from as usize, c, LD, address, width, start, mem.len()) {
        return Err(None);
    }
    let v = small_value(kind, mem, (address - start) as usize);
    write(regs, at, capability::integer(v), to);
    Ok(None)
}

// A granule's tag cleared: written only where it is set.
fn clear_tag(tags: &mut [u8], g: usize)
    ensures { tags.new ≡ put_bit tags.old g 0 }
{
    if words::get_bit(tags, g) == 1 {
        words::put_bit(tags, g, 0);
    }
}

// SW.
pub(crate) fn take_store_word(
    from: u32,
    other: u32,
    offset: u32,
    rows: &mut [u64; 99],
    regs: &mut [u32],
    start: u32,
    mem: &mut [u8],
    tags: &mut [u8],
    to: u32,
) -> Took
    requires { (length regs.old ≡ register_words) × (other ≤ 45) × Place from × Good start (length mem.old) rows.old }
    ensures { Good start (length mem.old) rows.new
        × Stores StoreKind.Sw from other offset to start (state regs.old mem.old tags.old)
        (state regs.new mem.new tags.new) result }
{
    let c = read_capability(regs, from);
    let address = wrapping_add_u32(c.address, offset);
    let at = wrapping_sub_u32(address, start);
    let store = Some(Store { at, width: 4 });
    if address % 4 != 0 {
        return Err(store);
    }
    let row = from as usize + ROWS_OF_STORES;
    if !reaches(rows, row, c, SD, address, 4, start, mem.len()) {
        return Err(store);
    }
    words::store32(mem, at as usize, read(regs, other));
    clear_tag(tags, at as usize / GRANULE);
    mark(regs, address);
    go_on(regs, to);
    Ok(store)
}

// Whether an address is aligned for a store of one or two bytes; one of four is not for `take_store_small`.
fn is_small_store(kind: StoreKind, address: u32) -> bool
    ensures { result ≡ true → Aligned address (store_width kind) }
{
    match kind {
        StoreKind::Sb => true,
        StoreKind::Sh => address % 2 == 0,
        StoreKind::Sw => false,
    }
}

fn put_small(mem: &mut [u8], kind: StoreKind, at: usize, v: u32)
    ensures { mem.new ≡ stored_bytes kind mem.old at v }
{
    match kind {
        StoreKind::Sb => words::store8(mem, at, v),
        StoreKind::Sh => words::store16(mem, at, v),
        StoreKind::Sw => words::store32(mem, at, v),
    }
}

// SB, SH.
pub(crate) fn take_store_small(
    kind: StoreKind,
    from: u32,
    other: u32,
    offset: u32,
    rows: &mut [u64; 99],
    regs: &mut [u32],
    start: u32,
    mem: &mut [u8],
    tags: &mut [u8],
    to: u32,
) -> Took
    requires { (length regs.old ≡ register_words) × (other ≤ 45) × Place from × Good start (length mem.old) rows.old }
    ensures { Good start (length mem.old) rows.new
        × Stores kind from other offset to start (state regs.old mem.old tags.old)
        (state regs.new mem.new tags.new) result }
{
    let c = read_capability(regs, from);
    let address = wrapping_add_u32(c.address, offset);
    let at = wrapping_sub_u32(address, start);
    let width = state::store_width(kind);
    let store = Some(Store { at, width });
    if !is_small_store(kind, address) {
        return Err(store);
    }
    let row = from as usize + ROWS_OF_STORES;
    if !reaches(rows, row, c, SD, address, width, start, mem.len()) {
        return Err(store);
    }
    put_small(mem, kind, at as usize, read(regs, other));
    clear_tag(tags, at as usize / GRANULE);
    mark(regs, address);
    go_on(regs, to);
    Ok(store)
}

// A loaded value after the revocation test, which never takes what is not tagged.
fn unrevoked(board: Board, revoked: &[u8], v: Capability) -> Capability
    ensures { result ≡ keep_tag_if (not (revoked_value board revoked.now v)) v }
{
    if v.tag == 0 {
        return v;
    }
    if memory_instructions::is_revoked(board, revoked, v) {
        Capability { tag: 0, ..v }
    } else {
        v
    }
}

// CLC.
pub(crate) fn take_load_capability(
    at: u32,
    from: u32,
    offset: u32,
    rows: &mut [u64; 99],
    regs: &mut [u32],
    board: Board,
    mem: &[u8],
    tags: &[u8],
    revoked: &[u8],
    to: u32,
) -> Took
    requires { (length regs.old ≡ register_words) × (at ≤ 45) × Place from × Good board.start (length mem.now) rows.old }
    ensures { Good board.start (length mem.now) rows.new
        × LoadsCapability at from offset to (lent board mem.now tags.now revoked.now)
        regs.old regs.new result }
{
    let c = read_capability(regs, from);
    let address = wrapping_add_u32(c.address, offset);
    if address % GRANULE_BYTES != 0 {
        return Err(None);
    }
    let start = board.start;
    if !reaches(
        rows,
        from as usize,
        c,
        LD,
        address,
        GRANULE_BYTES,
        start,
        mem.len(),
    ) {
        return Err(None);
    }
    let v = capability::loaded(c, state::capability_in(mem, tags, address - start));
    write(regs, at, unrevoked(board, revoked, v), to);
    Ok(None)
}

// Whether an authority may store a capability: MC for a tagged one, SL for a tagged one that is not global.
fn may_hold(c: Capability, v: Capability) -> bool
    ensures { result ≡ true → MayHold c v }
{
    if v.tag != 1 {
        return true;
    }
    if !capability::has_right(c, MC) {
        return false;
    }
    if capability::has_right(v, GL) {
        return true;
    }
    capability::has_right(c, SL)
}

// CSC.
pub(crate) fn take_store_capability(
    from: u32,
    other: u32,
    offset: u32,
    rows: &mut [u64; 99],
    regs: &mut [u32],
    start: u32,
    mem: &mut [u8],
    tags: &mut [u8],
    to: u32,
) -> Took
    requires { (length regs.old ≡ register_words) × (other ≤ 45) × Place from × Good start (length mem.old) rows.old }
    ensures { Good start (length mem.old) rows.new
        × StoresCapability from other offset to start (state regs.old mem.old tags.old)
        (state regs.new mem.new tags.new) result }
{
    let c = read_capability(regs, from);
    let v = read_capability(regs, other);
    let address = wrapping_add_u32(c.address, offset);
    let at = wrapping_sub_u32(address, start);
    let store = Some(Store {
        at,
        width: GRANULE_BYTES,
    });
    if address % GRANULE_BYTES != 0 {
        return Err(store);
    }
    if !may_hold(c, v) {
        return Err(store);
    }
    let row = from as usize + ROWS_OF_STORES;
    if !reaches(rows, row, c, SD, address, GRANULE_BYTES, start, mem.len()) {
        return Err(store);
    }
    commit::store_capability(mem, tags, at, v);
    mark(regs, address);
    go_on(regs, to);
    Ok(store)
}
