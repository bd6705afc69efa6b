// Places in the lent memory, capabilities in it, and revocation.
ghost use Rattle.std.specs.Prelude.{◌≡◌, ◌+◌, ◌-◌, ◌%◌, ◌&&◌, leb, if◌then◌else◌, nat_le};
ghost use Rattle.state.specs.Memory.{load_width, store_width, place_of, capability_in, mark_of, revocation_at};

use crate::{Board, GRANULE, Place, Revocation};
use capability::Capability;
use instructions::{LoadKind, StoreKind};

pub fn load_width(kind: LoadKind) -> u32
    ensures { result ≡ load_width kind }
{
    match kind {
        LoadKind::Lb => 1,
        LoadKind::Lh => 2,
        LoadKind::Lw => 4,
        LoadKind::Lbu => 1,
        LoadKind::Lhu => 2,
    }
}

pub fn store_width(kind: StoreKind) -> u32
    ensures { result ≡ store_width kind }
{
    match kind {
        StoreKind::Sb => 1,
        StoreKind::Sh => 2,
        StoreKind::Sw => 4,
    }
}

// address mod width: the widths of accesses need no division, and mod 0 is the address.
fn remainder(address: u32, width: u32) -> u32
    ensures { result ≡ address % width }
{
    match width {
        0 => address,
        1 => 0,
        2 => address % 2,
        4 => address % 4,
        8 => address % 8,
        _ => address % width,
    }
}

// Where aligned bytes lie: in memory, or outside.
fn aligned_place(start: u32, size: usize, address: u32, width: u32) -> Place
    ensures { result ≡ (if leb start address && nat_le (address + width) (start + size) then Place.At (address - start) else Place.Outside) }
{
    if start <= address {
        let at = address - start;
        if at as u64 + width as u64 <= size as u64 {
            Place::At(at)
        } else {
            Place::Outside
        }
    } else {
        Place::Outside
    }
}

// Where width bytes at an address lie in a memory of size bytes from start.
pub fn place_of(start: u32, size: usize, address: u32, width: u32) -> Place
    ensures { result ≡ place_of start size address width }
{
    if remainder(address, width) == 0 {
        aligned_place(start, size, address, width)
    } else {
        Place::Misaligned
    }
}

// The capability at a place of memory.
pub fn capability_in(mem: &[u8], tags: &[u8], at: u32) -> Capability
    ensures { result ≡ capability_in mem.now tags.now at }
{
    let i = at as usize;
    Capability {
        address: words::load32(mem, i),
        metadata: words::load32(mem, i + 4),
        tag: words::get_bit(tags, i / GRANULE),
    }
}

// What a revocation bit says.
fn mark_of(bit: u32) -> Revocation
    ensures { result ≡ mark_of bit }
{
    if bit == 1 {
        Revocation::Marked
    } else {
        Revocation::Clear
    }
}

// What the revocation bits say of the granule that holds an address.
pub fn revocation_at(board: Board, revoked: &[u8], address: u32) -> Revocation
    ensures { result ≡ revocation_at board revoked.now address }
{
    let first = board.start as u64 + board.window.start as u64;
    if (address as u64) < first {
        return Revocation::Outside;
    }
    let at = address as u64 - first;
    if board.window.size as u64 <= at {
        return Revocation::Outside;
    }
    mark_of(words::get_bit(revoked, at as usize / GRANULE))
}
