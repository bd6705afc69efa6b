// The code of some rights, and narrowing.
ghost use Rattle.std.specs.Prelude.{◌≡◌, ◌+◌, ◌*◌, ◌<◌, ◌≤◌};
ghost use Rattle.metadata.specs.Rights.{has, code_of, narrow_word};

use crate::masks::indexed_rights;
use crate::word::with_permissions;
use crate::{EX, LD, LG, LM, MC, SD, SE, SL, SR, U0, US};

// The bits of a word of rights.
const WORD_BITS: u32 = 32;

// The weight of GL in a code, and the first code of each row of document 01's table, without GL.
const GLOBAL: u32 = 32;

const MEMORY_ROW: u32 = 24;

const LOADING_ROW: u32 = 20;

const STORING_ROW: u32 = 16;

const DATA_ROW: u32 = 16;

const EXECUTABLE_ROW: u32 = 8;

const SEALING_ROW: u32 = 0;

// Whether right k is among some rights.
pub fn has(rights: u32, k: u32) -> bool
    ensures { result ≡ has rights k }
{
    if k < WORD_BITS {
        (rights >> k) % 2 == 1
    } else {
        false
    }
}

// A code: GL, the first code of a row, and the row's three low bits.
fn code(gl: u32, row: u32, high: u32, middle: u32, low: u32) -> u32
    requires { (gl < 2) × (row ≤ 24) × (high < 2) × (middle < 2) × (low < 2) }
    ensures { (result ≡ gl * 32 + (row + high * 4 + middle * 2 + low)) × (result < 64) }
{
    gl * GLOBAL + (row + high * 4 + middle * 2 + low)
}

// The code of some rights: the first row that fits.
pub fn encode(rights: u32) -> u32
    ensures { (result ≡ code_of rights) × (result < 64) }
{
    let gl = rights % 2;
    let lg = (rights >> LG) % 2;
    let lm = (rights >> LM) % 2;
    let sd = (rights >> SD) % 2 == 1;
    let ld = (rights >> LD) % 2 == 1;
    let mc = (rights >> MC) % 2 == 1;
    let ex = (rights >> EX) % 2 == 1;
    if choices::all_three(ex, ld, mc) {
        return code(gl, EXECUTABLE_ROW, (rights >> SR) % 2, lm, lg);
    }
    if choices::all_three(ld, mc, sd) {
        return code(gl, MEMORY_ROW, (rights >> SL) % 2, lm, lg);
    }
    if choices::both(ld, mc) {
        return code(gl, LOADING_ROW, 0, lm, lg);
    }
    if choices::both(sd, mc) {
        return code(gl, STORING_ROW, 0, 0, 0);
    }
    if choices::either(ld, sd) {
        return code(gl, DATA_ROW, 0, (rights >> LD) % 2, (rights >> SD) % 2);
    }
    code(
        gl,
        SEALING_ROW,
        (rights >> U0) % 2,
        (rights >> SE) % 2,
        (rights >> US) % 2,
    )
}

// The word with the rights that both it and the mask have.
pub fn narrow(metadata: u32, mask: u32) -> u32
    ensures { result ≡ narrow_word metadata mask }
{
    with_permissions(metadata, encode(indexed_rights(metadata) & mask))
}
