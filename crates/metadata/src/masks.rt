// The table of rights: a mask of 16 bits for each of the 64 codes, and how it is read.
ghost use Rattle.std.specs.Prelude.{◌≡◌, ◌<◌, ◌≤◌};
ghost use Rattle.metadata.specs.Rights.{rights_of, word_rights};

use crate::word::permissions;

// The rights of each of the 64 codes.
const MASKS: [u16; 64] = [
    0, 512, 1024, 1536, 2048, 2560, 3072, 3584, 352, 354, 360, 362, 480, 482, 488, 490, 68, 4, 32,
    36, 96, 98, 104, 106, 100, 102, 108, 110, 116, 118, 124, 126, 1, 513, 1025, 1537, 2049, 2561,
    3073, 3585, 353, 355, 361, 363, 481, 483, 489, 491, 69, 5, 33, 37, 97, 99, 105, 107, 101, 103,
    109, 111, 117, 119, 125, 127,
];

// The mask of a code: the table indexed by the six stored bits.
fn mask_at(code: u32) -> u16
    requires { code < 64 }
    ensures { result ≡ rights_of code }
{
    MASKS[code as usize]
}

// The rights of a metadata word, for checks: a function of its own, with which a step is shorter.
#[inline(never)]
pub fn rights(metadata: u32) -> u32
    ensures { (result ≡ word_rights metadata) × (result < 4096) }
{
    mask_at(permissions(metadata)) as u32
}

// The same, for what is no check: read in place.
pub fn indexed_rights(metadata: u32) -> u32
    ensures { (result ≡ word_rights metadata) × (result < 4096) }
{
    mask_at(permissions(metadata)) as u32
}
