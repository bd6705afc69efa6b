// The fields of a metadata word, read and set.
ghost use Rattle.std.specs.Prelude.{◌≡◌, ◌%◌, ◌^◌, ◌<◌};
ghost use Rattle.metadata.specs.Word.{fields_of, word_of, type_of, permissions_of, scale_of, top_of, base_of, with_permissions, with_type, with_bounds};

use crate::Fields;

// The weight of each field's lowest bit; B begins at 1.
const RESERVED_UNIT: u32 = 0x8000_0000;

const PERMISSIONS_UNIT: u32 = 0x200_0000;

const TYPE_UNIT: u32 = 0x40_0000;

const SCALE_UNIT: u32 = 0x4_0000;

const TOP_UNIT: u32 = 0x200;

// How many values each field has.
const RESERVED: u32 = 2;

const CODES: u32 = 64;

const TYPES: u32 = 8;

const SCALES: u32 = 16;

const ENDS: u32 = 512;

// The word taken apart.
pub fn split(word: u32) -> Fields
    ensures { result ≡ fields_of word }
{
    Fields {
        reserved: word / RESERVED_UNIT % RESERVED,
        permissions: permissions(word),
        otype: otype(word),
        scale: scale_of(word),
        top: top_of(word),
        base: base_of(word),
    }
}

// And put together: of each field the bits that have a place.
pub fn join(f: Fields) -> u32
    ensures { result ≡ word_of f }
{
    f.reserved % RESERVED * RESERVED_UNIT
        + f.permissions % CODES * PERMISSIONS_UNIT
        + f.otype % TYPES * TYPE_UNIT
        + f.scale % SCALES * SCALE_UNIT
        + f.top % ENDS * TOP_UNIT
        + f.base % ENDS
}

// The permission code. Each field is one quotient and one remainder: shared by the five, they would be named no shorter.
pub fn permissions(metadata: u32) -> u32
    ensures { (result ≡ permissions_of metadata) × (result < 64) }
{
    metadata / PERMISSIONS_UNIT % CODES
}

// The three stored bits of the type; 0 is unsealed.
pub fn otype(metadata: u32) -> u32
    ensures { (result ≡ type_of metadata) × (result < 8) }
{
    metadata / TYPE_UNIT % TYPES
}

// The field E.
pub fn scale_of(metadata: u32) -> u32
    ensures { (result ≡ scale_of metadata) × (result < 16) }
{
    metadata / SCALE_UNIT % SCALES
}

// The field T.
pub fn top_of(metadata: u32) -> u32
    ensures { (result ≡ top_of metadata) × (result < 512) }
{
    metadata / TOP_UNIT % ENDS
}

// The field B.
pub fn base_of(metadata: u32) -> u32
    ensures { (result ≡ base_of metadata) × (result < 512) }
{
    metadata % ENDS
}

// The word with another permission code.
pub(crate) fn with_permissions(metadata: u32, code: u32) -> u32
    requires { code < 64 }
    ensures { result ≡ with_permissions metadata code }
{
    metadata / RESERVED_UNIT * RESERVED_UNIT + code * PERMISSIONS_UNIT + metadata % PERMISSIONS_UNIT
}

// The word with another type.
pub fn with_type(metadata: u32, t: u32) -> u32
    ensures { result ≡ with_type metadata (t % 2 ^ 3) }
{
    metadata / PERMISSIONS_UNIT * PERMISSIONS_UNIT + t % TYPES * TYPE_UNIT + metadata % TYPE_UNIT
}

// The word with other E, T and B.
pub fn with_bounds(metadata: u32, scale: u32, top: u32, base: u32) -> u32
    ensures { result ≡ with_bounds metadata (scale % 2 ^ 4) (top % 2 ^ 9) (base % 2 ^ 9) }
{
    metadata / TYPE_UNIT * TYPE_UNIT
        + scale % SCALES * SCALE_UNIT
        + top % ENDS * TOP_UNIT
        + base % ENDS
}
