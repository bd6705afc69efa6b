// A sheet read into records of seven words.
#![tactic(auto)]

ghost use Rattle.std.specs.Prelude.{◌≡◌, ◌+◌, ◌≤◌};
ghost use Rattle.text.specs.Writing.{Puts};
ghost use Rattle.sheets.specs.Records.{record_words, sheet_words, word_at};
ghost use Rattle.sheet_reader.specs.Words.{ReadsInto};

use sheets::{Region, SheetError};
use text::put_bytes;

// The words of a record.
const RECORD_WORDS: usize = 7;

// Four bytes of a name, the lowest first.
#[tactic(auto, unfolding(sheets::specs::Records::word_at))]
fn word_at(name: [u8; 16], at: usize) -> u32
    requires { at + 4 ≤ 16 }
    ensures { result ≡ word_at name at }
{
    u32::from_le_bytes([name[at], name[at + 1], name[at + 2], name[at + 3]])
}

// A region's record: its name in four words, its start, its size, its rights.
#[tactic(auto, unfolding(sheets::specs::Records::record_words, sheets::specs::Records::name_words))]
fn record_of(r: Region) -> [u32; 7]
    ensures { result ≡ record_words r }
{
    let name = r.name;
    [
        word_at(name, 0),
        word_at(name, 4),
        word_at(name, 8),
        word_at(name, 12),
        r.start,
        r.size,
        r.rights,
    ]
}

// The regions' records, from the buffer's start on.
fn put_records(out: &mut [u32], regions: &[Region]) -> usize
    ensures { Puts out.old 0 (sheet_words regions.now) out.new result }
{
    let mut at = 0;
    for r in regions {
        at = put_bytes(out, at, &record_of(*r));
    }
    at
}

// Reads a sheet into records; returns how many. Only then is anything written.
pub fn read_into(text: &[u8], out: &mut [u32]) -> Result<usize, SheetError>
    ensures { ReadsInto text.now out.old out.new result }
{
    let reading = sheets::read(text, false)?;
    let regions = reading.sheet.regions();
    if out.len() < regions.len() * RECORD_WORDS {
        return Err(SheetError::NoRoom);
    }
    put_records(out, regions);
    Ok(regions.len())
}
