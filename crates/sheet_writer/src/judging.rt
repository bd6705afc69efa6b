// Records: each as a region, and whether it may follow those before it.
ghost use Rattle.std.specs.Prelude.{◌++◌, ◌≡◌};
ghost use Rattle.sheets.specs.Records.{judged, record_at, word_bytes};
ghost use Rattle.sheet_writer.specs.Writing.{judged_as};

use sheets::{BadLine, Region, Sheet};

// The words of a record.
const RECORD_WORDS: usize = 7;

// A name from its four words, of each the lowest byte first.
fn name_of(a: u32, b: u32, c: u32, d: u32) -> [u8; 16]
    ensures { result ≡ word_bytes a ++ word_bytes b ++ word_bytes c ++ word_bytes d }
{
    let [a0, a1, a2, a3] = a.to_le_bytes();
    let [b0, b1, b2, b3] = b.to_le_bytes();
    let [c0, c1, c2, c3] = c.to_le_bytes();
    let [d0, d1, d2, d3] = d.to_le_bytes();
    [
        a0, a1, a2, a3, b0, b1, b2, b3, c0, c1, c2, c3, d0, d1, d2, d3,
    ]
}

// The region of a record's words.
#[tactic(auto, unfolding(sheets::specs::Records::record_at))]
fn region_of(words: &[u32; RECORD_WORDS]) -> Region
    ensures { result ≡ record_at words.now 0 }
{
    let [a, b, c, d, start, size, rights] = *words;
    let name = name_of(a, b, c, d);
    Region {
        name,
        start,
        size,
        rights,
    }
}

// Judges the records as the lines of a sheet.
pub(crate) fn judge(words: &[u32]) -> Result<Sheet, BadLine>
    ensures { judged_as result ≡ judged words.now }
{
    let mut sheet = Sheet::new();
    let (records, rest) = words.as_chunks::<RECORD_WORDS>();
    for (i, record) in records.iter().enumerate() {
        if !sheet.add(region_of(record)) {
            return Err(BadLine { line: i + 1 });
        }
    }
    if !rest.is_empty() {
        return Err(BadLine {
            line: records.len() + 1,
        });
    }
    sheet.ended()
}
