// The cutting program's text, on lent slices: lines of requests in, lines of cuts out.
//
// An input comes in blocks of any sizes. `process` takes a block, and the state says where in a line
// it ended; what is written in the end does not depend on where the blocks were cut.
#![tactic(auto)]

mod lines;
mod scanning;

ghost use Rattle.std.specs.Prelude.{◌≡◌};
ghost use Rattle.cut_lines.specs.Lines.{header_text, line_text};
ghost use Rattle.cut_lines.specs.Scanning.{start_of, last_text, Processed};
ghost use Rattle.cut_lines.specs.Writing.{Writes};

use lines::{need_room, put_line, put_step};
use text::put_bytes;

// The bytes of the longest line that is ever written, and the room that a writer asks for.
pub(crate) const LONGEST: usize = 44;

// The bytes of a well-formed line: two fields of eight digits, and a tab.
pub(crate) const LINE: u32 = 17;

// The tab's place in it.
pub(crate) const TAB_PLACE: u32 = 8;

// What was read of a line that may yet be well-formed.
#[derive(Clone, Copy, Debug, PartialEq, Eq)]
pub struct Fields {
    // how many bytes
    pub place: u32,
    // the number that the digits so far write, of both fields in a row
    pub value: u64,
}

// The state between two bytes of the input.
#[derive(Clone, Copy, Debug, PartialEq, Eq)]
pub struct Scan {
    // the number of the line that is being read
    pub number: u64,
    // what was read of it, or None: it cannot be well-formed any more
    pub fields: Option<Fields>,
}

// What `process` did with a block: counts, as parts of the slices would keep them lent.
#[derive(Clone, Copy, Debug, PartialEq, Eq)]
pub struct Progress {
    pub scan: Scan,
    pub read: usize,
    pub written: usize,
}

// Too little room for the longest line, and nothing written.
#[derive(Clone, Copy, Debug, PartialEq, Eq)]
pub struct NoRoom;

// The state at the start of line n; an input starts with line 1.
pub fn start(n: u64) -> Scan
    ensures { result ≡ start_of n }
{
    Scan {
        number: n,
        fields: Some(Fields { place: 0, value: 0 }),
    }
}

// Writes the header line from index `at` on; each writer returns the index after its text.
pub fn header(output: &mut [u8], at: usize) -> Result<usize, NoRoom>
    ensures { Writes output.old at header_text output.new result }
{
    need_room(output, at)?;
    Ok(put_bytes(output, at, b"cut\tlow\thigh\texact\n"))
}

// Writes what belongs to one line, given without its newline, from index `at` on.
pub fn answer(line: &[u8], number: u64, output: &mut [u8], at: usize) -> Result<usize, NoRoom>
    ensures { Writes output.old at (line_text number line.now) output.new result }
{
    need_room(output, at)?;
    Ok(put_line(output, at, start(number).read_line(line)))
}

// Takes bytes of the input while there is room for the longest line, and writes from the start of
// the output on what belongs to the lines that end in them.
pub fn process(scan: Scan, input: &[u8], output: &mut [u8]) -> Progress
    ensures { Processed scan input.now output.old output.new result }
{
    let mut s = scan;
    let mut at = 0;
    for (i, &b) in input.iter().enumerate() {
        if need_room(output, at).is_err() {
            return Progress {
                scan: s,
                read: i,
                written: at,
            };
        }
        at = put_step(output, at, s, b);
        s = s.step(b);
    }
    Progress {
        scan: s,
        read: input.len(),
        written: at,
    }
}

// Writes what belongs to a last line without a newline, if one has begun, from index `at` on.
pub fn finish(scan: Scan, output: &mut [u8], at: usize) -> Result<usize, NoRoom>
    ensures { Writes output.old at (last_text scan) output.new result }
{
    need_room(output, at)?;
    Ok(lines::put_last(output, at, scan))
}
