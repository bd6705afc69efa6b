// A sheet's text from records of seven words.
#![tactic(auto)]

mod judging;
mod lines;

ghost use Rattle.std.specs.Prelude.{◌≡◌};
ghost use Rattle.sheet_writer.specs.Writing.{Writes};

use judging::judge;
use lines::put_lines;
pub use lines::put_name;
use sheets::SheetError;
use text::deliver;

// Writes the sheet of the records, and returns how many bytes were written; where it fails, nothing is:
// the first bad record, as a line's number, or too little room. The text is made first, in 64 lines
// of at most 46 bytes.
pub fn write(records: &[u32], out: &mut [u8]) -> Result<usize, SheetError>
    ensures { Writes records.now out.old out.new result }
{
    let sheet = judge(records)?;
    let mut text = [0u8; 2944];
    let n = put_lines(&mut text, sheet.regions());
    if deliver(out, &text[0..n]) {
        Ok(n)
    } else {
        Err(SheetError::NoRoom)
    }
}
