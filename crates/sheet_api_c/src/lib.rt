// Map sheets and images for C: what crate sheet_api promises, under the names of `include/oddersnow.h`.
#![tactic(auto)]

ghost use Rattle.sheet_api.specs.Numbers.{CompareNumbered, FitNumbered, ReadNumbered, WriteNumbered};

// Reads a sheet into records of seven words.
#[unsafe(no_mangle)]
pub extern "C" fn oddersnow_sheet_read(sheet: &[u8], records: &mut [u32]) -> u64
    ensures { ReadNumbered sheet.now records.old records.new result }
{
    sheet_api::oddersnow_sheet_read(sheet, records)
}

// Writes the sheet of records.
#[unsafe(no_mangle)]
pub extern "C" fn oddersnow_sheet_write(records: &[u32], out: &mut [u8]) -> u64
    ensures { WriteNumbered records.now out.old out.new result }
{
    sheet_api::oddersnow_sheet_write(records, out)
}

// Lists the names in which two sheets differ.
#[unsafe(no_mangle)]
pub extern "C" fn oddersnow_sheet_compare(first: &[u8], second: &[u8], out: &mut [u8]) -> u64
    ensures { CompareNumbered first.now second.now out.old out.new result }
{
    sheet_api::oddersnow_sheet_compare(first, second, out)
}

// Which of two images fits a board, and where its payload begins.
#[unsafe(no_mangle)]
pub extern "C" fn oddersnow_fit<'a>(board: &[u8], first: &'a [u8], second: &'a [u8]) -> u64
    ensures { FitNumbered board.now first.now second.now result }
{
    sheet_api::oddersnow_fit(board, first, second)
}
