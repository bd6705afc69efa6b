// Map sheets and images for C: numbers and slices only.
#![tactic(auto)]

ghost use Rattle.std.specs.Prelude.{◌≡◌, ◌+◌, ◌-◌, ◌*◌, ◌≤◌, ◌<◌, ◌^◌};
ghost use Rattle.fit.specs.Fit.{of_image};
ghost use Rattle.sheet_api.specs.Numbers.{CompareNumbered, FitNumbered, ReadNumbered, WriteNumbered};
ghost use Rattle.sheet_api.specs.Numbers.{beside, packed};

use fit::Image;
use sheets::Refusal;

// The places in an answer: of a number, 2^48, and of an image's number, 2^40.
pub const NUMBER_PLACE: u64 = 0x1_0000_0000_0000;

pub const IMAGE_PLACE: u64 = 0x100_0000_0000;

// number * PLACE + rest.
fn beside<const PLACE: u64>(number: u64, rest: usize) -> u64
    requires { (0 < PLACE) × (number * PLACE + PLACE ≤ 2 ^ 64) }
    ensures { result ≡ beside PLACE number rest }
{
    number * PLACE + rest as u64 % PLACE
}

// How much was answered; or a refusal's number and its line.
fn packed<E: Refusal>(answer: Result<usize, E>) -> u64
    ensures { result ≡ packed E.number E.line answer }
{
    match answer {
        Ok(n) => beside::<NUMBER_PLACE>(0, n),
        Err(e) => beside::<NUMBER_PLACE>(e.number(), e.line()),
    }
}

// Where the part begins in its image, of whose end it is so many bytes.
fn place_of(image: Image, first: usize, second: usize, part: usize) -> usize
    requires { part ≤ of_image image first second }
    ensures { result ≡ of_image image first second - part }
{
    match image {
        Image::First => first - part,
        Image::Second => second - part,
    }
}

// Reads a sheet into records of seven words.
#[unsafe(no_mangle)]
pub extern "C" fn oddersnow_sheet_read(sheet: &[u8], records: &mut [u32]) -> u64
    ensures { ReadNumbered sheet.now records.old records.new result }
{
    packed(sheet_reader::read_into(sheet, records))
}

// Writes the sheet of records.
#[unsafe(no_mangle)]
pub extern "C" fn oddersnow_sheet_write(records: &[u32], out: &mut [u8]) -> u64
    ensures { WriteNumbered records.now out.old out.new result }
{
    packed(sheet_writer::write(records, out))
}

// Lists the names in which two sheets differ.
#[unsafe(no_mangle)]
pub extern "C" fn oddersnow_sheet_compare(first: &[u8], second: &[u8], out: &mut [u8]) -> u64
    ensures { CompareNumbered first.now second.now out.old out.new result }
{
    packed(sheet_compare::compare(first, second, out))
}

// Which of two images fits a board, and where its payload begins.
#[unsafe(no_mangle)]
pub extern "C" fn oddersnow_fit<'a>(board: &[u8], first: &'a [u8], second: &'a [u8]) -> u64
    ensures { FitNumbered board.now first.now second.now result }
{
    match fit::fit(board, first, second) {
        Ok(f) => beside::<IMAGE_PLACE>(
            f.image.number(),
            place_of(f.image, first.len(), second.len(), f.payload.len()),
        ),
        Err(e) => beside::<NUMBER_PLACE>(e.number(), e.line()),
    }
}
