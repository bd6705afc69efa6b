// The reach of registers, remembered: the bounds of an authority are decoded once and used again while its metadata word and the range of its address stay.
ghost use Rattle.std.specs.Prelude.{◌≡◌, ◌+◌, ◌%◌, ◌^◌, ◌<◌, ◌≤◌, true};
ghost use Rattle.quick.specs.Rows.{right_of, row_of_pcc, Good, InRow, ReachedIf};

use capability::Capability;

// Where the rows of stores start, PCC's row, and the words of all rows.
pub(crate) const ROWS_OF_STORES: usize = 48;

pub(crate) const ROW_OF_PCC: usize = 96;

pub(crate) const ROW_WORDS: usize = 99;

// Whether a row has width bytes at an address for a capability, tagged or not.
pub(crate) fn in_row(rows: &[u64; 99], i: usize, c: Capability, address: u32, width: u32) -> bool
    requires { i ≤ row_of_pcc }
    ensures { result ≡ true → (c.address < 2 ^ 32) × InRow rows.now i c address width }
{
    if rows[i] != c.metadata as u64 {
        return false;
    }
    let low = rows[i + 1];
    let high = rows[i + 2];
    let own = c.address as u64;
    let from = address as u64;
    if own < low {
        return false;
    }
    if high <= own {
        return false;
    }
    if from < low {
        return false;
    }
    from + width as u64 <= high
}

// A row filled for a capability whose address is in its own bounds, from where memory starts to where it ends; else the rows stay.
fn fill(rows: &mut [u64; 99], i: usize, c: Capability, right: u32, start: u32, size: usize)
    requires { (i ≤ row_of_pcc) × (i % 3 ≡ 0) × (right ≡ right_of i) × Good start size rows.old }
    ensures { Good start size rows.new }
{
    if capability::is_sealed(c) {
        return;
    }
    if !capability::has_right(c, right) {
        return;
    }
    let b = capability::bounds_of(c);
    if c.address < b.low {
        return;
    }
    if b.high <= c.address as u64 {
        return;
    }
    rows[i] = c.metadata as u64;
    rows[i + 1] = b.low.max(start) as u64;
    rows[i + 2] = b.high.min((start as u64).saturating_add(size as u64));
}

// Whether a row has them for a capability that is tagged.
pub(crate) fn has(rows: &[u64; 99], i: usize, c: Capability, address: u32, width: u32) -> bool
    requires { i ≤ row_of_pcc }
    ensures { result ≡ true → (c.tag ≡ 1) × (c.address < 2 ^ 32) × InRow rows.now i c address width }
{
    if c.tag != 1 {
        return false;
    }
    in_row(rows, i, c, address, width)
}

// Whether width bytes at an address pass every check of an access through a capability and lie in memory; false also where the row is filled only now.
pub(crate) fn reaches(
    rows: &mut [u64; 99],
    i: usize,
    c: Capability,
    right: u32,
    address: u32,
    width: u32,
    start: u32,
    size: usize,
) -> bool
    requires { (i ≤ row_of_pcc) × (i % 3 ≡ 0) × (right ≡ right_of i) × Good start size rows.old }
    ensures { Good start size rows.new × ReachedIf result right start size c address width }
{
    if has(rows, i, c, address, width) {
        return true;
    }
    fill(rows, i, c, right, start, size);
    false
}

// PCC's row, filled unless it is there.
pub(crate) fn learn(rows: &mut [u64; 99], pcc: Capability, start: u32, size: usize)
    requires { Good start size rows.old }
    ensures { Good start size rows.new }
{
    if in_row(rows, ROW_OF_PCC, pcc, pcc.address, 0) {
        return;
    }
    fill(rows, ROW_OF_PCC, pcc, metadata::EX, start, size);
}
