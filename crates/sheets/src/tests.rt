// Which region may be said at all, and which may follow which.
ghost use Rattle.std.specs.Prelude.{◌≡◌};
ghost use Rattle.sheets.specs.Sheet.{admitted};
ghost use Rattle.sheets.specs.Sheet.{clash};
ghost use Rattle.sheets.specs.Sheet.{clashes};
ghost use Rattle.sheets.specs.Sheet.{follows};
ghost use Rattle.sheets.specs.Sheet.{formed};

use crate::names::{letters, same, zero_from};
use crate::{MOST_REGIONS, Region};

// All addresses.
const SPACE: u64 = 0x1_0000_0000;

// Below this, rights are some of three.
const RIGHTS: u32 = 8;

// Whether a line can say the region.
#[tactic(auto, unfolding(crate::specs::Sheet::formed, crate::specs::Sheet::name_of))]
pub(crate) fn formed(r: Region) -> bool
    ensures { result ≡ formed r }
{
    let name = r.name;
    let n = letters(name);
    0 < n && zero_from(name, n) && 0 < r.rights && r.rights < RIGHTS
}

// Whether two regions have one name, or a byte in common.
#[tactic(auto, unfolding(crate::specs::Sheet::clash))]
fn clash(a: Region, b: Region) -> bool
    ensures { result ≡ clash a b }
{
    same(a.name, b.name)
        || u64::from(a.start) < u64::from(b.start) + u64::from(b.size)
            && u64::from(b.start) < u64::from(a.start) + u64::from(a.size)
}

#[tactic(auto, unfolding(crate::specs::Sheet::clashes))]
fn clashes(regions: &[Region], r: Region) -> bool
    ensures { result ≡ clashes regions.now r }
{
    regions.iter().any(|earlier| clash(*earlier, r))
}

// Whether a region may be the next one.
#[tactic(auto, unfolding(crate::specs::Sheet::admitted))]
pub(crate) fn admits(regions: &[Region], r: Region) -> bool
    ensures { result ≡ admitted regions.now r }
{
    regions.len() < MOST_REGIONS
        && 0 < r.size
        && u64::from(r.start) + u64::from(r.size) <= SPACE
        && !clashes(regions, r)
}

// Whether a line can say a region, and it may be the next one after any others.
#[tactic(auto, unfolding(crate::specs::Sheet::follows))]
pub fn follows(regions: &[Region], r: Region) -> bool
    ensures { result ≡ follows regions.now r }
{
    formed(r) && admits(regions, r)
}
