// The regions of a sheet, one after the other.
ghost use Rattle.std.specs.Prelude.{[], ◌≡◌, ◌≤◌, length, take};
ghost use Rattle.sheets.specs.Sheet.{admitted, follows};
ghost use Rattle.sheets.specs.Places.{nowhere};
ghost use Rattle.sheets.specs.Scanning.{Takes, ended_as};

use crate::tests::{admits, formed};
use crate::{BadLine, MOST_REGIONS, Region};
use std::marker::Model;

const NO_REGION: Region = Region {
    name: [0; 16],
    start: 0,
    size: 0,
    rights: 0,
};

// No region.
pub fn nothing() -> Region
    ensures { result ≡ nowhere }
{
    NO_REGION
}

// At most 64 regions, and blank places after them: a contract sees the list of the regions, which gives the places back.
#[derive(Clone, Copy)]
pub struct Sheet {
    places: [Region; 64],
    count: usize,
}

impl Model for Sheet {
    ghost use Rattle.std.specs.Prelude.{List};
    ghost use Rattle.sheets.specs.declared.Region.{Region};

    ghost Value = { List Region };

    ghost use Rattle.sheets.specs.Places.{regions_of, HasPlaces, places_of, gives_back};

    ghost view = { regions_of };

    ghost invariant = { HasPlaces };

    ghost inverse = { places_of };

    ghost inverse_ok = { gives_back };
}

impl Sheet {
    // No region.
    pub fn new() -> Sheet
        ensures { result ≡ [] }
    {
        Sheet {
            places: [NO_REGION; 64],
            count: 0,
        }
    }

    // The first of some regions.
    pub(crate) fn first(regions: [Region; 64], count: usize) -> Sheet
        ensures { result ≡ take count regions }
    {
        let count = count.min(MOST_REGIONS);
        let mut places = regions;
        places[count..].fill(NO_REGION);
        Sheet { places, count }
    }

    // Its regions.
    pub fn regions(&self) -> &[Region]
        ensures { (result.now ≡ self.now) × (length self.now ≤ 64) }
    {
        &self.places[0..self.count]
    }

    // Takes the region of a line, where it may be the next one; says whether it did.
    pub fn admit(&mut self, r: Region) -> bool
        ensures { Takes (admitted self.old r) self.old r self.new result }
    {
        if !admits(self.regions(), r) {
            return false;
        }
        self.places[self.count] = r;
        self.count += 1;
        true
    }

    // Takes a region, where a line can say it and it may be the next one; says whether it did.
    #[tactic(auto, unfolding(crate::specs::Sheet::follows))]
    pub fn add(&mut self, r: Region) -> bool
        ensures { Takes (follows self.old r) self.old r self.new result }
    {
        if formed(r) { self.admit(r) } else { false }
    }

    // The sheet that ends here: without a region its first line is bad.
    #[tactic(auto, unfolding(crate::specs::Scanning::ended_as))]
    pub fn ended(self) -> Result<Sheet, BadLine>
        ensures { result ≡ ended_as self }
    {
        if self.regions().is_empty() {
            return Err(BadLine { line: 1 });
        }
        Ok(self)
    }
}
