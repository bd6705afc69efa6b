// The watch record: two ranges of addresses, each with a count of the stores that touched it.
#![tactic(auto)]

ghost use Rattle.std.specs.Prelude.{◌≡◌};
ghost use Rattle.watch.specs.Watch.{hits, one_more_hit, range_touched, touched_at, no_watch};

// A range of addresses, and how many stores have touched it.
#[derive(Clone, Copy, Debug, PartialEq, Eq)]
pub struct Range {
    pub start: u32,
    pub length: u32,
    pub count: u32,
}

// The two watched ranges.
#[derive(Clone, Copy, Debug, PartialEq, Eq)]
pub struct Watch {
    pub first: Range,
    pub second: Range,
}

// Where a count stops.
pub const MOST_HITS: u32 = u32::MAX;

// One more, unless the count has stopped.
#[tactic(auto, unfolding(crate::specs::Watch::one_more_hit))]
fn one_more(count: u32) -> u32
    ensures { result ≡ one_more_hit count }
{
    count.saturating_add(1)
}

impl Range {
    // Whether some bytes from an address on share a byte with the range. Ends are whole numbers.
    pub fn is_hit(self, address: u32, width: u32) -> bool
        ensures { result ≡ hits self address width }
    {
        choices::all_four(
            0 < self.length,
            0 < width,
            (self.start as u64) < address as u64 + width as u64,
            (address as u64) < self.start as u64 + self.length as u64,
        )
    }

    // The range after a store of some bytes at an address.
    #[tactic(auto, using(crate::proofs::Laws::missed_stays), unfolding(crate::specs::Watch::range_touched))]
    pub fn touched(self, address: u32, width: u32) -> Range
        ensures { result ≡ range_touched self address width }
    {
        if self.is_hit(address, width) {
            return Range {
                count: one_more(self.count),
                ..self
            };
        }
        self
    }
}

impl Watch {
    // Nothing watched.
    pub fn none() -> Watch
        ensures { result ≡ no_watch }
    {
        let empty = Range {
            start: 0,
            length: 0,
            count: 0,
        };
        Watch {
            first: empty,
            second: empty,
        }
    }

    // The record after a store of some bytes at an address.
    pub fn touched(self, address: u32, width: u32) -> Watch
        ensures { result ≡ touched_at self address width }
    {
        // One test for both ranges.
        if self.first.length as u64 + self.second.length as u64 == 0 {
            return self;
        }
        Watch {
            first: self.first.touched(address, width),
            second: self.second.touched(address, width),
        }
    }
}
