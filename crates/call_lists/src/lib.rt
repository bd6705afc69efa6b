// Lists of cuts, exact cuts, address moves and narrowings of one capability.
#![tactic(auto)]

ghost use Rattle.std.specs.Prelude.{◌≡◌};
ghost use Rattle.call_lists.specs.Lists.{answer_number};

mod calls;
mod exported;
mod lists;

pub use calls::make_call;
use capability::Capability;
pub use exported::oddersnow_calls;
pub use lists::run_calls;

// One call, with its length, address or mask.
#[derive(Clone, Copy, Debug, PartialEq, Eq)]
pub enum Call {
    Cut(u32),
    ExactCut(u32),
    Move(u32),
    Narrow(u32),
}

// The words of a capability: address, metadata, tag.
pub(crate) const WORDS: usize = 3;

// A tag word is 0 or 1.
pub(crate) const MOST_TAG: u32 = 1;

// Document 01's number of a tag word that is not 0 or 1.
const BAD_TAG: u32 = 4;

// Two numbers of this crate's own, above those that documents 01 and 02 use.
const WRONG_SIZE: u32 = 11;

const UNKNOWN_KIND: u32 = 12;

// Why nothing of a list was run.
#[derive(Clone, Copy, Debug, PartialEq, Eq)]
pub enum ListError {
    BadTag,
    WrongSize,
    UnknownKind,
}

impl ListError {
    // The number of the refusal.
    pub fn number(self) -> u32
        ensures { result ≡ answer_number (Err self) }
    {
        match self {
            ListError::BadTag => BAD_TAG,
            ListError::WrongSize => WRONG_SIZE,
            ListError::UnknownKind => UNKNOWN_KIND,
        }
    }
}
