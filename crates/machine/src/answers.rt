// What a call answers: why it is refused, or how many of its steps retired and trapped.
ghost use Rattle.std.specs.Prelude.{◌≡◌};
ghost use Rattle.machine.specs.Refusals.{number_of, refused_unless};

use watch::Watch;

// Why a call over lent buffers is refused: the test that it fails. The last four are the sweeper's and those of the search of what is reached.
#[derive(Clone, Copy, Debug, PartialEq, Eq)]
pub enum Refusal {
    Registers = 1,
    Memory = 2,
    Bits = 3,
    Words = 4,
    Steps = 5,
    Edition = 7,
    Bounds = 8,
    Granule = 9,
    Rights = 20,
    Place = 21,
    Range = 22,
}

impl Refusal {
    // The paper's number.
    pub fn number(self) -> u32
        ensures { result ≡ number_of self }
    {
        self as u32
    }
}

// How a step ends.
#[derive(Clone, Copy, Debug, PartialEq, Eq)]
pub enum Step {
    Retired,
    Trapped,
}

// How many steps of a run retired and trapped.
#[derive(Clone, Copy, Debug, PartialEq, Eq)]
pub struct Counts {
    pub retired: u32,
    pub trapped: u32,
}

// The refusal of a call for which a test does not pass.
pub fn refuse_unless(good: bool, why: Refusal) -> Result<(), Refusal>
    ensures { result ≡ refused_unless good why }
{
    if good { Ok(()) } else { Err(why) }
}

// How many steps retired and trapped, and the watch record after them.
#[derive(Clone, Copy)]
pub struct Tally {
    pub counts: Counts,
    pub watch: Watch,
}

// The answer to a run with a watch record, and the record after it.
#[derive(Clone, Copy)]
pub struct Watched {
    pub answer: Result<Counts, Refusal>,
    pub watch: Watch,
}
