// The machine over lent buffers: a step, and a run of steps.
#![tactic(auto)]

mod answers;

ghost use Rattle.std.specs.Prelude.{◌≡◌, ◌&&◌, ◌/◌, eqb};
ghost use Rattle.state.specs.Layout.{capability_count};
ghost use Rattle.state.specs.Lent.{state};
ghost use Rattle.machine.specs.Refusals.{block_bytes, good_memory, good_window, good_tags, good_zero, good_words, good_edition};
ghost use Rattle.machine.specs.Refusals.{sound, sound_if_tagged, good_bounds, refusal_of, number_in};
ghost use Rattle.machine.specs.Run.{StepPromise, ran, iterate, RunPromise};
ghost use Rattle.machine.specs.Watching.{watched_by, WatchPromise, watch_of, CountPromise};

pub use answers::{Counts, Refusal, Step, Tally, Watched, refuse_unless};
use capability::Capability;
use commit::Kept;
use state::{
    Board, CAPABILITY_COUNT, CAPABILITY_WORDS, GRANULE_BYTES, LATER_EDITION, REGISTER_WORDS,
    REPORT_EDITION,
};
use watch::{Range, Watch};

// The bytes of memory that one byte of tags or revocation bits is for, the most memory, and the most steps of a run.
pub const BLOCK_BYTES: usize = 64;

pub const MOST_MEMORY: usize = 0x10_0000;

pub const MOST_STEPS: u32 = 1000000;

// The end of the address space.
const SPACE: usize = 0x1_0000_0000;

// ---- the refusals

// The limits of memory's start and size.
#[tactic(auto, unfolding(crate::specs::Refusals::good_memory))]
pub fn good_memory(board: Board, size: usize) -> bool
    ensures { result ≡ good_memory board size }
{
    BLOCK_BYTES <= size
        && size <= MOST_MEMORY
        && size % BLOCK_BYTES == 0
        && board.start % GRANULE_BYTES == 0
        && board.start as usize + size <= SPACE
}

// The limits of the window, which may be empty, also at memory's end.
#[tactic(auto, unfolding(crate::specs::Refusals::good_window))]
pub fn good_window(board: Board, size: usize) -> bool
    ensures { result ≡ good_window board size }
{
    let from = board.window.start as usize;
    let room = board.window.size as usize;
    from % BLOCK_BYTES == 0 && room % BLOCK_BYTES == 0 && from + room <= size
}

// Whether the tag buffer is as long as memory asks, and the revocation buffer as the window does.
pub fn good_lengths(size: usize, window: usize, tags: usize, revoked: usize) -> bool
    ensures { result ≡ (eqb tags (size / block_bytes) && eqb revoked (window / block_bytes)) }
{
    tags == size / BLOCK_BYTES && revoked == window / BLOCK_BYTES
}

// Whether each tag word of the register file is 0 or 1.
fn good_tags(regs: &[u32]) -> bool
    ensures { result ≡ good_tags capability_count regs.now 0 }
{
    for i in 0..CAPABILITY_COUNT {
        if 1 < words::word_at(regs, i * CAPABILITY_WORDS + 2) {
            return false;
        }
    }
    true
}

// Whether each word of c0 is 0.
#[tactic(auto, unfolding(crate::specs::Refusals::good_zero))]
fn good_zero(regs: &[u32]) -> bool
    ensures { result ≡ good_zero regs.now }
{
    words::word_at(regs, 0) == 0 && words::word_at(regs, 1) == 0 && words::word_at(regs, 2) == 0
}

// Whether the register file's words are as they must be.
#[tactic(auto, unfolding(crate::specs::Refusals::good_words))]
fn good_words(regs: &[u32]) -> bool
    ensures { result ≡ good_words regs.now }
{
    good_tags(regs) && good_zero(regs)
}

// Whether the edition is one of the two.
#[tactic(auto, unfolding(crate::specs::Refusals::good_edition))]
fn good_edition(board: Board) -> bool
    ensures { result ≡ good_edition board }
{
    board.edition == REPORT_EDITION || board.edition == LATER_EDITION
}

// Whether bounds are in order, and none past the address space.
#[tactic(auto, unfolding(crate::specs::Refusals::sound))]
fn is_sound(c: Capability) -> bool
    ensures { result ≡ sound c }
{
    let region = capability::bounds_of(c);
    region.low as u64 <= region.high && region.high <= SPACE as u64
}

// Of a capability without its tag nothing is asked.
#[tactic(auto, unfolding(crate::specs::Refusals::sound_if_tagged))]
fn is_sound_if_tagged(c: Capability) -> bool
    ensures { result ≡ sound_if_tagged c }
{
    !capability::is_tagged(c) || is_sound(c)
}

// Whether each tagged capability of the register file is sound.
fn good_bounds(regs: &[u32]) -> bool
    ensures { result ≡ good_bounds capability_count regs.now 0 }
{
    for i in 0..CAPABILITY_COUNT as u32 {
        if !is_sound_if_tagged(state::capability_at(regs, i)) {
            return false;
        }
    }
    true
}

// The first refusal that applies to a call of n steps.
#[tactic(auto, using(crate::proofs::Laws::test_passed, crate::proofs::Laws::test_failed), unfolding(crate::specs::Refusals::refusal_of, crate::specs::Refusals::good_bits))]
pub fn refusal(
    n: u32,
    regs: &[u32],
    board: Board,
    mem: &[u8],
    tags: &[u8],
    revoked: &[u8],
) -> Result<(), Refusal>
    ensures { number_in result ≡ refusal_of n board revoked.now (state regs.now mem.now tags.now) }
{
    let size = mem.len();
    let window = board.window.size as usize;
    refuse_unless(regs.len() == REGISTER_WORDS, Refusal::Registers)?;
    refuse_unless(good_memory(board, size), Refusal::Memory)?;
    refuse_unless(good_window(board, size), Refusal::Memory)?;
    refuse_unless(
        good_lengths(size, window, tags.len(), revoked.len()),
        Refusal::Bits,
    )?;
    refuse_unless(good_words(regs), Refusal::Words)?;
    refuse_unless(n <= MOST_STEPS, Refusal::Steps)?;
    refuse_unless(good_edition(board), Refusal::Edition)?;
    // Last in the order, and dear: bounds are decoded where all else is good.
    refuse_unless(good_bounds(regs), Refusal::Bounds)
}

// ---- a step and a run

// One step. A refusal changes nothing.
pub fn step(
    regs: &mut [u32],
    board: Board,
    mem: &mut [u8],
    tags: &mut [u8],
    revoked: &[u8],
) -> Result<Step, Refusal>
    ensures { StepPromise board revoked.now (state regs.old mem.old tags.old)
        (state regs.new mem.new tags.new) result }
{
    refusal(1, regs, board, mem, tags, revoked)?;
    // By the run's loop: what has one caller is compiled into it.
    let tally = take_watched(regs, board, mem, tags, revoked, 1, Watch::none());
    if tally.counts.retired == 1 {
        Ok(Step::Retired)
    } else {
        Ok(Step::Trapped)
    }
}

// n steps. Nothing is refused. Registers, board, memory, tags and bits go from call to call one by one, and in no struct: C lends each by itself, and a step
// writes three of them and reads two.
pub fn take_watched(
    regs: &mut [u32],
    board: Board,
    mem: &mut [u8],
    tags: &mut [u8],
    revoked: &[u8],
    n: u32,
    w: Watch,
) -> Tally
    ensures { (ran (state regs.new mem.new tags.new) result.counts.retired result.counts.trapped
        ≡ iterate n board revoked.now (ran (state regs.old mem.old tags.old) 0 0))
        × (result.watch ≡ watched_by n board revoked.now (state regs.old mem.old tags.old) w) }
{
    let mut kept = Kept {
        trapped: 0,
        watch: w,
    };
    for k in 0..n {
        // Two calls, not one function of both: that would be too large to be compiled into the loop.
        let turn = execution::turn_at(regs, board, mem, tags, revoked);
        kept = commit::commit_effect(regs, board.start, mem, tags, turn.bytes, turn.effect, kept);
    }
    Tally {
        counts: Counts {
            retired: n - kept.trapped,
            trapped: kept.trapped,
        },
        watch: kept.watch,
    }
}

// n steps, and how many of them retired and trapped. A refusal changes nothing.
pub fn run(
    regs: &mut [u32],
    board: Board,
    mem: &mut [u8],
    tags: &mut [u8],
    revoked: &[u8],
    n: u32,
) -> Result<Counts, Refusal>
    ensures { RunPromise n board revoked.now (state regs.old mem.old tags.old)
        (state regs.new mem.new tags.new) result }
{
    refusal(n, regs, board, mem, tags, revoked)?;
    Ok(take_watched(regs, board, mem, tags, revoked, n, Watch::none()).counts)
}

// A run with a watch record, by value. A refusal changes nothing, the record neither.
pub fn watched_run(
    regs: &mut [u32],
    board: Board,
    mem: &mut [u8],
    tags: &mut [u8],
    revoked: &[u8],
    n: u32,
    w: Watch,
) -> Watched
    ensures { WatchPromise n board revoked.now (state regs.old mem.old tags.old)
        (state regs.new mem.new tags.new) w result.watch result.answer }
{
    if let Err(why) = refusal(n, regs, board, mem, tags, revoked) {
        return Watched {
            answer: Err(why),
            watch: w,
        };
    }
    let tally = take_watched(regs, board, mem, tags, revoked, n, w);
    Watched {
        answer: Ok(tally.counts),
        watch: tally.watch,
    }
}

// An engine: any code that keeps the promise of such a run.
pub trait Engine {
    fn watched_run(
        regs: &mut [u32],
        board: Board,
        mem: &mut [u8],
        tags: &mut [u8],
        revoked: &[u8],
        n: u32,
        w: Watch,
    ) -> Watched
        ensures { WatchPromise n board revoked.now (state regs.old mem.old tags.old)
            (state regs.new mem.new tags.new) w result.watch result.answer };
}

// The plain engine: one step after the other.
pub struct Plain;

impl Engine for Plain {
    fn watched_run(
        regs: &mut [u32],
        board: Board,
        mem: &mut [u8],
        tags: &mut [u8],
        revoked: &[u8],
        n: u32,
        w: Watch,
    ) -> Watched {
        watched_run(regs, board, mem, tags, revoked, n, w)
    }
}

// An engine's run with the record in place: it stores the record that the run by value gives.
pub fn run_in_place<E: Engine>(
    regs: &mut [u32],
    board: Board,
    mem: &mut [u8],
    tags: &mut [u8],
    revoked: &[u8],
    n: u32,
    watch: &mut Watch,
) -> Result<Counts, Refusal>
    ensures { WatchPromise n board revoked.now (state regs.old mem.old tags.old)
        (state regs.new mem.new tags.new) watch.old watch.new result }
{
    let done = E::watched_run(regs, board, mem, tags, revoked, n, *watch);
    *watch = done.watch;
    done.answer
}

// The same run for callers who have no record: ranges as numbers, and their counts, which rise in place.
pub fn run_counting<E: Engine>(
    regs: &mut [u32],
    board: Board,
    mem: &mut [u8],
    tags: &mut [u8],
    revoked: &[u8],
    n: u32,
    start1: u32,
    length1: u32,
    count1: &mut u32,
    start2: u32,
    length2: u32,
    count2: &mut u32,
) -> Result<Counts, Refusal>
    ensures { CountPromise n board revoked.now (state regs.old mem.old tags.old)
        (state regs.new mem.new tags.new)
        (watch_of start1 length1 count1.old start2 length2 count2.old) count1.new count2.new result }
{
    let mut w = Watch {
        first: Range {
            start: start1,
            length: length1,
            count: *count1,
        },
        second: Range {
            start: start2,
            length: length2,
            count: *count2,
        },
    };
    let answer = run_in_place::<E>(regs, board, mem, tags, revoked, n, &mut w);
    *count1 = w.first.count;
    *count2 = w.second.count;
    answer
}
