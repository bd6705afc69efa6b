// A step, a run, a run with a watch record by each engine and the sweeper for C: slices and numbers, the answer packed into one number.
#![tactic(auto)]

ghost use Rattle.std.specs.Prelude.{◌≡◌, ◌<◌, ◌≤◌, ◌^◌};
ghost use Rattle.state.specs.Lent.{state, report_edition};
ghost use Rattle.machine.specs.Run.{counts, step_retired, step_trapped, run_retired, run_trapped};
ghost use Rattle.bench_api.specs.Packing.{packed_answer};
ghost use Rattle.bench_api.specs.Packing.{packed, board_of, StepPacked, RunPacked, packed_visit, VisitPacked};
ghost use Rattle.bench_api.specs.Watches.{WatchPacked};
ghost use Rattle.machine.specs.Watching.{watch_of};

use machine::{Counts, Plain, Refusal, Step};
use quick::Quick;
use state::{Board, REPORT_EDITION, Window};

// The places of a number, 2^48, of the trapped steps, 2^24, and of the word that says which granule was the last, 2^32, in an answer.
pub const NUMBER_PLACE: u64 = 0x1_0000_0000_0000;

pub const TRAPPED_PLACE: u64 = 0x100_0000;

pub const LAST_PLACE: u64 = 0x1_0000_0000;

// The board of plain numbers.
fn board_of(start: u32, window_start: u32, window_size: u32, edition: u32) -> Board
    ensures { result ≡ board_of start window_start window_size edition }
{
    Board {
        start,
        window: Window {
            start: window_start,
            size: window_size,
        },
        edition,
    }
}

// number * 2^48 + trapped * 2^24 + retired, of which a refusal has the number alone.
fn pack(answer: Result<Counts, Refusal>) -> u64
    requires { (run_trapped answer < 2 ^ 24) × (run_retired answer < 2 ^ 24) }
    ensures { result ≡ packed_answer answer }
{
    match answer {
        Ok(counts) => counts.trapped as u64 * TRAPPED_PLACE + counts.retired as u64,
        Err(refusal) => refusal.number() as u64 * NUMBER_PLACE,
    }
}

// A step as a run of one.
fn counts_of(step: Step) -> Counts
    ensures { result ≡ counts (step_retired (Ok step)) (step_trapped (Ok step)) }
{
    match step {
        Step::Retired => Counts {
            retired: 1,
            trapped: 0,
        },
        Step::Trapped => Counts {
            retired: 0,
            trapped: 1,
        },
    }
}

// One step.
#[unsafe(no_mangle)]
pub extern "C" fn oddersnow_step(
    regs: &mut [u32],
    start: u32,
    mem: &mut [u8],
    tags: &mut [u8],
    window_start: u32,
    window_size: u32,
    revoked: &[u8],
    edition: u32,
) -> u64
    ensures { StepPacked (board_of start window_start window_size edition) revoked.now
        (state regs.old mem.old tags.old) (state regs.new mem.new tags.new) result }
{
    let board = board_of(start, window_start, window_size, edition);
    let answer = machine::step(regs, board, mem, tags, revoked);
    pack(answer.map(counts_of))
}

// A run of some steps.
#[unsafe(no_mangle)]
pub extern "C" fn oddersnow_run(
    regs: &mut [u32],
    start: u32,
    mem: &mut [u8],
    tags: &mut [u8],
    window_start: u32,
    window_size: u32,
    revoked: &[u8],
    edition: u32,
    steps: u32,
) -> u64
    ensures { RunPacked steps (board_of start window_start window_size edition) revoked.now
        (state regs.old mem.old tags.old) (state regs.new mem.new tags.new) result }
{
    let board = board_of(start, window_start, window_size, edition);
    let answer = machine::run(regs, board, mem, tags, revoked, steps);
    pack(answer)
}

// A run of some steps with a watch record: two ranges, and their counts, which rise in place.
#[unsafe(no_mangle)]
pub extern "C" fn oddersnow_run_watched(
    regs: &mut [u32],
    start: u32,
    mem: &mut [u8],
    tags: &mut [u8],
    window_start: u32,
    window_size: u32,
    revoked: &[u8],
    edition: u32,
    steps: u32,
    start1: u32,
    length1: u32,
    count1: &mut u32,
    start2: u32,
    length2: u32,
    count2: &mut u32,
) -> u64
    ensures { WatchPacked steps (board_of start window_start window_size edition) revoked.now
        (state regs.old mem.old tags.old) (state regs.new mem.new tags.new)
        (watch_of start1 length1 count1.old start2 length2 count2.old) count1.new count2.new result }
{
    let board = board_of(start, window_start, window_size, edition);
    let answer = machine::run_counting::<Plain>(
        regs, board, mem, tags, revoked, steps, start1, length1, count1, start2, length2, count2,
    );
    pack(answer)
}

// The same run by the second engine: the same answer, buffers and counts.
#[unsafe(no_mangle)]
pub extern "C" fn oddersnow_run_quick(
    regs: &mut [u32],
    start: u32,
    mem: &mut [u8],
    tags: &mut [u8],
    window_start: u32,
    window_size: u32,
    revoked: &[u8],
    edition: u32,
    steps: u32,
    start1: u32,
    length1: u32,
    count1: &mut u32,
    start2: u32,
    length2: u32,
    count2: &mut u32,
) -> u64
    ensures { WatchPacked steps (board_of start window_start window_size edition) revoked.now
        (state regs.old mem.old tags.old) (state regs.new mem.new tags.new)
        (watch_of start1 length1 count1.old start2 length2 count2.old) count1.new count2.new result }
{
    let board = board_of(start, window_start, window_size, edition);
    let answer = machine::run_counting::<Quick>(
        regs, board, mem, tags, revoked, steps, start1, length1, count1, start2, length2, count2,
    );
    pack(answer)
}

// number * 2^48 + last * 2^32 + next.
fn pack_visit(answer: Result<Option<u32>, Refusal>) -> u64
    ensures { result ≡ packed_visit answer }
{
    match answer {
        Ok(Some(next)) => next as u64,
        Ok(None) => LAST_PLACE,
        Err(why) => why.number() as u64 * NUMBER_PLACE,
    }
}

// A visit of the sweeper to one granule.
#[unsafe(no_mangle)]
pub extern "C" fn oddersnow_sweep(
    start: u32,
    mem: &[u8],
    tags: &mut [u8],
    window_start: u32,
    window_size: u32,
    revoked: &[u8],
    granule: u32,
) -> u64
    ensures { VisitPacked (board_of start window_start window_size report_edition) revoked.now mem.now granule
        tags.old tags.new result }
{
    // A sweep knows no edition.
    let board = board_of(start, window_start, window_size, REPORT_EDITION);
    pack_visit(sweep::visit(board, mem, tags, revoked, granule))
}
