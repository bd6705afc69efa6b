// A step, the runs and the sweeper for C: what crate bench_api promises, under the names of `include/oddersnow.h`.
#![tactic(auto)]

ghost use Rattle.state.specs.Lent.{report_edition, state};
ghost use Rattle.machine.specs.Watching.{watch_of};
ghost use Rattle.bench_api.specs.Packing.{board_of, RunPacked, StepPacked, VisitPacked};
ghost use Rattle.bench_api.specs.Watches.{WatchPacked};

// One step.
#[unsafe(no_mangle)]
pub extern "C" fn oddersnow_step(
    regs: &mut [u32],
    start: u32,
    mem: &mut [u8],
    tags: &mut [u8],
    window_start: u32,
    window_size: u32,
    revoked: &[u8],
    edition: u32,
) -> u64
    ensures { StepPacked (board_of start window_start window_size edition) revoked.now
        (state regs.old mem.old tags.old) (state regs.new mem.new tags.new) result }
{
    bench_api::oddersnow_step(
        regs,
        start,
        mem,
        tags,
        window_start,
        window_size,
        revoked,
        edition,
    )
}

// A run of some steps.
#[unsafe(no_mangle)]
pub extern "C" fn oddersnow_run(
    regs: &mut [u32],
    start: u32,
    mem: &mut [u8],
    tags: &mut [u8],
    window_start: u32,
    window_size: u32,
    revoked: &[u8],
    edition: u32,
    steps: u32,
) -> u64
    ensures { RunPacked steps (board_of start window_start window_size edition) revoked.now
        (state regs.old mem.old tags.old) (state regs.new mem.new tags.new) result }
{
    bench_api::oddersnow_run(
        regs,
        start,
        mem,
        tags,
        window_start,
        window_size,
        revoked,
        edition,
        steps,
    )
}

// A run of some steps with a watch record: two ranges, and their counts, which rise in place.
#[unsafe(no_mangle)]
pub extern "C" fn oddersnow_run_watched(
    regs: &mut [u32],
    start: u32,
    mem: &mut [u8],
    tags: &mut [u8],
    window_start: u32,
    window_size: u32,
    revoked: &[u8],
    edition: u32,
    steps: u32,
    start1: u32,
    length1: u32,
    count1: &mut u32,
    start2: u32,
    length2: u32,
    count2: &mut u32,
) -> u64
    ensures { WatchPacked steps (board_of start window_start window_size edition) revoked.now
        (state regs.old mem.old tags.old) (state regs.new mem.new tags.new)
        (watch_of start1 length1 count1.old start2 length2 count2.old) count1.new count2.new result }
{
    bench_api::oddersnow_run_watched(
        regs,
        start,
        mem,
        tags,
        window_start,
        window_size,
        revoked,
        edition,
        steps,
        start1,
        length1,
        count1,
        start2,
        length2,
        count2,
    )
}

// The same run by the second engine: the same answer, buffers and counts.
#[unsafe(no_mangle)]
pub extern "C" fn oddersnow_run_quick(
    regs: &mut [u32],
    start: u32,
    mem: &mut [u8],
    tags: &mut [u8],
    window_start: u32,
    window_size: u32,
    revoked: &[u8],
    edition: u32,
    steps: u32,
    start1: u32,
    length1: u32,
    count1: &mut u32,
    start2: u32,
    length2: u32,
    count2: &mut u32,
) -> u64
    ensures { WatchPacked steps (board_of start window_start window_size edition) revoked.now
        (state regs.old mem.old tags.old) (state regs.new mem.new tags.new)
        (watch_of start1 length1 count1.old start2 length2 count2.old) count1.new count2.new result }
{
    bench_api::oddersnow_run_quick(
        regs,
        start,
        mem,
        tags,
        window_start,
        window_size,
        revoked,
        edition,
        steps,
        start1,
        length1,
        count1,
        start2,
        length2,
        count2,
    )
}

// A visit of the sweeper to one granule.
#[unsafe(no_mangle)]
pub extern "C" fn oddersnow_sweep(
    start: u32,
    mem: &[u8],
    tags: &mut [u8],
    window_start: u32,
    window_size: u32,
    revoked: &[u8],
    granule: u32,
) -> u64
    ensures { VisitPacked (board_of start window_start window_size report_edition) revoked.now mem.now granule
        tags.old tags.new result }
{
    bench_api::oddersnow_sweep(
        start,
        mem,
        tags,
        window_start,
        window_size,
        revoked,
        granule,
    )
}
