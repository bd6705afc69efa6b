// The searches of what the capabilities of a state reach for C: what crate reach promises, under the names of `include/oddersnow.h`.
#![tactic(auto)]

ghost use Rattle.std.specs.Prelude.{◌≡◌};
ghost use Rattle.state.specs.Lent.{state};
ghost use Rattle.reach.specs.Reach.{packed_reach, query_of, reach_answer};
ghost use Rattle.reach.specs.Outside.{outside_answer};

// The search of all places, its answer as one number.
#[unsafe(no_mangle)]
pub extern "C" fn oddersnow_reach(
    regs: &[u32],
    start: u32,
    mem: &[u8],
    tags: &[u8],
    low: u32,
    length: u32,
    rights: u32,
    from: u32,
) -> u64
    ensures { result ≡ packed_reach (reach_answer start (query_of low length rights) from
        (state regs.now mem.now tags.now)) }
{
    reach::oddersnow_reach(regs, start, mem, tags, low, length, rights, from)
}

// The search of what stands outside the range, its answer as one number.
#[unsafe(no_mangle)]
pub extern "C" fn oddersnow_reach_outside(
    regs: &[u32],
    start: u32,
    mem: &[u8],
    tags: &[u8],
    low: u32,
    length: u32,
    rights: u32,
    from: u32,
) -> u64
    ensures { result ≡ packed_reach (outside_answer start (query_of low length rights) from
        (state regs.now mem.now tags.now)) }
{
    reach::oddersnow_reach_outside(regs, start, mem, tags, low, length, rights, from)
}
