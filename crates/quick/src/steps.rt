// The loop of the second engine. Its arrays stay in its own frame.
ghost use Rattle.std.specs.Prelude.{◌≡◌, ◌%◌, length};
ghost use Rattle.state.specs.Layout.{register_words};
ghost use Rattle.state.specs.Lent.{state};
ghost use Rattle.machine.specs.Run.{ran, iterate};
ghost use Rattle.machine.specs.Watching.{watched_by};
ghost use Rattle.quick.specs.Entries.{noted_at};

use crate::entries::ENTRIES;
use crate::pace::Luck;
use crate::registers::PCC_PLACE;
use crate::rows::ROW_WORDS;
use crate::{Store, entries, pace, registers, rows, turn};
use machine::{Counts, Tally};
use state::{Board, TIME_INDEX};
use std::num::wrapping_add_u32;
use watch::Watch;

// No address is so high: the low end of the hull of no entries.
const NO_LOW: u64 = 0xFFFF_FFFF_FFFF_FFFF;

// The bytes that an entry's instruction lies in.
const MOST_BYTES: u64 = 4;

// The record after a turn that is done.
fn noted(w: Watch, start: u32, stored: Option<Store>) -> Watch
    ensures { result ≡ noted_at w start stored }
{
    match stored {
        Some(s) => w.touched(wrapping_add_u32(start, s.at), s.width),
        None => w,
    }
}

// n steps. Nothing is refused.
pub(crate) fn take_quick(
    regs: &mut [u32],
    board: Board,
    mem: &mut [u8],
    tags: &mut [u8],
    revoked: &[u8],
    n: u32,
    w: Watch,
) -> Tally
    requires { (length regs.old ≡ register_words) × (board.start % 8 ≡ 0) }
    ensures { (ran (state regs.new mem.new tags.new) result.counts.retired result.counts.trapped
        ≡ iterate n board revoked.now (ran (state regs.old mem.old tags.old) 0 0))
        × (result.watch ≡ watched_by n board revoked.now (state regs.old mem.old tags.old) w) }
{
    // Steps are counted in 64 bits: in 32 the built loop holds the count twice, and each step takes one or two of the host's instructions more.
    let most = n as u64;
    let mut code = [entries::ABSENT; ENTRIES];
    let mut keys = [0u64; ENTRIES];
    let mut rows = [0u64; ROW_WORDS];
    let mut low = NO_LOW;
    let mut high: u64 = 0;
    let mut base = pace::base_of(regs);
    let mut limit = pace::limit_from(regs, 0, most);
    let mut luck = Luck::new();
    let mut missed = false;
    let mut watch = w;
    let mut trapped: u32 = 0;
    let mut k: u64 = 0;
    while k < most {
        let pc = regs[PCC_PLACE];
        let slot = entries::slot_of(pc);
        if let Some(i) = entries::entry_for(k, limit, &keys, slot, entries::key_of(base, pc)) {
            let f = code[i];
            let t = turn::turn(f.op, f.bytes, &mut rows, regs, board, mem, tags, revoked);
            k += 1;
            missed = false;
            match t {
                Ok(None) => continue,
                Ok(stored) => {
                    entries::forget(&mut keys, low, high, board.start, stored);
                    watch = noted(watch, board.start, stored);
                    continue;
                }
                Err(stored) => entries::forget(&mut keys, low, high, board.start, stored),
            }
            rows::learn(&mut rows, registers::read_pcc(regs), board.start, mem.len());
            let p = machine::take_watched(regs, board, mem, tags, revoked, 1, watch);
            watch = p.watch;
            trapped += p.counts.trapped;
            base = pace::base_of(regs);
            limit = pace::limit_while(luck.spend(k), regs, k, most);
            continue;
        }
        let tried = pace::is_tried(missed, luck.spend(k));
        let found = entries::look(tried, registers::read_pcc(regs), board.start, mem);
        base = pace::base_of(regs);
        if let Some(f) = found {
            let at = pc.saturating_sub(board.start) as u64;
            let j = entries::room_at(&keys, slot, regs[TIME_INDEX]);
            code[j] = f;
            keys[j] = entries::key_of(base, pc);
            low = low.min(at);
            high = high.max(at + MOST_BYTES);
            missed = true;
            continue;
        }
        let m = luck.steps_now(most - k);
        let p = machine::take_watched(regs, board, mem, tags, revoked, m as u32, watch);
        watch = p.watch;
        trapped += p.counts.trapped;
        entries::clear_unless(
            &mut keys,
            entries::stored_nothing(m as u32, p.counts.trapped),
        );
        base = pace::base_of(regs);
        k += m;
        limit = pace::limit_from(regs, k, most);
        missed = false;
        luck.rested(k);
    }
    Tally {
        counts: Counts {
            retired: n - trapped,
            trapped,
        },
        watch,
    }
}

// Runs so short that the arrays would cost more than they save.
const SHORT: u32 = 256;

// n steps, a short run by plain ones. Nothing is refused.
pub(crate) fn take_steps(
    regs: &mut [u32],
    board: Board,
    mem: &mut [u8],
    tags: &mut [u8],
    revoked: &[u8],
    n: u32,
    w: Watch,
) -> Tally
    requires { (length regs.old ≡ register_words) × (board.start % 8 ≡ 0) }
    ensures { (ran (state regs.new mem.new tags.new) result.counts.retired result.counts.trapped
        ≡ iterate n board revoked.now (ran (state regs.old mem.old tags.old) 0 0))
        × (result.watch ≡ watched_by n board revoked.now (state regs.old mem.old tags.old) w) }
{
    if n < SHORT {
        return machine::take_watched(regs, board, mem, tags, revoked, n, w);
    }
    take_quick(regs, board, mem, tags, revoked, n, w)
}
