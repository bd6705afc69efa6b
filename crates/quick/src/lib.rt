// The second engine: straight code is decoded once and kept until a store touches it. It answers as the plain engine does.
#![tactic(auto)]

mod capabilities;
mod entries;
mod integers;
mod jumps;
mod memory;
mod pace;
mod registers;
mod rows;
mod steps;
mod turn;

ghost use Rattle.state.specs.Lent.{state};
ghost use Rattle.machine.specs.Watching.{WatchPromise};

use machine::{Engine, Watched};
use operations::Operation;
use state::Board;
use watch::Watch;

// A store: so many bytes at a place of memory.
#[derive(Clone, Copy)]
pub struct Store {
    pub at: u32,
    pub width: u32,
}

// What a turn answers: done, and what it stored; or left to a plain step, and what that may store.
type Took = Result<Option<Store>, Option<Store>>;

// What is found at PCC: an operation and its bytes.
#[derive(Clone, Copy)]
pub struct Found {
    pub bytes: u32,
    pub op: Operation,
}

// A run with a watch record by the second engine: the answer, the state and the record of the plain one. A refusal changes nothing, the record neither.
pub fn run_quick(
    regs: &mut [u32],
    board: Board,
    mem: &mut [u8],
    tags: &mut [u8],
    revoked: &[u8],
    n: u32,
    w: Watch,
) -> Watched
    ensures { WatchPromise n board revoked.now (state regs.old mem.old tags.old)
        (state regs.new mem.new tags.new) w result.watch result.answer }
{
    if let Err(why) = machine::refusal(n, regs, board, mem, tags, revoked) {
        return Watched {
            answer: Err(why),
            watch: w,
        };
    }
    let tally = steps::take_steps(regs, board, mem, tags, revoked, n, w);
    Watched {
        answer: Ok(tally.counts),
        watch: tally.watch,
    }
}

// The second engine.
pub struct Quick;

impl Engine for Quick {
    fn watched_run(
        regs: &mut [u32],
        board: Board,
        mem: &mut [u8],
        tags: &mut [u8],
        revoked: &[u8],
        n: u32,
        w: Watch,
    ) -> Watched {
        run_quick(regs, board, mem, tags, revoked, n, w)
    }
}
