// What one step does, by value: interrupt or fetch, decode, effect.
#![tactic(auto)]

ghost use Rattle.std.specs.Prelude.{◌≡◌};
ghost use Rattle.state.specs.Lent.{lent, state};
ghost use Rattle.execution.specs.Step.{effect_of, instruction_in, word_in, length_in, effect_in, met_of, turn_of};

use fetch::{Fetched, Trap};
use instructions::Instruction;
use short_forms::{HALF_BYTES, LONG_BYTES};
use state::{Board, Effect, ILLEGAL_INSTRUCTION, TIMER_INTERRUPT};

// What an instruction of some bytes does.
#[tactic(auto, unfolding(crate::specs::Step::effect_of))]
fn execute(
    bytes: u32,
    i: Instruction,
    word: u32,
    regs: &[u32],
    board: Board,
    mem: &[u8],
    tags: &[u8],
    revoked: &[u8],
) -> Effect
    ensures { result ≡ effect_of bytes i word regs.now (lent board mem.now tags.now revoked.now) }
{
    match i {
        Instruction::Integer(x) => integer_instructions::integer_effect(x, regs),
        Instruction::Jump(x) => jump_instructions::jump_effect(bytes, board.edition, x, regs),
        Instruction::Memory(x) => {
            memory_instructions::memory_effect(x, regs, board, mem, tags, revoked)
        }
        Instruction::Capability(x) => capability_instructions::capability_effect(x, regs),
        Instruction::System(x) => system_instructions::system_effect(x, regs),
        Instruction::Illegal => Effect::Trap {
            cause: ILLEGAL_INSTRUCTION,
            value: word,
        },
    }
}

// What was fetched, as an instruction: a half by its long form.
#[tactic(auto, unfolding(crate::specs::Step::instruction_in))]
fn instruction_in(fetched: Fetched) -> Instruction
    ensures { result ≡ instruction_in (Ok fetched) }
{
    match fetched {
        Fetched::Long(word) => instructions::decode(word),
        Fetched::Half(half) => short_forms::instruction_of(half),
    }
}

// What stands in mtval where it is illegal.
#[tactic(auto, unfolding(crate::specs::Step::word_in))]
fn word_in(fetched: Fetched) -> u32
    ensures { result ≡ word_in (Ok fetched) }
{
    match fetched {
        Fetched::Long(word) => word,
        Fetched::Half(half) => half,
    }
}

// How far PCC moves where it moves on.
#[tactic(auto, unfolding(crate::specs::Step::length_in))]
fn length_in(fetched: Fetched) -> u32
    ensures { result ≡ length_in (Ok fetched) }
{
    match fetched {
        Fetched::Long(_) => LONG_BYTES,
        Fetched::Half(_) => HALF_BYTES,
    }
}

// What was fetched does this. One call of `execute` serves both lengths, so that its code stands once.
#[tactic(auto, unfolding(crate::specs::Step::effect_in, crate::specs::Step::trap_or))]
fn effect_in(
    fetched: Fetched,
    regs: &[u32],
    board: Board,
    mem: &[u8],
    tags: &[u8],
    revoked: &[u8],
) -> Effect
    ensures { result ≡ effect_in (Ok fetched) regs.now (lent board mem.now tags.now revoked.now) }
{
    execute(
        length_in(fetched),
        instruction_in(fetched),
        word_in(fetched),
        regs,
        board,
        mem,
        tags,
        revoked,
    )
}

// What the next step meets: the timer's interrupt, or what it fetches.
#[tactic(auto, unfolding(crate::specs::Step::met_of))]
fn met_at(regs: &[u32], board: Board, mem: &[u8]) -> Result<Fetched, Trap>
    ensures { result ≡ met_of board regs.now mem.now }
{
    if state::interrupt_due(regs) {
        return Err(Trap {
            cause: TIMER_INTERRUPT,
            value: 0,
        });
    }
    fetch::fetch(state::pcc_of(regs), board.start, mem)
}

// What the next step does, by value: how far PCC moves where it moves on, and the effect.
#[derive(Clone, Copy)]
pub struct Turn {
    pub bytes: u32,
    pub effect: Effect,
}

// The next step. Nothing is refused: what lies outside a buffer reads as 0.
#[tactic(auto, unfolding(crate::specs::Step::effect_in, crate::specs::Step::length_in, crate::specs::Step::trap_or))]
pub fn turn_at(regs: &[u32], board: Board, mem: &[u8], tags: &[u8], revoked: &[u8]) -> Turn
    ensures { result ≡ turn_of board revoked.now (state regs.now mem.now tags.now) }
{
    match met_at(regs, board, mem) {
        Ok(fetched) => Turn {
            bytes: length_in(fetched),
            effect: effect_in(fetched, regs, board, mem, tags, revoked),
        },
        Err(Trap { cause, value }) => Turn {
            bytes: 0,
            effect: Effect::Trap { cause, value },
        },
    }
}
