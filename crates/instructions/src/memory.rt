// Loads and stores: opcodes LOAD and STORE.
ghost use Rattle.std.specs.Prelude.{◌≡◌};
ghost use Rattle.instructions.specs.Decode.{load_of, store_of};

use crate::{Instruction, LAST_REGISTER, LoadKind, MemoryInstruction, StoreKind};

fn load(kind: LoadKind, rd: u32, rs1: u32, offset: u32) -> Instruction
    ensures { result ≡ Instruction.Memory (MemoryInstruction.Load kind rd rs1 offset) }
{
    Instruction::Memory(MemoryInstruction::Load {
        kind,
        rd,
        rs1,
        offset,
    })
}

// LOAD: CLC stands where RV64 has LD.
#[tactic(auto, using(words::proofs::Tests::tests), unfolding(crate::specs::Decode::load_of))]
pub(crate) fn decode_load(f3: u32, rd: u32, rs1: u32, offset: u32) -> Instruction
    ensures { result ≡ load_of f3 rd rs1 offset }
{
    if rd > LAST_REGISTER || rs1 > LAST_REGISTER {
        return Instruction::Illegal;
    }
    match f3 {
        0 => return load(LoadKind::Lb, rd, rs1, offset),
        1 => return load(LoadKind::Lh, rd, rs1, offset),
        2 => return load(LoadKind::Lw, rd, rs1, offset),
        3 => return Instruction::Memory(MemoryInstruction::LoadCapability { rd, rs1, offset }),
        4 => return load(LoadKind::Lbu, rd, rs1, offset),
        5 => return load(LoadKind::Lhu, rd, rs1, offset),
        _ => return Instruction::Illegal,
    }
}

fn store(kind: StoreKind, rs1: u32, rs2: u32, offset: u32) -> Instruction
    ensures { result ≡ Instruction.Memory (MemoryInstruction.Store kind rs1 rs2 offset) }
{
    Instruction::Memory(MemoryInstruction::Store {
        kind,
        rs1,
        rs2,
        offset,
    })
}

// STORE: CSC stands where RV64 has SD.
#[tactic(auto, using(words::proofs::Tests::tests), unfolding(crate::specs::Decode::store_of))]
pub(crate) fn decode_store(f3: u32, rs1: u32, rs2: u32, offset: u32) -> Instruction
    ensures { result ≡ store_of f3 rs1 rs2 offset }
{
    if rs1 > LAST_REGISTER || rs2 > LAST_REGISTER {
        return Instruction::Illegal;
    }
    match f3 {
        0 => return store(StoreKind::Sb, rs1, rs2, offset),
        1 => return store(StoreKind::Sh, rs1, rs2, offset),
        2 => return store(StoreKind::Sw, rs1, rs2, offset),
        3 => return Instruction::Memory(MemoryInstruction::StoreCapability { rs1, rs2, offset }),
        _ => return Instruction::Illegal,
    }
}
