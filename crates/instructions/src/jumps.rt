// Jumps and branches: opcodes JAL, JALR and BRANCH.
ghost use Rattle.std.specs.Prelude.{◌≡◌};
ghost use Rattle.instructions.specs.Decode.{branch_of, jalr_of, jal_of};

use crate::{BranchKind, Instruction, JumpInstruction, LAST_REGISTER};

fn branch(kind: BranchKind, rs1: u32, rs2: u32, offset: u32) -> Instruction
    ensures { result ≡ Instruction.Jump (JumpInstruction.Branch kind rs1 rs2 offset) }
{
    Instruction::Jump(JumpInstruction::Branch {
        kind,
        rs1,
        rs2,
        offset,
    })
}

// BRANCH.
#[tactic(auto, using(words::proofs::Tests::tests), unfolding(crate::specs::Decode::branch_of))]
pub(crate) fn decode_branch(f3: u32, rs1: u32, rs2: u32, offset: u32) -> Instruction
    ensures { result ≡ branch_of f3 rs1 rs2 offset }
{
    if rs1 > LAST_REGISTER || rs2 > LAST_REGISTER {
        return Instruction::Illegal;
    }
    match f3 {
        0 => return branch(BranchKind::Beq, rs1, rs2, offset),
        1 => return branch(BranchKind::Bne, rs1, rs2, offset),
        4 => return branch(BranchKind::Blt, rs1, rs2, offset),
        5 => return branch(BranchKind::Bge, rs1, rs2, offset),
        6 => return branch(BranchKind::Bltu, rs1, rs2, offset),
        7 => return branch(BranchKind::Bgeu, rs1, rs2, offset),
        _ => return Instruction::Illegal,
    }
}

// JALR: CJALR.
#[tactic(auto, using(words::proofs::Tests::tests), unfolding(crate::specs::Decode::jalr_of))]
pub(crate) fn decode_jalr(f3: u32, rd: u32, rs1: u32, offset: u32) -> Instruction
    ensures { result ≡ jalr_of f3 rd rs1 offset }
{
    if rd > LAST_REGISTER || rs1 > LAST_REGISTER || f3 != 0 {
        return Instruction::Illegal;
    }
    Instruction::Jump(JumpInstruction::Jalr { rd, rs1, offset })
}

// JAL: CJAL.
#[tactic(auto, using(words::proofs::Tests::tests), unfolding(crate::specs::Decode::jal_of))]
pub(crate) fn decode_jal(rd: u32, offset: u32) -> Instruction
    ensures { result ≡ jal_of rd offset }
{
    if rd > LAST_REGISTER {
        return Instruction::Illegal;
    }
    Instruction::Jump(JumpInstruction::Jal { rd, offset })
}
