// What is listed of each instruction: its row and its operands. All that one more long instruction adds to the listing is here and in the table.
// Only FENCE, LUI, AUIPCC and AUICGP take operands from the word itself, and only FENCE a name.
ghost use Rattle.std.specs.Prelude.{◌≡◌};
ghost use Rattle.instructions.specs.Decode.{decode_of};
ghost use Rattle.forms.specs.Rows.{alu_row, alu_immediate_row, multiply_row, divide_row, branch_row, load_row, store_row, csr_row, csr_immediate_row};
ghost use Rattle.forms.specs.Rows.{csr_number, scr_number, inspection_row, combination_row, fence_shape};
ghost use Rattle.forms.specs.Rows.{integer_shape, jump_shape, memory_shape, capability_shape, system_shape, instruction_shape};

use crate::Shape;
use crate::shapes::{bare, three, two, upper};
use instructions::{
    Alu, BranchKind, CapabilityInstruction, Combination, Csr, CsrKind, DivideKind, Inspection,
    Instruction, IntegerInstruction, JumpInstruction, LoadKind, MemoryInstruction, MultiplyKind,
    Scr, StoreKind, SystemInstruction,
};

// The row of an illegal word, which has none. No Option: one test, whether the row is within the table, then says both that there is a name and where.
pub(crate) const UNLISTED: u32 = 255;

// The row of each kind, a number a line as the definition has them: a row of one kind is at no fixed distance from that of another.
fn alu_row(x: Alu) -> u32
    ensures { result ≡ alu_row x }
{
    match x {
        Alu::Add => 31,
        Alu::Sub => 32,
        Alu::Sll => 33,
        Alu::Slt => 34,
        Alu::Sltu => 35,
        Alu::Xor => 36,
        Alu::Srl => 37,
        Alu::Sra => 38,
        Alu::Or => 39,
        Alu::And => 40,
    }
}

fn alu_immediate_row(x: Alu) -> u32
    ensures { result ≡ alu_immediate_row x }
{
    match x {
        Alu::Add => 22,
        Alu::Sub => 32,
        Alu::Sll => 23,
        Alu::Slt => 24,
        Alu::Sltu => 25,
        Alu::Xor => 26,
        Alu::Srl => 27,
        Alu::Sra => 28,
        Alu::Or => 29,
        Alu::And => 30,
    }
}

fn multiply_row(x: MultiplyKind) -> u32
    ensures { result ≡ multiply_row x }
{
    match x {
        MultiplyKind::Mul => 77,
        MultiplyKind::Mulh => 78,
        MultiplyKind::Mulhsu => 79,
        MultiplyKind::Mulhu => 80,
    }
}

fn divide_row(x: DivideKind) -> u32
    ensures { result ≡ divide_row x }
{
    match x {
        DivideKind::Div => 81,
        DivideKind::Divu => 82,
        DivideKind::Rem => 83,
        DivideKind::Remu => 84,
    }
}

fn branch_row(x: BranchKind) -> u32
    ensures { result ≡ branch_row x }
{
    match x {
        BranchKind::Beq => 5,
        BranchKind::Bne => 6,
        BranchKind::Blt => 7,
        BranchKind::Bge => 8,
        BranchKind::Bltu => 9,
        BranchKind::Bgeu => 10,
    }
}

fn load_row(x: LoadKind) -> u32
    ensures { result ≡ load_row x }
{
    match x {
        LoadKind::Lb => 12,
        LoadKind::Lh => 13,
        LoadKind::Lw => 14,
        LoadKind::Lbu => 15,
        LoadKind::Lhu => 16,
    }
}

fn store_row(x: StoreKind) -> u32
    ensures { result ≡ store_row x }
{
    match x {
        StoreKind::Sb => 18,
        StoreKind::Sh => 19,
        StoreKind::Sw => 20,
    }
}

// The two CSR rows are apart as those of `alu_row` and its like are, though three rows lie between them: so each number stands in one place.
fn csr_row(x: CsrKind) -> u32
    ensures { result ≡ csr_row x }
{
    match x {
        CsrKind::Csrrw => 45,
        CsrKind::Csrrs => 46,
        CsrKind::Csrrc => 47,
    }
}

fn csr_immediate_row(x: CsrKind) -> u32
    ensures { result ≡ csr_immediate_row x }
{
    match x {
        CsrKind::Csrrw => 48,
        CsrKind::Csrrs => 49,
        CsrKind::Csrrc => 50,
    }
}

fn csr_number(x: Csr) -> u32
    ensures { result ≡ csr_number x }
{
    match x {
        Csr::Mstatus => 0x300,
        Csr::Mcause => 0x342,
        Csr::Mtval => 0x343,
        Csr::Mshwm => 0xBC1,
        Csr::Mshwmb => 0xBC2,
    }
}

fn scr_number(x: Scr) -> u32
    ensures { result ≡ scr_number x }
{
    match x {
        Scr::Mtcc => 28,
        Scr::Mtdc => 29,
        Scr::Mscratchc => 30,
        Scr::Mepcc => 31,
    }
}

fn inspection_row(x: Inspection) -> u32
    ensures { result ≡ inspection_row x }
{
    match x {
        Inspection::GetPerm => 56,
        Inspection::GetType => 57,
        Inspection::GetBase => 58,
        Inspection::GetLen => 59,
        Inspection::GetTag => 60,
        Inspection::RoundLength => 61,
        Inspection::AlignmentMask => 62,
        Inspection::GetAddr => 63,
        Inspection::GetHigh => 64,
        Inspection::GetTop => 65,
    }
}

fn combination_row(x: Combination) -> u32
    ensures { result ≡ combination_row x }
{
    match x {
        Combination::SetBounds => 66,
        Combination::SetBoundsExact => 67,
        Combination::Seal => 68,
        Combination::Unseal => 69,
        Combination::AndPerm => 70,
        Combination::SetAddr => 71,
        Combination::IncAddr => 72,
        Combination::SubAddr => 73,
        Combination::SetHigh => 74,
        Combination::TestSubset => 75,
        Combination::SetEqualExact => 76,
    }
}

#[tactic(auto, unfolding(crate::specs::Rows::integer_shape))]
fn integer_shape(w: u32, x: IntegerInstruction) -> Shape
    ensures { result ≡ integer_shape w x }
{
    match x {
        IntegerInstruction::Lui { rd, value: _ } => two(0, rd, upper(w)),
        IntegerInstruction::OpImm { op, rd, rs1, value } => three(
            alu_immediate_row(op),
            rd,
            rs1,
            value,
        ),
        IntegerInstruction::Op { op, rd, rs1, rs2 } => three(alu_row(op), rd, rs1, rs2),
        IntegerInstruction::Multiply { kind, rd, rs1, rs2 } => three(
            multiply_row(kind),
            rd,
            rs1,
            rs2,
        ),
        IntegerInstruction::Divide { kind, rd, rs1, rs2 } => three(divide_row(kind), rd, rs1, rs2),
    }
}

#[tactic(auto, unfolding(crate::specs::Rows::jump_shape))]
fn jump_shape(w: u32, x: JumpInstruction) -> Shape
    ensures { result ≡ jump_shape w x }
{
    match x {
        JumpInstruction::Jal { rd, offset } => two(3, rd, offset),
        JumpInstruction::Jalr { rd, rs1, offset } => three(4, rd, rs1, offset),
        JumpInstruction::Branch {
            kind,
            rs1,
            rs2,
            offset,
        } => three(branch_row(kind), rs1, rs2, offset),
        JumpInstruction::Mret => bare(11),
    }
}

#[tactic(auto, unfolding(crate::specs::Rows::memory_shape))]
fn memory_shape(w: u32, x: MemoryInstruction) -> Shape
    ensures { result ≡ memory_shape w x }
{
    match x {
        MemoryInstruction::Load {
            kind,
            rd,
            rs1,
            offset,
        } => three(load_row(kind), rd, rs1, offset),
        MemoryInstruction::Store {
            kind,
            rs1,
            rs2,
            offset,
        } => three(store_row(kind), rs1, rs2, offset),
        MemoryInstruction::LoadCapability { rd, rs1, offset } => three(17, rd, rs1, offset),
        MemoryInstruction::StoreCapability { rs1, rs2, offset } => three(21, rs1, rs2, offset),
    }
}

#[tactic(auto, unfolding(crate::specs::Rows::capability_shape))]
fn capability_shape(w: u32, x: CapabilityInstruction) -> Shape
    ensures { result ≡ capability_shape w x }
{
    match x {
        CapabilityInstruction::AuiPcc { rd, offset: _ } => two(1, rd, upper(w)),
        CapabilityInstruction::AuiCgp { rd, offset: _ } => two(2, rd, upper(w)),
        CapabilityInstruction::IncAddrImm { rd, rs1, offset } => three(52, rd, rs1, offset),
        CapabilityInstruction::SetBoundsImm { rd, rs1, length } => three(53, rd, rs1, length),
        CapabilityInstruction::Move { rd, rs1 } => two(54, rd, rs1),
        CapabilityInstruction::ClearTag { rd, rs1 } => two(55, rd, rs1),
        CapabilityInstruction::Inspect { what, rd, rs1 } => two(inspection_row(what), rd, rs1),
        CapabilityInstruction::Combine { what, rd, rs1, rs2 } => three(
            combination_row(what),
            rd,
            rs1,
            rs2,
        ),
    }
}

// FENCE.TSO's fm and sets, in the upper twelve bits of its words.
const TSO: u32 = 0x833;

fn fence_shape(w: u32) -> Shape
    ensures { result ≡ fence_shape w }
{
    if w / 0x10_0000 % 4096 == TSO {
        return bare(116);
    }
    two(41, w / 0x100_0000 % 16, w / 0x10_0000 % 16)
}

#[tactic(auto, unfolding(crate::specs::Rows::system_shape))]
fn system_shape(w: u32, x: SystemInstruction) -> Shape
    ensures { result ≡ system_shape w x }
{
    match x {
        SystemInstruction::Fence => fence_shape(w),
        SystemInstruction::Wfi => bare(42),
        SystemInstruction::Ecall => bare(43),
        SystemInstruction::Ebreak => bare(44),
        SystemInstruction::CsrRegister { kind, csr, rd, rs1 } => three(
            csr_row(kind),
            rd,
            rs1,
            csr_number(csr),
        ),
        SystemInstruction::CsrImmediate {
            kind,
            csr,
            rd,
            value,
        } => three(csr_immediate_row(kind), rd, csr_number(csr), value),
        SystemInstruction::SpecialRw { scr, rd, rs1 } => three(51, rd, rs1, scr_number(scr)),
    }
}

#[tactic(auto, unfolding(crate::specs::Rows::instruction_shape))]
pub(crate) fn long_shape(w: u32) -> Shape
    ensures { result ≡ instruction_shape w (decode_of w) }
{
    let i = instructions::decode(w);
    match i {
        Instruction::Integer(x) => integer_shape(w, x),
        Instruction::Jump(x) => jump_shape(w, x),
        Instruction::Memory(x) => memory_shape(w, x),
        Instruction::Capability(x) => capability_shape(w, x),
        Instruction::System(x) => system_shape(w, x),
        Instruction::Illegal => bare(UNLISTED),
    }
}
