// What the second engine keeps of a decoded instruction: one enum over all families, with registers as places in the register file. An instruction that it has
// no operation of its own for is left to the plain step.
#![tactic(auto)]

ghost use Rattle.std.specs.Prelude.{◌≡◌};
ghost use Rattle.operations.specs.Means.{place_of, Means, Placed};

use instructions::{
    Alu, BranchKind, CapabilityInstruction, Combination, DivideKind, Inspection, Instruction,
    IntegerInstruction, JumpInstruction, LoadKind, MemoryInstruction, MultiplyKind, StoreKind,
};

// at, from and other are places of a register's first word; rd and rs1 are registers.
#[derive(Clone, Copy)]
pub enum Operation {
    // Left to the plain step: a case, and no Option of the others, as with an instruction.
    Plain,
    Put {
        at: u32,
        value: u32,
    },
    AddImmediate {
        at: u32,
        from: u32,
        value: u32,
    },
    Immediate {
        op: Alu,
        at: u32,
        from: u32,
        value: u32,
    },
    Two {
        op: Alu,
        at: u32,
        from: u32,
        other: u32,
    },
    Multiply {
        kind: MultiplyKind,
        at: u32,
        from: u32,
        other: u32,
    },
    Divide {
        kind: DivideKind,
        at: u32,
        from: u32,
        other: u32,
    },
    Go {
        offset: u32,
    },
    JumpLink {
        rd: u32,
        offset: u32,
    },
    JumpRegister {
        rd: u32,
        rs1: u32,
        offset: u32,
    },
    Branch {
        kind: BranchKind,
        from: u32,
        other: u32,
        offset: u32,
    },
    LoadWord {
        at: u32,
        from: u32,
        offset: u32,
    },
    LoadSmall {
        kind: LoadKind,
        at: u32,
        from: u32,
        offset: u32,
    },
    StoreWord {
        from: u32,
        other: u32,
        offset: u32,
    },
    StoreSmall {
        kind: StoreKind,
        from: u32,
        other: u32,
        offset: u32,
    },
    LoadCapability {
        at: u32,
        from: u32,
        offset: u32,
    },
    StoreCapability {
        from: u32,
        other: u32,
        offset: u32,
    },
    Increment {
        at: u32,
        from: u32,
        offset: u32,
    },
    Cut {
        at: u32,
        from: u32,
        length: u32,
    },
    Copy {
        at: u32,
        from: u32,
    },
    SetAddress {
        at: u32,
        from: u32,
        other: u32,
    },
    IncrementBy {
        at: u32,
        from: u32,
        other: u32,
    },
    Address {
        at: u32,
        from: u32,
    },
    LoadByte {
        kind: LoadKind,
        at: u32,
        from: u32,
        offset: u32,
    },
}

// The words of a capability in the register file, and the general registers.
const WORDS: u32 = 3;

const REGISTERS: u32 = 16;

// The places of PCC and of c3, the global pointer.
const PCC_PLACE: u32 = 48;

const GLOBAL_PLACE: u32 = 9;

// The place of a register's first word.
pub fn place_of(r: u32) -> u32
    ensures { result ≡ place_of r }
{
    r % REGISTERS * WORDS
}

// An integer instruction that writes c0 is left to the plain step, so that the others need not ask; but for ADDI, which NOP is.
fn put(rd: u32, value: u32) -> Operation
    ensures { Means result (Instruction.Integer (IntegerInstruction.Lui rd value)) × Placed result }
{
    let at = place_of(rd);
    if at == 0 {
        return Operation::Plain;
    }
    Operation::Put { at, value }
}

fn two(op: Alu, rd: u32, rs1: u32, rs2: u32) -> Operation
    ensures { Means result (Instruction.Integer (IntegerInstruction.Op op rd rs1 rs2)) × Placed result }
{
    let at = place_of(rd);
    if at == 0 {
        return Operation::Plain;
    }
    Operation::Two {
        op,
        at,
        from: place_of(rs1),
        other: place_of(rs2),
    }
}

fn multiply(kind: MultiplyKind, rd: u32, rs1: u32, rs2: u32) -> Operation
    ensures { Means result (Instruction.Integer (IntegerInstruction.Multiply kind rd rs1 rs2)) × Placed result }
{
    let at = place_of(rd);
    if at == 0 {
        return Operation::Plain;
    }
    Operation::Multiply {
        kind,
        at,
        from: place_of(rs1),
        other: place_of(rs2),
    }
}

fn divide(kind: DivideKind, rd: u32, rs1: u32, rs2: u32) -> Operation
    ensures { Means result (Instruction.Integer (IntegerInstruction.Divide kind rd rs1 rs2)) × Placed result }
{
    let at = place_of(rd);
    if at == 0 {
        return Operation::Plain;
    }
    Operation::Divide {
        kind,
        at,
        from: place_of(rs1),
        other: place_of(rs2),
    }
}

fn immediate(op: Alu, rd: u32, rs1: u32, value: u32) -> Operation
    ensures { Means result (Instruction.Integer (IntegerInstruction.OpImm op rd rs1 value)) × Placed result }
{
    let at = place_of(rd);
    let from = place_of(rs1);
    match op {
        Alu::Add => return Operation::AddImmediate { at, from, value },
        _ => {
            if at == 0 {
                return Operation::Plain;
            }
            Operation::Immediate {
                op,
                at,
                from,
                value,
            }
        }
    }
}

fn of_integer(i: IntegerInstruction) -> Operation
    ensures { Means result (Instruction.Integer i) × Placed result }
{
    match i {
        IntegerInstruction::Lui { rd, value } => return put(rd, value),
        IntegerInstruction::OpImm { op, rd, rs1, value } => return immediate(op, rd, rs1, value),
        IntegerInstruction::Op { op, rd, rs1, rs2 } => return two(op, rd, rs1, rs2),
        IntegerInstruction::Multiply { kind, rd, rs1, rs2 } => return multiply(kind, rd, rs1, rs2),
        IntegerInstruction::Divide { kind, rd, rs1, rs2 } => return divide(kind, rd, rs1, rs2),
    }
}

// A jump that links no register is the shorter. An odd offset, which no word has, is left to the longer.
fn go(rd: u32, offset: u32) -> Operation
    ensures { Means result (Instruction.Jump (JumpInstruction.Jal rd offset)) × Placed result }
{
    if offset % 2 != 0 {
        return Operation::JumpLink { rd, offset };
    }
    match place_of(rd) {
        0 => return Operation::Go { offset },
        _ => return Operation::JumpLink { rd, offset },
    }
}

fn branch(kind: BranchKind, rs1: u32, rs2: u32, offset: u32) -> Operation
    ensures { Means result (Instruction.Jump (JumpInstruction.Branch kind rs1 rs2 offset)) × Placed result }
{
    if offset % 2 != 0 {
        return Operation::Plain;
    }
    Operation::Branch {
        kind,
        from: place_of(rs1),
        other: place_of(rs2),
        offset,
    }
}

fn of_jump(i: JumpInstruction) -> Operation
    ensures { Means result (Instruction.Jump i) × Placed result }
{
    match i {
        JumpInstruction::Jal { rd, offset } => return go(rd, offset),
        JumpInstruction::Jalr { rd, rs1, offset } => {
            return Operation::JumpRegister { rd, rs1, offset }
        }
        JumpInstruction::Branch {
            kind,
            rs1,
            rs2,
            offset,
        } => return branch(kind, rs1, rs2, offset),
        _ => return Operation::Plain,
    }
}

fn load(kind: LoadKind, rd: u32, rs1: u32, offset: u32) -> Operation
    ensures { Means result (Instruction.Memory (MemoryInstruction.Load kind rd rs1 offset)) × Placed result }
{
    let at = place_of(rd);
    let from = place_of(rs1);
    match kind {
        LoadKind::Lb => return Operation::LoadByte {
            kind,
            at,
            from,
            offset,
        },
        LoadKind::Lbu => return Operation::LoadByte {
            kind,
            at,
            from,
            offset,
        },
        LoadKind::Lw => return Operation::LoadWord { at, from, offset },
        _ => return Operation::LoadSmall {
            kind,
            at,
            from,
            offset,
        },
    }
}

fn store(kind: StoreKind, rs1: u32, rs2: u32, offset: u32) -> Operation
    ensures { Means result (Instruction.Memory (MemoryInstruction.Store kind rs1 rs2 offset)) × Placed result }
{
    let from = place_of(rs1);
    let other = place_of(rs2);
    match kind {
        StoreKind::Sw => return Operation::StoreWord {
            from,
            other,
            offset,
        },
        _ => return Operation::StoreSmall {
            kind,
            from,
            other,
            offset,
        },
    }
}

fn of_memory(i: MemoryInstruction) -> Operation
    ensures { Means result (Instruction.Memory i) × Placed result }
{
    match i {
        MemoryInstruction::Load {
            kind,
            rd,
            rs1,
            offset,
        } => return load(kind, rd, rs1, offset),
        MemoryInstruction::Store {
            kind,
            rs1,
            rs2,
            offset,
        } => return store(kind, rs1, rs2, offset),
        MemoryInstruction::LoadCapability { rd, rs1, offset } => return Operation::LoadCapability {
            at: place_of(rd),
            from: place_of(rs1),
            offset,
        },
        MemoryInstruction::StoreCapability { rs1, rs2, offset } => {
            return Operation::StoreCapability {
                from: place_of(rs1),
                other: place_of(rs2),
                offset,
            }
        }
    }
}

fn inspect(what: Inspection, rd: u32, rs1: u32) -> Operation
    ensures { Means result (Instruction.Capability (CapabilityInstruction.Inspect what rd rs1)) × Placed result }
{
    match what {
        Inspection::GetAddr => return Operation::Address {
            at: place_of(rd),
            from: place_of(rs1),
        },
        _ => return Operation::Plain,
    }
}

fn combine(what: Combination, rd: u32, rs1: u32, rs2: u32) -> Operation
    ensures { Means result (Instruction.Capability (CapabilityInstruction.Combine what rd rs1 rs2)) × Placed result }
{
    let at = place_of(rd);
    let from = place_of(rs1);
    let other = place_of(rs2);
    match what {
        Combination::SetAddr => return Operation::SetAddress { at, from, other },
        Combination::IncAddr => return Operation::IncrementBy { at, from, other },
        _ => return Operation::Plain,
    }
}

fn of_capability(i: CapabilityInstruction) -> Operation
    ensures { Means result (Instruction.Capability i) × Placed result }
{
    match i {
        CapabilityInstruction::IncAddrImm { rd, rs1, offset } => return Operation::Increment {
            at: place_of(rd),
            from: place_of(rs1),
            offset,
        },
        CapabilityInstruction::SetBoundsImm { rd, rs1, length } => return Operation::Cut {
            at: place_of(rd),
            from: place_of(rs1),
            length,
        },
        CapabilityInstruction::Move { rd, rs1 } => return Operation::Copy {
            at: place_of(rd),
            from: place_of(rs1),
        },
        CapabilityInstruction::AuiPcc { rd, offset } => return Operation::Increment {
            at: place_of(rd),
            from: PCC_PLACE,
            offset,
        },
        CapabilityInstruction::AuiCgp { rd, offset } => return Operation::Increment {
            at: place_of(rd),
            from: GLOBAL_PLACE,
            offset,
        },
        CapabilityInstruction::Inspect { what, rd, rs1 } => return inspect(what, rd, rs1),
        CapabilityInstruction::Combine { what, rd, rs1, rs2 } => return combine(what, rd, rs1, rs2),
        CapabilityInstruction::ClearTag { rd, rs1 } => return Operation::Plain,
    }
}

// The operation of an instruction.
pub fn operation_of(x: Instruction) -> Operation
    ensures { Means result x × Placed result }
{
    match x {
        Instruction::Integer(i) => return of_integer(i),
        Instruction::Jump(i) => return of_jump(i),
        Instruction::Memory(i) => return of_memory(i),
        Instruction::Capability(i) => return of_capability(i),
        Instruction::System(_) => return Operation::Plain,
        Instruction::Illegal => return Operation::Plain,
    }
}
