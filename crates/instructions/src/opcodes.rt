// The opcodes: the names of the standard where it has them, AUIPCC in the place of AUIPC, and two of the report.
pub const LOAD: u32 = 0x03;

pub const MISC_MEM: u32 = 0x0f;

pub const OP_IMM: u32 = 0x13;

pub const AUIPCC: u32 = 0x17;

pub const STORE: u32 = 0x23;

pub const OP: u32 = 0x33;

pub const LUI: u32 = 0x37;

pub const CAPABILITY: u32 = 0x5b;

pub const BRANCH: u32 = 0x63;

pub const JALR: u32 = 0x67;

pub const JAL: u32 = 0x6f;

pub const SYSTEM: u32 = 0x73;

pub const AUICGP: u32 = 0x7b;
