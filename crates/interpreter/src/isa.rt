// Instruction formats and codes (isa.rs).
ghost use Rattle.std.specs.Prelude.{◌≡◌};
ghost use Rattle.interpreter.specs.Isa.{opcode_of, rs_of, rt_of, rd_of, shamt_of, funct_of, imm_of, target_of};

/// Fields of an instruction of register operands: five of 5 bits, and the function field of 6.
#[derive(Clone, Copy, Debug, PartialEq, Eq)]
pub struct RType {
    pub rs: u64,
    pub rt: u64,
    pub rd: u64,
    pub shamt: u64,
    pub funct: u64,
}

impl RType {
    /// The fields of an instruction word; bits above the 32 are not looked at.
    pub fn decode(word: u64) -> RType
        ensures { result ≡ record { rs = rs_of word; rt = rt_of word; rd = rd_of word; shamt = shamt_of word; funct = funct_of word } }
    {
        RType {
            rs: word / 0x20_0000 % 32,
            rt: word / 0x1_0000 % 32,
            rd: word / 0x800 % 32,
            shamt: word / 0x40 % 32,
            funct: word % 64,
        }
    }
}

/// Fields of an instruction with an immediate: two of 5 bits, and 16 bits without a sign.
#[derive(Clone, Copy, Debug, PartialEq, Eq)]
pub struct IType {
    pub rs: u64,
    pub rt: u64,
    pub imm: u64,
}

impl IType {
    /// The fields of an instruction word; bits above the 32 are not looked at.
    pub fn decode(word: u64) -> IType
        ensures { result ≡ record { rs = rs_of word; rt = rt_of word; imm = imm_of word } }
    {
        IType {
            rs: word / 0x20_0000 % 32,
            rt: word / 0x1_0000 % 32,
            imm: word % 0x1_0000,
        }
    }
}

/// The field of a jump: 26 bits, the target in words.
#[derive(Clone, Copy, Debug, PartialEq, Eq)]
pub struct JType {
    pub address: u64,
}

impl JType {
    /// The field of an instruction word; bits above the 32 are not looked at.
    pub fn decode(word: u64) -> JType
        ensures { result ≡ record { address = target_of word } }
    {
        JType {
            address: word % 0x400_0000,
        }
    }
}

/// Codes of the opcode field. BEQL is known, and always refused.
// Codes are associated constants and no enum: document 01 names that form, and a code is compared as the number that a word holds.
#[derive(Clone, Copy)]
pub struct Opcode {
    pub code: u64,
}

impl Opcode {
    /// The opcode field of an instruction word: its 6 highest bits.
    pub fn decode(word: u64) -> u64
        ensures { result ≡ opcode_of word }
    {
        word / 0x400_0000 % 64
    }

    pub const SPECIAL: u64 = 0x00;

    pub const REGIMM: u64 = 0x01;

    pub const J: u64 = 0x02;

    pub const JAL: u64 = 0x03;

    pub const BEQ: u64 = 0x04;

    pub const BNE: u64 = 0x05;

    pub const BLEZ: u64 = 0x06;

    pub const BGTZ: u64 = 0x07;

    pub const ADDI: u64 = 0x08;

    pub const ADDIU: u64 = 0x09;

    pub const SLTI: u64 = 0x0a;

    pub const SLTIU: u64 = 0x0b;

    pub const ANDI: u64 = 0x0c;

    pub const ORI: u64 = 0x0d;

    pub const XORI: u64 = 0x0e;

    pub const LUI: u64 = 0x0f;

    pub const BEQL: u64 = 0x14;

    pub const DADDI: u64 = 0x18;

    pub const DADDIU: u64 = 0x19;

    pub const LDL: u64 = 0x1a;

    pub const LDR: u64 = 0x1b;

    pub const SPECIAL2: u64 = 0x1c;

    pub const LB: u64 = 0x20;

    pub const LH: u64 = 0x21;

    pub const LWL: u64 = 0x22;

    pub const LW: u64 = 0x23;

    pub const LBU: u64 = 0x24;

    pub const LHU: u64 = 0x25;

    pub const LWR: u64 = 0x26;

    pub const LWU: u64 = 0x27;

    pub const SB: u64 = 0x28;

    pub const SH: u64 = 0x29;

    pub const SWL: u64 = 0x2a;

    pub const SW: u64 = 0x2b;

    pub const SDL: u64 = 0x2c;

    pub const SDR: u64 = 0x2d;

    pub const SWR: u64 = 0x2e;

    pub const LL: u64 = 0x30;

    pub const LLD: u64 = 0x34;

    pub const LD: u64 = 0x37;

    pub const SC: u64 = 0x38;

    pub const SCD: u64 = 0x3c;

    pub const SD: u64 = 0x3f;
}

/// Codes of the function field under SPECIAL.
#[derive(Clone, Copy)]
pub struct SpecialFunction {
    pub code: u64,
}

impl SpecialFunction {
    pub const SLL: u64 = 0x00;

    pub const SRL: u64 = 0x02;

    pub const SRA: u64 = 0x03;

    pub const SLLV: u64 = 0x04;

    pub const SRLV: u64 = 0x06;

    pub const SRAV: u64 = 0x07;

    pub const JR: u64 = 0x08;

    pub const JALR: u64 = 0x09;

    pub const MOVZ: u64 = 0x0a;

    pub const MOVN: u64 = 0x0b;

    pub const SYSCALL: u64 = 0x0c;

    pub const SYNC: u64 = 0x0f;

    pub const MFHI: u64 = 0x10;

    pub const MTHI: u64 = 0x11;

    pub const MFLO: u64 = 0x12;

    pub const MTLO: u64 = 0x13;

    pub const DSLLV: u64 = 0x14;

    pub const DSRLV: u64 = 0x16;

    pub const DSRAV: u64 = 0x17;

    pub const MULT: u64 = 0x18;

    pub const MULTU: u64 = 0x19;

    pub const DIV: u64 = 0x1a;

    pub const DIVU: u64 = 0x1b;

    pub const DMULT: u64 = 0x1c;

    pub const DMULTU: u64 = 0x1d;

    pub const DDIV: u64 = 0x1e;

    pub const DDIVU: u64 = 0x1f;

    pub const ADD: u64 = 0x20;

    pub const ADDU: u64 = 0x21;

    pub const SUB: u64 = 0x22;

    pub const SUBU: u64 = 0x23;

    pub const AND: u64 = 0x24;

    pub const OR: u64 = 0x25;

    pub const XOR: u64 = 0x26;

    pub const NOR: u64 = 0x27;

    pub const SLT: u64 = 0x2a;

    pub const SLTU: u64 = 0x2b;

    pub const DADD: u64 = 0x2c;

    pub const DADDU: u64 = 0x2d;

    pub const DSUB: u64 = 0x2e;

    pub const DSUBU: u64 = 0x2f;

    pub const DSLL: u64 = 0x38;

    pub const DSRL: u64 = 0x3a;

    pub const DSRA: u64 = 0x3b;

    pub const DSLL32: u64 = 0x3c;

    pub const DSRL32: u64 = 0x3e;

    pub const DSRA32: u64 = 0x3f;
}

/// Codes of the function field under SPECIAL2. isa.rs has CLO and CLZ the other way round, and so has its loop.
#[derive(Clone, Copy)]
pub struct Special2Function {
    pub code: u64,
}

impl Special2Function {
    pub const MUL: u64 = 0x02;

    pub const CLZ: u64 = 0x20;

    pub const CLO: u64 = 0x21;

    pub const DCLZ: u64 = 0x24;
}

/// Codes of the rt field under REGIMM.
#[derive(Clone, Copy)]
pub struct RegImmFunction {
    pub code: u64,
}

impl RegImmFunction {
    pub const BLTZ: u64 = 0x00;

    pub const BGEZ: u64 = 0x01;

    pub const BGEZAL: u64 = 0x11;
}
