// One number for an instruction, so that one table finds it.
ghost use Rattle.std.specs.Prelude.{◌≡◌};
ghost use Rattle.interpreter.specs.Parts.{key_of};

use crate::isa::{Opcode, RType, SpecialFunction};

// The opcode field, and of SPECIAL, whose opcode is 0, the function field behind all opcodes. Its constants repeat those of
// `SpecialFunction`, since one table for both fields wants them behind the opcodes.
pub(crate) struct Key;

impl Key {
    #[tactic(auto, unfolding(crate::specs::Parts::key_of))]
    pub(crate) fn of(word: u64) -> u64
        ensures { result ≡ key_of word }
    {
        let op = Opcode::decode(word);
        if op == Opcode::SPECIAL {
            return Key::SPECIAL + RType::decode(word).funct;
        }
        op
    }

    pub const SPECIAL: u64 = 0x40;

    pub const SLL: u64 = Key::SPECIAL + SpecialFunction::SLL;

    pub const SRL: u64 = Key::SPECIAL + SpecialFunction::SRL;

    pub const SRA: u64 = Key::SPECIAL + SpecialFunction::SRA;

    pub const SLLV: u64 = Key::SPECIAL + SpecialFunction::SLLV;

    pub const SRLV: u64 = Key::SPECIAL + SpecialFunction::SRLV;

    pub const SRAV: u64 = Key::SPECIAL + SpecialFunction::SRAV;

    pub const JR: u64 = Key::SPECIAL + SpecialFunction::JR;

    pub const JALR: u64 = Key::SPECIAL + SpecialFunction::JALR;

    pub const MOVZ: u64 = Key::SPECIAL + SpecialFunction::MOVZ;

    pub const MOVN: u64 = Key::SPECIAL + SpecialFunction::MOVN;

    pub const SYNC: u64 = Key::SPECIAL + SpecialFunction::SYNC;

    pub const MFHI: u64 = Key::SPECIAL + SpecialFunction::MFHI;

    pub const MFLO: u64 = Key::SPECIAL + SpecialFunction::MFLO;

    pub const DSLLV: u64 = Key::SPECIAL + SpecialFunction::DSLLV;

    pub const DSRLV: u64 = Key::SPECIAL + SpecialFunction::DSRLV;

    pub const DSRAV: u64 = Key::SPECIAL + SpecialFunction::DSRAV;

    pub const DMULT: u64 = Key::SPECIAL + SpecialFunction::DMULT;

    pub const DMULTU: u64 = Key::SPECIAL + SpecialFunction::DMULTU;

    pub const ADDU: u64 = Key::SPECIAL + SpecialFunction::ADDU;

    pub const SUBU: u64 = Key::SPECIAL + SpecialFunction::SUBU;

    pub const AND: u64 = Key::SPECIAL + SpecialFunction::AND;

    pub const OR: u64 = Key::SPECIAL + SpecialFunction::OR;

    pub const XOR: u64 = Key::SPECIAL + SpecialFunction::XOR;

    pub const NOR: u64 = Key::SPECIAL + SpecialFunction::NOR;

    pub const SLT: u64 = Key::SPECIAL + SpecialFunction::SLT;

    pub const SLTU: u64 = Key::SPECIAL + SpecialFunction::SLTU;

    pub const DADDU: u64 = Key::SPECIAL + SpecialFunction::DADDU;

    pub const DSUBU: u64 = Key::SPECIAL + SpecialFunction::DSUBU;

    pub const DSLL: u64 = Key::SPECIAL + SpecialFunction::DSLL;

    pub const DSRL: u64 = Key::SPECIAL + SpecialFunction::DSRL;

    pub const DSRA: u64 = Key::SPECIAL + SpecialFunction::DSRA;

    pub const DSLL32: u64 = Key::SPECIAL + SpecialFunction::DSLL32;

    pub const DSRL32: u64 = Key::SPECIAL + SpecialFunction::DSRL32;

    pub const DSRA32: u64 = Key::SPECIAL + SpecialFunction::DSRA32;
}
