// The instructions that programs are mostly made of, found by one table. A run tries these first: what is not here, and what is
// refused, is left to the kernel and the step. A list of its own beside the kernel's (cpu.rt): called, the kernel costs some 60
// instructions a step more, since it is too large to be inlined at more than one place.
ghost use Rattle.std.specs.Prelude.{◌≡◌, ◌/◌, Some};
ghost use Rattle.interpreter.specs.Words.{sext};
ghost use Rattle.interpreter.specs.Isa.{shamt_of, imm_of, rt_of};
ghost use Rattle.interpreter.specs.OpcodeMap.{regimm, decode_by};
ghost use Rattle.interpreter.specs.Kernel.{does};
ghost use Rattle.interpreter.specs.Parts.{Agrees, Shows, key_of, Quiet, Sees, Reaches};
ghost use Rattle.interpreter.specs.declared.effect.Ins.{Ins};

use crate::effect::{Change, Ins};
use crate::isa::{IType, Opcode, RType, RegImmFunction};
use crate::key::Key;
use crate::window::Window;
use crate::{access, alu, bits, branches, cpu, hi_lo};

fn shamt(i: Ins) -> u64
    ensures { result ≡ shamt_of i.word }
{
    RType::decode(i.word).shamt
}

fn imm(i: Ins) -> u64
    ensures { result ≡ imm_of i.word }
{
    IType::decode(i.word).imm
}

// The immediate, sign-extended.
fn wide(i: Ins) -> u64
    ensures { result ≡ sext 16 (imm_of i.word) }
{
    bits::sext::<16>(imm(i))
}

// SPECIAL. Each arm computes what it needs, so that the jump by the table comes first; so everywhere here. The compiler makes one
// table of the matches on a key.
fn special(i: Ins, key: u64) -> Option<Change>
    requires { key ≡ key_of i.word }
    ensures { Quiet result i }
{
    match key {
        Key::SLL => Some(i.to_rd(alu::shift_left(i.rules(), i.rt, shamt(i)))),
        Key::SRL => Some(i.to_rd(alu::shift_right(i.rt, shamt(i)))),
        Key::SRA => Some(i.to_rd(alu::shift_signed(i.rt, shamt(i)))),
        Key::SLLV => Some(i.to_rd(alu::shift_left(i.rules(), i.rt, i.rs % 32))),
        Key::SRLV => Some(i.to_rd(alu::shift_right(i.rt, i.rs % 32))),
        Key::SRAV => Some(i.to_rd(alu::shift_signed_by(i.rules(), i.rt, i.rs))),
        Key::JR => i.going(0, 0, i.rs).ok(),
        Key::JALR => i.going(RType::decode(i.word).rd, i.link(), i.rs).ok(),
        Key::MOVZ => Some(cpu::move_if(i, i.rt == 0)),
        Key::MOVN => Some(cpu::move_if(i, i.rt != 0)),
        Key::SYNC => Some(cpu::sync(i)),
        Key::MFHI => Some(i.to_rd(i.hi)),
        Key::MFLO => Some(i.to_rd(i.lo)),
        Key::DSLLV => Some(i.to_rd(alu::double_left(i.rt, i.rs % 64))),
        Key::DSRLV => Some(i.to_rd(alu::double_right(i.rt, i.rs % 64))),
        Key::DSRAV => Some(i.to_rd(bits::shift_signed(i.rt, i.rs % 64))),
        Key::DMULT => Some(i.to_hi_lo(hi_lo::dmult(i.rules(), i.rs, i.rt))),
        Key::DMULTU => Some(i.to_hi_lo(hi_lo::dmultu(i.rs, i.rt))),
        Key::ADDU => Some(i.to_rd(alu::sum(i.rs, i.rt))),
        Key::SUBU => Some(i.to_rd(alu::difference(i.rules(), i.rs, i.rt))),
        Key::AND => Some(i.to_rd(alu::and(i.rs, i.rt))),
        Key::OR => Some(i.to_rd(alu::or(i.rs, i.rt))),
        Key::XOR => Some(i.to_rd(alu::xor(i.rs, i.rt))),
        Key::NOR => Some(i.to_rd(alu::nor(i.rs, i.rt))),
        Key::SLT => Some(i.to_rd(alu::flag(bits::less(i.rs, i.rt)))),
        Key::SLTU => Some(i.to_rd(alu::flag(i.rs < i.rt))),
        Key::DADDU => Some(i.to_rd(bits::plus(i.rs, i.rt))),
        Key::DSUBU => Some(i.to_rd(bits::minus(i.rs, i.rt))),
        Key::DSLL => Some(i.to_rd(alu::double_left(i.rt, shamt(i)))),
        Key::DSRL => Some(i.to_rd(alu::double_right(i.rt, shamt(i)))),
        Key::DSRA => Some(i.to_rd(bits::shift_signed(i.rt, shamt(i)))),
        Key::DSLL32 => Some(i.to_rd(alu::double_left(i.rt, shamt(i) + 32))),
        Key::DSRL32 => Some(i.to_rd(alu::double_right(i.rt, shamt(i) + 32))),
        Key::DSRA32 => Some(i.to_rd(bits::shift_signed(i.rt, shamt(i) + 32))),
        _ => None,
    }
}

// REGIMM.
#[tactic(auto, using(crate::proofs::Laws::Frequent::agrees_same, crate::proofs::Laws::Frequent::agrees_none), unfolding(crate::specs::OpcodeMap::find, crate::specs::OpcodeMap::found, crate::specs::OpcodeMap::regimm, crate::specs::OpcodeMap::regimms, crate::specs::Kernel::taken, crate::specs::Kernel::branching, crate::specs::Kernel::does))]
fn regimm(i: Ins, code: u64) -> Option<Change>
    ensures { Agrees result (does (regimm code) i) }
{
    match code {
        RegImmFunction::BLTZ => i.branch(0, 0, bits::negative::<64>(i.rs)).ok(),
        RegImmFunction::BGEZ => i.branch(0, 0, !bits::negative::<64>(i.rs)).ok(),
        _ => None,
    }
}

// The change that an instruction makes, where it is one of these and touches no memory.
#[tactic(auto, using(crate::proofs::Laws::Frequent::agrees_same, crate::proofs::Laws::Frequent::agrees_as, crate::proofs::Laws::Frequent::quiet_op), unfolding(crate::specs::OpcodeMap::find, crate::specs::OpcodeMap::found, crate::specs::OpcodeMap::accesses, crate::specs::OpcodeMap::decode_by, crate::specs::OpcodeMap::by_opcode, crate::specs::OpcodeMap::memory, crate::specs::OpcodeMap::jumps, crate::specs::OpcodeMap::branches, crate::specs::OpcodeMap::immediates, crate::specs::OpcodeMap::loads, crate::specs::OpcodeMap::stores, crate::specs::OpcodeMap::conditionals, crate::specs::Alu::immediate, crate::specs::Kernel::taken, crate::specs::Kernel::branching, crate::specs::Kernel::jumping, crate::specs::Kernel::does))]
pub(crate) fn plain(i: Ins, key: u64) -> Option<Change>
    requires { key ≡ key_of i.word }
    ensures { Quiet result i }
{
    match key {
        Opcode::REGIMM => regimm(i, IType::decode(i.word).rt),
        Opcode::J => i.going(0, 0, i.region()).ok(),
        Opcode::JAL => i.going(31, i.link(), i.region()).ok(),
        Opcode::BEQ => i.branch(0, 0, i.rs == i.rt).ok(),
        Opcode::BNE => i.branch(0, 0, i.rs != i.rt).ok(),
        Opcode::BLEZ => i.branch(0, 0, branches::non_positive(i.rs)).ok(),
        Opcode::BGTZ => i.branch(0, 0, !branches::non_positive(i.rs)).ok(),
        Opcode::ADDIU => Some(i.to_rt(alu::sum(i.rs, wide(i)))),
        Opcode::DADDIU => Some(i.to_rt(bits::plus(i.rs, wide(i)))),
        Opcode::SLTI => Some(i.to_rt(alu::flag(bits::less(i.rs, wide(i))))),
        Opcode::SLTIU => Some(i.to_rt(alu::flag(i.rs < wide(i)))),
        Opcode::ANDI => Some(i.to_rt(alu::and(i.rs, imm(i)))),
        Opcode::ORI => Some(i.to_rt(alu::or(i.rs, imm(i)))),
        Opcode::XORI => Some(i.to_rt(alu::xor(i.rs, imm(i)))),
        Opcode::LUI => Some(i.to_rt(bits::sext::<32>(imm(i) * 0x1_0000))),
        _ => special(i, key),
    }
}

// The instruction with the eight bytes that it touches, where they lie in the page.
fn near(i: Ins, w: Window, pages: &[u8], used: usize) -> Option<Ins>
    requires { Shows pages.now used w }
    ensures { (j : Ins) → result ≡ Some j → Sees pages.now used w i j }
{
    let a = i.address() / 8 * 8;
    if w.has(a) {
        return Some(i.seeing(w.doubleword(pages, used, a)));
    }
    None
}

// Loads and stores of a part of a word or doubleword.
fn parts(i: Ins, w: Window, pages: &[u8], used: usize, key: u64) -> Option<Change>
    requires { Shows pages.now used w × (key ≡ key_of i.word) }
    ensures { Reaches pages.now used w i result }
{
    match key {
        Opcode::LDL => access::ldl(near(i, w, pages, used)?).ok(),
        Opcode::LDR => access::ldr(near(i, w, pages, used)?).ok(),
        Opcode::LWL => access::lwl(near(i, w, pages, used)?).ok(),
        Opcode::LWR => access::lwr(near(i, w, pages, used)?).ok(),
        Opcode::SDL => access::sdl(near(i, w, pages, used)?).ok(),
        Opcode::SDR => access::sdr(near(i, w, pages, used)?).ok(),
        Opcode::SWL => access::swl(near(i, w, pages, used)?).ok(),
        Opcode::SWR => access::swr(near(i, w, pages, used)?).ok(),
        _ => None,
    }
}

// A load or store in the page.
pub(crate) fn kept(i: Ins, w: Window, pages: &[u8], used: usize, key: u64) -> Option<Change>
    requires { Shows pages.now used w × (key ≡ key_of i.word) }
    ensures { Reaches pages.now used w i result }
{
    match key {
        Opcode::LB => access::lb(near(i, w, pages, used)?).ok(),
        Opcode::LBU => access::lbu(near(i, w, pages, used)?).ok(),
        Opcode::LH => access::lh(near(i, w, pages, used)?).ok(),
        Opcode::LHU => access::lhu(near(i, w, pages, used)?).ok(),
        Opcode::LW => access::lw(near(i, w, pages, used)?).ok(),
        Opcode::LWU => access::lwu(near(i, w, pages, used)?).ok(),
        Opcode::LD => access::ld(near(i, w, pages, used)?).ok(),
        Opcode::SB => access::sb(near(i, w, pages, used)?).ok(),
        Opcode::SH => access::sh(near(i, w, pages, used)?).ok(),
        Opcode::SW => access::sw(near(i, w, pages, used)?).ok(),
        Opcode::SD => access::sd(near(i, w, pages, used)?).ok(),
        _ => parts(i, w, pages, used, key),
    }
}

// A load or store of an instruction that has its eight bytes. A list beside `kept`: one list for both, taken again once the page
// was found, was slower (docs/DECISIONS.md), and `kept` takes the bytes behind its jump by the table, so not from a parameter.
#[tactic(auto, using(crate::proofs::Laws::Frequent::agrees_same, crate::proofs::Laws::Frequent::agrees_none), unfolding(crate::specs::OpcodeMap::find, crate::specs::OpcodeMap::found, crate::specs::OpcodeMap::decode_by, crate::specs::OpcodeMap::by_opcode, crate::specs::OpcodeMap::memory, crate::specs::OpcodeMap::jumps, crate::specs::OpcodeMap::branches, crate::specs::OpcodeMap::immediates, crate::specs::OpcodeMap::loads, crate::specs::OpcodeMap::stores))]
pub(crate) fn elsewhere(i: Ins, op: u64) -> Option<Change>
    ensures { Agrees result (does (decode_by op i.word) i) }
{
    match op {
        Opcode::LB => access::lb(i).ok(),
        Opcode::LBU => access::lbu(i).ok(),
        Opcode::LH => access::lh(i).ok(),
        Opcode::LHU => access::lhu(i).ok(),
        Opcode::LW => access::lw(i).ok(),
        Opcode::LWU => access::lwu(i).ok(),
        Opcode::LD => access::ld(i).ok(),
        Opcode::SB => access::sb(i).ok(),
        Opcode::SH => access::sh(i).ok(),
        Opcode::SW => access::sw(i).ok(),
        Opcode::SD => access::sd(i).ok(),
        _ => None,
    }
}
