// The kernel: one pure function from an instruction and all that it reads to what it does (cpu.rs).
ghost use Rattle.std.specs.Prelude.{◌≡◌, if◌then◌else◌};
ghost use Rattle.interpreter.specs.Words.{rules_of, by_rules};
ghost use Rattle.interpreter.specs.Isa.{hilo, store, conditional, reserved, reserved_branch};
ghost use Rattle.interpreter.specs.OpcodeMap.{find, found, hilos, registers, special, special2, regimm, stores, conditionals, memory, by_opcode, decode_by, accesses};
ghost use Rattle.interpreter.specs.Effects.{to_rd, to_register};
ghost use Rattle.interpreter.specs.Kernel.{does, kernel_def, touch_def};

use crate::effect::{Change, Effect, Ins, Refusal, Rules, Stop};
use crate::hi_lo::Pair;
use crate::isa::{IType, Opcode, RType, RegImmFunction, SpecialFunction};
use crate::{access, alu, bits, branches, hi_lo};

// SPECIAL codes whose result goes to rd.
#[tactic(auto, using(crate::proofs::Laws::Dispatch::alu_told), unfolding(crate::specs::OpcodeMap::registers, crate::specs::Kernel::does))]
fn special_registers(i: Ins, f: u64) -> Effect
    ensures { result ≡ does (registers f) i }
{
    if let Some(v) = alu::shifts(i, f) {
        return Ok(i.to_rd(v));
    }
    if let Some(v) = alu::sums(i, f) {
        return Ok(i.to_rd(v));
    }
    if let Some(v) = alu::logic(i, f) {
        return Ok(i.to_rd(v));
    }
    Err(Stop::Refused(Refusal::Reserved))
}

// SPECIAL codes whose result goes to hi and lo.
#[tactic(auto, unfolding(crate::specs::OpcodeMap::find, crate::specs::OpcodeMap::found, crate::specs::OpcodeMap::hilos, crate::specs::HiLo::hi_lo, crate::specs::Kernel::does))]
fn special_hi_lo(i: Ins, f: u64) -> Effect
    ensures { result ≡ does (found hilo (find f hilos) (registers f)) i }
{
    match f {
        SpecialFunction::MTHI => Ok(i.to_hi_lo(Pair { hi: i.rs, lo: i.lo })),
        SpecialFunction::MTLO => Ok(i.to_hi_lo(Pair { hi: i.hi, lo: i.rs })),
        SpecialFunction::MULT => Ok(i.to_hi_lo(hi_lo::mult(i.rs, i.rt))),
        SpecialFunction::MULTU => Ok(i.to_hi_lo(hi_lo::multu(i.rs, i.rt))),
        SpecialFunction::DIV => i.divide_words(),
        SpecialFunction::DIVU => i.divide_words_unsigned(),
        SpecialFunction::DMULT => Ok(i.to_hi_lo(hi_lo::dmult(i.rules(), i.rs, i.rt))),
        SpecialFunction::DMULTU => Ok(i.to_hi_lo(hi_lo::dmultu(i.rs, i.rt))),
        SpecialFunction::DDIV => i.divide(),
        SpecialFunction::DDIVU => i.divide_unsigned(),
        _ => special_registers(i, f),
    }
}

// rd gets rs where a condition holds.
pub(crate) fn move_if(i: Ins, moves: bool) -> Change
    ensures { result ≡ (if moves then to_rd i i.rs else to_register i 0 0) }
{
    if moves {
        return i.to_rd(i.rs);
    }
    i.to_register(0, 0)
}

// SYNC: rules 0 writes rs to rd.
pub(crate) fn sync(i: Ins) -> Change
    ensures { result ≡ by_rules (rules_of i.rules) (to_rd i i.rs) (to_register i 0 0) }
{
    match i.rules() {
        Rules::Interpreter => i.to_rd(i.rs),
        Rules::Manual => i.to_register(0, 0),
    }
}

#[tactic(auto, unfolding(crate::specs::OpcodeMap::find, crate::specs::OpcodeMap::found, crate::specs::OpcodeMap::special, crate::specs::OpcodeMap::jump_registers, crate::specs::OpcodeMap::others, crate::specs::Kernel::jumping, crate::specs::Kernel::does_other, crate::specs::Kernel::does))]
fn special(i: Ins, f: u64) -> Effect
    ensures { result ≡ does (special f) i }
{
    match f {
        SpecialFunction::JR => i.going(0, 0, i.rs),
        SpecialFunction::JALR => i.going(RType::decode(i.word).rd, i.link(), i.rs),
        SpecialFunction::MOVZ => Ok(move_if(i, i.rt == 0)),
        SpecialFunction::MOVN => Ok(move_if(i, i.rt != 0)),
        SpecialFunction::SYSCALL => Err(Stop::Call),
        SpecialFunction::SYNC => Ok(sync(i)),
        _ => special_hi_lo(i, f),
    }
}

#[tactic(auto, using(crate::proofs::Laws::Dispatch::alu_told), unfolding(crate::specs::OpcodeMap::special2, crate::specs::Kernel::does))]
fn special2(i: Ins, f: u64) -> Effect
    ensures { result ≡ does (special2 f) i }
{
    if let Some(v) = alu::counts(i, f) {
        return Ok(i.to_rd(v));
    }
    Err(Stop::Refused(Refusal::Reserved))
}

// REGIMM gives 4 before 3.
#[tactic(auto, unfolding(crate::specs::Kernel::does))]
fn reserved_branch(i: Ins) -> Effect
    ensures { result ≡ does reserved_branch i }
{
    if i.next != bits::plus(i.pc, 4) {
        return Err(Stop::Refused(Refusal::DelaySlot));
    }
    Err(Stop::Refused(Refusal::Reserved))
}

// BGEZAL links also when not taken.
#[tactic(auto, unfolding(crate::specs::OpcodeMap::find, crate::specs::OpcodeMap::found, crate::specs::OpcodeMap::regimm, crate::specs::OpcodeMap::regimms, crate::specs::Kernel::taken, crate::specs::Kernel::branching, crate::specs::Kernel::does))]
fn regimm(i: Ins, code: u64) -> Effect
    ensures { result ≡ does (regimm code) i }
{
    let below = bits::negative::<64>(i.rs);
    match code {
        RegImmFunction::BLTZ => i.branch(0, 0, below),
        RegImmFunction::BGEZ => i.branch(0, 0, !below),
        RegImmFunction::BGEZAL => i.branch(31, i.link(), !below),
        _ => reserved_branch(i),
    }
}

// SC and SCD, and codes that no list has.
#[tactic(auto, unfolding(crate::specs::OpcodeMap::find, crate::specs::OpcodeMap::found, crate::specs::OpcodeMap::conditionals, crate::specs::Kernel::does))]
fn conditional(i: Ins, op: u64) -> Effect
    ensures { result ≡ does (found conditional (find op conditionals) reserved) i }
{
    match op {
        Opcode::SC => access::sc(i),
        Opcode::SCD => access::scd(i),
        _ => Err(Stop::Refused(Refusal::Reserved)),
    }
}

#[tactic(auto, unfolding(crate::specs::OpcodeMap::find, crate::specs::OpcodeMap::found, crate::specs::OpcodeMap::stores))]
fn store(i: Ins, op: u64) -> Effect
    ensures { result ≡ does (found store (find op stores) (found conditional (find op conditionals) reserved)) i }
{
    match op {
        Opcode::SB => access::sb(i),
        Opcode::SH => access::sh(i),
        Opcode::SW => access::sw(i),
        Opcode::SD => access::sd(i),
        Opcode::SDL => access::sdl(i),
        Opcode::SDR => access::sdr(i),
        Opcode::SWL => access::swl(i),
        Opcode::SWR => access::swr(i),
        _ => conditional(i, op),
    }
}

// Loads and stores.
#[tactic(auto, unfolding(crate::specs::OpcodeMap::find, crate::specs::OpcodeMap::found, crate::specs::OpcodeMap::loads, crate::specs::OpcodeMap::memory))]
fn memory(i: Ins, op: u64) -> Effect
    ensures { result ≡ does (memory op) i }
{
    match op {
        Opcode::LB => access::lb(i),
        Opcode::LBU => access::lbu(i),
        Opcode::LH => access::lh(i),
        Opcode::LHU => access::lhu(i),
        Opcode::LW => access::lw(i),
        Opcode::LWU => access::lwu(i),
        Opcode::LL => access::ll(i),
        Opcode::LD => access::ld(i),
        Opcode::LLD => access::lld(i),
        Opcode::LDL => access::ldl(i),
        Opcode::LDR => access::ldr(i),
        Opcode::LWL => access::lwl(i),
        Opcode::LWR => access::lwr(i),
        _ => store(i, op),
    }
}

// Codes of the opcode field alone.
#[tactic(auto, using(crate::proofs::Laws::Dispatch::imm_told, crate::proofs::Laws::Dispatch::past_jumps), unfolding(crate::specs::OpcodeMap::find, crate::specs::OpcodeMap::jumps, crate::specs::OpcodeMap::branches, crate::specs::OpcodeMap::found, crate::specs::OpcodeMap::by_opcode, crate::specs::Kernel::jumping, crate::specs::Kernel::taken, crate::specs::Kernel::branching, crate::specs::Kernel::does))]
fn by_opcode(i: Ins, op: u64) -> Effect
    ensures { result ≡ does (by_opcode op) i }
{
    match op {
        Opcode::J => return i.going(0, 0, i.region()),
        Opcode::JAL => return i.going(31, i.link(), i.region()),
        Opcode::BEQ => return i.branch(0, 0, i.rs == i.rt),
        Opcode::BNE => return i.branch(0, 0, i.rs != i.rt),
        Opcode::BLEZ => return i.branch(0, 0, branches::non_positive(i.rs)),
        Opcode::BGTZ => return i.branch(0, 0, !branches::non_positive(i.rs)),
        _ => {}
    }
    if let Some(v) = alu::immediate(i, op) {
        return Ok(i.to_rt(v));
    }
    memory(i, op)
}

#[tactic(auto, unfolding(crate::specs::OpcodeMap::decode_by))]
fn dispatch(i: Ins, op: u64) -> Effect
    ensures { result ≡ does (decode_by op i.word) i }
{
    match op {
        Opcode::SPECIAL => special(i, RType::decode(i.word).funct),
        Opcode::REGIMM => regimm(i, IType::decode(i.word).rt),
        Opcode::SPECIAL2 => special2(i, RType::decode(i.word).funct),
        _ => by_opcode(i, op),
    }
}

// Whether a code of the opcode field is a load or store.
#[tactic(auto, unfolding(crate::specs::OpcodeMap::find, crate::specs::OpcodeMap::loads, crate::specs::OpcodeMap::stores, crate::specs::OpcodeMap::conditionals, crate::specs::OpcodeMap::accesses))]
fn accesses(op: u64) -> bool
    ensures { result ≡ accesses op }
{
    match op {
        Opcode::LDL => true,
        Opcode::LDR => true,
        Opcode::LB => true,
        Opcode::LH => true,
        Opcode::LWL => true,
        Opcode::LW => true,
        Opcode::LBU => true,
        Opcode::LHU => true,
        Opcode::LWR => true,
        Opcode::LWU => true,
        Opcode::SB => true,
        Opcode::SH => true,
        Opcode::SWL => true,
        Opcode::SW => true,
        Opcode::SDL => true,
        Opcode::SDR => true,
        Opcode::SWR => true,
        Opcode::LL => true,
        Opcode::LLD => true,
        Opcode::LD => true,
        Opcode::SC => true,
        Opcode::SCD => true,
        Opcode::SD => true,
        _ => false,
    }
}

/// The address of the aligned eight bytes that a load or store touches, where its base register holds `base`; None of any other
/// instruction.
#[tactic(auto, using(crate::proofs::Laws::Touches::touches_by), unfolding(crate::specs::Kernel::touch_def))]
pub fn touch(word: u64, base: u64) -> Option<u64>
    ensures { result ≡ touch_def word base }
{
    if accesses(Opcode::decode(word)) {
        let address = bits::plus(base, bits::sext::<16>(IType::decode(word).imm));
        return Some(address / 8 * 8);
    }
    None
}

/// What an instruction does, for every input and every rules number. A misaligned pc is refused before everything else.
#[tactic(auto, unfolding(crate::specs::Kernel::kernel_def))]
pub fn kernel(i: Ins) -> Effect
    ensures { result ≡ kernel_def i }
{
    if i.pc % 4 != 0 {
        return Err(Stop::Refused(Refusal::PcMisaligned));
    }
    dispatch(i, Opcode::decode(i.word))
}
