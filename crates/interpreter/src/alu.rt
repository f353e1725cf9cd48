// Results of registers and immediates.
ghost use Rattle.std.specs.Prelude.{◌≡◌, ◌<◌};
ghost use Rattle.interpreter.specs.OpcodeMap.{find, shifts, sums, logic, counts, immediates};
ghost use Rattle.std.specs.Int.Count.{count_leading_zeros};
ghost use Rattle.interpreter.specs.Words.{bit, and, or, xor};
ghost use Rattle.interpreter.specs.Alu.{shift_left, shift_right, shift_signed, shift_signed_by, double_left, double_right, sum, difference, mul, nor, leading_zeros32, leading_ones32, known, known_imm};

use crate::bits;
use crate::effect::{Ins, Rules};
use crate::isa::{IType, Opcode, RType, Special2Function, SpecialFunction};

// Rules 0 sign-extends the unreduced product.
#[tactic(auto, unfolding(crate::specs::Alu::shift_left))]
pub(crate) fn shift_left(rules: Rules, x: u64, s: u64) -> u64
    requires { s < 32 }
    ensures { result ≡ shift_left rules x s }
{
    let p = (x % 0x1_0000_0000) << s;
    match rules {
        Rules::Interpreter => bits::sign_extend(p, 32),
        Rules::Manual => bits::sext::<32>(p),
    }
}

#[tactic(auto, unfolding(crate::specs::Alu::shift_right))]
pub(crate) fn shift_right(x: u64, s: u64) -> u64
    requires { s < 32 }
    ensures { result ≡ shift_right x s }
{
    bits::sext::<32>((x % 0x1_0000_0000) >> s)
}

#[tactic(auto, using(crate::proofs::Laws::Words::signed_word))]
pub(crate) fn shift_signed(x: u64, s: u64) -> u64
    requires { s < 32 }
    ensures { result ≡ shift_signed x s }
{
    bits::shift_signed(bits::sext::<32>(x), s)
}

// SRAV: rules 0 gives 0 when rs mod 64 = 32.
#[tactic(auto, unfolding(crate::specs::Alu::shift_signed_by))]
pub(crate) fn shift_signed_by(rules: Rules, x: u64, y: u64) -> u64
    ensures { result ≡ shift_signed_by rules x y }
{
    match rules {
        Rules::Interpreter => {
            if y % 64 == 32 {
                return 0;
            }
            shift_signed(x, y % 32)
        }
        Rules::Manual => shift_signed(x, y % 32),
    }
}

#[tactic(auto, unfolding(crate::specs::Alu::double_left))]
pub(crate) fn double_left(x: u64, s: u64) -> u64
    requires { s < 64 }
    ensures { result ≡ double_left x s }
{
    x << s
}

#[tactic(auto, unfolding(crate::specs::Alu::double_right))]
pub(crate) fn double_right(x: u64, s: u64) -> u64
    requires { s < 64 }
    ensures { result ≡ double_right x s }
{
    x >> s
}

#[tactic(auto, using(crate::proofs::Laws::Words::sext_plus), unfolding(crate::specs::Alu::sum))]
pub(crate) fn sum(x: u64, y: u64) -> u64
    ensures { result ≡ sum x y }
{
    bits::sext::<32>(bits::plus(x, y))
}

// Rules 0 sign-extends the 64-bit difference.
#[tactic(auto, unfolding(crate::specs::Alu::difference))]
pub(crate) fn difference(rules: Rules, x: u64, y: u64) -> u64
    ensures { result ≡ difference rules x y }
{
    let d = bits::minus(x, y);
    match rules {
        Rules::Interpreter => bits::sign_extend(d, 32),
        Rules::Manual => bits::sext::<32>(d),
    }
}

#[tactic(auto, unfolding(crate::specs::Alu::mul))]
fn mul(x: u64, y: u64) -> u64
    ensures { result ≡ mul x y }
{
    bits::sext::<32>(x % 0x1_0000_0000 * (y % 0x1_0000_0000))
}

#[tactic(auto, using(crate::proofs::Laws::Bitwise::and_is))]
pub(crate) fn and(x: u64, y: u64) -> u64
    ensures { result ≡ and x y }
{
    x & y
}

#[tactic(auto, using(crate::proofs::Laws::Bitwise::or_is))]
pub(crate) fn or(x: u64, y: u64) -> u64
    ensures { result ≡ or x y }
{
    x | y
}

#[tactic(auto, using(crate::proofs::Laws::Bitwise::xor_is))]
pub(crate) fn xor(x: u64, y: u64) -> u64
    ensures { result ≡ xor x y }
{
    x ^ y
}

#[tactic(auto, unfolding(crate::specs::Alu::nor))]
pub(crate) fn nor(x: u64, y: u64) -> u64
    ensures { result ≡ nor x y }
{
    u64::MAX - or(x, y)
}

pub(crate) fn flag(b: bool) -> u64
    ensures { result ≡ bit b }
{
    if b { 1 } else { 0 }
}

#[tactic(auto, unfolding(crate::specs::Alu::leading_zeros32))]
fn leading_zeros(x: u64) -> u64
    ensures { result ≡ leading_zeros32 x }
{
    u32::leading_zeros((x % 0x1_0000_0000) as u32) as u64
}

fn leading_ones(x: u64) -> u64
    ensures { result ≡ leading_ones32 x }
{
    leading_zeros(u64::MAX - x)
}

// Beside `leading_zeros`, and not one function over the width: each is a call of its own integer's method.
fn double_leading_zeros(x: u64) -> u64
    ensures { result ≡ count_leading_zeros 64 x }
{
    u64::leading_zeros(x) as u64
}

#[tactic(auto, unfolding(crate::specs::OpcodeMap::find, crate::specs::OpcodeMap::shifts, crate::specs::Alu::result, crate::specs::Alu::known))]
pub(crate) fn shifts(i: Ins, f: u64) -> Option<u64>
    ensures { result ≡ known (find f shifts) i }
{
    let s = RType::decode(i.word).shamt;
    match f {
        SpecialFunction::SLL => Some(shift_left(i.rules(), i.rt, s)),
        SpecialFunction::SRL => Some(shift_right(i.rt, s)),
        SpecialFunction::SRA => Some(shift_signed(i.rt, s)),
        SpecialFunction::SLLV => Some(shift_left(i.rules(), i.rt, i.rs % 32)),
        SpecialFunction::SRLV => Some(shift_right(i.rt, i.rs % 32)),
        SpecialFunction::SRAV => Some(shift_signed_by(i.rules(), i.rt, i.rs)),
        SpecialFunction::DSLLV => Some(double_left(i.rt, i.rs % 64)),
        SpecialFunction::DSRLV => Some(double_right(i.rt, i.rs % 64)),
        SpecialFunction::DSRAV => Some(bits::shift_signed(i.rt, i.rs % 64)),
        SpecialFunction::DSLL => Some(double_left(i.rt, s)),
        SpecialFunction::DSRL => Some(double_right(i.rt, s)),
        SpecialFunction::DSRA => Some(bits::shift_signed(i.rt, s)),
        SpecialFunction::DSLL32 => Some(double_left(i.rt, s + 32)),
        SpecialFunction::DSRL32 => Some(double_right(i.rt, s + 32)),
        SpecialFunction::DSRA32 => Some(bits::shift_signed(i.rt, s + 32)),
        _ => None,
    }
}

// ADD, SUB, DADD and DSUB wrap under both rules, by choice of document 01.
#[tactic(auto, unfolding(crate::specs::OpcodeMap::find, crate::specs::OpcodeMap::sums, crate::specs::Alu::result, crate::specs::Alu::known))]
pub(crate) fn sums(i: Ins, f: u64) -> Option<u64>
    ensures { result ≡ known (find f sums) i }
{
    match f {
        SpecialFunction::MFHI => Some(i.hi),
        SpecialFunction::MFLO => Some(i.lo),
        SpecialFunction::ADD => Some(sum(i.rs, i.rt)),
        SpecialFunction::ADDU => Some(sum(i.rs, i.rt)),
        SpecialFunction::SUB => Some(difference(i.rules(), i.rs, i.rt)),
        SpecialFunction::SUBU => Some(difference(i.rules(), i.rs, i.rt)),
        SpecialFunction::DADD => Some(bits::plus(i.rs, i.rt)),
        SpecialFunction::DADDU => Some(bits::plus(i.rs, i.rt)),
        SpecialFunction::DSUB => Some(bits::minus(i.rs, i.rt)),
        SpecialFunction::DSUBU => Some(bits::minus(i.rs, i.rt)),
        _ => None,
    }
}

#[tactic(auto, unfolding(crate::specs::OpcodeMap::find, crate::specs::OpcodeMap::logic, crate::specs::Alu::result, crate::specs::Alu::known))]
pub(crate) fn logic(i: Ins, f: u64) -> Option<u64>
    ensures { result ≡ known (find f logic) i }
{
    match f {
        SpecialFunction::AND => Some(and(i.rs, i.rt)),
        SpecialFunction::OR => Some(or(i.rs, i.rt)),
        SpecialFunction::XOR => Some(xor(i.rs, i.rt)),
        SpecialFunction::NOR => Some(nor(i.rs, i.rt)),
        SpecialFunction::SLT => Some(flag(bits::less(i.rs, i.rt))),
        SpecialFunction::SLTU => Some(flag(i.rs < i.rt)),
        _ => None,
    }
}

#[tactic(auto, unfolding(crate::specs::OpcodeMap::find, crate::specs::OpcodeMap::counts, crate::specs::Alu::result, crate::specs::Alu::known))]
pub(crate) fn counts(i: Ins, f: u64) -> Option<u64>
    ensures { result ≡ known (find f counts) i }
{
    match f {
        Special2Function::MUL => Some(mul(i.rs, i.rt)),
        Special2Function::CLZ => Some(leading_zeros(i.rs)),
        Special2Function::CLO => Some(leading_ones(i.rs)),
        Special2Function::DCLZ => Some(double_leading_zeros(i.rs)),
        _ => None,
    }
}

// ADDI and DADDI wrap under both rules, by choice of document 01.
#[tactic(auto, unfolding(crate::specs::OpcodeMap::find, crate::specs::OpcodeMap::immediates, crate::specs::Alu::immediate, crate::specs::Alu::known_imm))]
pub(crate) fn immediate(i: Ins, op: u64) -> Option<u64>
    ensures { result ≡ known_imm (find op immediates) i }
{
    let imm = IType::decode(i.word).imm;
    let wide = bits::sext::<16>(imm);
    match op {
        Opcode::ADDI => Some(sum(i.rs, wide)),
        Opcode::ADDIU => Some(sum(i.rs, wide)),
        Opcode::SLTI => Some(flag(bits::less(i.rs, wide))),
        Opcode::SLTIU => Some(flag(i.rs < wide)),
        Opcode::ANDI => Some(and(i.rs, imm)),
        Opcode::ORI => Some(or(i.rs, imm)),
        Opcode::XORI => Some(xor(i.rs, imm)),
        Opcode::LUI => Some(bits::sext::<32>(imm * 0x1_0000)),
        Opcode::DADDI => Some(bits::plus(i.rs, wide)),
        Opcode::DADDIU => Some(bits::plus(i.rs, wide)),
        _ => None,
    }
}
