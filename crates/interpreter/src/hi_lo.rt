// Results to hi and lo.
ghost use Rattle.std.specs.Prelude.{◌≡◌, ◌^◌, ◌<◌, ◌≤◌};
ghost use Rattle.interpreter.specs.Words.{word, magnitude, signed, negative};
ghost use Rattle.interpreter.specs.Isa.{DIV, DIVU, DDIV, DDIVU};
ghost use Rattle.interpreter.specs.HiLo.{words, negated, mult, multu, dmult, dmultu, div, divu, ddiv, ddivu, overflows, to_hi_lo, hi_lo};

use crate::bits;
use crate::effect::{Change, Effect, Ins, Refusal, Rules, Stop};
use crate::isa::RType;

/// What goes to hi and lo, of 64 bits each.
#[derive(Clone, Copy, Debug, PartialEq, Eq)]
pub struct Pair {
    pub hi: u64,
    pub lo: u64,
}

// The two words of 64 bits, each sign-extended.
fn words(p: u64) -> Pair
    ensures { result ≡ words p }
{
    Pair {
        hi: bits::sext::<32>(p / 0x1_0000_0000),
        lo: bits::sext::<32>(p),
    }
}

// The distance from 0 of a number of N bits.
fn magnitude<const N: u64>(x: u64) -> u64
    requires { (0 < N) × (N ≤ 64) × (x < 2 ^ N) }
    ensures { result ≡ magnitude N x }
{
    let sign = 1u64 << (N - 1);
    if sign <= x { sign - (x - sign) } else { x }
}

#[tactic(auto, unfolding(crate::specs::Words::signed))]
fn signed_doubleword(s: bool, m: u64) -> u64
    ensures { result ≡ signed 64 s m }
{
    if s {
        std::num::wrapping_sub_u64(0, m)
    } else {
        m
    }
}

#[tactic(auto, using(crate::proofs::Laws::Signed::product_le), unfolding(crate::specs::HiLo::mult, crate::specs::Words::product))]
pub(crate) fn mult(x: u64, y: u64) -> Pair
    ensures { result ≡ mult x y }
{
    let a = x % 0x1_0000_0000;
    let b = y % 0x1_0000_0000;
    let m = magnitude::<32>(a) * magnitude::<32>(b);
    words(signed_doubleword(bits::negative::<32>(a) != bits::negative::<32>(b), m))
}

#[tactic(auto, unfolding(crate::specs::HiLo::multu))]
pub(crate) fn multu(x: u64, y: u64) -> Pair
    ensures { result ≡ multu x y }
{
    words(x % 0x1_0000_0000 * (y % 0x1_0000_0000))
}

// 128 bits by four 32-bit halves.
#[tactic(auto, using(crate::proofs::Laws::Products::by_columns), unfolding(crate::specs::HiLo::dmultu))]
pub(crate) fn dmultu(x: u64, y: u64) -> Pair
    ensures { result ≡ dmultu x y }
{
    let x0 = x % 0x1_0000_0000;
    let x1 = x / 0x1_0000_0000;
    let y0 = y % 0x1_0000_0000;
    let y1 = y / 0x1_0000_0000;
    let low = x0 * y0;
    let middle = x1 * y0 + low / 0x1_0000_0000;
    let next = middle % 0x1_0000_0000 + x0 * y1;
    Pair {
        hi: x1 * y1 + middle / 0x1_0000_0000 + next / 0x1_0000_0000,
        lo: next % 0x1_0000_0000 * 0x1_0000_0000 + low % 0x1_0000_0000,
    }
}

// The negative of 128 bits.
#[tactic(auto, using(crate::proofs::Laws::Products::negated_none, crate::proofs::Laws::Products::negated_some))]
fn negate(p: Pair) -> Pair
    ensures { result ≡ negated p }
{
    if p.lo == 0 {
        return Pair {
            hi: bits::minus(0, p.hi),
            lo: 0,
        };
    }
    Pair {
        hi: u64::MAX - p.hi,
        lo: u64::MAX - p.lo + 1,
    }
}

// Rules 0 is unsigned.
#[tactic(auto, using(crate::proofs::Laws::Products::product_minus, crate::proofs::Laws::Products::product_plus), unfolding(crate::specs::HiLo::dmult))]
pub(crate) fn dmult(rules: Rules, x: u64, y: u64) -> Pair
    ensures { result ≡ dmult rules x y }
{
    match rules {
        Rules::Interpreter => dmultu(x, y),
        Rules::Manual => {
            let p = dmultu(magnitude::<64>(x), magnitude::<64>(y));
            if bits::negative::<64>(x) != bits::negative::<64>(y) {
                return negate(p);
            }
            p
        }
    }
}

pub(crate) fn div(x: u64, y: u64) -> Pair
    requires { 0 < word y }
    ensures { result ≡ div x y }
{
    let a = x % 0x1_0000_0000;
    let b = y % 0x1_0000_0000;
    let m = magnitude::<32>(a);
    let n = magnitude::<32>(b);
    let s = bits::negative::<32>(a);
    Pair {
        hi: bits::sext::<32>(signed_doubleword(s, m % n)),
        lo: bits::sext::<32>(signed_doubleword(s != bits::negative::<32>(b), m / n)),
    }
}

// Rules 0 doesn't sign-extend.
#[tactic(auto, unfolding(crate::specs::HiLo::divu))]
pub(crate) fn divu(rules: Rules, x: u64, y: u64) -> Pair
    requires { 0 < word y }
    ensures { result ≡ divu rules x y }
{
    let r = x % 0x1_0000_0000 % (y % 0x1_0000_0000);
    let q = x % 0x1_0000_0000 / (y % 0x1_0000_0000);
    match rules {
        Rules::Interpreter => Pair { hi: r, lo: q },
        Rules::Manual => Pair {
            hi: bits::sext::<32>(r),
            lo: bits::sext::<32>(q),
        },
    }
}

#[tactic(auto, using(crate::proofs::Laws::Signed::magnitude_pos), unfolding(crate::specs::HiLo::ddiv, crate::specs::Words::remainder, crate::specs::Words::quotient))]
pub(crate) fn ddiv(x: u64, y: u64) -> Pair
    requires { 0 < y }
    ensures { result ≡ ddiv x y }
{
    let m = magnitude::<64>(x);
    let n = magnitude::<64>(y);
    let s = bits::negative::<64>(x);
    Pair {
        hi: signed_doubleword(s, m % n),
        lo: signed_doubleword(s != bits::negative::<64>(y), m / n),
    }
}

#[tactic(auto, unfolding(crate::specs::HiLo::ddivu))]
pub(crate) fn ddivu(x: u64, y: u64) -> Pair
    requires { 0 < y }
    ensures { result ≡ ddivu x y }
{
    Pair {
        hi: x % y,
        lo: x / y,
    }
}

// The least number of N bits by -1, which only rules 0 refuses.
fn overflows<const N: u64>(rules: Rules, x: u64, y: u64) -> bool
    requires { (0 < N) × (N ≤ 64) }
    ensures { result ≡ overflows N rules x y }
{
    match rules {
        Rules::Interpreter => {
            let least = 1u64 << (N - 1);
            if x != least {
                return false;
            }
            y == least - 1 + least
        }
        Rules::Manual => false,
    }
}

impl Ins {
    // Rules 0 writes 0 to rd as well.
    pub(crate) fn to_hi_lo(self, p: Pair) -> Change
        ensures { result ≡ to_hi_lo self p }
    {
        match self.rules() {
            Rules::Interpreter => self.changes(RType::decode(self.word).rd, 0, p.hi, p.lo),
            Rules::Manual => self.changes(0, 0, p.hi, p.lo),
        }
    }

    #[tactic(auto, unfolding(crate::specs::HiLo::hi_lo))]
    pub(crate) fn divide_words(self) -> Effect
        ensures { result ≡ hi_lo DIV self }
    {
        let x = self.rs % 0x1_0000_0000;
        let y = self.rt % 0x1_0000_0000;
        if y == 0 {
            return Err(Stop::Refused(Refusal::DivideByZero));
        }
        if overflows::<32>(self.rules(), x, y) {
            return Err(Stop::Refused(Refusal::Overflow));
        }
        Ok(self.to_hi_lo(div(self.rs, self.rt)))
    }

    #[tactic(auto, unfolding(crate::specs::HiLo::hi_lo))]
    pub(crate) fn divide_words_unsigned(self) -> Effect
        ensures { result ≡ hi_lo DIVU self }
    {
        if self.rt % 0x1_0000_0000 == 0 {
            return Err(Stop::Refused(Refusal::DivideByZero));
        }
        Ok(self.to_hi_lo(divu(self.rules(), self.rs, self.rt)))
    }

    #[tactic(auto, unfolding(crate::specs::HiLo::hi_lo))]
    pub(crate) fn divide(self) -> Effect
        ensures { result ≡ hi_lo DDIV self }
    {
        if self.rt == 0 {
            return Err(Stop::Refused(Refusal::DivideByZero));
        }
        if overflows::<64>(self.rules(), self.rs, self.rt) {
            return Err(Stop::Refused(Refusal::Overflow));
        }
        Ok(self.to_hi_lo(ddiv(self.rs, self.rt)))
    }

    #[tactic(auto, unfolding(crate::specs::HiLo::hi_lo))]
    pub(crate) fn divide_unsigned(self) -> Effect
        ensures { result ≡ hi_lo DDIVU self }
    {
        if self.rt == 0 {
            return Err(Stop::Refused(Refusal::DivideByZero));
        }
        Ok(self.to_hi_lo(ddivu(self.rs, self.rt)))
    }
}
