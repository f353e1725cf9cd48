// Loads as functions of the aligned eight bytes m, the offset o in them, and t, the value of rt.
ghost use Rattle.std.specs.Prelude.{◌≡◌, ◌+◌, ◌*◌, ◌/◌, ◌^◌, ◌<◌, ◌≤◌};
ghost use Rattle.interpreter.specs.Loads.{address_of, aligned, part_at, lwl, lwr, ldl, ldr};

use crate::bits;
use crate::effect::{Ins, Refusal, Rules};
use crate::isa::IType;

// The byte, halfword or word of N bytes that the offset is in.
pub(crate) fn part_at<const N: u64>(m: u64, o: u64) -> u64
    requires { (0 < N) × (N < 8) × (o / N * N + N ≤ 8) }
    ensures { (result ≡ part_at N m o) × (result < 256 ^ N) }
{
    (m >> (64 - 8 * N - 8 * (o / N * N))) % (1u64 << (8 * N))
}

// Rules 0 always uses bytes 4 to 7.
#[tactic(auto, using(crate::proofs::Laws::Loads::lwl_low, crate::proofs::Laws::Loads::lwl_word))]
pub(crate) fn lwl(rules: Rules, m: u64, o: u64, t: u64) -> u64
    requires { o < 8 }
    ensures { result ≡ lwl rules m o t }
{
    let up = 8 * (o % 4);
    let low = t % (1u64 << up);
    match rules {
        Rules::Interpreter => bits::sext::<32>((m << up) % 0x1_0000_0000 + low),
        Rules::Manual => bits::sext::<32>((part_at::<4>(m, o) << up) % 0x1_0000_0000 + low),
    }
}

// Rules 0 shifts the whole doubleword, so that bytes before the word come in above.
#[tactic(auto, using(crate::proofs::Laws::Loads::lwr_or, crate::proofs::Laws::Loads::lwr_word))]
pub(crate) fn lwr(rules: Rules, m: u64, o: u64, t: u64) -> u64
    requires { o < 8 }
    ensures { result ≡ lwr rules m o t }
{
    let down = 24 - 8 * (o % 4);
    let size = 8 * (o % 4) + 8;
    let kept = (t % 0x1_0000_0000) >> size << size;
    match rules {
        Rules::Interpreter => bits::sext::<32>((m >> down) % 0x1_0000_0000 | kept),
        Rules::Manual => bits::sext::<32>(kept + (part_at::<4>(m, o) >> down)),
    }
}

pub(crate) fn ldl(m: u64, o: u64, t: u64) -> u64
    requires { o < 8 }
    ensures { result ≡ ldl m o t }
{
    let up = 8 * o;
    (m << up) + t % (1u64 << up)
}

// At offset 7 rules 0 ors memory with rt.
#[tactic(auto, using(crate::proofs::Laws::Loads::ldr_fits, crate::proofs::Laws::Loads::ldr_or, crate::proofs::Laws::Loads::ldr_all, crate::proofs::Laws::Loads::ldr_part))]
pub(crate) fn ldr(rules: Rules, m: u64, o: u64, t: u64) -> u64
    requires { o < 8 }
    ensures { result ≡ ldr rules m o t }
{
    if o == 7 {
        return match rules {
            Rules::Interpreter => m | t,
            Rules::Manual => m,
        };
    }
    let size = 8 * o + 8;
    (t >> size << size) + (m >> (56 - 8 * o))
}

// An access of n bytes: rules 1 refuses it off its alignment.
#[tactic(auto, unfolding(crate::specs::Loads::aligned))]
pub(crate) fn aligned(i: Ins, n: u64, v: u64) -> Result<u64, Refusal>
    requires { 0 < n }
    ensures { result ≡ aligned i n v }
{
    match i.rules() {
        Rules::Interpreter => Ok(v),
        Rules::Manual => {
            if i.address() % n != 0 {
                return Err(Refusal::AddressError);
            }
            Ok(v)
        }
    }
}

impl Ins {
    pub(crate) fn address(self) -> u64
        ensures { result ≡ address_of self.word self.rs }
    {
        bits::plus(self.rs, bits::sext::<16>(IType::decode(self.word).imm))
    }
}
