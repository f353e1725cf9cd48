// Sums, sign extensions and orders of 64-bit numbers.
ghost use Rattle.std.specs.Prelude.{◌≡◌, ◌<◌, ◌≤◌};
ghost use Rattle.interpreter.specs.Words.{plus, minus, sext, sign_extend, negative, less};
ghost use Rattle.interpreter.specs.Alu.{double_signed};

/// The Rust's sign_extend (utils), for any index: it counts modulo 64, 0 gives 0, and every bit from index - 1 up is a sign.
#[tactic(auto, using(crate::proofs::Laws::Powers::one_shl, crate::proofs::Laws::Powers::pow_small, crate::proofs::Laws::Words::extend_none, crate::proofs::Laws::Words::extend_low, crate::proofs::Laws::Words::extend_high))]
pub fn sign_extend(x: u64, index: u64) -> u64
    ensures { result ≡ sign_extend x index }
{
    let k = index % 64;
    if k == 0 {
        return 0;
    }
    let high = 1u64 << k;
    if x < 1u64 << (k - 1) {
        x % high
    } else {
        x % high + (u64::MAX - high + 1)
    }
}

pub(crate) fn plus(x: u64, y: u64) -> u64
    ensures { result ≡ plus x y }
{
    std::num::wrapping_add_u64(x, y)
}

pub(crate) fn minus(x: u64, y: u64) -> u64
    ensures { result ≡ minus x y }
{
    std::num::wrapping_sub_u64(x, y)
}

// The low N bits, sign-extended. The sign bit is added and taken away: with no branch, LLVM makes one sign-extending move of it.
pub(crate) fn sext<const N: u64>(x: u64) -> u64
    requires { (0 < N) × (N < 64) }
    ensures { result ≡ sext N x }
{
    let sign = 1u64 << (N - 1);
    minus(plus(x, sign) % (1u64 << N), sign)
}

// The arithmetic shift of a doubleword.
#[tactic(auto, using(crate::proofs::Laws::Words::signed_low, crate::proofs::Laws::Words::signed_high))]
pub(crate) fn shift_signed(x: u64, s: u64) -> u64
    requires { s < 64 }
    ensures { result ≡ double_signed x s }
{
    if x < 0x8000_0000_0000_0000 {
        x >> s
    } else {
        !(!x >> s)
    }
}

// The sign of N bits.
pub(crate) fn negative<const N: u64>(x: u64) -> bool
    requires { (0 < N) × (N ≤ 64) }
    ensures { result ≡ negative N x }
{
    1u64 << (N - 1) <= x
}

// The signed order, by adding 2^63 to both sides.
#[tactic(auto, using(crate::proofs::Laws::Words::less_biased))]
pub(crate) fn less(x: u64, y: u64) -> bool
    ensures { result ≡ less x y }
{
    plus(x, 0x8000_0000_0000_0000) < plus(y, 0x8000_0000_0000_0000)
}
