// Stores as functions of the aligned eight bytes m, the offset o in them, and t, the value of rt: the eight bytes
// afterwards.
ghost use Rattle.std.specs.Prelude.{◌≡◌, ◌+◌, ◌*◌, ◌/◌, ◌<◌, ◌≤◌};
ghost use Rattle.interpreter.specs.Stores.{part_put, sd, swl, swr, sdl, sdr};

use crate::effect::Rules;
use crate::loads;

// The low N bytes of rt in the byte, halfword or word that the offset is in.
pub(crate) fn part_put<const N: u64>(m: u64, o: u64, t: u64) -> u64
    requires { (0 < N) × (N < 8) × (o / N * N + N ≤ 8) }
    ensures { result ≡ part_put N m o t }
{
    let at = 64 - 8 * N - 8 * (o / N * N);
    let size = 1u64 << (8 * N);
    let old = (m >> at) % size;
    m - (old << at) + ((t % size) << at)
}

// Off alignment, which rules 0 lets pass, rt is shifted up by the offset. The rules are asked first: the offset
// first, and a run of loads and stores takes 0.6 % more instructions.
pub(crate) fn sd(rules: Rules, m: u64, o: u64, t: u64) -> u64
    requires { o < 8 }
    ensures { result ≡ sd rules m o t }
{
    match rules {
        Rules::Interpreter => {
            if o == 0 {
                return t;
            }
            let up = 8 * o;
            (t << up) + m % (1u64 << up)
        }
        Rules::Manual => t,
    }
}

#[tactic(auto, using(crate::proofs::Laws::Stores::swl_is))]
pub(crate) fn swl(m: u64, o: u64, t: u64) -> u64
    requires { o < 8 }
    ensures { result ≡ swl m o t }
{
    let down = 8 * (o % 4);
    let size = 32 - down;
    let kept = loads::part_at::<4>(m, o) >> size << size;
    part_put::<4>(m, o, kept + ((t % 0x1_0000_0000) >> down))
}

// Rules 0 does not cut what is pushed out of the lower word.
#[tactic(auto, using(crate::proofs::Laws::Stores::swr_or, crate::proofs::Laws::Stores::swr_upper, crate::proofs::Laws::Stores::swr_cut))]
pub(crate) fn swr(rules: Rules, m: u64, o: u64, t: u64) -> u64
    requires { o < 8 }
    ensures { result ≡ swr rules m o t }
{
    let up = 24 - 8 * (o % 4);
    let low = loads::part_at::<4>(m, o) % (1u64 << up);
    let wide = (t % 0x1_0000_0000) << up;
    let stored = part_put::<4>(m, o, wide % 0x1_0000_0000 + low);
    match rules {
        Rules::Interpreter => {
            if 4 <= o {
                return stored | wide / 0x1_0000_0000 * 0x1_0000_0000;
            }
            stored
        }
        Rules::Manual => stored,
    }
}

#[tactic(auto, using(crate::proofs::Laws::Stores::sdl_fits, crate::proofs::Laws::Stores::sdl_all, crate::proofs::Laws::Stores::sdl_part))]
pub(crate) fn sdl(m: u64, o: u64, t: u64) -> u64
    requires { o < 8 }
    ensures { result ≡ sdl m o t }
{
    if o == 0 {
        return t;
    }
    let down = 8 * o;
    let size = 64 - down;
    (m >> size << size) + (t >> down)
}

#[tactic(auto, using(crate::proofs::Laws::Shifts::raised_lt, crate::proofs::Laws::Stores::sdr_is))]
pub(crate) fn sdr(m: u64, o: u64, t: u64) -> u64
    requires { o < 8 }
    ensures { result ≡ sdr m o t }
{
    let up = 56 - 8 * o;
    (t << up) + m % (1u64 << up)
}
