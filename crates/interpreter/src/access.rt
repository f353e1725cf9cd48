// Loads and stores, one function for each instruction, which has the eight bytes that it touches.
#![tactic(auto, unfolding(crate::specs::Kernel::does, crate::specs::Loads::loaded, crate::specs::Stores::stored, crate::specs::Stores::conditionally))]

ghost use Rattle.std.specs.Prelude.{◌≡◌, ◌<◌, ◌==◌, false, Result};
ghost use Rattle.interpreter.specs.Words.{rules_of, by_rules};
ghost use Rattle.interpreter.specs.Isa.{rt_of, load, store, conditional, LB, LBU, LH, LHU, LW, LWU, LL, LD, LLD, LDL, LDR, LWL, LWR, SB, SH, SW, SD, SDL, SDR, SWL, SWR, SC, SCD};
ghost use Rattle.interpreter.specs.Effects.{to_rt, storing};
ghost use Rattle.interpreter.specs.Loads.{offset_of, aligned};
ghost use Rattle.interpreter.specs.Stores.{answering};
ghost use Rattle.interpreter.specs.Kernel.{after, does};

use crate::effect::{Effect, Ins, Refusal, Rules};
use crate::isa::IType;
use crate::{bits, loads, stores};

// Where an access is in its eight bytes.
fn offset(i: Ins) -> u64
    ensures { result ≡ offset_of i }
{
    i.address() % 8
}

// A load of n bytes that gives v.
fn loading(i: Ins, n: u64, v: u64) -> Effect
    requires { 0 < n }
    ensures { result ≡ after (to_rt i) (aligned i n v) }
{
    Ok(i.to_rt(loads::aligned(i, n, v)?))
}

// A store of n bytes that makes the eight bytes m.
fn keeping(i: Ins, n: u64, m: u64) -> Effect
    requires { 0 < n }
    ensures { result ≡ after (storing i 0 0) (aligned i n m) }
{
    Ok(i.storing(0, 0, loads::aligned(i, n, m)?))
}

pub(crate) fn lb(i: Ins) -> Effect
    ensures { result ≡ does (load LB) i }
{
    Ok(i.to_rt(bits::sext::<8>(loads::part_at::<1>(i.mem, offset(i)))))
}

pub(crate) fn lbu(i: Ins) -> Effect
    ensures { result ≡ does (load LBU) i }
{
    Ok(i.to_rt(loads::part_at::<1>(i.mem, offset(i))))
}

pub(crate) fn lh(i: Ins) -> Effect
    ensures { result ≡ does (load LH) i }
{
    loading(
        i,
        2,
        bits::sext::<16>(loads::part_at::<2>(i.mem, offset(i))),
    )
}

pub(crate) fn lhu(i: Ins) -> Effect
    ensures { result ≡ does (load LHU) i }
{
    loading(i, 2, loads::part_at::<2>(i.mem, offset(i)))
}

pub(crate) fn lw(i: Ins) -> Effect
    ensures { result ≡ does (load LW) i }
{
    loading(
        i,
        4,
        bits::sext::<32>(loads::part_at::<4>(i.mem, offset(i))),
    )
}

pub(crate) fn lwu(i: Ins) -> Effect
    ensures { result ≡ does (load LWU) i }
{
    loading(i, 4, loads::part_at::<4>(i.mem, offset(i)))
}

pub(crate) fn ll(i: Ins) -> Effect
    ensures { result ≡ does (load LL) i }
{
    lw(i)
}

pub(crate) fn ld(i: Ins) -> Effect
    ensures { result ≡ does (load LD) i }
{
    loading(i, 8, i.mem)
}

pub(crate) fn lld(i: Ins) -> Effect
    ensures { result ≡ does (load LLD) i }
{
    ld(i)
}

pub(crate) fn ldl(i: Ins) -> Effect
    ensures { result ≡ does (load LDL) i }
{
    Ok(i.to_rt(loads::ldl(i.mem, offset(i), i.rt)))
}

pub(crate) fn ldr(i: Ins) -> Effect
    ensures { result ≡ does (load LDR) i }
{
    Ok(i.to_rt(loads::ldr(i.rules(), i.mem, offset(i), i.rt)))
}

pub(crate) fn lwl(i: Ins) -> Effect
    ensures { result ≡ does (load LWL) i }
{
    Ok(i.to_rt(loads::lwl(i.rules(), i.mem, offset(i), i.rt)))
}

pub(crate) fn lwr(i: Ins) -> Effect
    ensures { result ≡ does (load LWR) i }
{
    Ok(i.to_rt(loads::lwr(i.rules(), i.mem, offset(i), i.rt)))
}

pub(crate) fn sb(i: Ins) -> Effect
    ensures { result ≡ does (store SB) i }
{
    Ok(i.storing(0, 0, stores::part_put::<1>(i.mem, offset(i), i.rt)))
}

pub(crate) fn sh(i: Ins) -> Effect
    ensures { result ≡ does (store SH) i }
{
    keeping(i, 2, stores::part_put::<2>(i.mem, offset(i), i.rt))
}

pub(crate) fn sw(i: Ins) -> Effect
    ensures { result ≡ does (store SW) i }
{
    keeping(i, 4, stores::part_put::<4>(i.mem, offset(i), i.rt))
}

pub(crate) fn sd(i: Ins) -> Effect
    ensures { result ≡ does (store SD) i }
{
    keeping(i, 8, stores::sd(i.rules(), i.mem, offset(i), i.rt))
}

pub(crate) fn sdl(i: Ins) -> Effect
    ensures { result ≡ does (store SDL) i }
{
    Ok(i.storing(0, 0, stores::sdl(i.mem, offset(i), i.rt)))
}

pub(crate) fn sdr(i: Ins) -> Effect
    ensures { result ≡ does (store SDR) i }
{
    Ok(i.storing(0, 0, stores::sdr(i.mem, offset(i), i.rt)))
}

pub(crate) fn swl(i: Ins) -> Effect
    ensures { result ≡ does (store SWL) i }
{
    Ok(i.storing(0, 0, stores::swl(i.mem, offset(i), i.rt)))
}

pub(crate) fn swr(i: Ins) -> Effect
    ensures { result ≡ does (store SWR) i }
{
    Ok(i.storing(0, 0, stores::swr(i.rules(), i.mem, offset(i), i.rt)))
}

// With the field rt = 0 rules 0 stores nothing.
fn skips(i: Ins) -> bool
    ensures { result ≡ by_rules (rules_of i.rules) (rt_of i.word == 0) false }
{
    match i.rules() {
        Rules::Interpreter => IType::decode(i.word).rt == 0,
        Rules::Manual => false,
    }
}

// SC and SCD put 1 in a nonzero rt.
fn answering(i: Ins, stored: Result<u64, Refusal>) -> Effect
    ensures { result ≡ answering i stored }
{
    let m = stored?;
    if skips(i) {
        return Ok(i.to_register(0, 0));
    }
    Ok(i.storing(IType::decode(i.word).rt, 1, m))
}

pub(crate) fn sc(i: Ins) -> Effect
    ensures { result ≡ does (conditional SC) i }
{
    answering(
        i,
        loads::aligned(i, 4, stores::part_put::<4>(i.mem, offset(i), i.rt)),
    )
}

pub(crate) fn scd(i: Ins) -> Effect
    ensures { result ≡ does (conditional SCD) i }
{
    answering(
        i,
        loads::aligned(i, 8, stores::sd(i.rules(), i.mem, offset(i), i.rt)),
    )
}
