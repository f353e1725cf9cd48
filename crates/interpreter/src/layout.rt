// A state's 360 bytes (document 01, "The step record").
ghost use Rattle.std.specs.Prelude.{◌≡◌, ◌+◌, ◌≤◌, length};
ghost use Rattle.std.proofs.lemmas.List.Edits.{sets};
ghost use Rattle.pages.specs.Bytes.{cell, row};
ghost use Rattle.interpreter.specs.Machine.{state_of};
ghost use Rattle.interpreter.specs.Layout.{eights, numbers_of, last_of, encode, numbers, decode_at, formed_at, decoded_at, decode_def};

use crate::hint;
use crate::state::{Cpu, State};
use pages::bytes;

/// Where a state's parts stand in its bytes.
#[derive(Clone, Copy)]
pub struct Layout {
    pub at: usize,
}

impl Layout {
    /// How many bytes a number has.
    pub const NUMBER: usize = 8;

    /// How many bytes the key has.
    pub const KEY_SIZE: usize = 32;

    /// How many spare bytes end a state.
    pub const SPARES: usize = 5;

    /// The 32 registers come first.
    pub const PC: usize = 32 * Layout::NUMBER;

    /// Each part follows the one before it.
    pub const NEXT_PC: usize = Layout::PC + Layout::NUMBER;

    pub const HI: usize = Layout::NEXT_PC + Layout::NUMBER;

    pub const LO: usize = Layout::HI + Layout::NUMBER;

    pub const HEAP: usize = Layout::LO + Layout::NUMBER;

    pub const STEP: usize = Layout::HEAP + Layout::NUMBER;

    pub const OFFSET: usize = Layout::STEP + Layout::NUMBER;

    pub const HINT: usize = Layout::OFFSET + Layout::NUMBER;

    pub const KEY: usize = Layout::HINT + Layout::NUMBER;

    /// One byte, 0 or 1.
    pub const EXITED: usize = Layout::KEY + Layout::KEY_SIZE;

    pub const CODE: usize = Layout::EXITED + 1;

    pub const RULES: usize = Layout::CODE + 1;

    /// Five bytes, all 0.
    pub const SPARE: usize = Layout::RULES + 1;

    /// How many bytes a state has: 360.
    pub const SIZE: usize = Layout::SPARE + Layout::SPARES;

    /// The last of the spare bytes.
    pub const LAST: usize = Layout::SIZE - 1;
}

#[tactic(auto, using(crate::proofs::Laws::Layout::put_eight), unfolding(crate::specs::Layout::eights))]
fn put_registers(buf: &mut [u8], at: usize, regs: &[u64; 32])
    requires { at + 256 ≤ length buf.old }
    ensures { buf.new ≡ sets buf.old at (eights regs.now 32) }
{
    for i in 0..32 {
        bytes::put_doubleword(buf, at + Layout::NUMBER * i, regs[i]);
    }
}

#[tactic(auto, using(crate::proofs::Laws::Layout::put_eights))]
fn put_numbers(buf: &mut [u8], at: usize, c: Cpu)
    requires { at + 360 ≤ length buf.old }
    ensures { buf.new ≡ sets buf.old (at + 256) (eights (numbers_of c) 8) }
{
    bytes::put_doubleword(buf, at + Layout::PC, c.pc);
    bytes::put_doubleword(buf, at + Layout::NEXT_PC, c.next);
    bytes::put_doubleword(buf, at + Layout::HI, c.hi);
    bytes::put_doubleword(buf, at + Layout::LO, c.lo);
    bytes::put_doubleword(buf, at + Layout::HEAP, c.heap);
    bytes::put_doubleword(buf, at + Layout::STEP, c.step);
    bytes::put_doubleword(buf, at + Layout::OFFSET, c.offset);
    bytes::put_doubleword(buf, at + Layout::HINT, c.hint);
}

#[tactic(auto, using(pages::proofs::Laws::Places::copy_fits))]
fn put_key(buf: &mut [u8], at: usize, key: &[u8; 32])
    requires { at + 32 ≤ length buf.old }
    ensures { buf.new ≡ sets buf.old at (row (cell key.now) 0 32) }
{
    bytes::copy(key, 0, buf, at, Layout::KEY_SIZE);
}

#[tactic(auto, using(crate::proofs::Laws::Layout::flag_byte, crate::proofs::Laws::Layout::put_last))]
fn put_last(buf: &mut [u8], at: usize, c: Cpu)
    requires { at + 360 ≤ length buf.old }
    ensures { buf.new ≡ sets buf.old (at + 352) (last_of c) }
{
    buf[at + Layout::EXITED] = c.exited as u8;
    buf[at + Layout::CODE] = c.code;
    buf[at + Layout::RULES] = c.rules;
    bytes::clear(buf, at + Layout::SPARE, Layout::SPARES);
}

// The bytes of the state of such numbers, registers and key, to buf from a place on.
#[tactic(auto, using(crate::proofs::Laws::Layout::put_parts))]
pub(crate) fn put_state(buf: &mut [u8], at: usize, c: Cpu, regs: &[u64; 32], key: &[u8; 32])
    requires { at + 360 ≤ length buf.old }
    ensures { buf.new ≡ sets buf.old at (encode (state_of c regs.now key.now)) }
{
    put_registers(buf, at, regs);
    put_numbers(buf, at, c);
    put_key(buf, at + Layout::KEY, key);
    put_last(buf, at, c);
}

#[tactic(auto, using(pages::proofs::Laws::Places::number_fits, crate::proofs::Laws::Layout::numbers_is, crate::proofs::Laws::Layout::set_more))]
fn registers_at(b: &[u8], k: usize) -> [u64; 32]
    requires { k + 256 ≤ length b.now }
    ensures { result ≡ numbers b.now k 32 }
{
    let mut regs = [0u64; 32];
    for i in 0..32 {
        regs[i] = bytes::doubleword_at(b, k + Layout::NUMBER * i);
    }
    regs
}

fn key_at(b: &[u8], k: usize) -> [u8; 32]
    requires { k + 32 ≤ length b.now }
    ensures { result ≡ row (cell b.now) k 32 }
{
    let mut key = [0u8; 32];
    bytes::copy(b, k, &mut key, 0, Layout::KEY_SIZE);
    key
}

// The state in the 360 bytes from a place on.
#[tactic(auto, using(crate::proofs::Laws::Layout::state_is), unfolding(crate::specs::Machine::state_of))]
pub(crate) fn state_at(b: &[u8], k: usize) -> State
    requires { k + 360 ≤ length b.now }
    ensures { result ≡ decode_at b.now k }
{
    let regs = registers_at(b, k);
    let key = key_at(b, k + Layout::KEY);
    State {
        regs,
        pc: bytes::doubleword_at(b, k + Layout::PC),
        next: bytes::doubleword_at(b, k + Layout::NEXT_PC),
        hi: bytes::doubleword_at(b, k + Layout::HI),
        lo: bytes::doubleword_at(b, k + Layout::LO),
        heap: bytes::doubleword_at(b, k + Layout::HEAP),
        step: bytes::doubleword_at(b, k + Layout::STEP),
        offset: bytes::doubleword_at(b, k + Layout::OFFSET),
        hint: bytes::doubleword_at(b, k + Layout::HINT),
        key,
        exited: b[k + Layout::EXITED] == 1,
        code: b[k + Layout::CODE],
        rules: b[k + Layout::RULES],
    }
}

// Whether the 360 bytes from a place on are a state's: exited, the spare bytes, rules and hint length.
#[tactic(auto, using(crate::proofs::Laws::Layout::formed_exited, crate::proofs::Laws::Layout::formed_spare, crate::proofs::Laws::Layout::formed_last, crate::proofs::Laws::Layout::formed_rules, crate::proofs::Laws::Layout::formed_hint))]
pub(crate) fn formed_at(b: &[u8], k: usize) -> bool
    requires { k + 360 ≤ length b.now }
    ensures { result ≡ formed_at b.now k }
{
    b[k + Layout::EXITED] <= 1
        && bytes::word_at(b, k + Layout::SPARE) == 0
        && b[k + Layout::LAST] == 0
        && b[k + Layout::RULES] <= Cpu::RULES
        && bytes::doubleword_at(b, k + Layout::HINT) <= hint::ROOM
}

/// The state in the 360 bytes from a place on; none where there are fewer bytes, or they are no state's.
#[tactic(auto, using(crate::proofs::Laws::Layout::decoded_short, crate::proofs::Laws::Layout::decoded_valid, crate::proofs::Laws::Layout::decoded_none))]
pub fn decode_at(bytes: &[u8], at: usize) -> Option<State>
    ensures { result ≡ decoded_at bytes.now at }
{
    if bytes.len() < Layout::SIZE {
        return None;
    }
    if bytes.len() - Layout::SIZE < at {
        return None;
    }
    if formed_at(bytes, at) {
        return Some(state_at(bytes, at));
    }
    None
}

/// The state in 360 bytes; none where there are more or fewer, or they are no state's.
#[tactic(auto, using(crate::proofs::Laws::Layout::decode_other, crate::proofs::Laws::Layout::decode_whole))]
pub fn decode(bytes: &[u8]) -> Option<State>
    ensures { result ≡ decode_def bytes.now }
{
    if bytes.len() != Layout::SIZE {
        return None;
    }
    decode_at(bytes, 0)
}

impl State {
    /// The state's 360 bytes.
    pub fn encode(self) -> [u8; Layout::SIZE]
        ensures { result ≡ encode self }
    {
        let mut buf = [0u8; Layout::SIZE];
        let regs = self.regs;
        let key = self.key;
        put_state(&mut buf, 0, self.cpu(), &regs, &key);
        buf
    }
}
