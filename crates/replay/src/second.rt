//! A vector's step as the second of a run. The first loads a byte through the same base register into register 0, so that the
//! second finds the page of its load or store kept, which a run of one never does.
use interpreter::bits;
use interpreter::isa::{IType, Opcode, RType, SpecialFunction};
use interpreter::state::State;
use pages::page::Page;
use pages::{bytes, page};

/// Where the word before pc stands, and which it was.
#[derive(Clone, Copy)]
pub struct Before {
    at: usize,
    word: u32,
}

/// Where the byte at an address stands.
fn place(pages: &[u8], used: usize, address: u64) -> Option<usize> {
    let record = page::page_lookup(pages, used, address / Page::ADDRESSES).ok()??;
    let inside = Page::NUMBER_SIZE + (address % Page::ADDRESSES) as usize;
    record.checked_mul(Page::RECORD_SIZE)?.checked_add(inside)
}

/// Whether an instruction leaves the eight bytes around an address alone. A system call may reach any.
fn leaves(regs: &[u64; 32], word: u64, address: u64) -> bool {
    let is_call = Opcode::decode(word) == Opcode::SPECIAL
        && RType::decode(word).funct == SpecialFunction::SYSCALL;
    let base = regs[(word / 0x20_0000 % 32) as usize];
    let offset = bits::sign_extend(IType::decode(word).imm, 16);
    !is_call && base.wrapping_add(offset) / 8 != address / 8
}

/// The next instruction must come in order, and the word before it must stand in the same page.
fn in_order(state: &State) -> bool {
    !state.exited
        && state.pc % 4 == 0
        && state.pc % Page::ADDRESSES != 0
        && state.next == state.pc.wrapping_add(4)
}

/// LB of register 0 with the base register and offset of an instruction.
fn load(word: u64) -> u32 {
    (0x8000_0000 + word / 0x20_0000 % 32 * 0x20_0000 + word % 0x1_0000) as u32
}

/// Puts the load before the vector's instruction, and answers what stood there. `None` where there is no such run: the pages
/// then stay.
pub fn lay(state: &State, pages: &mut [u8], used: usize) -> Option<Before> {
    let address = state.pc.wrapping_sub(4);
    let at = place(pages, used, address)?;
    let word = bytes::word_at(pages, at.checked_add(4)?);
    let old = u32::try_from(bytes::word_at(pages, at)).ok()?;
    if in_order(state) && leaves(&state.regs, word, address) {
        bytes::put_word(pages, at, load(word));
        return Some(Before { at, word: old });
    }
    None
}

/// The state one step before.
pub fn state(state: &State) -> State {
    State {
        pc: state.pc.wrapping_sub(4),
        next: state.pc,
        step: state.step.wrapping_sub(1),
        ..*state
    }
}

/// Puts back what stood there.
pub fn restore(before: Before, pages: &mut [u8]) {
    bytes::put_word(pages, before.at, before.word);
}
