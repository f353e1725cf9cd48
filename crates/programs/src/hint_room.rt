//! Hint room is the hint buffer's length, at most 65,536: writes to 4 at that edge, with a buffer of 65,540 zeros.
use crate::answer::Said;
use crate::machine::Machine;
use interpreter::state::State;
use interpreter::step;
use interpreter::step::Answer;
use pages::bytes;
use std::io;

/// Says the answer, the hint length and the step count then, and the bytes on both sides of place 65,536. A function of its own, so
/// that what printing needs does not stand on the stack beside the buffer.
#[inline(never)]
fn say(rt: &impl Print, answer: Answer, state: &State, hint: &[u8]) -> io::Result<()> {
    let said = Said(answer);
    let held = state.hint;
    let step = state.step;
    let below = bytes::word_at(hint, 65532);
    let above = bytes::word_at(hint, 65536);
    println!(rt; "{said}; {held} held, step {step}, {below:08x} {above:08x}")
}

/// One write of count bytes from 2000 on, and what it did. A function of its own, so that its buffer stands on the stack once.
#[inline(never)]
fn write(rt: &impl Print, machine: &mut Machine, held: u64, count: u64) -> io::Result<()> {
    let mut state = machine.state;
    state.regs[2] = 5001;
    state.regs[4] = 4;
    state.regs[5] = 0x2000;
    state.regs[6] = count;
    state.hint = held;
    let mut hint = [0u8; 65540];
    let mut output = [0u8; 16];
    let finished = step::step(
        state,
        &mut machine.pages,
        machine.used,
        &mut hint,
        &mut output,
        &[],
        &[],
    );
    say(rt, finished.answer, &finished.state, &hint)
}

pub fn all(rt: &impl Print, machine: &mut Machine) -> io::Result<()> {
    machine.load_greeting(1, &[0x0000_000c]);
    // More bytes held than the room: 1, and nothing changes. 65,536 are not. The first four bytes are zeros, so the
    // announced length is 0, which is below the rest: all is kept.
    print!(rt; "65537 hint bytes held: ")?;
    write(rt, machine, 65537, 0)?;
    print!(rt; "65536 hint bytes held: ")?;
    write(rt, machine, 65536, 0)?;
    // One byte more than 65,535 fills the room, with the 'g' that stands at 2000. Two exceed it: 9, and only the step is
    // counted.
    print!(rt; "65535 held, 1 written: ")?;
    write(rt, machine, 65535, 1)?;
    print!(rt; "65535 held, 2 written: ")?;
    write(rt, machine, 65535, 2)
}
