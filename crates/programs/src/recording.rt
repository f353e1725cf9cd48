//! The recording step: records of steps that touch eight bytes and of one that doesn't; what leaves the buffer; a buffer of
//! the wrong length.
use crate::answer::Said;
use crate::machine::Machine;
use interpreter::record;
use interpreter::record::Record;
use interpreter::state::State;
use pages::bytes;
use std::io;

/// What the buffer holds beforehand.
const FILL: u8 = 0xee;

fn yes(is_so: bool) -> &'static str {
    if is_so { "yes" } else { "no" }
}

/// Whether bytes are those of a state.
fn shows(buf: &[u8], state: State) -> &'static str {
    let bytes = state.encode();
    yes(buf == &bytes[..])
}

fn leaves(buf: &[u8]) -> &'static str {
    yes(buf.iter().all(|byte| *byte == FILL))
}

/// Makes a recorded step, and says its answer. The index has an empty input with the key of zeros.
fn go(rt: &impl Print, machine: &mut Machine, buf: &mut [u8]) -> io::Result<()> {
    let mut hint = [0u8; 16];
    let mut output = [0u8; 16];
    let index = [0u8; 48];
    let finished = record::step_recorded(
        machine.state,
        &mut machine.pages,
        machine.used,
        &mut hint,
        &mut output,
        &index,
        &[],
        buf,
    );
    machine.state = finished.state;
    machine.used = finished.used;
    let answer = Said(finished.answer);
    println!(rt; "{answer}")
}

/// What is recorded of a step.
fn recorded(rt: &impl Print, machine: &mut Machine) -> io::Result<()> {
    let mut buf = [FILL; Record::SIZE];
    let before = machine.state;
    go(rt, machine, &mut buf)?;
    let old = shows(&buf[Record::OLD_STATE..Record::NEW_STATE], before);
    println!(rt; "  shows the old state: {old}")?;
    let new = shows(&buf[Record::NEW_STATE..Record::WORD], machine.state);
    println!(rt; "  shows the new state: {new}")?;
    let word = bytes::word_at(&buf, Record::WORD);
    let spare = bytes::word_at(&buf, Record::SPARE);
    println!(rt; "  instruction {word:08x}, then {spare:08x}")?;
    let address = bytes::doubleword_at(&buf, Record::ADDRESS);
    let old = bytes::doubleword_at(&buf, Record::OLD_EIGHT);
    let new = bytes::doubleword_at(&buf, Record::NEW_EIGHT);
    println!(rt; "  at {address:016x} {old:016x} became {new:016x}")
}

/// A step of which nothing is recorded.
fn unrecorded(rt: &impl Print, machine: &mut Machine) -> io::Result<()> {
    let mut buf = [FILL; Record::SIZE];
    go(rt, machine, &mut buf)?;
    let left = leaves(&buf);
    println!(rt; "  leaves the buffer: {left}")
}

/// sw r3, 0x2004(r0) with 9 in register 3: the doubleword at 2000 was "geodesy\n".
fn store(rt: &impl Print, machine: &mut Machine) -> io::Result<()> {
    machine.load_greeting(1, &[0xac03_2004]);
    machine.state.regs[3] = 9;
    print!(rt; "a recorded store: ")?;
    recorded(rt, machine)
}

/// The state before a call with its number and descriptor, of two bytes at 2003.
fn calling(number: u64, descriptor: u64) -> State {
    let mut state = Machine::first_state(1);
    state.regs[2] = number;
    state.regs[4] = descriptor;
    state.regs[5] = 0x2003;
    state.regs[6] = 2;
    state.hi = 1;
    state.lo = 2;
    state
}

/// Calls of one program, each from a state of its own.
fn calls(rt: &impl Print, machine: &mut Machine) -> io::Result<()> {
    machine.load_greeting(1, &[0x0000_000c]);
    // 5001 on 6 touches the eight bytes that a1 lies in, and leaves them.
    print!(rt; "a recorded write to 6: ")?;
    machine.state = calling(5001, 6);
    recorded(rt, machine)?;
    // 5012 touches none.
    print!(rt; "a recorded 5012: ")?;
    machine.state = calling(5012, 6);
    recorded(rt, machine)?;
    // 5001 on 1, 2 and 4 is wide, and so is 5000 on 5.
    print!(rt; "a write to 1: ")?;
    machine.state = calling(5001, 1);
    unrecorded(rt, machine)?;
    print!(rt; "a write to 2: ")?;
    machine.state = calling(5001, 2);
    unrecorded(rt, machine)?;
    print!(rt; "a write to 4: ")?;
    machine.state = calling(5001, 4);
    unrecorded(rt, machine)?;
    print!(rt; "a read from 5: ")?;
    machine.state = calling(5000, 5);
    unrecorded(rt, machine)
}

/// From an exited state nothing is recorded, and a reserved instruction is refused with 3.
fn stopped(rt: &impl Print, machine: &mut Machine) -> io::Result<()> {
    machine.load(1, &[0x0000_000c]);
    machine.state.exited = true;
    machine.state.code = 7;
    print!(rt; "an exited state: ")?;
    unrecorded(rt, machine)?;
    machine.load(1, &[0xf800_0000]);
    print!(rt; "a refused step: ")?;
    unrecorded(rt, machine)
}

fn too_short(rt: &impl Print, machine: &mut Machine) -> io::Result<()> {
    machine.load(1, &[0]);
    let mut buf = [FILL; Record::SIZE - 1];
    print!(rt; "a buffer of 751 bytes: ")?;
    go(rt, machine, &mut buf)?;
    let left = leaves(&buf);
    println!(rt; "  leaves the buffer: {left}")?;
    let stays = yes(machine.state.pc == Machine::START);
    println!(rt; "  leaves the state: {stays}")
}

pub fn all(rt: &impl Print, machine: &mut Machine) -> io::Result<()> {
    store(rt, machine)?;
    calls(rt, machine)?;
    stopped(rt, machine)?;
    too_short(rt, machine)
}
