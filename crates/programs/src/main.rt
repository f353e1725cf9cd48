//! Small MIPS programs run to their end. What each must do is worked out by hand from document 01's rules, in the comments
//! beside it and in the file stdout.
#![tactic(auto)]

mod answer;
mod hint_room;
mod machine;
mod recording;

use crate::machine::Machine;
use pages::page::Page;
use std::io;

/// The sum of 10, 9, .. 1 in register 3, and an exit with it. One instruction, ten turns of four (the delay slot's nop runs in
/// each), and three more: 44 steps, and the sum is 55.
const SUM: [u32; 8] = [
    0x2408_000a, // 1000 addiu r8, r0, 10
    0x0068_1821, // 1004 addu r3, r3, r8
    0x2508_ffff, // 1008 addiu r8, r8, -1
    0x1500_fffd, // 100c bne r8, r0, 1004
    0x0000_0000, // 1010 nop, in the delay slot
    0x2402_1455, // 1014 addiu r2, r0, 5205
    0x0060_2021, // 1018 addu r4, r3, r0
    0x0000_000c, // 101c syscall
];

/// A call and a return: both delay slots run before what they stand behind. 5 + 5 + 1 in register 3, 8 steps; the link is 1008.
const CALL: [u32; 9] = [
    0x0c00_0406, // 1000 jal 1018
    0x2404_0005, // 1004 addiu r4, r0, 5, in the delay slot
    0x2402_1455, // 1008 addiu r2, r0, 5205
    0x0060_2021, // 100c addu r4, r3, r0
    0x0000_000c, // 1010 syscall
    0x0000_0000,
    0x0084_1821, // 1018 addu r3, r4, r4
    0x03e0_0008, // 101c jr r31
    0x2463_0001, // 1020 addiu r3, r3, 1, in the delay slot
];

/// Two writes and an exit: a run stops at each, and the next one goes on. The bytes are "geodesy\n" at 2000.
const WRITES: [u32; 13] = [
    0x2402_1389, // 1000 addiu r2, r0, 5001
    0x2404_0001, // 1004 addiu r4, r0, 1
    0x2405_2000, // 1008 addiu r5, r0, 0x2000
    0x2406_0003, // 100c addiu r6, r0, 3
    0x0000_000c, // 1010 syscall: "geo" to 1
    0x2402_1389, // 1014 addiu r2, r0, 5001
    0x2404_0002, // 1018 addiu r4, r0, 2
    0x2405_2003, // 101c addiu r5, r0, 0x2003
    0x2406_0005, // 1020 addiu r6, r0, 5
    0x0000_000c, // 1024 syscall: "desy\n" to 2
    0x2402_1455, // 1028 addiu r2, r0, 5205
    0x2404_0007, // 102c addiu r4, r0, 7
    0x0000_000c, // 1030 syscall
];

fn whole(rt: &impl Print, machine: &mut Machine) -> io::Result<()> {
    print!(rt; "a loop: ")?;
    machine.load(1, &SUM);
    machine.go(rt, 1000)?;
    print!(rt; "a call and its return: ")?;
    machine.load(1, &CALL);
    machine.go(rt, 1000)
}

fn writes(rt: &impl Print, machine: &mut Machine) -> io::Result<()> {
    machine.load_greeting(0, &WRITES);
    print!(rt; "output, first write: ")?;
    machine.go(rt, 1000)?;
    rt.write_all(&machine.output[..3])?;
    print!(rt; "\noutput, second write: ")?;
    machine.go(rt, 1000)?;
    rt.write_all(&machine.output[..4])?;
    print!(rt; "\noutput, exit: ")?;
    machine.go(rt, 1000)
}

/// The loop again: 20 steps are the first and four turns and three quarters of the fifth, so register 3 is 10 + 9 + 8 + 7 + 6 and
/// pc stands at the delay slot. 24 more end it. A third run finds it exited.
fn in_parts(rt: &impl Print, machine: &mut Machine) -> io::Result<()> {
    machine.load(1, &SUM);
    print!(rt; "a budget of 20: ")?;
    machine.go(rt, 20)?;
    print!(rt; "continued: ")?;
    machine.go(rt, 1000)?;
    print!(rt; "and once more: ")?;
    machine.go(rt, 5)
}

/// Refusals stop a run, and are not counted: a reserved instruction behind one that is not; rules 2, which budget 0 does not
/// see.
fn refusals(rt: &impl Print, machine: &mut Machine) -> io::Result<()> {
    machine.load(1, &[0x2403_0009, 0xf800_0000]);
    print!(rt; "a reserved instruction: ")?;
    machine.go(rt, 1000)?;
    print!(rt; "rules 2, budget 0: ")?;
    machine.state = Machine::first_state(2);
    machine.go(rt, 0)?;
    print!(rt; "rules 2, budget 1: ")?;
    machine.state = Machine::first_state(2);
    machine.go(rt, 1)
}

fn main(rt: HostRuntime) -> io::Result<()> {
    let mut machine = Machine {
        state: Machine::first_state(0),
        pages: [0; 2 * Page::RECORD_SIZE],
        used: 0,
        output: [0; 64],
    };
    whole(&rt, &mut machine)?;
    writes(&rt, &mut machine)?;
    in_parts(&rt, &mut machine)?;
    refusals(&rt, &mut machine)?;
    recording::all(&rt, &mut machine)?;
    hint_room::all(&rt, &mut machine)
}
