//! Document 01's examples 1 to 12 through the kernel, under rules 0 and rules 1, and its sentence on sign_extend. The file
//! stdout has document 01's numbers.
#![tactic(auto)]

use interpreter::effect::{Change, Ins, Stop};
use interpreter::{bits, cpu};
use std::io;

/// Document 01's M.
const M: u64 = 0x0102_0304_0506_0708;

const ONES: u64 = u64::MAX;

/// Prints the part of an instruction's change that `part` picks, or that there is none.
fn show<F: Fn(Change) -> u64>(rt: &impl Print, i: Ins, part: &F) -> io::Result<()>
    requires { F.IsAlwaysCallable part.now }
{
    match cpu::kernel(i) {
        Ok(change) => {
            let value = part(change);
            print!(rt; "0x{value:016x}")
        }
        Err(Stop::Refused(refusal)) => {
            let number = u8::from(refusal);
            print!(rt; "refused {number}")
        }
        Err(Stop::Call) => print!(rt; "call"),
    }
}

/// An instruction word with what it reads, under both rules.
fn example<F: Fn(Change) -> u64 + Drop>(
    rt: &impl Print,
    name: &str,
    word: u64,
    rs: u64,
    second: u64,
    mem: u64,
    part: F,
) -> io::Result<()>
    requires { F.IsAlwaysCallable part }
{
    let under = |rules| Ins {
        rules,
        word,
        rs,
        rt: second,
        pc: 0,
        next: 4,
        hi: 0,
        lo: 0,
        mem,
    };
    print!(rt; "{name}: ")?;
    show(rt, under(0), &part)?;
    print!(rt; " / ")?;
    show(rt, under(1), &part)?;
    println!(rt; "")
}

/// Words: rs is register 1, rt register 2, rd register 3.
fn registers(rt: &impl Print) -> io::Result<()> {
    // SLL 3, 2, 31
    example(
        rt,
        "1. SLL 2 by 31",
        0x0002_1fc0,
        0,
        2,
        0,
        |change| change.value,
    )?;
    // SRAV 3, 2, 1
    example(
        rt,
        "2. SRAV 1 by 32",
        0x0022_1807,
        32,
        1,
        0,
        |change| change.value,
    )?;
    // SUBU 3, 1, 2
    example(
        rt,
        "3. SUBU",
        0x0022_1823,
        0xffff_ffff_8000_0000,
        1,
        0,
        |change| change.value,
    )?;
    // SPECIAL2 functions 0x20 and 0x21 on 1
    example(
        rt,
        "8. funct 0x20 on 0",
        0x7022_1820,
        0,
        0,
        0,
        |change| change.value,
    )?;
    example(
        rt,
        "8. funct 0x21 on 0",
        0x7022_1821,
        0,
        0,
        0,
        |change| change.value,
    )
}

fn hi_and_lo(rt: &impl Print) -> io::Result<()> {
    // DIVU 1, 2
    example(
        rt,
        "4. DIVU, lo",
        0x0022_001b,
        0xffff_ffff,
        1,
        0,
        |change| change.lo,
    )?;
    // DMULT 1, 2
    example(
        rt,
        "5. DMULT, hi",
        0x0022_001c,
        ONES,
        1,
        0,
        |change| change.hi,
    )?;
    // DIV 1, 2
    example(
        rt,
        "6. DIV least by -1, lo",
        0x0022_001a,
        0xffff_ffff_8000_0000,
        ONES,
        0,
        |change| change.lo,
    )?;
    example(
        rt,
        "7. DIV by 0x100000000",
        0x0022_001a,
        1,
        0x1_0000_0000,
        0,
        |change| change.lo,
    )
}

fn memory(rt: &impl Print) -> io::Result<()> {
    // LDR 2, 7(1)
    example(
        rt,
        "9. LDR at 7",
        0x6c22_0007,
        0,
        0xf000_0000_0000_0000,
        M,
        |change| change.value,
    )?;
    // LWL 2, 1(1)
    example(
        rt,
        "10. LWL at 1",
        0x8822_0001,
        0,
        0xaabb_ccdd,
        M,
        |change| change.value,
    )?;
    // LWR 2, 5(1)
    example(
        rt,
        "11. LWR at 5",
        0x9822_0005,
        0,
        0,
        M,
        |change| change.value,
    )?;
    // SWR 2, 5(1)
    example(
        rt,
        "12. SWR at 5",
        0xb822_0005,
        0,
        0x1122_3344,
        0,
        |change| change.store.unwrap_or(0),
    )
}

/// Counts are modulo 64, a multiple of 64 gives 0, and every bit from index - 1 up is a sign.
fn signs(rt: &impl Print) -> io::Result<()> {
    for (x, index) in [
        (M, 0),
        (M, 64),
        (0x7f, 8),
        (0x80, 8),
        (0x100, 8),
        (0x80, 72),
        (1, 1),
        (0x8000_0000_0000_0000, 63),
    ] {
        let extended = bits::sign_extend(x, index);
        println!(rt; "sign_extend 0x{x:016x} from {index}: 0x{extended:016x}")?;
    }
    Ok(())
}

fn main(rt: HostRuntime) -> io::Result<()> {
    registers(&rt)?;
    hi_and_lo(&rt)?;
    memory(&rt)?;
    signs(&rt)
}
