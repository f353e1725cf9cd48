//! Replays the fixed lists of whole steps that the unchanged Rust (rules 0) and QEMU (rules 1) made, each by `step`, by a
//! `run` of one and as the second step of a run, and says of each list how many steps differ. compare/README.md says how the
//! lists are made and what their form is.
#![tactic(auto)]

mod machine;
mod second;
mod vector;

use crate::machine::{Buffers, Replayed};
use interpreter::step::Answer;
use std::io::Read;
use std::rt::Files;
use std::{fmt, fs, io};

/// How a list went: the steps that are as the judge says, by the kind of their answer, those of them that were the second step
/// of a run too, and the steps that differ.
#[derive(Clone, Copy, Default)]
struct Tally {
    stepped: u64,
    wrote: u64,
    hint: u64,
    exited: u64,
    refused: u64,
    twice: u64,
    wrong: u64,
}

fn count(n: &mut u64) {
    *n = n.wrapping_add(1);
}

impl Tally {
    fn add(&mut self, answer: Answer, twice: bool) {
        match answer {
            Answer::Stepped => count(&mut self.stepped),
            Answer::Wrote(_, _) => count(&mut self.wrote),
            Answer::Hint(_) => count(&mut self.hint),
            Answer::Exited(_) => count(&mut self.exited),
            Answer::Refused(_) => count(&mut self.refused),
        }
        if twice {
            count(&mut self.twice);
        }
    }
}

impl fmt::Display for Tally {
    fn fmt<W: fmt::Write>(&self, f: &mut fmt::Formatter<W>) -> fmt::Result {
        let Tally {
            stepped,
            wrote,
            hint,
            exited,
            refused,
            twice,
            wrong,
        } = *self;
        let all = [stepped, wrote, hint, exited, refused]
            .iter()
            .fold(0u64, |sum, n| sum.wrapping_add(*n));
        write!(f, "{all} steps as the judge says ")?;
        write!(
            f,
            "(Stepped {stepped}, Wrote {wrote}, Hint {hint}, Exited {exited}, Refused {refused}), "
        )?;
        write!(f, "{twice} also as a run's second, {wrong} differ")
    }
}

/// Fills buf, and answers whether it could: not where the list ends before.
fn is_filled(list: &mut impl Read, buf: &mut [u8]) -> io::Result<bool> {
    match list.read_exact(buf) {
        Ok(()) => Ok(true),
        Err(error) if error.kind() == io::ErrorKind::UnexpectedEof => Ok(false),
        Err(error) => Err(error),
    }
}

/// Reads the next vector behind its length to the front of v, over what an earlier one left there, and answers whether it could:
/// not where the list is cut short.
fn next(list: &mut impl Read, v: &mut [u8; 8192]) -> io::Result<bool> {
    let mut head = [0u8; 4];
    if !is_filled(list, &mut head)? {
        return Ok(false);
    }
    let size = u32::from_be_bytes(head) as usize;
    if size <= 4 || v.len() <= size {
        return Ok(false);
    }
    let rest = size - 4;
    is_filled(list, &mut v[..rest])
}

/// Replays the next vector of a list.
fn turn(
    rt: &impl Print,
    list: &mut impl Read,
    name: &str,
    v: &mut [u8; 8192],
    buffers: &mut Buffers,
    after: &mut Buffers,
    tally: &mut Tally,
) -> io::Result<()> {
    let replayed = if next(list, v)? {
        machine::replay(v, buffers, after)
    } else {
        println!(rt; "the list is cut short")?;
        Replayed::Differs
    };
    match replayed {
        Replayed::Agrees { answer, twice } => {
            tally.add(answer, twice);
            Ok(())
        }
        Replayed::Differs => {
            count(&mut tally.wrong);
            let ordinal = u32::from_be_bytes([v[0], v[1], v[2], v[3]]);
            println!(rt; "{name}: {ordinal} differs")
        }
    }
}

fn replay(rt: &impl Print, list: &mut impl Read, name: &str) -> io::Result<()> {
    let mut head = [0u8; 12];
    is_filled(list, &mut head)?;
    let count = u32::from_be_bytes([head[8], head[9], head[10], head[11]]);
    let mut v = [0u8; 8192];
    let mut buffers = Buffers::new();
    let mut after = Buffers::new();
    let mut tally = Tally::default();
    for _ in 0..count {
        turn(rt, list, name, &mut v, &mut buffers, &mut after, &mut tally)?;
    }
    println!(rt; "{name}: {tally}")
}

fn list(rt: &(impl Files + Print + Eprint), path: &str, name: &str) -> io::Result<()> {
    match fs::open(rt, path) {
        Ok(mut file) => replay(rt, &mut file, name),
        Err(error) => {
            let _ = eprintln!(rt; "{path}: {error}");
            Ok(())
        }
    }
}

fn main(rt: HostRuntime) -> io::Result<()> {
    list(&rt, "rules0.vec", "rules 0")?;
    list(&rt, "rules1.vec", "rules 1")
}
