// Lines of output: a label, and what a call answered or what a slice holds.
use pages::memory::{LoadError, StoreError};
use pages::page::PageError;
use pages::reader::Position;
use std::io;

/// What a lookup answered.
pub fn found(
    rt: &impl Print,
    label: &str,
    answer: Result<Option<usize>, PageError>,
) -> io::Result<()> {
    match answer {
        Ok(Some(i)) => println!(rt; "{label}: record {i}"),
        Ok(None) => println!(rt; "{label}: absent"),
        Err(e) => println!(rt; "{label}: {e}"),
    }
}

/// What a load answered.
pub fn loaded(rt: &impl Print, label: &str, answer: Result<u64, LoadError>) -> io::Result<()> {
    match answer {
        Ok(v) => println!(rt; "{label}: {v:016x}"),
        Err(e) => println!(rt; "{label}: {e}"),
    }
}

/// What a store answered; how many records are used now, where so many were before.
pub fn stored(
    rt: &impl Print,
    label: &str,
    used: usize,
    answer: Result<usize, StoreError>,
) -> io::Result<usize> {
    match answer {
        Ok(n) => println!(rt; "{label}: used {n}")?,
        Err(e) => println!(rt; "{label}: {e}")?,
    }
    Ok(answer.unwrap_or(used))
}

/// What a read answered, and where the reader stands now.
pub fn read(
    rt: &impl Print,
    label: &str,
    answer: Result<usize, PageError>,
    now: Position,
) -> io::Result<()> {
    let address = now.address;
    let count = now.count;
    match answer {
        Ok(n) => {
            println!(rt; "{label}: read {n}")?;
            println!(rt; "{label}: left {count}")?;
            println!(rt; "{label}: now at {address:016x}")
        }
        Err(e) => println!(rt; "{label}: {e}"),
    }
}

/// The part of s from one place to another, as far as s has it.
fn part(s: &[u8], from: usize, to: usize) -> &[u8] {
    let front = &s[..to.min(s.len())];
    &front[from.min(front.len())..]
}

/// The bytes of s from one place to another, in hexadecimal.
pub fn bytes(rt: &impl Print, label: &str, s: &[u8], from: usize, to: usize) -> io::Result<()> {
    print!(rt; "{label}: ")?;
    for b in part(s, from, to) {
        print!(rt; "{b:02x}")?;
    }
    println!(rt; "")
}

/// How many bytes of s from one place to another are not b.
pub fn others(
    rt: &impl Print,
    label: &str,
    s: &[u8],
    from: usize,
    to: usize,
    b: u8,
) -> io::Result<()> {
    let n = part(s, from, to).iter().filter(|x| **x != b).count();
    println!(rt; "{label}: differing {n}")
}
