//! Runs each system call, descriptor and refusal of document 01 on small made-up machines, whose lent buffers are
//! prefilled so that a byte too many would show. The cases are in data/; what they expect is written down from
//! document 01.
#![tactic(auto)]

mod bytes;
mod machine;
mod run;
mod script;
mod sets;
mod text;
mod words;

use crate::run::Run;
use std::io::Read;
use std::rt::Files;
use std::{fs, io};

/// Fills buf from its front with a file, as far as both go.
fn read(rt: &(impl Files + Eprint), path: &str, buf: &mut [u8]) -> io::Result<()> {
    let mut file = match fs::open(rt, path) {
        Ok(file) => file,
        Err(error) => {
            let _ = eprintln!(rt; "{path}: {error}");
            return Ok(());
        }
    };
    let mut done = 0;
    while done < buf.len() {
        let count = file.read(&mut buf[done..])?;
        if count == 0 {
            return Ok(());
        }
        done += count;
    }
    Ok(())
}

/// Carries the cases of a list out, whose bytes behind the end are blanks.
fn carry(rt: &impl Print, s: &[u8], m: &mut [u8], g: &mut [u8], r: Run) -> io::Result<Run> {
    let mut n = r.moved(text::start(s, 0));
    for _ in 0..s.len() {
        if s.len() <= n.at {
            return run::ended(rt, s, m, g, n);
        }
        n = script::turn(rt, s, m, g, n)?;
    }
    run::ended(rt, s, m, g, n)
}

fn list(rt: &(impl Files + Print + Eprint), path: &str, r: Run) -> io::Result<Run> {
    let mut s = [b' '; 32768];
    let mut m = [0u8; 13517];
    let mut g = [0u8; 13517];
    read(rt, path, &mut s)?;
    carry(rt, &s, &mut m, &mut g, r)
}

fn main(rt: HostRuntime) -> io::Result<()> {
    let r = Run::new(0, 0);
    let r = list(&rt, "calls.txt", r)?;
    let r = list(&rt, "input.txt", r)?;
    let r = list(&rt, "output.txt", r)?;
    let r = list(&rt, "hints.txt", r)?;
    let r = list(&rt, "utf8.txt", r)?;
    let r = list(&rt, "refusals.txt", r)?;
    let cases = r.cases;
    let wrong = r.wrong;
    println!(rt; "{cases} cases, {wrong} wrong")
}
