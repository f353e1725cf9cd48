//! How far a list of cases is read, and how its cases went.
use crate::bytes;
use std::io;

#[derive(Clone, Copy)]
pub struct Run {
    pub at: usize,
    pub cases: u64,
    pub wrong: u64,
    // The open case: whether there is one, its name, whether a step waits to be compared, and the first place that was
    // wrong or 0xffff.
    pub open: bool,
    pub from: usize,
    pub to: usize,
    pub waits: bool,
    pub bad: usize,
}

impl Run {
    pub const GOOD: usize = 0xffff;

    // What is wrong with a word that cannot be read, and with a text.
    pub const UNREAD: usize = 0xfffe;

    pub const TEXT: usize = 0xfffd;

    pub fn new(cases: u64, wrong: u64) -> Run {
        Run {
            at: 0,
            cases,
            wrong,
            open: false,
            from: 0,
            to: 0,
            waits: false,
            bad: Run::GOOD,
        }
    }

    pub fn moved(self, at: usize) -> Run {
        let mut r = self;
        r.at = at;
        r
    }

    pub fn faulted(self, place: usize) -> Run {
        let mut r = self;
        if r.bad == Run::GOOD {
            r.bad = place;
        }
        r
    }
}

fn more(n: u64) -> u64 {
    n.wrapping_add(1)
}

/// Compares the machine that the words describe with the one that was stepped.
pub fn settled(m: &[u8], g: &[u8], r: Run) -> Run {
    let mut n = r;
    n.waits = false;
    if r.waits {
        let at = bytes::difference(m, g);
        if at < m.len() {
            return n.faulted(at);
        }
    }
    n
}

fn print_name(rt: &impl Print, s: &[u8], r: Run) -> io::Result<()> {
    for k in r.from..r.to {
        let b = [bytes::byte(s, k)];
        rt.write_all(&b)?;
    }
    Ok(())
}

fn closed(rt: &impl Print, s: &[u8], r: Run) -> io::Result<Run> {
    let mut n = r;
    if r.open {
        print_name(rt, s, r)?;
        n.open = false;
        n.cases = more(r.cases);
        if r.bad == Run::GOOD {
            println!(rt; ": ok")?;
            return Ok(n);
        }
        let bad = r.bad;
        println!(rt; ": wrong at {bad}")?;
        n.wrong = more(r.wrong);
    }
    Ok(n)
}

pub fn ended(rt: &impl Print, s: &[u8], m: &[u8], g: &[u8], r: Run) -> io::Result<Run> {
    closed(rt, s, settled(m, g, r))
}
