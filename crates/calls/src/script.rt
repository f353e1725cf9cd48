//! Carries a list of cases out. A case is a line with its name, and words that set the machine; "step" makes a step of
//! it, and the words behind that say what has become of it. Whatever no word names must be as it was.
//!
//!     call N A0 A1 A2      registers 2, 4, 5, 6
//!     r N V                a register
//!     mem A HEX            memory (page 1, page 5, or the third record)
//!     entry I START SIZE   record I of the index, with the machine's key
//!     answers V E          a call's end: registers 2 and 7, and goes
//!     goes                 pc, next_pc and step move on
//!     counted              step moves on
//!     wrote S N, gave N, left C, refused N    the answer (else it is Stepped)
//!     open P               the third record becomes page P, all zero
//!     then                 the step is compared, and what follows sets the machine again
//!     valid HEX, invalid HEX                  whether bytes are UTF-8
//!
//! and "NUMBER V", "BUFFER AT HEX" for the names in words.rt.
ghost use Rattle.std.specs.Prelude.{◌≤◌};

use crate::machine::Kind;
use crate::run::Run;
use crate::words::Word;
use crate::{machine, run, sets, text};
use interpreter::utf8;
use std::io;

/// The name goes to the end of its line.
fn opened(rt: &impl Print, s: &[u8], m: &mut [u8], g: &[u8], r: Run) -> io::Result<Run> {
    let mut n = run::ended(rt, s, m, g, r)?;
    machine::plain(m);
    n.open = true;
    n.bad = Run::GOOD;
    n.from = text::next(s, r.at);
    n.to = text::line_end(s, n.from);
    n.at = text::start(s, n.to);
    Ok(n)
}

fn stepped(s: &[u8], m: &mut [u8], g: &mut [u8], r: Run) -> Run {
    let mut n = run::settled(m, g, r);
    machine::answer(m, Kind::STEPPED, 0, 0);
    machine::step(m, g);
    n.waits = true;
    n.at = text::next(s, r.at);
    n
}

fn within(n: usize, size: usize) -> usize
    ensures { result ≤ size }
{
    if size < n {
        return size;
    }
    n
}

fn valid_at(s: &[u8], at: usize) -> bool {
    let mut t = [0u8; 64];
    let n = within(text::hex(s, at, &mut t, 0), 64);
    utf8::valid(&t[..n])
}

fn judged(s: &[u8], r: Run, good: bool) -> Run {
    let at = text::next(s, r.at);
    let n = r.moved(text::next(s, at));
    if valid_at(s, at) == good {
        return n;
    }
    n.faulted(Run::TEXT)
}

/// One word with what belongs to it.
pub fn turn(rt: &impl Print, s: &[u8], m: &mut [u8], g: &mut [u8], r: Run) -> io::Result<Run> {
    let w = text::word(s, r.at);
    match w {
        Word::CASE => opened(rt, s, m, g, r),
        Word::STEP => Ok(stepped(s, m, g, r)),
        Word::THEN => Ok(run::settled(m, g, r.moved(text::next(s, r.at)))),
        Word::VALID => Ok(judged(s, r, true)),
        Word::INVALID => Ok(judged(s, r, false)),
        _ => Ok(sets::set_number(s, m, r, w)),
    }
}
