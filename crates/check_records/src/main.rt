//! Judges the step records of standard input, and writes a line for each: its position and the verdict.
#![tactic(auto)]

mod lines;
mod stream;

use std::io;

/// A failure is said on standard error, and the exit status stays 0.
fn main(rt: HostRuntime) {
    let _ = stream::judge(&rt, &mut rt.stdin(), &mut io::writer(&rt));
}
