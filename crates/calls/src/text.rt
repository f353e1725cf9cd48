//! Words of a list of cases: they are parted by blanks and line ends, and a # hides the rest of its line.
use crate::bytes;

fn in_note(note: bool, b: u8) -> bool {
    if b == b'#' {
        return true;
    }
    if b == b'\n' {
        return false;
    }
    note
}

fn solid(note: bool, b: u8) -> bool {
    if note {
        return false;
    }
    b > b' '
}

/// The first place of a word, from a place on.
pub fn start(s: &[u8], at: usize) -> usize {
    let mut note = false;
    for k in at..s.len() {
        let b = bytes::byte(s, k);
        note = in_note(note, b);
        if solid(note, b) {
            return k;
        }
    }
    s.len()
}

fn end(s: &[u8], at: usize) -> usize {
    for k in at..s.len() {
        if bytes::byte(s, k) <= b' ' {
            return k;
        }
    }
    s.len()
}

pub fn line_end(s: &[u8], at: usize) -> usize {
    for k in at..s.len() {
        if bytes::byte(s, k) == b'\n' {
            return k;
        }
    }
    s.len()
}

/// Where the word behind the one at a place starts.
pub fn next(s: &[u8], at: usize) -> usize {
    start(s, end(s, at))
}

/// A word of up to eight letters as a number.
pub fn word(s: &[u8], at: usize) -> u64 {
    bytes::number(s, at, end(s, at).wrapping_sub(at))
}

/// 16 for what is no digit.
fn digit(b: u8) -> u64 {
    if b < b'0' {
        return 16;
    }
    if b <= b'9' {
        return bytes::wide(b - b'0');
    }
    if b < b'a' {
        return 16;
    }
    if b <= b'f' {
        return bytes::wide(b - 87);
    }
    16
}

fn hexadecimal(s: &[u8], at: usize) -> u64 {
    let mut v: u64 = 0;
    for k in at..s.len() {
        let d = digit(bytes::byte(s, k));
        if d > 15 {
            return v;
        }
        v = (v % 0x1000_0000_0000_0000 * 16).wrapping_add(d);
    }
    v
}

fn decimal(s: &[u8], at: usize) -> u64 {
    let mut v: u64 = 0;
    for k in at..s.len() {
        let d = digit(bytes::byte(s, k));
        if d > 9 {
            return v;
        }
        v = (v % 0x1000_0000_0000_0000 * 10).wrapping_add(d);
    }
    v
}

/// The number at a place: decimal, or hexadecimal behind 0x.
pub fn value(s: &[u8], at: usize) -> u64 {
    let second = bytes::plus(at, 1);
    if bytes::byte(s, second) == b'x' {
        return hexadecimal(s, bytes::plus(at, 2));
    }
    decimal(s, at)
}

/// The number at a place, as a place or a count.
pub fn place(s: &[u8], at: usize) -> usize {
    (value(s, at) % 0x1_0000_0000) as usize
}

/// Pairs of hexadecimal digits as bytes to a place of a buffer, and how many there were.
pub fn hex(s: &[u8], at: usize, to: &mut [u8], place: usize) -> usize {
    for k in 0..256 {
        let first = bytes::plus(bytes::plus(at, k), k);
        let high = digit(bytes::byte(s, first));
        if high > 15 {
            return k;
        }
        let low = digit(bytes::byte(s, bytes::plus(first, 1)));
        bytes::set(to, bytes::plus(place, k), (high % 16 * 16 + low % 16) as u8);
    }
    256
}
