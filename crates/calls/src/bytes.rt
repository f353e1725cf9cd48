//! Bytes and numbers at places that are tested: 0 past the end, and a store past the end is none.
use pages::bytes;

pub fn byte(s: &[u8], at: usize) -> u8 {
    if at < s.len() { s[at] } else { 0 }
}

pub fn set(s: &mut [u8], at: usize, b: u8) {
    if at < s.len() {
        s[at] = b;
    }
}

pub fn wide(b: u8) -> u64 {
    b as u64
}

pub fn plus(a: usize, b: usize) -> usize {
    a.wrapping_add(b)
}

/// The big-endian number of the count bytes at a place.
pub fn number(s: &[u8], at: usize, count: usize) -> u64 {
    let mut v: u64 = 0;
    for k in 0..count {
        let b = wide(byte(s, plus(at, k)));
        v = (v % 0x100_0000_0000_0000 * 256).wrapping_add(b);
    }
    v
}

/// A number to the eight bytes at a place.
pub fn put_number(s: &mut [u8], at: usize, v: u64) {
    bytes::put_doubleword(s, at, v);
}

pub fn fill(s: &mut [u8], from: usize, to: usize, b: u8) {
    for k in from..to {
        set(s, k, b);
    }
}

/// The bytes from a place on.
pub fn copy(from: &[u8], at: usize, to: &mut [u8]) {
    for k in 0..to.len() {
        to[k] = byte(from, plus(at, k));
    }
}

/// Bytes to a place.
pub fn lay(from: &[u8], to: &mut [u8], at: usize) {
    for k in 0..from.len() {
        set(to, plus(at, k), byte(from, k));
    }
}

/// The first place where two buffers differ, or the length of the first.
pub fn difference(a: &[u8], b: &[u8]) -> usize {
    for k in 0..a.len() {
        if byte(a, k) != byte(b, k) {
            return k;
        }
    }
    a.len()
}
