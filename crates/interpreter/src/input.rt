// The input: an index of keys, and the data (read_preimage).
ghost use Rattle.std.specs.Prelude.{◌≡◌, ◌+◌, ◌-◌, ◌/◌, ◌<◌, ◌≤◌, min, length};
ghost use Rattle.pages.specs.Bytes.{cell, row, bytes_of};
ghost use Rattle.interpreter.specs.Inputs.{has_key, entry_of, inside, part_def, moving, content, moved, merged, shifting, shifted};

use pages::bytes;

/// What an index has for a key: where the preimage starts in the data, and how long it is.
#[derive(Clone, Copy, Debug, PartialEq, Eq)]
pub struct Entry {
    pub start: u64,
    /// In bytes. It may be any number.
    pub length: u64,
}

impl Entry {
    /// How many bytes a key has.
    pub const KEY: usize = 32;

    /// A record of the index: key, start and length.
    pub const SIZE: usize = Entry::KEY + 16;
}

// Whether record i has the key.
fn has_key(index: &[u8], key: &[u8; 32], i: usize) -> bool
    requires { i < length index.now / 48 }
    ensures { result ≡ has_key index.now key.now i }
{
    let at = i * Entry::SIZE;
    let found = &index[at..at + Entry::KEY];
    // By doublewords: compared as slices, a key whose first four bytes are the other's takes up to two and a half times as long.
    for k in 0..4 {
        if bytes::doubleword_at(found, 8 * k) != bytes::doubleword_at(key, 8 * k) {
            return false;
        }
    }
    true
}

/// The first whole record with the key.
#[tactic(auto, using(crate::proofs::Laws::Inputs::entry_all, crate::proofs::Laws::Inputs::entry_read, crate::proofs::Laws::Inputs::entry_next, crate::proofs::Laws::Inputs::entry_none))]
pub fn entry_of(index: &[u8], key: &[u8; 32]) -> Option<Entry>
    ensures { result ≡ entry_of index.now key.now }
{
    for i in 0..index.len() / Entry::SIZE {
        if has_key(index, key, i) {
            let at = i * Entry::SIZE + Entry::KEY;
            return Some(Entry {
                start: bytes::doubleword_at(index, at),
                length: bytes::doubleword_at(index, at + 8),
            });
        }
    }
    None
}

/// Whether n bytes from start on lie in the data.
pub fn inside(data: &[u8], start: u64, n: u64) -> bool
    ensures { result ≡ inside «data».now start n }
{
    let length = data.len() as u64;
    if length < start {
        return false;
    }
    n <= length - start
}

/// The preimage as a part of the data, and the empty part where it does not lie inside.
#[tactic(auto, using(crate::proofs::Laws::Inputs::part_in, crate::proofs::Laws::Inputs::part_out))]
pub fn part_of(data: &[u8], start: u64, n: u64) -> &[u8]
    ensures { result.now ≡ part_def «data».now start n }
{
    if inside(data, start, n) {
        let a = start as usize;
        let e = a + n as usize;
        return &data[a..e];
    }
    &data[..0]
}

// How many bytes are left, at most 32. The preimage's length may be any number.
fn left(n: u64, offset: u64) -> u64
    requires { offset ≤ 8 + n }
    ensures { result ≡ min 32 (8 + n - offset) }
{
    if offset <= 8 {
        let front = 8 - offset;
        return front + n.min(32 - front);
    }
    (n - (offset - 8)).min(32)
}

// How many bytes a read moves.
#[tactic(auto, unfolding(crate::specs::Inputs::moving))]
pub(crate) fn moving(n: u64, offset: u64, a1: u64, a2: u64) -> u64
    requires { offset ≤ 8 + n }
    ensures { result ≡ moving n offset a1 a2 }
{
    a2.min((8 - a1 % 8).min(left(n, offset)))
}

// One byte of what the program reads: the preimage's length, then the preimage.
#[tactic(auto, using(crate::proofs::Laws::Inputs::bytes_eight, crate::proofs::Laws::Inputs::content_front, crate::proofs::Laws::Inputs::content_back))]
fn content_at(part: &[u8], i: u64) -> u8
    requires { i < 8 + length part.now }
    ensures { result ≡ cell (content part.now) i }
{
    if i < 8 {
        let size = (part.len() as u64).to_be_bytes();
        return size[i as usize];
    }
    part[(i - 8) as usize]
}

// A byte at a time: the length and the preimage meet anywhere in these eight, so that slices would be four cases.
// The eight bytes x with count bytes of what the program reads, from offset on, put in from byte at on.
#[tactic(auto, using(pages::proofs::Laws::Runs::sets_next, pages::proofs::Laws::Numbers::length_bytes, crate::proofs::Laws::Inputs::bytes_eight, crate::proofs::Laws::Inputs::row_start, crate::proofs::Laws::Inputs::merged_by))]
pub(crate) fn merge(x: u64, at: u64, part: &[u8], offset: u64, count: u64) -> u64
    requires { (at + count ≤ 8) × (offset + count ≤ 8 + length part.now) }
    ensures { result ≡ merged x at (moved part.now offset count) }
{
    let mut b = x.to_be_bytes();
    for i in 0..count {
        b[(at + i) as usize] = content_at(part, offset + i);
    }
    u64::from_be_bytes(b)
}

// How many bytes a write to 6 shifts into the key.
pub(crate) fn shifting(a1: u64, a2: u64) -> u64
    ensures { result ≡ shifting a1 a2 }
{
    a2.min(8 - a1 % 8)
}

// The key with count bytes of x, from byte at on, shifted into its end.
pub(crate) fn shift_key(key: &mut [u8; 32], x: u64, at: u64, count: u64)
    requires { at + count ≤ 8 }
    ensures { key.new ≡ shifted key.old (row (cell (bytes_of 8 x)) at count) }
{
    let n = count as usize;
    let old = *key;
    // Out of the old key, and not within the key: `copy_within` is a `memmove`, which the library for C does not call.
    bytes::copy(&old, n, key, 0, Entry::KEY - n);
    bytes::copy(&x.to_be_bytes(), at as usize, key, Entry::KEY - n, n);
}
