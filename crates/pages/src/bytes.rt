// Big-endian numbers and runs of bytes at any place of a slice. What does not lie in the slice reads as 0 and is not written.
ghost use Rattle.std.specs.Prelude.{◌≡◌};
ghost use Rattle.pages.specs.Bytes.{bytes_of, zeros};
ghost use Rattle.pages.specs.Calls.{number_at, put_def, copy_def};

use crate::number::Number;
use crate::spans;

fn read<T: Number>(s: &[u8], at: usize) -> u64
    ensures { result ≡ number_at T.SIZE s.now at }
{
    if spans::holds(s.len(), at, T::SIZE) {
        return T::read(s, at);
    }
    0
}

fn put<T: Number>(s: &mut [u8], at: usize, value: T)
    ensures { s.new ≡ put_def s.old at (bytes_of T.SIZE (T.value value)) }
{
    if spans::holds(s.len(), at, T::SIZE) {
        value.write(s, at);
        return;
    }
}

/// The big-endian number of the four bytes at a place; 0 where they do not all lie in the slice.
pub fn word_at(s: &[u8], at: usize) -> u64
    ensures { result ≡ number_at 4 s.now at }
{
    read::<u32>(s, at)
}

/// The big-endian number of the eight bytes at a place; 0 where they do not all lie in the slice.
pub fn doubleword_at(s: &[u8], at: usize) -> u64
    ensures { result ≡ number_at 8 s.now at }
{
    read::<u64>(s, at)
}

/// Puts four bytes at a place, the highest first; nothing changes where they do not all lie in the slice.
pub fn put_word(s: &mut [u8], at: usize, value: u32)
    ensures { s.new ≡ put_def s.old at (bytes_of 4 value) }
{
    put(s, at, value);
}

/// Puts eight bytes at a place, the highest first; nothing changes where they do not all lie in the slice.
pub fn put_doubleword(s: &mut [u8], at: usize, value: u64)
    ensures { s.new ≡ put_def s.old at (bytes_of 8 value) }
{
    put(s, at, value);
}

/// Copies count bytes of src from one place on, to dst from another; nothing changes where they do not all lie in both.
pub fn copy(src: &[u8], from: usize, dst: &mut [u8], at: usize, count: usize)
    ensures { dst.new ≡ copy_def src.now from dst.old at count }
{
    if !spans::holds(src.len(), from, count) {
        return;
    }
    if !spans::holds(dst.len(), at, count) {
        return;
    }
    spans::copy(src, from, dst, at, count);
}

/// Puts count zeros at a place; nothing changes where they do not all lie in the slice.
pub fn clear(s: &mut [u8], at: usize, count: usize)
    ensures { s.new ≡ put_def s.old at (zeros count) }
{
    if spans::holds(s.len(), at, count) {
        spans::clear(s, at, count);
        return;
    }
}
