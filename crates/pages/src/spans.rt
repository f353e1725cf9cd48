// Runs of bytes at a place of a slice. The callers in this crate keep the places inside.
ghost use Rattle.std.specs.Prelude.{◌≡◌, ◌+◌, ◌≤◌, length, nat_le};
ghost use Rattle.std.proofs.lemmas.List.Edits.{sets};
ghost use Rattle.pages.specs.Bytes.{cell, row, zeros};

// Whether count places from one on lie in a length. The sum at + count could wrap.
pub fn holds(length: usize, at: usize, count: usize) -> bool
    ensures { result ≡ nat_le (at + count) length }
{
    if length < count {
        return false;
    }
    at <= length - count
}

// count zeros from a place on.
pub fn clear(s: &mut [u8], at: usize, count: usize)
    requires { at + count ≤ length s.old }
    ensures { s.new ≡ sets s.old at (zeros count) }
{
    s[at..at + count].fill(0);
}

// count bytes of src from one place on, to dst from another. Byte by byte, which the compiler makes a `memcpy` or a loop over
// many bytes a turn: by `copy_from_slice` it is a `memmove`, and the library for C calls only `memcpy` and `memset`
// (include/rocchivanda.h).
pub fn copy(src: &[u8], from: usize, dst: &mut [u8], at: usize, count: usize)
    requires { (from + count ≤ length src.now) × (at + count ≤ length dst.old) }
    ensures { dst.new ≡ sets dst.old at (row (cell src.now) from count) }
{
    for i in 0..count {
        dst[at + i] = src[from + i];
    }
}
