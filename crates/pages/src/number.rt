// Big-endian numbers of four and eight bytes, once over the width.
ghost use Rattle.std.specs.Prelude.{◌≡◌, ℕ, ◌+◌, ◌≤◌, ◌⊎◌, List, length};
ghost use Rattle.std.proofs.lemmas.List.Edits.{sets};
ghost use Rattle.pages.specs.Bytes.{big, bytes_of, cell};

use crate::memory::{Doubleword, Word};

/// A number as it stands in memory: a word (`u32`) or a doubleword (`u64`), the highest byte first.
pub(crate) trait Number: Copy {
    ghost SIZE: { ℕ };

    ghost widths: { (SIZE ≡ 4) ⊎ (SIZE ≡ 8) };

    ghost value: { Self → ℕ };

    /// How many bytes it has.
    const SIZE: usize;

    /// The number at a place of the slice, zero-extended: one load and a byte swap once compiled.
    fn read(s: &[u8], at: usize) -> u64
        requires { at + SIZE ≤ length s.now }
        ensures { result ≡ big SIZE (cell s.now) at };

    /// Writes the number at a place of the slice.
    fn write(self, s: &mut [u8], at: usize)
        requires { at + SIZE ≤ length s.old }
        ensures { s.new ≡ sets s.old at (bytes_of SIZE (value self)) };
}

impl Number for u32 {
    ghost use Rattle.std.proofs.Common.{inl, refl};

    ghost SIZE = { 4 };

    ghost widths = { inl refl };

    ghost value = { λ v. v };

    const SIZE: usize = Word::SIZE as usize;

    // By `from_be_bytes`, here or in `u64`, the machine's run loop takes 5 to 10 % more instructions.
    fn read(s: &[u8], at: usize) -> u64 {
        ((s[at] as u64 * 256 + s[at + 1] as u64) * 256 + s[at + 2] as u64) * 256 + s[at + 3] as u64
    }

    fn write(self, s: &mut [u8], at: usize) {
        s[at..at + 4].copy_from_slice(&self.to_be_bytes());
    }
}

impl Number for u64 {
    ghost use Rattle.std.proofs.Common.{inr, refl};

    ghost SIZE = { 8 };

    ghost widths = { inr refl };

    ghost value = { λ v. v };

    const SIZE: usize = Doubleword::SIZE as usize;

    // Byte by byte, as in `u32`.
    fn read(s: &[u8], at: usize) -> u64 {
        let high = ((s[at] as u64 * 256 + s[at + 1] as u64) * 256 + s[at + 2] as u64) * 256
            + s[at + 3] as u64;
        let upper = (high * 256 + s[at + 4] as u64) * 256 + s[at + 5] as u64;
        (upper * 256 + s[at + 6] as u64) * 256 + s[at + 7] as u64
    }

    // By `copy_from_slice` the machine's run loop takes 6 to 11 % more instructions.
    fn write(self, s: &mut [u8], at: usize) {
        let bytes = self.to_be_bytes();
        s[at] = bytes[0];
        s[at + 1] = bytes[1];
        s[at + 2] = bytes[2];
        s[at + 3] = bytes[3];
        s[at + 4] = bytes[4];
        s[at + 5] = bytes[5];
        s[at + 6] = bytes[6];
        s[at + 7] = bytes[7];
    }
}
