//! One vector of a list, behind its length (compare/README.md has the form; its offsets count the length's four bytes).
use interpreter::step::Values;

/// Reads a vector in the buffer at whose front it lies, and past its end on in the buffer: what an earlier vector left there, and
/// then zeros.
#[derive(Clone, Copy)]
pub struct Reader<'a> {
    rest: &'a [u8],
}

impl<'a> Reader<'a> {
    pub fn new(buffer: &'a [u8]) -> Reader<'a> {
        Reader { rest: buffer }
    }

    /// The next byte.
    fn byte(&mut self) -> u8 {
        let Some((byte, rest)) = self.rest.split_first() else {
            return 0;
        };
        self.rest = rest;
        *byte
    }

    /// The next bytes.
    fn array<const N: usize>(&mut self) -> [u8; N] {
        let mut bytes = [0u8; N];
        for byte in &mut bytes {
            *byte = self.byte();
        }
        bytes
    }

    /// The next number of four bytes.
    fn word(&mut self) -> u32 {
        u32::from_be_bytes(self.array())
    }

    /// The next length, of two bytes.
    fn length(&mut self) -> usize {
        usize::from(u16::from_be_bytes(self.array()))
    }

    /// The next bytes, as far as the buffer has so many. Zeros follow where it has fewer.
    fn take(&mut self, count: usize) -> &'a [u8] {
        let held = count.min(self.rest.len());
        let (bytes, rest) = self.rest.split_at(held);
        self.rest = rest;
        bytes
    }

    /// Lays the next patch list into a buffer. A byte past the buffer's end is passed over.
    pub fn patch(&mut self, buf: &mut [u8]) {
        let count = self.length();
        for _ in 0..count {
            let offset = self.word() as usize;
            let size = self.length();
            let bytes = self.take(size);
            let start = offset.min(buf.len());
            let end = offset.saturating_add(size).min(buf.len());
            for (k, byte) in buf[start..end].iter_mut().enumerate() {
                *byte = bytes.get(k).copied().unwrap_or(0);
            }
        }
    }
}

/// The numbers at the front of a vector.
#[derive(Clone, Copy)]
pub struct Front {
    pub fill: u8,
    /// What the judge's step answered, as the list has it: no conversion of the machine's makes an answer of the numbers.
    pub answer: Values,
    pub used: usize,
    pub used_after: usize,
    /// How much is lent of each buffer.
    pub pages: usize,
    pub hint: usize,
    pub output: usize,
    pub index: usize,
    pub data: usize,
}

impl Front {
    /// Reads a vector's front. The patch lists stand behind it.
    pub fn read(input: &mut Reader<'_>) -> Front {
        let [_, _, _, _, _, fill, kind, _]: [u8; 8] = input.array();
        let first = u64::from(input.word());
        let second = u64::from(input.word());
        Front {
            fill,
            answer: Values {
                kind,
                first,
                second,
            },
            used: input.length(),
            used_after: input.length(),
            pages: input.length(),
            hint: input.length(),
            output: input.length(),
            index: input.length(),
            data: input.length(),
        }
    }
}
