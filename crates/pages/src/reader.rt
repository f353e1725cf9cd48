// Bytes from any address on, also across pages and past 2^64.
ghost use Rattle.std.specs.Prelude.{◌≡◌, ◌+◌, ◌%◌, ◌<◌, ◌≤◌, length};
ghost use Rattle.pages.specs.Memory.{span};
ghost use Rattle.pages.specs.Pages.{byte_at};
ghost use Rattle.pages.specs.Calls.{given, read_def, put_def, reader};

use crate::page::{Page, PageError, Pages};
use crate::spans;

/// Where a reader stands, and how many bytes it may still read.
#[derive(Clone, Copy, Debug, PartialEq, Eq)]
pub struct Position {
    pub address: u64,
    pub count: u64,
}

// How many of count bytes from the address on lie in its page.
fn in_page(address: u64, count: usize) -> usize
    ensures { (result ≤ count) × (address % 4096 + result ≤ 4096) × (0 < count → 0 < result) }
{
    let rest = Page::SIZE - (address % Page::ADDRESSES) as usize;
    rest.min(count)
}

impl<'a> Pages<'a> {
    // Bytes that lie in one page, to the whole of buf.
    fn copy_in_page(&self, address: u64, buf: &mut [u8])
        requires { address % 4096 + length buf.old ≤ 4096 }
        ensures { buf.new ≡ span (byte_at self.now.bytes.now self.now.used) address (length buf.old) }
    {
        match self.place_of(address) {
            Some(at) => {
                let count = buf.len();
                spans::copy(self.bytes, at, buf, 0, count);
            }
            None => buf.fill(0),
        }
    }

    /// The bytes from the address on, to the whole of buf: one lookup a page. The address after 2^64 - 1 is 0.
    pub fn copy(&self, address: u64, buf: &mut [u8])
        ensures { buf.new ≡ span (byte_at self.now.bytes.now self.now.used) address (length buf.old) }
    {
        let count = buf.len();
        let mut done = 0;
        // Each turn takes what is left of its page, so `chunks_mut` would need the first page apart.
        while done < count {
            let next = address.wrapping_add(done as u64);
            let n = in_page(next, count - done);
            self.copy_in_page(next, &mut buf[done..done + n]);
            done += n;
        }
    }
}

impl Position {
    /// Reads as many bytes as may be read and buf holds, moves on behind them and answers how many they were.
    /// In a refusal it stands where it stood, and buf is as it was.
    pub fn read(&mut self, pages: &[u8], used: usize, buf: &mut [u8]) -> Result<usize, PageError>
        ensures { given result self.new buf.new ≡ read_def pages.now used self.old buf.old }
    {
        let records = Pages::new(pages, used)?;
        let n = self.count.min(buf.len() as u64) as usize;
        records.copy(self.address, &mut buf[..n]);
        self.address = self.address.wrapping_add(n as u64);
        self.count -= n as u64;
        Ok(n)
    }
}

/// A reader that holds the pages' slice. Its functions are thin: `Position` does the work.
#[derive(Clone, Copy)]
pub struct MemoryReader<'a> {
    pub pages: &'a [u8],
    pub used: usize,
    pub position: Position,
}

impl<'a> MemoryReader<'a> {
    /// A reader of count bytes from the address on. More records may be said to be used than there are: a read tells.
    pub fn new(pages: &'a [u8], used: usize, address: u64, count: u64) -> MemoryReader<'a>
        ensures { result ≡ reader pages.entry used address count }
    {
        MemoryReader {
            pages,
            used,
            position: Position { address, count },
        }
    }

    /// Reads as many bytes as may be read and buf holds, moves on behind them and answers how many they were.
    /// In a refusal it stands where it stood, and buf is as it was.
    pub fn read(&mut self, buf: &mut [u8]) -> Result<usize, PageError>
        ensures same { (self.new.pages ≡ self.old.pages) × (self.new.used ≡ self.old.used) }
        ensures read { given result self.new.position buf.new ≡ read_def self.old.pages.now self.old.used self.old.position buf.old }
    {
        self.position.read(self.pages, self.used, buf)
    }
}

/// count bytes from the address on, to buf from a place on, where they lie in buf, and nothing where they do not.
/// Where more records are said to be used than there are, each byte counts as zero.
pub fn copy_out(pages: &[u8], used: usize, address: u64, buf: &mut [u8], at: usize, count: usize)
    ensures { buf.new ≡ put_def buf.old at (span (byte_at pages.now used) address count) }
{
    if !spans::holds(buf.len(), at, count) {
        return;
    }
    let part = &mut buf[at..at + count];
    let mut reader = MemoryReader::new(pages, used, address, count as u64);
    match reader.read(part) {
        Ok(_) => {}
        Err(PageError::Overused) => part.fill(0),
    }
}
