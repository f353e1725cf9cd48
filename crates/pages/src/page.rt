// The page records, and which of them holds a page.
ghost use Rattle.std.specs.Prelude.{◌≡◌, ◌+◌, ◌/◌, ◌%◌, ◌<◌, ◌≤◌, length, IfOk, IfErr, OnOk, OnErr, Ok, Err};
ghost use Rattle.std.specs.Bool.{OnTrue, OnFalse};
ghost use Rattle.pages.specs.Bytes.{big, bytes_of};
ghost use Rattle.pages.specs.Pages.{whole, lookup, byte_at, open_page};
ghost use Rattle.pages.specs.Places.{place_of};
ghost use Rattle.pages.specs.Calls.{stored, store_def};
ghost use Rattle.pages.specs.declared.page.PageError.TheVariants.{Overused};
ghost use Rattle.pages.specs.declared.memory.StoreError.TheVariants.{Full};

use crate::number::Number;
use crate::spans;
use std::error::Error;
use std::fmt;

#[derive(Clone, Copy)]
pub struct Page {
    pub number: u64,
}

impl Page {
    pub const SIZE: usize = 4096;

    /// The page's number stands before its bytes.
    pub const NUMBER_SIZE: usize = 8;

    pub const RECORD_SIZE: usize = 4104;

    /// How many addresses a page spans.
    pub const ADDRESSES: u64 = 4096;
}

/// Why the records were not looked through.
#[derive(Clone, Copy, Debug, PartialEq, Eq)]
pub enum PageError {
    /// More records are said to be used than the slice has.
    Overused,
}

impl fmt::Display for PageError {
    fn fmt<W: fmt::Write>(&self, f: &mut fmt::Formatter<W>) -> fmt::Result {
        write!(f, "overused")
    }
}

impl Error for PageError {}

/// No record is left for a page that is absent.
#[derive(Clone, Copy, Debug, PartialEq, Eq)]
pub(crate) struct NoRecordLeft;

impl fmt::Display for NoRecordLeft {
    fn fmt<W: fmt::Write>(&self, f: &mut fmt::Formatter<W>) -> fmt::Result {
        write!(f, "full")
    }
}

impl Error for NoRecordLeft {}

/// Records that are lent to be read, and how many of them are used: no more than there are.
#[derive(Clone, Copy)]
pub(crate) struct Pages<'a> {
    pub bytes: &'a [u8],
    pub used: usize,
    pub ghost within: { used ≤ length bytes.now / 4104 },
}

impl<'a> Pages<'a> {
    /// Refused where more records are said to be used than the slice has.
    pub(crate) fn new(bytes: &'a [u8], used: usize) -> Result<Pages<'a>, PageError>
        ensures ok { IfOk result (λ p. (p.bytes ≡ bytes.entry) × (p.used ≡ used) × (used ≤ whole bytes.now)) }
        ensures overused { IfErr result (λ e. (e ≡ Overused) × (whole bytes.now < used)) }
    {
        if bytes.len() / Page::RECORD_SIZE < used {
            return Err(PageError::Overused);
        }
        Ok(Pages { bytes, used })
    }

    /// The first used record with the number.
    pub(crate) fn record_of(&self, number: u64) -> Option<usize>
        ensures { Ok result ≡ lookup self.now.bytes.now self.now.used number }
    {
        // `chunks_exact` with `position` or `find` is 0.16 to 0.95 times as fast.
        for i in 0..self.used {
            if u64::read(self.bytes, i * Page::RECORD_SIZE) == number {
                return Some(i);
            }
        }
        None
    }

    // Where the byte of an address stands.
    pub(crate) fn place_of(&self, address: u64) -> Option<usize>
        ensures { result ≡ place_of self.now.bytes.now self.now.used address }
    {
        let offset = (address % Page::ADDRESSES) as usize;
        match self.record_of(address / Page::ADDRESSES) {
            Some(i) => Some(i * Page::RECORD_SIZE + Page::NUMBER_SIZE + offset),
            None => None,
        }
    }

    /// The number at an aligned address, zero-extended.
    pub(crate) fn load<T: Number>(&self, address: u64) -> u64
        requires { address % T.SIZE ≡ 0 }
        ensures { result ≡ big T.SIZE (byte_at self.now.bytes.now self.now.used) address }
    {
        match self.place_of(address) {
            Some(at) => T::read(self.bytes, at),
            None => 0,
        }
    }
}

/// Records that are lent to be written, and how many of them are used: no more than there are.
#[derive(Drop)]
pub(crate) struct PagesMut<'a> {
    pub bytes: &'a mut [u8],
    pub used: usize,
    pub ghost within: { used ≤ length bytes.now / 4104 },
}

impl<'a> PagesMut<'a> {
    /// `fits` tests what it needs.
    // Not in an `Option` from the test itself: tried, and the goals of who owns it stay open.
    pub(crate) fn new(bytes: &'a mut [u8], used: usize) -> PagesMut<'a>
        requires { used ≤ whole bytes.old }
        ensures lent { result.bytes.ghost_name ≡ bytes.entry.ghost_name }
        ensures same { (result.bytes.now ≡ bytes.old) × (result.used ≡ used) }
    {
        PagesMut { bytes, used }
    }

    /// The same records, to be read.
    pub(crate) fn shared(&self) -> Pages<'_>
        ensures { (result.bytes.now ≡ self.now.bytes.now) × (result.used ≡ self.now.used) }
    {
        Pages {
            bytes: self.bytes,
            used: self.used,
        }
    }

    /// Whether each record is used.
    pub(crate) fn is_full(&self) -> bool
        ensures full { OnTrue result (self.now.used ≡ whole self.now.bytes.now) }
        ensures room { OnFalse result (self.now.used < whole self.now.bytes.now) }
    {
        self.used == self.bytes.len() / Page::RECORD_SIZE
    }

    // Makes the next record the page with the number: the number, and zeros.
    fn open(&mut self, number: u64) -> usize
        requires { self.old.used < whole self.old.bytes.now }
        ensures lent { self.new.bytes.ghost_name ≡ self.old.bytes.ghost_name }
        ensures bytes { self.new.bytes.now ≡ open_page self.old.bytes.now self.old.used number }
        ensures used { self.new.used ≡ self.old.used + 1 }
        ensures place { result ≡ self.old.used }
    {
        let next = self.used;
        let at = next * Page::RECORD_SIZE;
        let bytes = &mut *self.bytes;
        number.write(bytes, at);
        spans::clear(bytes, at + Page::NUMBER_SIZE, Page::SIZE);
        self.used = next + 1;
        next
    }

    /// Stores the number at an aligned address. An absent page takes the next record; nothing changes where none is left.
    pub(crate) fn store<T: Number>(&mut self, address: u64, value: T) -> Result<(), NoRecordLeft>
        requires { address % T.SIZE ≡ 0 }
        ensures lent { self.new.bytes.ghost_name ≡ self.old.bytes.ghost_name }
        ensures ok { OnOk result (stored (Ok self.new.used) self.new.bytes.now ≡ store_def self.old.bytes.now self.old.used address (bytes_of T.SIZE (T.value value))) }
        ensures full { OnErr result (stored (Err Full) self.old.bytes.now ≡ store_def self.old.bytes.now self.old.used address (bytes_of T.SIZE (T.value value))) }
        ensures err { OnErr result ((self.new.bytes.now ≡ self.old.bytes.now) × (self.new.used ≡ self.old.used)) }
    {
        match self.shared().place_of(address) {
            Some(at) => {
                let bytes = &mut *self.bytes;
                value.write(bytes, at);
                Ok(())
            }
            None => {
                if self.is_full() {
                    return Err(NoRecordLeft);
                }
                let next = self.open(address / Page::ADDRESSES);
                let offset = (address % Page::ADDRESSES) as usize;
                let at = next * Page::RECORD_SIZE + Page::NUMBER_SIZE + offset;
                let bytes = &mut *self.bytes;
                value.write(bytes, at);
                Ok(())
            }
        }
    }
}

/// Whether the slice has so many records.
pub(crate) fn fits(bytes: &[u8], used: usize) -> bool
    ensures yes { OnTrue result (used ≤ whole bytes.now) }
    ensures no { OnFalse result (whole bytes.now < used) }
{
    used <= bytes.len() / Page::RECORD_SIZE
}

/// The first used record with the number.
pub fn page_lookup(pages: &[u8], used: usize, number: u64) -> Result<Option<usize>, PageError>
    ensures { result ≡ lookup pages.now used number }
{
    let records = Pages::new(pages, used)?;
    Ok(records.record_of(number))
}
