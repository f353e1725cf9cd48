// Words and doublewords at aligned addresses.
ghost use Rattle.std.specs.Prelude.{◌≡◌};
ghost use Rattle.pages.specs.Calls.{get_def, stored, set_def};

use crate::number::Number;
use crate::page::{NoRecordLeft, PageError, Pages, PagesMut, fits};
use std::error::Error;
use std::fmt;

/// Four bytes, the highest first.
#[derive(Clone, Copy)]
pub struct Word {
    pub value: u32,
}

impl Word {
    /// How many bytes a word has, and what its address is a multiple of.
    pub const SIZE: u64 = 4;
}

/// Eight bytes, the highest first.
#[derive(Clone, Copy)]
pub struct Doubleword {
    pub value: u64,
}

impl Doubleword {
    /// How many bytes a doubleword has, and what its address is a multiple of.
    pub const SIZE: u64 = 8;
}

/// Why nothing was loaded.
#[derive(Clone, Copy, Debug, PartialEq, Eq)]
pub enum LoadError {
    /// The address is no multiple of the number's size.
    Misaligned,
    /// More records are said to be used than the slice has.
    Overused,
}

impl From<PageError> for LoadError {
    ghost use Rattle.pages.specs.declared.memory.LoadError.TheVariants.{Overused};

    ghost from_gives = { λ _ e. e ≡ Overused };

    fn from(_e: PageError) -> LoadError {
        LoadError::Overused
    }
}

impl fmt::Display for LoadError {
    fn fmt<W: fmt::Write>(&self, f: &mut fmt::Formatter<W>) -> fmt::Result {
        match self {
            LoadError::Misaligned => write!(f, "misaligned"),
            LoadError::Overused => write!(f, "{}", PageError::Overused),
        }
    }
}

impl Error for LoadError {}

/// Why nothing was stored.
#[derive(Clone, Copy, Debug, PartialEq, Eq)]
pub enum StoreError {
    /// The address is no multiple of the number's size.
    Misaligned,
    /// More records are said to be used than the slice has.
    Overused,
    /// No record is left for a page that is absent.
    Full,
}

impl From<NoRecordLeft> for StoreError {
    ghost use Rattle.pages.specs.declared.memory.StoreError.TheVariants.{Full};

    ghost from_gives = { λ _ e. e ≡ Full };

    fn from(_e: NoRecordLeft) -> StoreError {
        StoreError::Full
    }
}

impl fmt::Display for StoreError {
    fn fmt<W: fmt::Write>(&self, f: &mut fmt::Formatter<W>) -> fmt::Result {
        match self {
            StoreError::Misaligned => write!(f, "{}", LoadError::Misaligned),
            StoreError::Overused => write!(f, "{}", PageError::Overused),
            StoreError::Full => write!(f, "{}", NoRecordLeft),
        }
    }
}

impl Error for StoreError {}

fn get<T: Number>(pages: &[u8], used: usize, address: u64) -> Result<u64, LoadError>
    ensures { result ≡ get_def T.SIZE pages.now used address }
{
    if address % T::SIZE as u64 != 0 {
        return Err(LoadError::Misaligned);
    }
    let records = Pages::new(pages, used)?;
    Ok(records.load::<T>(address))
}

fn set<T: Number>(
    pages: &mut [u8],
    used: usize,
    address: u64,
    value: T,
) -> Result<usize, StoreError>
    ensures { stored result pages.new ≡ set_def T.SIZE pages.old used address (T.value value) }
{
    if address % T::SIZE as u64 != 0 {
        return Err(StoreError::Misaligned);
    }
    if !fits(pages, used) {
        return Err(StoreError::Overused);
    }
    let mut records = PagesMut::new(pages, used);
    records.store(address, value)?;
    Ok(records.used)
}

/// The word at an address that is a multiple of 4, zero-extended; an absent page reads as zeros.
pub fn get_word(pages: &[u8], used: usize, address: u64) -> Result<u64, LoadError>
    ensures { result ≡ get_def 4 pages.now used address }
{
    get::<u32>(pages, used, address)
}

/// The doubleword at an address that is a multiple of 8; an absent page reads as zeros.
pub fn get_doubleword(pages: &[u8], used: usize, address: u64) -> Result<u64, LoadError>
    ensures { result ≡ get_def 8 pages.now used address }
{
    get::<u64>(pages, used, address)
}

/// Stores a word at an address that is a multiple of 4, and answers how many records are used afterwards.
/// An absent page takes the next record. No byte changes in a refusal.
pub fn set_word(
    pages: &mut [u8],
    used: usize,
    address: u64,
    value: u32,
) -> Result<usize, StoreError>
    ensures { stored result pages.new ≡ set_def 4 pages.old used address value }
{
    set(pages, used, address, value)
}

/// Stores a doubleword at an address that is a multiple of 8, and answers how many records are used afterwards.
/// An absent page takes the next record. No byte changes in a refusal.
pub fn set_doubleword(
    pages: &mut [u8],
    used: usize,
    address: u64,
    value: u64,
) -> Result<usize, StoreError>
    ensures { stored result pages.new ≡ set_def 8 pages.old used address value }
{
    set(pages, used, address, value)
}
