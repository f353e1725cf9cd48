// The page that was looked up last: a run need not look for it again.
ghost use Rattle.std.specs.Prelude.{◌≡◌, ℕ, ◌/◌, ◌%◌, List, ◌==◌, Ok};
ghost use Rattle.pages.specs.Bytes.{big};
ghost use Rattle.pages.specs.Pages.{byte_at};
ghost use Rattle.pages.specs.Calls.{stored, set_def};
ghost use Rattle.interpreter.specs.Parts.{Shows, Both};
ghost use Rattle.interpreter.specs.declared.window.Window.{Window};

use pages::page::Page;
use pages::{bytes, page};

// A page's number, and where its bytes stand in the slice.
#[derive(Clone, Copy)]
pub(crate) struct Window {
    pub number: u64,
    pub at: usize,
}

impl Window {
    // An address has 64 bits and a page's number 52 of them, so no page has this one. A number in place of an Option: so one
    // comparison tells both that there is a page and that it is the one.
    const NO_PAGE: u64 = u64::MAX;

    pub(crate) fn none() -> Window
        ensures { (p : List ℕ) (u : ℕ) → Shows p u result }
    {
        Window {
            number: Window::NO_PAGE,
            at: 0,
        }
    }

    // The page that an address lies in, where there is one.
    pub(crate) fn to(self, pages: &[u8], used: usize, address: u64) -> Window
        requires { Shows pages.now used self }
        ensures { Shows pages.now used result }
    {
        let number = address / Page::ADDRESSES;
        if number == self.number {
            return self;
        }
        match page::page_lookup(pages, used, number) {
            Ok(Some(i)) => Window {
                number,
                at: i * Page::RECORD_SIZE + Page::NUMBER_SIZE,
            },
            Ok(None) | Err(_) => Window::none(),
        }
    }

    // Whether an address lies in it.
    pub(crate) fn has(self, address: u64) -> bool
        ensures { result ≡ (address / 4096 == self.number) }
    {
        address / Page::ADDRESSES == self.number
    }

    // What is read and written is a part of the slice that is known to lie in it, and its length is plain: so no test of bounds is
    // left in the code.
    pub(crate) fn word(self, pages: &[u8], used: usize, address: u64) -> u64
        requires { Shows pages.now used self × (address / 4096 ≡ self.number) × (address % 4 ≡ 0) }
        ensures { result ≡ big 4 (byte_at pages.now used) address }
    {
        let at = self.at + (address % Page::ADDRESSES) as usize;
        let end = at + 4;
        bytes::word_at(&pages[at..end], 0)
    }

    pub(crate) fn doubleword(self, pages: &[u8], used: usize, address: u64) -> u64
        requires { Shows pages.now used self × (address / 4096 ≡ self.number) × (address % 8 ≡ 0) }
        ensures { result ≡ big 8 (byte_at pages.now used) address }
    {
        let at = self.at + (address % Page::ADDRESSES) as usize;
        let end = at + 8;
        bytes::doubleword_at(&pages[at..end], 0)
    }

    // A store in the page: every page stays where it is.
    pub(crate) fn put_doubleword(self, pages: &mut [u8], used: usize, address: u64, value: u64)
        requires { Shows pages.old used self × (address / 4096 ≡ self.number) × (address % 8 ≡ 0) }
        ensures { (stored (Ok used) pages.new ≡ set_def 8 pages.old used address value) × ((w : Window) → Shows pages.old used w → Shows pages.new used w) }
    {
        let at = self.at + (address % Page::ADDRESSES) as usize;
        let end = at + 8;
        bytes::put_doubleword(&mut pages[at..end], 0, value);
    }
}

// The pages of the last two loads and stores that were not in the same, the last one first.
#[derive(Clone, Copy)]
pub(crate) struct Pair {
    pub near: Window,
    pub far: Window,
}

impl Pair {
    pub(crate) fn none() -> Pair
        ensures { (p : List ℕ) (u : ℕ) → Both p u result }
    {
        Pair {
            near: Window::none(),
            far: Window::none(),
        }
    }

    // The page that an address lies in, where there is one, comes first.
    pub(crate) fn to(self, pages: &[u8], used: usize, address: u64) -> Pair
        requires { Both pages.now used self }
        ensures { Both pages.now used result }
    {
        let near = self.near;
        if near.has(address) {
            return self;
        }
        let far = self.far;
        Pair {
            near: far.to(pages, used, address),
            far: near,
        }
    }
}
