// Document 01's page records at their edges. What each line must say is worked by hand from document 01, "What the
// machine holds", second paragraph, in the comment above the call.
#![tactic(auto)]

mod show;

use pages::reader::{MemoryReader, Position};
use pages::{memory, page};
use std::io;

const TOP: u64 = 0xffff_ffff_ffff_fff8;

// Three records and five bytes, all 0xee: nothing is used yet. Record 1 starts at 4,104 and record 2 at 8,208.
fn filled() -> [u8; 12317] {
    [0xee; 12317]
}

// Record 0 becomes page 0: its number, zeros, and then the store; nothing behind it changes.
fn open_first(rt: &impl Print, pages: &mut [u8]) -> io::Result<usize> {
    // no record is used, so page 0 is absent and reads as zero
    show::found(rt, "nothing used", page::page_lookup(pages, 0, 0))?;
    show::loaded(rt, "absent word", memory::get_word(pages, 0, 0))?;
    let used = show::stored(
        rt,
        "store at 0",
        0,
        memory::set_doubleword(pages, 0, 0, 0x0102_0304_0506_0708),
    )?;
    show::bytes(rt, "number", pages, 0, 8)?;
    show::bytes(rt, "first eight", pages, 8, 16)?;
    show::others(rt, "rest of page 0 against 00", pages, 16, 4104, 0)?;
    show::others(rt, "behind it against ee", pages, 4104, 12317, 0xee)?;
    Ok(used)
}

// (2^64 - 8) / 4,096 is 2^52 - 1; the place is the last of record 1.
fn open_second(rt: &impl Print, pages: &mut [u8], used: usize) -> io::Result<usize> {
    let used = show::stored(
        rt,
        "store at 2^64 - 8",
        used,
        memory::set_doubleword(pages, used, TOP, 0x1112_1314_1516_1718),
    )?;
    show::bytes(rt, "number", pages, 4104, 4112)?;
    show::others(rt, "page 2^52 - 1 against 00", pages, 4112, 8200, 0)?;
    show::bytes(rt, "last eight", pages, 8200, 8208)?;
    Ok(used)
}

fn edges(rt: &impl Print, pages: &mut [u8], used: usize) -> io::Result<()> {
    show::loaded(
        rt,
        "doubleword at 0",
        memory::get_doubleword(pages, used, 0),
    )?;
    show::loaded(rt, "word at 4", memory::get_word(pages, used, 4))?;
    show::loaded(
        rt,
        "doubleword at 2^64 - 8",
        memory::get_doubleword(pages, used, TOP),
    )?;
    show::loaded(
        rt,
        "word at 2^64 - 4",
        memory::get_word(pages, used, 0xffff_ffff_ffff_fffc),
    )?;
    // the last word of page 0 stands at 8 + 4092
    show::stored(
        rt,
        "word to 4092",
        used,
        memory::set_word(pages, used, 4092, 0x2122_2324),
    )?;
    show::bytes(rt, "last eight of page 0", pages, 4096, 4104)?;
    show::loaded(
        rt,
        "doubleword at 4088",
        memory::get_doubleword(pages, used, 4088),
    )
}

// Addresses that are not aligned: nothing is loaded or stored.
fn misaligned(rt: &impl Print, pages: &mut [u8], used: usize) -> io::Result<()> {
    show::loaded(rt, "word at 2", memory::get_word(pages, used, 2))?;
    show::loaded(
        rt,
        "doubleword at 4",
        memory::get_doubleword(pages, used, 4),
    )?;
    show::stored(rt, "word to 1", used, memory::set_word(pages, used, 1, 0))?;
    show::stored(
        rt,
        "doubleword to 4",
        used,
        memory::set_doubleword(pages, used, 4, 0),
    )?;
    show::bytes(rt, "first eight", pages, 8, 16)
}

// The third record is the last whole one.
fn open_last(rt: &impl Print, pages: &mut [u8], used: usize) -> io::Result<usize> {
    show::bytes(rt, "remainder", pages, 12312, 12317)?;
    let used = show::stored(
        rt,
        "word to 0x7000",
        used,
        memory::set_word(pages, used, 0x7000, 0x3132_3334),
    )?;
    show::bytes(rt, "number", pages, 8208, 8216)?;
    show::found(rt, "page 7 of three", page::page_lookup(pages, used, 7))?;
    Ok(used)
}

// No record is left for an absent page; a page that is held takes its store.
fn full(rt: &impl Print, pages: &mut [u8], used: usize) -> io::Result<usize> {
    let used = show::stored(
        rt,
        "doubleword to 0x9000",
        used,
        memory::set_doubleword(pages, used, 0x9000, 0x4142_4344),
    )?;
    show::loaded(
        rt,
        "doubleword at 0x9000",
        memory::get_doubleword(pages, used, 0x9000),
    )?;
    let used = show::stored(
        rt,
        "word to 0x7004",
        used,
        memory::set_word(pages, used, 0x7004, 0x3536_3738),
    )?;
    show::loaded(
        rt,
        "doubleword at 0x7000",
        memory::get_doubleword(pages, used, 0x7000),
    )?;
    show::bytes(rt, "remainder", pages, 12312, 12317)?;
    Ok(used)
}

// Four used records of three: every call says so, and changes nothing.
fn overused(rt: &impl Print, pages: &mut [u8]) -> io::Result<()> {
    show::found(rt, "overused lookup", page::page_lookup(pages, 4, 0))?;
    show::loaded(rt, "overused word", memory::get_word(pages, 4, 0))?;
    show::loaded(
        rt,
        "overused doubleword",
        memory::get_doubleword(pages, 4, 0),
    )?;
    show::stored(
        rt,
        "overused word to 0",
        4,
        memory::set_word(pages, 4, 0, 0),
    )?;
    show::stored(
        rt,
        "overused doubleword to 0x9000",
        4,
        memory::set_doubleword(pages, 4, 0x9000, 0),
    )?;
    show::bytes(rt, "first eight", pages, 8, 16)?;
    show::bytes(rt, "remainder", pages, 12312, 12317)
}

// Bytes from 2^64 - 4 on: four of the last page, and then those of page 0; what is behind them in the buffer stays.
fn wrapped(rt: &impl Print, pages: &[u8], used: usize, buf: &mut [u8]) -> io::Result<()> {
    let mut p = Position {
        address: 0xffff_ffff_ffff_fffc,
        count: 8,
    };
    // a refused read leaves the reader where it stood
    let answer = p.read(pages, 4, buf);
    show::read(rt, "overused read", answer, p)?;
    show::bytes(rt, "buffer", buf, 0, 4)?;
    let answer = p.read(pages, used, buf);
    show::read(rt, "read at 2^64 - 4", answer, p)?;
    show::bytes(rt, "buffer", buf, 0, 10)
}

// The last byte of record 1's number becomes 5.
fn make_five(pages: &mut [u8]) {
    if 4111 < pages.len() {
        pages[4111] = 5;
    }
}

// Records 0 and 1 both have number 5, and record 2 has number 7: record 1 is opened as page 7 first.
fn open_twice(rt: &impl Print, pages: &mut [u8]) -> io::Result<()> {
    show::stored(
        rt,
        "store to page 5",
        0,
        memory::set_doubleword(pages, 0, 0x5ff8, 0x5152_5354_5556_5758),
    )?;
    show::stored(
        rt,
        "store to page 7",
        1,
        memory::set_doubleword(pages, 1, 0x7000, 0x6162_6364_6566_6768),
    )?;
    make_five(pages);
    show::stored(
        rt,
        "store to page 7",
        2,
        memory::set_doubleword(pages, 2, 0x7000, 0x7172_7374_7576_7778),
    )?;
    Ok(())
}

// The first of the two decides.
fn twice(rt: &impl Print, pages: &mut [u8]) -> io::Result<()> {
    show::found(rt, "page 5 twice", page::page_lookup(pages, 3, 5))?;
    show::loaded(
        rt,
        "doubleword at 0x5000",
        memory::get_doubleword(pages, 3, 0x5000),
    )?;
    show::stored(
        rt,
        "word to 0x5000",
        3,
        memory::set_word(pages, 3, 0x5000, 0x8182_8384),
    )?;
    show::bytes(rt, "first record", pages, 8, 16)?;
    show::bytes(rt, "second record", pages, 4112, 4120)
}

// Twelve bytes more than a page, from the last six of page 5 on: then all of page 6, which is absent, and the first
// six of page 7. The buffer ends there, and 892 of the 5,000 are left.
fn across(rt: &impl Print, pages: &[u8], buf: &mut [u8]) -> io::Result<()> {
    let mut reader = MemoryReader::new(pages, 3, 0x5ffa, 5000);
    let answer = reader.read(buf);
    show::read(rt, "read across three pages", answer, reader.position)?;
    show::bytes(rt, "end of page 5", buf, 0, 6)?;
    show::others(rt, "page 6 against 00", buf, 6, 4102, 0)?;
    show::bytes(rt, "front of page 7", buf, 4102, 4108)
}

// Three records, opened one after the other. A function of its own, as the next one, so that the pages of one alone stand on the
// stack.
#[inline(never)]
fn opened(rt: &impl Print) -> io::Result<()> {
    let mut pages = filled();
    let mut buf = [0xddu8; 16];
    let used = open_first(rt, &mut pages)?;
    let used = open_second(rt, &mut pages, used)?;
    edges(rt, &mut pages, used)?;
    misaligned(rt, &mut pages, used)?;
    let used = open_last(rt, &mut pages, used)?;
    let used = full(rt, &mut pages, used)?;
    overused(rt, &mut pages)?;
    wrapped(rt, &pages, used, &mut buf)
}

// Three records, of which two have one number.
#[inline(never)]
fn doubled(rt: &impl Print) -> io::Result<()> {
    let mut pages = filled();
    let mut long = [0xddu8; 4108];
    open_twice(rt, &mut pages)?;
    twice(rt, &mut pages)?;
    across(rt, &pages, &mut long)
}

fn main(rt: HostRuntime) -> io::Result<()> {
    opened(&rt)?;
    doubled(&rt)
}
