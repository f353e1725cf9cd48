//! A whole machine in one buffer of bytes, so that one comparison sees every byte of it: the state's 360 bytes, the
//! numbers beside it, the last answer, and the lent buffers.
ghost use Rattle.std.specs.Prelude.{◌≤◌};

use crate::bytes;
use interpreter::state::State;
use interpreter::step::{Answer, Finished};
use interpreter::{layout, step};

/// Where things stand.
#[derive(Clone, Copy)]
pub struct Place {
    pub at: usize,
}

impl Place {
    pub const PC: usize = 256;

    pub const NEXT: usize = 264;

    pub const HI: usize = 272;

    pub const LO: usize = 280;

    pub const HEAP: usize = 288;

    pub const STEP: usize = 296;

    pub const OFFSET: usize = 304;

    /// The hint length.
    pub const HELD: usize = 312;

    pub const KEY: usize = 320;

    pub const EXITED: usize = 352;

    pub const CODE: usize = 353;

    pub const RULES: usize = 354;

    pub const SPARE: usize = 355;

    // The used records, and the lengths of what is lent.
    pub const USED: usize = 360;

    pub const PAGES_SIZE: usize = 368;

    pub const HINT_SIZE: usize = 376;

    pub const OUTPUT_SIZE: usize = 384;

    pub const INDEX_SIZE: usize = 392;

    pub const DATA_SIZE: usize = 400;

    // The answer's kind and values.
    pub const KIND: usize = 408;

    pub const FIRST: usize = 416;

    pub const SECOND: usize = 424;

    pub const HINT: usize = 432;

    pub const OUTPUT: usize = 560;

    pub const INDEX: usize = 688;

    pub const DATA: usize = 944;

    pub const PAGES: usize = 1200;

    pub const RECORD: usize = 4104;

    pub const END: usize = 13517;
}

/// Every byte of what is lent, but for page numbers and instruction.
const FILL: u8 = 0xee;

/// Kinds of answers.
#[derive(Clone, Copy)]
pub struct Kind {
    pub number: u64,
}

impl Kind {
    pub const STEPPED: u64 = 0;

    pub const WROTE: u64 = 1;

    pub const HINT: u64 = 2;

    pub const EXITED: u64 = 3;

    pub const REFUSED: u64 = 4;
}

/// Where the bytes at an address stand: page 1 is record 0, page 5 is record 1, and any other is record 2.
pub fn memory(address: u64) -> usize {
    let inside = (address % 4096) as usize;
    match address / 4096 {
        1 => 1208 + inside,
        5 => 5312 + inside,
        _ => 9416 + inside,
    }
}

/// Registers, hi, lo and key all hold different bytes.
fn plain_state(m: &mut [u8]) {
    for k in 0..Place::EXITED {
        bytes::set(m, k, (k % 251 + 1) as u8);
    }
    bytes::fill(m, Place::OFFSET, Place::KEY, 0);
    bytes::fill(m, Place::EXITED, Place::HINT, 0);
    bytes::put_number(m, Place::PC, 0x1000);
    bytes::put_number(m, Place::NEXT, 0x1004);
    bytes::put_number(m, Place::HEAP, 0x2000_0000);
    bytes::put_number(m, Place::STEP, 41);
    bytes::set(m, Place::CODE, 0x77);
}

/// The machine that each case starts from: three whole records and five bytes more, of which page 1, with a SYSCALL at
/// pc, and page 5 are used; 24 bytes of hint buffer, 16 of output, no input.
pub fn plain(m: &mut [u8]) {
    bytes::fill(m, 0, Place::END, FILL);
    plain_state(m);
    bytes::put_number(m, Place::USED, 2);
    bytes::put_number(m, Place::PAGES_SIZE, 12317);
    bytes::put_number(m, Place::HINT_SIZE, 24);
    bytes::put_number(m, Place::OUTPUT_SIZE, 16);
    bytes::put_number(m, Place::PAGES, 1);
    bytes::put_number(m, 5304, 5);
    bytes::lay(b"\x00\x00\x00\x0c", m, 1208);
}

/// The state, or zeros where the bytes are no state's. Its rules number may be one that no state has.
fn state_of(m: &[u8]) -> State {
    let mut b = [0u8; 360];
    bytes::copy(m, 0, &mut b);
    bytes::set(&mut b, Place::RULES, 0);
    let mut s = layout::decode(&b).unwrap_or_default();
    s.rules = bytes::byte(m, Place::RULES);
    s
}

fn count_at(m: &[u8], at: usize) -> usize {
    (bytes::number(m, at, 8) % 0x1_0000_0000) as usize
}

/// A length that lies in a buffer.
fn size(m: &[u8], at: usize, longest: usize) -> usize
    ensures { result ≤ longest }
{
    let n = count_at(m, at);
    if longest < n {
        return longest;
    }
    n
}

/// The step on as many bytes of each buffer as are lent.
fn finish(
    m: &[u8],
    pages: &mut [u8],
    hint: &mut [u8],
    output: &mut [u8],
    index: &[u8],
    data: &[u8],
) -> Finished {
    let p = size(m, Place::PAGES_SIZE, pages.len());
    let h = size(m, Place::HINT_SIZE, hint.len());
    let o = size(m, Place::OUTPUT_SIZE, output.len());
    let i = size(m, Place::INDEX_SIZE, index.len());
    let d = size(m, Place::DATA_SIZE, data.len());
    let used = count_at(m, Place::USED);
    let s = state_of(m);
    step::step(
        s,
        &mut pages[..p],
        used,
        &mut hint[..h],
        &mut output[..o],
        &index[..i],
        &data[..d],
    )
}

pub fn answer(m: &mut [u8], kind: u64, first: u64, second: u64) {
    bytes::put_number(m, Place::KIND, kind);
    bytes::put_number(m, Place::FIRST, first);
    bytes::put_number(m, Place::SECOND, second);
}

fn put_answer(m: &mut [u8], a: Answer) {
    match a {
        Answer::Stepped => answer(m, Kind::STEPPED, 0, 0),
        Answer::Wrote(stream, count) => answer(m, Kind::WROTE, stream, count),
        Answer::Hint(count) => answer(m, Kind::HINT, count, 0),
        Answer::Exited(code) => answer(m, Kind::EXITED, code as u64, 0),
        Answer::Refused(r) => answer(m, Kind::REFUSED, u8::from(r) as u64, 0),
    }
}

fn put_finish(m: &mut [u8], f: Finished) {
    let s = f.state;
    let b = s.encode();
    bytes::lay(&b, m, 0);
    bytes::put_number(m, Place::USED, f.used as u64);
    let a = f.answer;
    put_answer(m, a);
}

/// One step of the machine m; g becomes the machine after it.
pub fn step(m: &[u8], g: &mut [u8]) {
    let mut pages = [0u8; 12317];
    let mut hint = [0u8; 128];
    let mut output = [0u8; 128];
    let mut index = [0u8; 256];
    let mut data = [0u8; 256];
    bytes::copy(m, Place::PAGES, &mut pages);
    bytes::copy(m, Place::HINT, &mut hint);
    bytes::copy(m, Place::OUTPUT, &mut output);
    bytes::copy(m, Place::INDEX, &mut index);
    bytes::copy(m, Place::DATA, &mut data);
    let f = finish(m, &mut pages, &mut hint, &mut output, &index, &data);
    bytes::copy(m, 0, g);
    bytes::lay(&pages, g, Place::PAGES);
    bytes::lay(&hint, g, Place::HINT);
    bytes::lay(&output, g, Place::OUTPUT);
    put_finish(g, f);
}
