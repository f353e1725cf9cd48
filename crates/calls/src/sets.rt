//! The words that set parts of the machine.
use crate::machine::{Kind, Place};
use crate::run::Run;
use crate::words::Word;
use crate::{bytes, machine, text};

/// The place of a number's eight bytes, 0 for other words.
fn number_at(w: u64) -> usize {
    match w {
        Word::PC => Place::PC,
        Word::NEXT => Place::NEXT,
        Word::HI => Place::HI,
        Word::LO => Place::LO,
        Word::HEAP => Place::HEAP,
        Word::STEPS => Place::STEP,
        Word::OFFSET => Place::OFFSET,
        Word::HELD => Place::HELD,
        Word::USED => Place::USED,
        Word::PAGESIZE => Place::PAGES_SIZE,
        Word::HINTSIZE => Place::HINT_SIZE,
        Word::OUTSIZE => Place::OUTPUT_SIZE,
        Word::IDXSIZE => Place::INDEX_SIZE,
        Word::DATASIZE => Place::DATA_SIZE,
        _ => 0,
    }
}

fn byte_at(w: u64) -> usize {
    match w {
        Word::EXITED => Place::EXITED,
        Word::CODE => Place::CODE,
        Word::RULES => Place::RULES,
        _ => 0,
    }
}

fn buffer_at(w: u64) -> usize {
    match w {
        Word::KEY => Place::KEY,
        Word::HINT => Place::HINT,
        Word::OUTPUT => Place::OUTPUT,
        Word::INDEX => Place::INDEX,
        Word::DATA => Place::DATA,
        Word::PAGES => Place::PAGES,
        _ => 0,
    }
}

fn put_register(m: &mut [u8], r: usize, v: u64) {
    bytes::put_number(m, r % 32 * 8, v);
}

// The words below start at a place, and answer where the next one starts.

fn set_register(s: &[u8], m: &mut [u8], at: usize) -> usize {
    let first = text::next(s, at);
    let second = text::next(s, first);
    put_register(m, text::place(s, first), text::value(s, second));
    text::next(s, second)
}

fn set_call(s: &[u8], m: &mut [u8], at: usize) -> usize {
    let number = text::next(s, at);
    let a0 = text::next(s, number);
    put_register(m, 2, text::value(s, number));
    put_register(m, 4, text::value(s, a0));
    set_last(s, m, text::next(s, a0))
}

/// a1 and a2.
fn set_last(s: &[u8], m: &mut [u8], at: usize) -> usize {
    let a2 = text::next(s, at);
    put_register(m, 5, text::value(s, at));
    put_register(m, 6, text::value(s, a2));
    text::next(s, a2)
}

fn set_memory(s: &[u8], m: &mut [u8], at: usize) -> usize {
    let address = text::next(s, at);
    let bytes = text::next(s, address);
    text::hex(s, bytes, m, machine::memory(text::value(s, address)));
    text::next(s, bytes)
}

fn put_entry(m: &mut [u8], i: usize, start: u64, size: u64) {
    let mut key = [0u8; 32];
    let at = bytes::plus(Place::INDEX, i % 256 * 48);
    bytes::copy(m, Place::KEY, &mut key);
    bytes::lay(&key, m, at);
    bytes::put_number(m, bytes::plus(at, 32), start);
    bytes::put_number(m, bytes::plus(at, 40), size);
}

fn set_entry(s: &[u8], m: &mut [u8], at: usize) -> usize {
    let i = text::next(s, at);
    let start = text::next(s, i);
    let size = text::next(s, start);
    put_entry(
        m,
        text::place(s, i),
        text::value(s, start),
        text::value(s, size),
    );
    text::next(s, size)
}

fn count(m: &mut [u8]) {
    let n = bytes::number(m, Place::STEP, 8);
    bytes::put_number(m, Place::STEP, n.wrapping_add(1));
}

fn go(m: &mut [u8]) {
    let next = bytes::number(m, Place::NEXT, 8);
    count(m);
    bytes::put_number(m, Place::PC, next);
    bytes::put_number(m, Place::NEXT, next.wrapping_add(4));
}

fn set_answers(s: &[u8], m: &mut [u8], at: usize) -> usize {
    let value = text::next(s, at);
    let error = text::next(s, value);
    go(m);
    put_register(m, 2, text::value(s, value));
    put_register(m, 7, text::value(s, error));
    text::next(s, error)
}

fn set_answer(s: &[u8], m: &mut [u8], at: usize, kind: u64) -> usize {
    let first = text::next(s, at);
    machine::answer(m, kind, text::value(s, first), 0);
    text::next(s, first)
}

fn set_wrote(s: &[u8], m: &mut [u8], at: usize) -> usize {
    let stream = text::next(s, at);
    let count = text::next(s, stream);
    machine::answer(
        m,
        Kind::WROTE,
        text::value(s, stream),
        text::value(s, count),
    );
    text::next(s, count)
}

fn set_open(s: &[u8], m: &mut [u8], at: usize) -> usize {
    let page = text::next(s, at);
    bytes::put_number(m, 9408, text::value(s, page));
    bytes::fill(m, 9416, 13512, 0);
    bytes::put_number(m, Place::USED, 3);
    text::next(s, page)
}

/// 0 for other words.
fn special(s: &[u8], m: &mut [u8], at: usize, w: u64) -> usize {
    match w {
        Word::R => set_register(s, m, at),
        Word::CALL => set_call(s, m, at),
        Word::MEM => set_memory(s, m, at),
        Word::ENTRY => set_entry(s, m, at),
        Word::ANSWERS => set_answers(s, m, at),
        Word::WROTE => set_wrote(s, m, at),
        Word::GAVE => set_answer(s, m, at, Kind::HINT),
        Word::LEFT => set_answer(s, m, at, Kind::EXITED),
        Word::REFUSED => set_answer(s, m, at, Kind::REFUSED),
        Word::OPEN => set_open(s, m, at),
        Word::GOES => {
            go(m);
            text::next(s, at)
        }
        Word::COUNTED => {
            count(m);
            text::next(s, at)
        }
        _ => 0,
    }
}

fn set_special(s: &[u8], m: &mut [u8], r: Run, w: u64) -> Run {
    let at = special(s, m, r.at, w);
    if at == 0 {
        return r.moved(text::next(s, r.at)).faulted(Run::UNREAD);
    }
    r.moved(at)
}

fn set_buffer(s: &[u8], m: &mut [u8], r: Run, w: u64) -> Run {
    let place = buffer_at(w);
    if place == 0 {
        return set_special(s, m, r, w);
    }
    let at = text::next(s, r.at);
    let bytes = text::next(s, at);
    text::hex(s, bytes, m, bytes::plus(place, text::place(s, at)));
    r.moved(text::next(s, bytes))
}

fn set_byte(s: &[u8], m: &mut [u8], r: Run, w: u64) -> Run {
    let place = byte_at(w);
    if place == 0 {
        return set_buffer(s, m, r, w);
    }
    let at = text::next(s, r.at);
    bytes::set(m, place, (text::value(s, at) % 256) as u8);
    r.moved(text::next(s, at))
}

pub fn set_number(s: &[u8], m: &mut [u8], r: Run, w: u64) -> Run {
    let place = number_at(w);
    if place == 0 {
        return set_byte(s, m, r, w);
    }
    let at = text::next(s, r.at);
    bytes::put_number(m, place, text::value(s, at));
    r.moved(text::next(s, at))
}
