// The step record (document 01, "The step record").
ghost use Rattle.std.specs.Prelude.{◌≡◌, ℕ, ◌%◌, length, Some};
ghost use Rattle.std.proofs.lemmas.List.Edits.{sets};
ghost use Rattle.interpreter.specs.Records.{touch_bytes, rest_of, record_of};
ghost use Rattle.interpreter.specs.Machine.{reg};
ghost use Rattle.interpreter.specs.Plan.{call_in};
ghost use Rattle.interpreter.specs.Step.{machine_of, finished, step_def};
ghost use Rattle.interpreter.specs.Recording.{recorded, recorded_def};
ghost use Rattle.interpreter.specs.Parts.{seen_call, seen, recording_as};

use crate::effect::Stop;
use crate::layout::Layout;
use crate::linux::Call;
use crate::machine::Memory;
use crate::state::{Cpu, State};
use crate::step::Finished;
use crate::{cpu, layout, step, syscall};
use pages::bytes;

/// Where a record's parts stand in its bytes: two states, the instruction, and the touched eight bytes before and after.
#[derive(Clone, Copy)]
pub struct Record {
    pub at: usize,
}

impl Record {
    /// How many spare bytes follow the instruction.
    pub const SPARES: usize = 4;

    /// The state before the step.
    pub const OLD_STATE: usize = 0;

    /// And after it.
    pub const NEW_STATE: usize = Layout::SIZE;

    /// The instruction, in four bytes.
    pub const WORD: usize = Record::NEW_STATE + Layout::SIZE;

    pub const SPARE: usize = Record::WORD + 4;

    /// The touched eight bytes' address. It and the eights are 0 where none are touched.
    pub const ADDRESS: usize = Record::SPARE + Record::SPARES;

    pub const OLD_EIGHT: usize = Record::ADDRESS + Layout::NUMBER;

    pub const NEW_EIGHT: usize = Record::OLD_EIGHT + Layout::NUMBER;

    /// How many bytes a record has: 752.
    pub const SIZE: usize = Record::NEW_EIGHT + Layout::NUMBER;

    /// How many bytes the address and the eights have.
    pub const TOUCH_SIZE: usize = Record::SIZE - Record::ADDRESS;
}

#[tactic(auto, using(crate::proofs::Laws::Records::put_touched))]
fn put_eights(buf: &mut [u8], address: u64, old: u64, new: u64)
    requires { length buf.old ≡ 752 }
    ensures { buf.new ≡ sets buf.old 728 (touch_bytes (Some address) old new) }
{
    bytes::put_doubleword(buf, Record::ADDRESS, address);
    bytes::put_doubleword(buf, Record::OLD_EIGHT, old);
    bytes::put_doubleword(buf, Record::NEW_EIGHT, new);
}

#[tactic(auto, using(crate::proofs::Laws::Records::put_untouched))]
fn put_touch(buf: &mut [u8], t: Option<u64>, old: u64, new: u64)
    requires { length buf.old ≡ 752 }
    ensures { buf.new ≡ sets buf.old 728 (touch_bytes t old new) }
{
    match t {
        None => bytes::clear(buf, Record::ADDRESS, Record::TOUCH_SIZE),
        Some(a) => put_eights(buf, a, old, new),
    }
}

// Bytes 720 to 751: the instruction, and the eight bytes that it touched, as they were and as they are.
#[tactic(auto, using(crate::proofs::Laws::Records::put_rest))]
pub(crate) fn put_rest(buf: &mut [u8], word: u64, t: Option<u64>, old: u64, new: u64)
    requires { length buf.old ≡ 752 }
    ensures { buf.new ≡ sets buf.old 720 (rest_of word t old new) }
{
    bytes::put_word(buf, Record::WORD, (word % 0x1_0000_0000) as u32);
    bytes::clear(buf, Record::SPARE, Record::SPARES);
    put_touch(buf, t, old, new);
}

// What is known of a step before it is made: it is wide, or these are the eight bytes that it touches.
#[derive(Clone, Copy, Debug, PartialEq, Eq)]
pub(crate) enum Seen {
    Wide,
    Narrow(Option<u64>),
}

// The same of a system call.
fn see_call(c: Cpu, regs: &[u64; 32]) -> Seen
    ensures { result ≡ seen_call (reg regs.now 5) (call_in c regs.now) }
{
    let called = syscall::call_in(c, regs);
    match called {
        Call::Answer(v, e) => Seen::Narrow(None),
        Call::Heap(h) => Seen::Narrow(None),
        Call::Exit(n) => Seen::Narrow(None),
        Call::Key => Seen::Narrow(Some(step::aligned(regs[5]))),
        Call::Input => Seen::Wide,
        Call::Write(s) => Seen::Wide,
        Call::Hint => Seen::Wide,
    }
}

// The same of any instruction. Whether it is a call is the kernel's to say, whatever the eight bytes are.
#[tactic(auto, using(crate::proofs::Laws::Recorder::look_call, crate::proofs::Laws::Recorder::look_refused, crate::proofs::Laws::Recorder::look_done))]
fn look(c: Cpu, regs: &[u64; 32], word: u64) -> Seen
    requires { c.pc % 4 ≡ 0 }
    ensures { result ≡ seen c regs.now word }
{
    let effect = cpu::kernel(step::ins_of(c, regs, word, 0));
    match effect {
        Ok(e) => Seen::Narrow(step::touch_of(regs, word)),
        Err(stop) => match stop {
            Stop::Refused(n) => Seen::Narrow(step::touch_of(regs, word)),
            Stop::Call => see_call(c, regs),
        },
    }
}

// The whole record.
fn fill(buf: &mut [u8], s: State, n: State, word: u64, t: Option<u64>, old: u64, new: u64)
    requires { length buf.old ≡ 752 }
    ensures { buf.new ≡ record_of s n word t old new }
{
    let regs = s.regs;
    let key = s.key;
    layout::put_state(buf, Record::OLD_STATE, s.cpu(), &regs, &key);
    let regs = n.regs;
    let key = n.key;
    layout::put_state(buf, Record::NEW_STATE, n.cpu(), &regs, &key);
    put_rest(buf, word, t, old, new);
}

// A step that isn't wide, recorded where it counts.
#[tactic(auto, using(crate::proofs::Laws::Recorder::seen_counts, crate::proofs::Laws::Recorder::seen_not), unfolding(crate::specs::Machine::cpu_of, crate::specs::Machine::state_of))]
fn step_seen(
    s: State,
    pages: &mut [u8],
    used: usize,
    hint: &mut [u8],
    output: &mut [u8],
    index: &[u8],
    data: &[u8],
    buf: &mut [u8],
    word: u64,
    t: Option<u64>,
) -> Finished
    requires { (length buf.old ≡ 752) × ((a : ℕ) → t ≡ Some a → a % 8 ≡ 0) }
    ensures { recorded (finished result pages.new hint.new output.new) buf.new ≡ recording_as (machine_of s used pages.old hint.old output.old) buf.old word t (step_def index.now «data».now (machine_of s used pages.old hint.old output.old)) }
{
    let old = Memory { pages, used }.touched(t);
    let r = step::step(s, pages, used, hint, output, index, data);
    if r.counts {
        let memory = Memory {
            pages,
            used: r.used,
        };
        let new = memory.touched(t);
        fill(buf, s, r.state, word, t, old, new);
        return r;
    }
    r
}

/// One step, by value, with its record: filled for every unrefused step from an unexited state that isn't wide.
#[tactic(auto, using(crate::proofs::Laws::Recorder::touched_even, crate::proofs::Laws::Recorder::record_short, crate::proofs::Laws::Recorder::record_misaligned, crate::proofs::Laws::Recorder::record_wide, crate::proofs::Laws::Recorder::record_done))]
pub fn step_recorded(
    s: State,
    pages: &mut [u8],
    used: usize,
    hint: &mut [u8],
    output: &mut [u8],
    index: &[u8],
    data: &[u8],
    buf: &mut [u8],
) -> Finished
    ensures { recorded (finished result pages.new hint.new output.new) buf.new ≡ recorded_def index.now «data».now (machine_of s used pages.old hint.old output.old) buf.old }
{
    if buf.len() != Record::SIZE {
        return step::unstepped(s, used);
    }
    let c = s.cpu();
    if c.pc % 4 != 0 {
        return step::step(s, pages, used, hint, output, index, data);
    }
    let regs = s.regs;
    let word = Memory { pages, used }.word(c.pc);
    let seen = look(c, &regs, word);
    match seen {
        Seen::Wide => step::step(s, pages, used, hint, output, index, data),
        Seen::Narrow(t) => step_seen(s, pages, used, hint, output, index, data, buf, word, t),
    }
}
