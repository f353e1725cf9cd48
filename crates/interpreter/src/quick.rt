// Many steps in a row, as long as each is an instruction on pages that are there. Every other step ends them, and is left to
// `step::advance`.
ghost use Rattle.std.specs.Prelude.{◌≡◌, ℕ, ◌%◌, ◌<◌, true, false, List, Ok, Some, None};
ghost use Rattle.pages.specs.Pages.{byte_at};
ghost use Rattle.pages.specs.Calls.{stored};
ghost use Rattle.interpreter.specs.Machine.{machine, bad};
ghost use Rattle.interpreter.specs.Plan.{eight_at, storing, touch_of};
ghost use Rattle.interpreter.specs.Step.{putting};
ghost use Rattle.interpreter.specs.Parts.{Shows, Both, covered, core_of, cpu_with, Completed, Turned, Fetches, Gone};
ghost use Rattle.interpreter.specs.declared.window.Window.{Window};

use crate::effect::Change;
use crate::isa::Opcode;
use crate::key::Key;
use crate::state::Cpu;
use crate::window::{Pair, Window};
use crate::{bits, cpu, frequent, step};

// The numbers that instructions change. The others stay, and a loop need not carry them.
#[derive(Clone, Copy)]
pub(crate) struct Core {
    pub pc: u64,
    pub next: u64,
    pub hi: u64,
    pub lo: u64,
}

// What a step that was made leaves: the numbers, and the pages of the loads and stores.
#[derive(Clone, Copy)]
pub(crate) struct Turn {
    pub core: Core,
    pub data: Pair,
}

// A word, and the page that it stands in.
#[derive(Clone, Copy)]
pub(crate) struct Fetched {
    pub code: Window,
    pub word: u64,
}

// How far the steps went.
#[derive(Clone, Copy)]
pub(crate) struct Went {
    pub cpu: Cpu,
    pub count: u64,
}

impl Cpu {
    fn core(self) -> Core
        ensures { result ≡ core_of self }
    {
        Core {
            pc: self.pc,
            next: self.next,
            hi: self.hi,
            lo: self.lo,
        }
    }

    fn with_core(self, k: Core) -> Cpu
        ensures { result ≡ cpu_with self k 0 }
    {
        let mut c = self;
        c.pc = k.pc;
        c.next = k.next;
        c.hi = k.hi;
        c.lo = k.lo;
        c
    }
}

// The page of the touched eight bytes comes first.
fn window_of(d: Pair, pages: &[u8], used: usize, t: Option<u64>) -> Pair
    requires { Both pages.now used d }
    ensures { Both pages.now used result }
{
    match t {
        None => d,
        Some(a) => d.to(pages, used, a),
    }
}

fn covers(w: Window, t: Option<u64>) -> bool
    ensures { result ≡ covered w t }
{
    match t {
        None => true,
        Some(a) => w.has(a),
    }
}

fn touched(w: Window, pages: &[u8], used: usize, t: Option<u64>) -> u64
    requires { Shows pages.now used w × (covered w t ≡ true) × ((a : ℕ) → t ≡ Some a → a % 8 ≡ 0) }
    ensures { result ≡ eight_at (byte_at pages.now used) t }
{
    match t {
        None => 0,
        Some(a) => w.doubleword(pages, used, a),
    }
}

fn settle(w: Window, pages: &mut [u8], used: usize, t: Option<u64>, e: Change)
    requires { Shows pages.old used w × (covered w t ≡ true) × ((a : ℕ) → t ≡ Some a → a % 8 ≡ 0) }
    ensures { (stored (Ok used) pages.new ≡ putting pages.old used (storing t e)) × ((v : Window) → Shows pages.old used v → Shows pages.new used v) }
{
    match t {
        None => {}
        Some(a) => {
            if let Some(m) = e.store {
                w.put_doubleword(pages, used, a, m);
            }
        }
    }
}

// The step once it is known what changes and that nothing is stored.
fn finish(regs: &mut [u64; 32], d: Pair, e: Change) -> Turn
    requires { e.dest < 32 }
    ensures { (p : List ℕ) (u : ℕ) → Completed regs.old p u d None e result regs.new p }
{
    step::set_reg(regs, e.dest, e.value);
    Turn {
        core: Core {
            pc: e.pc,
            next: e.next,
            hi: e.hi,
            lo: e.lo,
        },
        data: d,
    }
}

// The same where the first page has the touched eight bytes.
fn complete(
    regs: &mut [u64; 32],
    pages: &mut [u8],
    used: usize,
    d: Pair,
    t: Option<u64>,
    e: Change,
) -> Turn
    requires { Both pages.old used d × (covered d.near t ≡ true) × ((a : ℕ) → t ≡ Some a → a % 8 ≡ 0) × (e.dest < 32) }
    ensures { Completed regs.old pages.old used d t e result regs.new pages.new }
{
    let w = d.near;
    settle(w, pages, used, t, e);
    finish(regs, d, e)
}

// An instruction that is not among the frequent ones.
fn step_by_kernel(
    c: Cpu,
    k: Core,
    word: u64,
    regs: &mut [u64; 32],
    pages: &mut [u8],
    used: usize,
    d: Pair,
    t: Option<u64>,
    mem: u64,
) -> Option<Turn>
    requires { Both pages.old used d × (covered d.near t ≡ true) × (t ≡ touch_of regs.old word) × (mem ≡ eight_at (byte_at pages.old used) t) }
    ensures { Turned c k word used regs.old pages.old result regs.new pages.new }
{
    let effect = cpu::kernel(step::ins_of(c.with_core(k), regs, word, mem));
    let Ok(e) = effect else {
        return None;
    };
    Some(complete(regs, pages, used, d, t, e))
}

// A load or store in another page than the last one, and what is rare.
fn step_after_lookup(
    c: Cpu,
    k: Core,
    word: u64,
    regs: &mut [u64; 32],
    pages: &mut [u8],
    used: usize,
    data: Pair,
) -> Option<Turn>
    requires { Both pages.old used «data» × (k.pc % 4 ≡ 0) }
    ensures { Turned c k word used regs.old pages.old result regs.new pages.new }
{
    let t = step::touch_of(regs, word);
    let d = window_of(data, pages, used, t);
    let w = d.near;
    if !covers(w, t) {
        return None;
    }
    let mem = touched(w, pages, used, t);
    let i = step::ins_of(c.with_core(k), regs, word, mem);
    let effect = frequent::elsewhere(i, Opcode::decode(word));
    let Some(e) = effect else {
        return step_by_kernel(c, k, word, regs, pages, used, d, t, mem);
    };
    Some(complete(regs, pages, used, d, t, e))
}

// One step of the instruction at an aligned pc.
fn plain_step(
    c: Cpu,
    k: Core,
    word: u64,
    regs: &mut [u64; 32],
    pages: &mut [u8],
    used: usize,
    data: Pair,
) -> Option<Turn>
    requires { Both pages.old used «data» × (k.pc % 4 ≡ 0) }
    ensures { Turned c k word used regs.old pages.old result regs.new pages.new }
{
    let i = step::ins_of(c.with_core(k), regs, word, 0);
    let key = Key::of(word);
    let plain = frequent::plain(i, key);
    if let Some(e) = plain {
        return Some(finish(regs, data, e));
    }
    let w = data.near;
    let kept = frequent::kept(i, w, pages, used, key);
    if let Some(e) = kept {
        let t = Some(i.address() / 8 * 8);
        return Some(complete(regs, pages, used, data, t, e));
    }
    step_after_lookup(c, k, word, regs, pages, used, data)
}

// The step counter is one more with each step, so it is reckoned at the end.
fn after(c: Cpu, k: Core, count: u64) -> Went
    ensures { result ≡ record { cpu = cpu_with c k count; count = count } }
{
    let mut cpu = c.with_core(k);
    if count == 0 {
        return Went { cpu, count };
    }
    cpu.step = bits::plus(c.step, count);
    Went { cpu, count }
}

// The word at pc, where pc is aligned and its page is there, by way of the page that the last one came from.
fn fetch(w: Window, pages: &[u8], used: usize, pc: u64) -> Option<Fetched>
    requires { Shows pages.now used w }
    ensures { Fetches pages.now used pc result }
{
    if pc % 4 != 0 {
        return None;
    }
    let code = w.to(pages, used, pc);
    if !code.has(pc) {
        return None;
    }
    let word = code.word(pages, used, pc);
    Some(Fetched { code, word })
}

// Steps, until one is not made here or as many as the budget are. A turn ends with the fetch for the next one: so the word is
// one load for the compiler, where it would else take the fields out of single bytes. It is a function of its own, since the loop
// was seen to run a tenth to a third slower where its registers had to be shared with its caller's.
#[inline(never)]
pub(crate) fn plain_steps(
    c: Cpu,
    regs: &mut [u64; 32],
    pages: &mut [u8],
    used: usize,
    budget: u64,
) -> Went
    ensures { (y h o x d : List ℕ) → bad (machine c regs.old y used pages.old h o) ≡ false → Gone c used regs.old pages.old budget result regs.new pages.new y h o x d }
{
    if c.exited {
        return Went { cpu: c, count: 0 };
    }
    let Some(first) = fetch(Window::none(), pages, used, c.pc) else {
        return Went { cpu: c, count: 0 };
    };
    let mut core = c.core();
    let mut data = Pair::none();
    let mut code = first.code;
    let mut word = first.word;
    for count in 0..budget {
        let Some(turn) = plain_step(c, core, word, regs, pages, used, data) else {
            return after(c, core, count);
        };
        core = turn.core;
        data = turn.data;
        let Some(next) = fetch(code, pages, used, core.pc) else {
            return after(c, core, count + 1);
        };
        code = next.code;
        word = next.word;
    }
    after(c, core, budget)
}
