// One step (cpu.rs).
ghost use Rattle.std.specs.Prelude.{◌≡◌, ℕ, ◌*◌, ◌/◌, ◌%◌, ◌<◌, ◌≤◌, List, Some};
ghost use Rattle.interpreter.specs.Machine.{reg, set_reg, room_of, machine, bad};
ghost use Rattle.interpreter.specs.Plan.{does, changing, storing, eight_at, ins_of, touch_of, executing, plan};
ghost use Rattle.interpreter.specs.Step.{values_of, left, refused, putting, working, advance, machine_of, finished, in_place, step_def};
ghost use Rattle.interpreter.specs.Lent.{held, index_in, data_in, SameLoans, worked, kept, put_by};
ghost use Rattle.interpreter.specs.declared.effect.Refusal.TheVariants.{BadMachine};

use crate::effect::{Change, Ins, Refusal, Stop};
use crate::isa::IType;
use crate::machine::{Input, Machine};
use crate::state::{Cpu, State};
use crate::{cpu, hint};
use pages::page::Page;

/// What a step answers (document 01).
#[derive(Clone, Copy, Debug, PartialEq, Eq)]
pub enum Answer {
    Stepped,
    /// Stream, 1 or 2, and how many bytes stand at the output's front.
    Wrote(u64, u64),
    /// How many bytes the hint at the output's front has, without its length.
    Hint(u64),
    /// The exit code.
    Exited(u8),
    Refused(Refusal),
}

/// An answer in document 01's numbers: which one it is, counted from 0 in document 01's order, and its values.
#[derive(Clone, Copy, Debug, PartialEq, Eq)]
pub struct Values {
    /// A number, since it is the result of the calls from C.
    pub kind: u8,
    pub first: u64,
    pub second: u64,
}

impl Answer {
    /// The answer in numbers. A value that it does not have is 0.
    #[tactic(auto, unfolding(crate::specs::Step::values_of))]
    pub fn values(self) -> Values
        ensures { result ≡ values_of self }
    {
        match self {
            Answer::Stepped => said(0, 0, 0),
            Answer::Wrote(stream, count) => said(1, stream, count),
            Answer::Hint(count) => said(2, count, 0),
            Answer::Exited(code) => said(3, code as u64, 0),
            Answer::Refused(n) => said(4, u8::from(n) as u64, 0),
        }
    }
}

fn said(kind: u8, first: u64, second: u64) -> Values
    ensures { result ≡ record { kind = kind; first = first; second = second } }
{
    Values {
        kind,
        first,
        second,
    }
}

// What a step answers, and whether it was an unrefused step from an unexited state.
#[derive(Clone, Copy, Debug, PartialEq, Eq)]
pub(crate) struct Made {
    pub answer: Answer,
    pub counts: bool,
}

/// What the step by value leaves beside the lent bytes.
#[derive(Clone, Copy, Debug, PartialEq, Eq)]
pub struct Finished {
    pub answer: Answer,
    pub state: State,
    pub used: usize,
    /// Whether it was an unrefused step from an unexited state.
    pub counts: bool,
}

/// What the step in place leaves beside the lent machine: the same without the state.
#[derive(Clone, Copy, Debug, PartialEq, Eq)]
pub struct InPlace {
    pub answer: Answer,
    pub used: usize,
    pub counts: bool,
}

// The doubleword that an address lies in.
pub(crate) fn aligned(address: u64) -> u64
    ensures { (result ≡ address / 8 * 8) × (result % 8 ≡ 0) }
{
    address - address % 8
}

fn register(regs: &[u64; 32], i: u64) -> u64
    requires { i < 32 }
    ensures { result ≡ reg regs.now i }
{
    regs[i as usize]
}

#[tactic(auto, unfolding(crate::specs::Machine::set_reg))]
pub(crate) fn set_reg(regs: &mut [u64; 32], i: u64, v: u64)
    requires { i < 32 }
    ensures { regs.new ≡ set_reg regs.old i v }
{
    if i != 0 {
        regs[i as usize] = v;
    }
}

// What the instruction reads beside the eight bytes.
#[tactic(auto, unfolding(crate::specs::Plan::ins_of))]
pub(crate) fn ins_of(c: Cpu, regs: &[u64; 32], word: u64, mem: u64) -> Ins
    ensures { result ≡ ins_of c regs.now word mem }
{
    let i = IType::decode(word);
    Ins {
        rules: c.rules,
        word,
        rs: register(regs, i.rs),
        rt: register(regs, i.rt),
        pc: c.pc,
        next: c.next,
        hi: c.hi,
        lo: c.lo,
        mem,
    }
}

#[tactic(auto, unfolding(crate::specs::Plan::touch_of))]
pub(crate) fn touch_of(regs: &[u64; 32], word: u64) -> Option<u64>
    ensures { result ≡ touch_of regs.now word }
{
    cpu::touch(word, register(regs, IType::decode(word).rs))
}

impl Machine<'_, '_, '_, '_, '_, '_> {
    // What an instruction stores, if anything.
    fn settle(&mut self, t: Option<u64>, e: Change) -> Result<(), Refusal>
        requires { (a : ℕ) → t ≡ Some a → a % 8 ≡ 0 }
        ensures lent { SameLoans self.old self.new }
        ensures machine { kept result (held self.new) ≡ put_by (held self.old) (putting self.old.pages.now self.old.used (storing t e)) }
    {
        match t {
            None => Ok(()),
            Some(a) => {
                if let Some(m) = e.store {
                    return self.store(a, m);
                }
                Ok(())
            }
        }
    }

    // An instruction that is no system call, once the kernel has said what it does.
    fn complete(&mut self, t: Option<u64>, e: Change) -> Result<Answer, Refusal>
        requires dest { e.dest < 32 }
        requires touch { (a : ℕ) → t ≡ Some a → a % 8 ≡ 0 }
        ensures lent { SameLoans self.old self.new }
        ensures machine { worked result (held self.new) ≡ working (index_in self.old) (data_in self.old) (held self.old) (λ v. does (changing v t e)) }
    {
        self.settle(t, e)?;
        let regs = &mut *self.regs;
        set_reg(regs, e.dest, e.value);
        self.cpu = self.cpu.changed(e);
        Ok(Answer::Stepped)
    }

    #[tactic(auto, using(crate::proofs::Laws::Dests::kernel_dest, crate::proofs::Laws::Dests::touch_even, crate::proofs::Laws::Plans::exec_refused, crate::proofs::Laws::Plans::exec_call, crate::proofs::Laws::Plans::exec_done), unfolding(crate::specs::Plan::touch_of))]
    fn execute(&mut self, word: u64) -> Result<Answer, Refusal>
        requires { self.old.cpu.hint ≤ room_of self.old.hint.now }
        ensures lent { SameLoans self.old self.new }
        ensures machine { worked result (held self.new) ≡ working (index_in self.old) (data_in self.old) (held self.old) (λ s. executing s word (touch_of s.regs word)) }
    {
        let c = self.cpu;
        let t = touch_of(self.regs, word);
        let mem = self.memory().touched(t);
        let effect = cpu::kernel(ins_of(c, self.regs, word, mem));
        match effect {
            Ok(e) => self.complete(t, e),
            Err(stop) => match stop {
                Stop::Refused(n) => Err(n),
                Stop::Call => self.call(),
            },
        }
    }

    // The instruction at pc, once the step is counted.
    #[tactic(auto, using(crate::proofs::Laws::Plans::step_misaligned, crate::proofs::Laws::Plans::step_planned))]
    fn proceed(&mut self) -> Result<Answer, Refusal>
        requires { self.old.cpu.hint ≤ room_of self.old.hint.now }
        ensures lent { SameLoans self.old self.new }
        ensures machine { worked result (held self.new) ≡ working (index_in self.old) (data_in self.old) (held self.old) plan }
    {
        if self.cpu.pc % 4 != 0 {
            return Err(Refusal::PcMisaligned);
        }
        let pc = self.cpu.pc;
        let word = self.memory().word(pc);
        self.execute(word)
    }

    // One step of a machine that is not refused with 1.
    #[tactic(auto, using(crate::proofs::Laws::Lent::worked_as, crate::proofs::Laws::Plans::step_exited, crate::proofs::Laws::Plans::step_counted), unfolding(crate::specs::Machine::counted))]
    pub(crate) fn advance(&mut self) -> Made
        requires { self.old.cpu.hint ≤ room_of self.old.hint.now }
        ensures lent { SameLoans self.old self.new }
        ensures machine { left result.answer (held self.new) result.counts ≡ advance (index_in self.old) (data_in self.old) (held self.old) }
    {
        if self.cpu.exited {
            return Made {
                answer: Answer::Exited(self.cpu.code),
                counts: false,
            };
        }
        self.cpu = self.cpu.counted();
        match self.proceed() {
            Ok(answer) => Made {
                answer,
                counts: true,
            },
            Err(n) => Made {
                answer: Answer::Refused(n),
                counts: false,
            },
        }
    }
}

// Refusal 1, but for the recording buffer.
#[tactic(auto, using(crate::proofs::Laws::Steps::bad_rules, crate::proofs::Laws::Steps::bad_hint, crate::proofs::Laws::Steps::bad_used))]
pub(crate) fn bad(c: Cpu, pages: &[u8], used: usize, hint: &[u8]) -> bool
    ensures { (r k o : List ℕ) → result ≡ bad (machine c r k used pages.now hint.now o) }
{
    if Cpu::RULES < c.rules {
        return true;
    }
    if hint::room_of(hint) < c.hint {
        return true;
    }
    pages.len() / Page::RECORD_SIZE < used
}

// Refusal 1: nothing changes.
pub(crate) fn unstepped(s: State, used: usize) -> Finished
    ensures { (p h o : List ℕ) → finished result p h o ≡ refused (machine_of s used p h o) BadMachine }
{
    Finished {
        answer: Answer::Refused(Refusal::BadMachine),
        state: s,
        used,
        counts: false,
    }
}

/// One step, by value. Refused with 1 where the rules number or the hint length is too large, or more page records are said to be
/// used than the slice has. A refusal changes no lent byte.
pub fn step(
    s: State,
    pages: &mut [u8],
    used: usize,
    hint: &mut [u8],
    output: &mut [u8],
    index: &[u8],
    data: &[u8],
) -> Finished
    ensures { finished result pages.new hint.new output.new ≡ step_def index.now «data».now (machine_of s used pages.old hint.old output.old) }
{
    let c = s.cpu();
    if bad(c, pages, used, hint) {
        return unstepped(s, used);
    }
    let mut regs = s.regs;
    let mut key = s.key;
    let mut machine = Machine {
        cpu: c,
        regs: &mut regs,
        key: &mut key,
        pages,
        used,
        hint,
        output,
        input: Input { index, bytes: data },
    };
    let made = machine.advance();
    let cpu = machine.cpu;
    let used = machine.used;
    Finished {
        answer: made.answer,
        state: cpu.with(regs, key),
        used,
        counts: made.counts,
    }
}

/// The same on a lent machine, stepped where it is.
pub fn step_in_place(
    s: &mut State,
    pages: &mut [u8],
    used: usize,
    hint: &mut [u8],
    output: &mut [u8],
    index: &[u8],
    data: &[u8],
) -> InPlace
    ensures { finished (in_place result s.new) pages.new hint.new output.new ≡ step_def index.now «data».now (machine_of s.old used pages.old hint.old output.old) }
{
    let f = step(*s, pages, used, hint, output, index, data);
    *s = f.state;
    InPlace {
        answer: f.answer,
        used: f.used,
        counts: f.counts,
    }
}
