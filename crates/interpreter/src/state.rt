// What the machine holds (document 01).
ghost use Rattle.std.specs.Prelude.{◌≡◌};
ghost use Rattle.interpreter.specs.Machine.{cpu_of, state_of, counted, changed, onward, leaving};

use crate::bits;
use crate::effect::Change;

/// The state, with its rules number: what the 360 bytes hold. Each number is one of 64 bits where nothing else is said.
#[derive(Clone, Copy, Debug, Default, PartialEq, Eq)]
pub struct State {
    pub regs: [u64; 32],
    /// The address of the instruction, and of the one after it.
    pub pc: u64,
    pub next: u64,
    pub hi: u64,
    pub lo: u64,
    /// Where the next 5009 gives memory.
    pub heap: u64,
    /// How many steps were counted.
    pub step: u64,
    /// Where in the input the next read starts.
    pub offset: u64,
    /// How many hint bytes are held.
    pub hint: u64,
    pub key: [u8; 32],
    /// A flag beside the code, since the 360 bytes hold both: `decode` of `encode` gives back the code that an unexited state has.
    pub exited: bool,
    /// What the exit call left.
    pub code: u8,
    /// A byte, since refusals 1 and 22 speak of numbers above the largest.
    pub rules: u8,
}

/// A state's numbers, without its registers and key: a step works on these and on lent registers. `State` has them too, since
/// its fields are public by name.
#[derive(Clone, Copy, Debug, PartialEq, Eq)]
pub struct Cpu {
    pub pc: u64,
    pub next: u64,
    pub hi: u64,
    pub lo: u64,
    pub heap: u64,
    pub step: u64,
    pub offset: u64,
    pub hint: u64,
    pub exited: bool,
    pub code: u8,
    pub rules: u8,
}

impl State {
    /// The numbers alone.
    #[tactic(auto, unfolding(crate::specs::Machine::cpu_of))]
    pub fn cpu(self) -> Cpu
        ensures { result ≡ cpu_of self }
    {
        Cpu {
            pc: self.pc,
            next: self.next,
            hi: self.hi,
            lo: self.lo,
            heap: self.heap,
            step: self.step,
            offset: self.offset,
            hint: self.hint,
            exited: self.exited,
            code: self.code,
            rules: self.rules,
        }
    }
}

impl Cpu {
    /// The state of these numbers with registers and key.
    #[tactic(auto, unfolding(crate::specs::Machine::state_of))]
    pub fn with(self, regs: [u64; 32], key: [u8; 32]) -> State
        ensures { result ≡ state_of self regs key }
    {
        State {
            regs,
            pc: self.pc,
            next: self.next,
            hi: self.hi,
            lo: self.lo,
            heap: self.heap,
            step: self.step,
            offset: self.offset,
            hint: self.hint,
            key,
            exited: self.exited,
            code: self.code,
            rules: self.rules,
        }
    }

    /// The largest rules number.
    pub const RULES: u8 = 1;

    #[tactic(auto, unfolding(crate::specs::Machine::counted))]
    pub(crate) fn counted(self) -> Cpu
        ensures { result ≡ counted self }
    {
        Cpu {
            step: bits::plus(self.step, 1),
            ..self
        }
    }

    // What an instruction changes.
    #[tactic(auto, unfolding(crate::specs::Machine::changed))]
    pub(crate) fn changed(self, e: Change) -> Cpu
        ensures { result ≡ changed self e }
    {
        Cpu {
            pc: e.pc,
            next: e.next,
            hi: e.hi,
            lo: e.lo,
            ..self
        }
    }

    // After a system call: the next instruction, with this heap, input offset and hint length.
    #[tactic(auto, unfolding(crate::specs::Machine::onward))]
    pub(crate) fn onward(self, heap: u64, offset: u64, hint: u64) -> Cpu
        ensures { result ≡ onward self heap offset hint }
    {
        Cpu {
            pc: self.next,
            next: bits::plus(self.next, 4),
            heap,
            offset,
            hint,
            ..self
        }
    }

    // After the exit call.
    #[tactic(auto, unfolding(crate::specs::Machine::leaving))]
    pub(crate) fn leaving(self, code: u8) -> Cpu
        ensures { result ≡ leaving self code }
    {
        Cpu {
            exited: true,
            code,
            ..self
        }
    }
}
