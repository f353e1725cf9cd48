// The system calls carried out (linux.rs, handle_syscall): each takes only the buffers that it works on.
ghost use Rattle.std.specs.Prelude.{◌≡◌, ◌+◌, ◌-◌, ◌≤◌, length, Ok};
ghost use Rattle.interpreter.specs.Machine.{room_of};
ghost use Rattle.interpreter.specs.Plan.{does, keying, calling, call_in, read_from, reading_in};
ghost use Rattle.interpreter.specs.Step.{working};
ghost use Rattle.interpreter.specs.Lent.{held, index_in, data_in, SameLoans, worked};
ghost use Rattle.interpreter.specs.declared.step.Answer.TheVariants.{Stepped, Exited};
ghost use Rattle.interpreter.specs.declared.linux.Call.TheVariants.{Answer as Reply, Heap, Exit, Key, Input, Write, Hint as HintWrite};

use crate::effect::Refusal;
use crate::linux::Call;
use crate::machine::Machine;
use crate::state::Cpu;
use crate::step::Answer;
use crate::{bits, hint, input, linux, step};
use pages::reader;

impl Machine<'_, '_, '_, '_, '_, '_> {
    // A call that answers v with the error e, and changes nothing else.
    pub(crate) fn answered(&mut self, v: u64, e: u64)
        ensures lent { SameLoans self.old self.new }
        ensures machine { worked (Ok Stepped) (held self.new) ≡ working (index_in self.old) (data_in self.old) (held self.old) (λ s. calling s (Reply v e)) }
    {
        let c = self.cpu;
        self.reply(v, e);
        self.cpu = c.onward(c.heap, c.offset, c.hint);
    }

    // 5009 where the heap grows.
    pub(crate) fn grown(&mut self, heap: u64)
        ensures lent { SameLoans self.old self.new }
        ensures machine { worked (Ok Stepped) (held self.new) ≡ working (index_in self.old) (data_in self.old) (held self.old) (λ s. calling s (Heap heap)) }
    {
        let c = self.cpu;
        self.reply(c.heap, 0);
        self.cpu = c.onward(heap, c.offset, c.hint);
    }

    // 5205: registers and pc stay.
    pub(crate) fn exited(&mut self, code: u8)
        ensures lent { SameLoans self.old self.new }
        ensures machine { worked (Ok (Exited code)) (held self.new) ≡ working (index_in self.old) (data_in self.old) (held self.old) (λ s. calling s (Exit code)) }
    {
        self.cpu = self.cpu.leaving(code);
    }

    // 5001 on 6 where x is the doubleword that a1 lies in: some of its bytes go into the key's end.
    pub(crate) fn keyed_by(&mut self, x: u64)
        ensures lent { SameLoans self.old self.new }
        ensures machine { worked (Ok Stepped) (held self.new) ≡ working (index_in self.old) (data_in self.old) (held self.old) (λ s. does (keying s x)) }
    {
        let a1 = self.regs[5];
        let n = input::shifting(a1, self.regs[6]);
        let key = &mut *self.key;
        input::shift_key(key, x, a1 % 8, n);
        let c = self.cpu;
        self.reply(n, 0);
        self.cpu = c.onward(c.heap, 0, c.hint);
    }

    // 5001 on 6.
    #[tactic(auto, using(crate::proofs::Laws::Plans::key_done))]
    fn keyed(&mut self)
        ensures lent { SameLoans self.old self.new }
        ensures machine { worked (Ok Stepped) (held self.new) ≡ working (index_in self.old) (data_in self.old) (held self.old) (λ s. calling s Key) }
    {
        let a1 = self.regs[5];
        let x = self.memory().eight(step::aligned(a1));
        self.keyed_by(x);
    }

    // 5001 on 1 and 2: bytes of memory go to the front of the output.
    fn wrote(&mut self, stream: u64) -> Result<Answer, Refusal>
        ensures lent { SameLoans self.old self.new }
        ensures machine { worked result (held self.new) ≡ working (index_in self.old) (data_in self.old) (held self.old) (λ s. calling s (Write stream)) }
    {
        let a1 = self.regs[5];
        let a2 = self.regs[6];
        if (self.output.len() as u64) < a2 {
            return Err(Refusal::NoRoom);
        }
        let used = self.used;
        let pages = &mut *self.pages;
        let output = &mut *self.output;
        reader::copy_out(pages, used, a1, output, 0, a2 as usize);
        let c = self.cpu;
        self.reply(a2, 0);
        self.cpu = c.onward(c.heap, c.offset, c.hint);
        Ok(Answer::Wrote(stream, a2))
    }

    // 5001 on 4.
    fn hinted(&mut self) -> Result<Answer, Refusal>
        requires { self.old.cpu.hint ≤ room_of self.old.hint.now }
        ensures lent { SameLoans self.old self.new }
        ensures machine { worked result (held self.new) ≡ working (index_in self.old) (data_in self.old) (held self.old) (λ s. calling s HintWrite) }
    {
        let a1 = self.regs[5];
        let a2 = self.regs[6];
        let c = self.cpu;
        let used = self.used;
        let pages = &mut *self.pages;
        let hint = &mut *self.hint;
        let output = &mut *self.output;
        let handed = hint::listen(pages, used, hint, c.hint, a1, a2, output)?;
        self.reply(a2, 0);
        match handed {
            None => {
                self.cpu = c.onward(c.heap, c.offset, bits::plus(c.hint, a2));
                Ok(Answer::Stepped)
            }
            Some(n) => {
                self.cpu = c.onward(c.heap, c.offset, 0);
                Ok(Answer::Hint(n))
            }
        }
    }

    // 5000 on 5 once the preimage is found and the offset lies in it: some of its bytes go into one doubleword.
    #[tactic(auto, using(crate::proofs::Laws::Lent::worked_as, crate::proofs::Laws::Inputs::moving_fits, crate::proofs::Laws::Plans::read_done, crate::proofs::Laws::Plans::read_full))]
    fn read_bytes(&mut self, part: &[u8]) -> Result<Answer, Refusal>
        requires { self.old.cpu.offset ≤ 8 + length part.now }
        ensures lent { SameLoans self.old self.new }
        ensures machine { worked result (held self.new) ≡ working (index_in self.old) (data_in self.old) (held self.old) (λ s. does (read_from s part.now)) }
    {
        let a1 = self.regs[5];
        let c = self.cpu;
        let n = input::moving(part.len() as u64, c.offset, a1, self.regs[6]);
        let at = step::aligned(a1);
        let old = self.memory().eight(at);
        let new = input::merge(old, a1 % 8, part, c.offset, n);
        self.store(at, new)?;
        self.reply(n, 0);
        self.cpu = c.onward(c.heap, bits::plus(c.offset, n), c.hint);
        Ok(Answer::Stepped)
    }

    // 5000 on 5 once the preimage is found.
    fn read_part(&mut self, part: &[u8]) -> Result<Answer, Refusal>
        ensures lent { SameLoans self.old self.new }
        ensures machine { worked result (held self.new) ≡ working (index_in self.old) (data_in self.old) (held self.old) (λ s. reading_in s part.now) }
    {
        if (part.len() as u64) < self.cpu.offset.saturating_sub(8) {
            return Err(Refusal::InputOffset);
        }
        self.read_bytes(part)
    }

    // 5000 on 5: the preimage with the key, of the input's index and data.
    #[tactic(auto, using(crate::proofs::Laws::Plans::input_absent, crate::proofs::Laws::Plans::input_outside, crate::proofs::Laws::Plans::input_part))]
    fn read_input(&mut self) -> Result<Answer, Refusal>
        ensures lent { SameLoans self.old self.new }
        ensures machine { worked result (held self.new) ≡ working (index_in self.old) (data_in self.old) (held self.old) (λ s. calling s Input) }
    {
        let Some(entry) = input::entry_of(self.input.index, self.key) else {
            return Err(Refusal::NoInput);
        };
        let bytes = self.input.bytes;
        if !input::inside(bytes, entry.start, entry.length) {
            return Err(Refusal::NoInput);
        }
        let part = input::part_of(bytes, entry.start, entry.length);
        self.read_part(part)
    }

    #[tactic(auto, using(crate::proofs::Laws::Plans::call_by))]
    pub(crate) fn call(&mut self) -> Result<Answer, Refusal>
        requires { self.old.cpu.hint ≤ room_of self.old.hint.now }
        ensures lent { SameLoans self.old self.new }
        ensures machine { worked result (held self.new) ≡ working (index_in self.old) (data_in self.old) (held self.old) (λ s. calling s (call_in s.cpu s.regs)) }
    {
        let called = call_in(self.cpu, self.regs);
        match called {
            Call::Answer(v, e) => {
                self.answered(v, e);
                Ok(Answer::Stepped)
            }
            Call::Heap(heap) => {
                self.grown(heap);
                Ok(Answer::Stepped)
            }
            Call::Exit(code) => {
                self.exited(code);
                Ok(Answer::Exited(code))
            }
            Call::Key => {
                self.keyed();
                Ok(Answer::Stepped)
            }
            Call::Input => self.read_input(),
            Call::Write(stream) => self.wrote(stream),
            Call::Hint => self.hinted(),
        }
    }
}

// Which system call it is: its number is the low word of register 2, its descriptor the low word of a0.
#[tactic(auto, unfolding(crate::specs::Plan::call_in))]
pub(crate) fn call_in(c: Cpu, regs: &[u64; 32]) -> Call
    ensures { result ≡ call_in c regs.now }
{
    let number = regs[2] % 0x1_0000_0000;
    let fd = regs[4] % 0x1_0000_0000;
    linux::call_of(number, fd, regs[4], regs[5], regs[6], c.heap)
}
