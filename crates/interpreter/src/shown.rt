// The step that a record shows (document 01, "The step record"): the same kernel and the same calls, on nothing but a state,
// the instruction and the touched eight bytes.
ghost use Rattle.std.specs.Prelude.{◌≡◌, ℕ, ◌<◌, List, None, Ok};
ghost use Rattle.interpreter.specs.Plan.{store_of, eight_at};
ghost use Rattle.interpreter.specs.Ideal.{remember};
ghost use Rattle.interpreter.specs.Shown.{shown_at, shown, step_shown, stepped};
ghost use Rattle.interpreter.specs.Parts.{call_shown, change_shown};

use crate::effect::{Change, Refusal, Stop};
use crate::linux::Call;
use crate::machine::{Input, Machine};
use crate::state::Cpu;
use crate::{cpu, step, syscall};

/// Such a step: the numbers that it leaves, what it touched, and the touched eight bytes afterwards, 0 where it touched none.
#[derive(Clone, Copy, Debug, PartialEq, Eq)]
pub struct Shown {
    pub cpu: Cpu,
    /// The touched eight bytes' address.
    pub touch: Option<u64>,
    pub eight: u64,
}

/// Why there is no step that eight bytes show.
#[derive(Clone, Copy, Debug, PartialEq, Eq)]
pub enum Unshown {
    /// With 2 to 7.
    Refused(Refusal),
    /// It moves more than eight bytes, so these cannot show it.
    Wide,
}

// The eight bytes that an instruction reads, where those shown are x.
#[tactic(auto, using(crate::proofs::Laws::Shown::given_eight))]
fn given(t: Option<u64>, x: u64) -> u64
    ensures { result ≡ eight_at (shown_at t x) t }
{
    match t {
        None => 0,
        Some(_) => x,
    }
}

// And what they are afterwards.
#[tactic(auto, using(crate::proofs::Laws::Shown::kept_eight))]
fn kept(t: Option<u64>, x: u64, store: Option<u64>) -> u64
    ensures { result ≡ eight_at (remember (shown_at t x) (store_of t store)) t }
{
    match t {
        None => 0,
        Some(_) => store.unwrap_or(x),
    }
}

// A call that touches nothing.
fn untouching(cpu: Cpu) -> Shown
    ensures { Ok result ≡ stepped cpu None 0 }
{
    Shown {
        cpu,
        touch: None,
        eight: 0,
    }
}

// A system call, once the step is counted: that of a machine with no bytes.
#[tactic(auto, using(crate::proofs::Laws::Shown::shown_as, crate::proofs::Laws::Shown::reply_made, crate::proofs::Laws::Shown::heap_made, crate::proofs::Laws::Shown::exit_made, crate::proofs::Laws::Shown::key_made, crate::proofs::Laws::Shown::input_made, crate::proofs::Laws::Shown::write_made, crate::proofs::Laws::Shown::hint_made))]
fn call(c: Cpu, regs: &mut [u64; 32], key: &mut [u8; 32], x: u64) -> Result<Shown, Unshown>
    ensures { shown result regs.new key.new ≡ call_shown c regs.old key.old x }
{
    let called = syscall::call_in(c, regs);
    let mut machine = Machine {
        cpu: c,
        regs,
        key,
        pages: &mut [],
        used: 0,
        hint: &mut [],
        output: &mut [],
        input: Input {
            index: &[],
            bytes: &[],
        },
    };
    match called {
        Call::Answer(v, e) => {
            machine.answered(v, e);
            Ok(untouching(machine.cpu))
        }
        Call::Heap(heap) => {
            machine.grown(heap);
            Ok(untouching(machine.cpu))
        }
        Call::Exit(code) => {
            machine.exited(code);
            Ok(untouching(machine.cpu))
        }
        Call::Key => {
            let a = step::aligned(machine.regs[5]);
            machine.keyed_by(x);
            Ok(Shown {
                cpu: machine.cpu,
                touch: Some(a),
                eight: x,
            })
        }
        Call::Input => Err(Unshown::Wide),
        Call::Write(stream) => Err(Unshown::Wide),
        Call::Hint => Err(Unshown::Wide),
    }
}

// An instruction that is no system call, once the kernel has said what it does.
#[tactic(auto, using(crate::proofs::Laws::Shown::change_made))]
fn complete(c: Cpu, regs: &mut [u64; 32], t: Option<u64>, x: u64, e: Change) -> Shown
    requires { e.dest < 32 }
    ensures { (k : List ℕ) → shown (Ok result) regs.new k ≡ change_shown c regs.old k t x e }
{
    step::set_reg(regs, e.dest, e.value);
    Shown {
        cpu: c.changed(e),
        touch: t,
        eight: kept(t, x, e.store),
    }
}

/// The step of this state by this instruction, where the touched eight bytes are x.
#[tactic(auto, using(crate::proofs::Laws::Dests::kernel_dest, crate::proofs::Laws::Shown::shown_refused, crate::proofs::Laws::Shown::shown_call, crate::proofs::Laws::Shown::shown_done))]
pub fn step_shown(
    c: Cpu,
    regs: &mut [u64; 32],
    key: &mut [u8; 32],
    word: u64,
    x: u64,
) -> Result<Shown, Unshown>
    ensures { shown result regs.new key.new ≡ step_shown c regs.old key.old word x }
{
    let n = c.counted();
    let t = step::touch_of(regs, word);
    let effect = cpu::kernel(step::ins_of(n, regs, word, given(t, x)));
    match effect {
        Ok(e) => Ok(complete(n, regs, t, x, e)),
        Err(stop) => match stop {
            Stop::Refused(r) => Err(Unshown::Refused(r)),
            Stop::Call => call(n, regs, key, x),
        },
    }
}
