// The step repeated (document 01, "One step").
ghost use Rattle.std.specs.Prelude.{◌≡◌, ◌+◌, ◌-◌, ◌^◌, ◌<◌, ◌≤◌, false, ℕ, List};
ghost use Rattle.interpreter.specs.Machine.{Machine as AnyMachine, bad};
ghost use Rattle.interpreter.specs.Step.{left, machine_of};
ghost use Rattle.interpreter.specs.Runs.{is_stepped, more, ended, ran, stopped, run_def};
ghost use Rattle.interpreter.specs.Lent.{held, index_in, data_in, SameLoans};

use crate::effect::Refusal;
use crate::machine::{Input, Machine};
use crate::state::{Cpu, State};
use crate::step::{Answer, Made};
use crate::{quick, step};

// The last call's answer, and how many steps were unrefused and from unexited states.
#[derive(Clone, Copy)]
pub(crate) struct Ended {
    pub answer: Answer,
    pub count: u64,
}

// What a run leaves beside the lent bytes.
#[derive(Clone, Copy)]
pub struct Stopped {
    pub answer: Answer,
    pub state: State,
    pub used: usize,
    // How many steps were unrefused and from unexited states.
    pub count: u64,
}

fn is_stepped(a: Answer) -> bool
    ensures { result ≡ is_stepped a }
{
    matches!(a, Answer::Stepped)
}

// The last call, after so many counted ones.
fn last(made: Made, count: u64) -> Ended
    requires { count + 1 < 2 ^ 64 }
    ensures { (m : AnyMachine) → ran result.answer m result.count ≡ more count (ended (left made.answer m made.counts)) }
{
    let answer = made.answer;
    if made.counts {
        return Ended {
            answer,
            count: count + 1,
        };
    }
    Ended { answer, count }
}

impl Machine<'_, '_, '_, '_, '_, '_> {
    // Many plain steps in a row, and how many they were.
    fn plain_steps(&mut self, budget: u64) -> u64
        requires { bad (held self.old) ≡ false }
        ensures lent { SameLoans self.old self.new }
        ensures within { result ≤ budget }
        ensures fine { bad (held self.new) ≡ false }
        ensures rest { run_def (index_in self.old) (data_in self.old) budget (held self.old) ≡ more result (run_def (index_in self.old) (data_in self.old) (budget - result) (held self.new)) }
    {
        let c = self.cpu;
        let used = self.used;
        let regs = &mut *self.regs;
        let pages = &mut *self.pages;
        let went = quick::plain_steps(c, regs, pages, used, budget);
        self.cpu = went.cpu;
        went.count
    }

    // A run of a machine that is not refused with 1: a step keeps it so, and the test is made once.
    pub(crate) fn repeat(&mut self, budget: u64) -> Ended
        requires { bad (held self.old) ≡ false }
        ensures lent { SameLoans self.old self.new }
        ensures machine { ran result.answer (held self.new) result.count ≡ run_def (index_in self.old) (data_in self.old) budget (held self.old) }
    {
        let mut count = 0;
        // No `for`: a turn makes as many steps as it can.
        while count < budget {
            count += self.plain_steps(budget - count);
            if budget <= count {
                return Ended {
                    answer: Answer::Stepped,
                    count,
                };
            }
            let made = self.advance();
            if !is_stepped(made.answer) {
                return last(made, count);
            }
            count += 1;
        }
        Ended {
            answer: Answer::Stepped,
            count,
        }
    }
}

// A run that ends before its first step.
fn unmoved(answer: Answer, s: State, used: usize) -> Stopped
    ensures { (p h o : List ℕ) → stopped result p h o ≡ ran answer (machine_of s used p h o) 0 }
{
    Stopped {
        answer,
        state: s,
        used,
        count: 0,
    }
}

// Steps until an answer other than Stepped comes, or as many as the budget are made. Budget 0 checks nothing.
pub fn run(
    s: State,
    pages: &mut [u8],
    used: usize,
    hint: &mut [u8],
    output: &mut [u8],
    index: &[u8],
    data: &[u8],
    budget: u64,
) -> Stopped
    ensures { stopped result pages.new hint.new output.new ≡ run_def index.now «data».now budget (machine_of s used pages.old hint.old output.old) }
{
    if budget == 0 {
        return unmoved(Answer::Stepped, s, used);
    }
    let c = s.cpu();
    if step::bad(c, pages, used, hint) {
        return unmoved(Answer::Refused(Refusal::BadMachine), s, used);
    }
    let mut regs = s.regs;
    let mut key = s.key;
    let mut machine = Machine {
        cpu: c,
        regs: &mut regs,
        key: &mut key,
        pages,
        used,
        hint,
        output,
        input: Input { index, bytes: data },
    };
    let end = machine.repeat(budget);
    let cpu = machine.cpu;
    let used = machine.used;
    Stopped {
        answer: end.answer,
        state: cpu.with(regs, key),
        used,
        count: end.count,
    }
}
