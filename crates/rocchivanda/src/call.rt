// How a call from C begins and ends.
ghost use Rattle.std.specs.Prelude.{◌≡◌, List, ℕ, ◌≤◌, length};
ghost use Rattle.interpreter.specs.Machine.{reg};
ghost use Rattle.interpreter.specs.Layout.{encode};
ghost use Rattle.interpreter.specs.Step.{values_of, finished};
ghost use Rattle.interpreter.specs.Runs.{stopped, ended};
ghost use Rattle.interpreter.specs.declared.effect.Refusal.TheVariants.{BadMachine};
ghost use Rattle.interpreter.specs.declared.step.Answer.TheVariants.{Refused};
ghost use Rattle.rocchivanda.specs.Calls.{lent, called, well_formed, told, leaves, stays, idle};

use interpreter::effect::Refusal;
use interpreter::layout::Layout;
use interpreter::run::Stopped;
use interpreter::state::State;
use interpreter::step::{Answer, Finished};
use pages::bytes;

// The answer's entries.
pub(crate) struct Entries;

impl Entries {
    pub(crate) const COUNT: usize = 4;

    // The result of a call that has too few of them: there is no place for the refusal's number.
    pub(crate) const REFUSED: u64 = 4;

    const USED: usize = 0;

    const FIRST: usize = 1;

    const SECOND: usize = 2;

    const STEPS: usize = 3;
}

// The used page records that the caller names.
pub(crate) fn used(answer: &[u64]) -> usize
    requires { 4 ≤ length answer.now }
    ensures { result ≡ reg answer.now 0 }
{
    answer[Entries::USED] as usize
}

// Writes the entries and gives the result.
#[tactic(auto, using(crate::proofs::Laws::Ends::told_is))]
fn tell(answer: &mut [u64], a: Answer, used: usize, count: u64) -> u64
    requires { 4 ≤ length answer.old }
    ensures { (result ≡ (values_of a).kind) × (answer.new ≡ told answer.old used (values_of a) count) }
{
    let v = a.values();
    answer[Entries::USED] = used as u64;
    answer[Entries::FIRST] = v.first;
    answer[Entries::SECOND] = v.second;
    answer[Entries::STEPS] = count;
    v.kind as u64
}

// A call that makes no step.
pub(crate) fn stand(answer: &mut [u64], a: Answer) -> u64
    requires { 4 ≤ length answer.old }
    ensures { (s p h o : List ℕ) → called result (lent s p h o answer.new) ≡ stays (lent s p h o answer.old) a }
{
    let u = used(answer);
    tell(answer, a, u, 0)
}

pub(crate) fn refuse(answer: &mut [u64]) -> u64
    requires { 4 ≤ length answer.old }
    ensures { (s p h o : List ℕ) → called result (lent s p h o answer.new) ≡ stays (lent s p h o answer.old) (Refused BadMachine) }
{
    stand(answer, Answer::Refused(Refusal::BadMachine))
}

#[tactic(auto, using(crate::proofs::Laws::Ends::not_long, crate::proofs::Laws::Ends::not_exited, crate::proofs::Laws::Ends::not_spare, crate::proofs::Laws::Ends::spare_is))]
fn well_formed(state: &[u8]) -> bool
    ensures { result ≡ well_formed state.now }
{
    state.len() == Layout::SIZE
        && state[Layout::EXITED] <= 1
        && bytes::word_at(state, Layout::SPARE) == 0
        && state[Layout::LAST] == 0
}

// What a run answers where the bytes are not taken for a state: without a step to make, rules and hint length are not asked.
#[tactic(auto, using(crate::proofs::Laws::Ends::idle_stepped, crate::proofs::Laws::Ends::idle_unformed, crate::proofs::Laws::Ends::idle_some))]
pub(crate) fn idle(budget: u64, state: &[u8]) -> Answer
    ensures { result ≡ idle budget state.now }
{
    if budget == 0 {
        if well_formed(state) {
            return Answer::Stepped;
        }
    }
    Answer::Refused(Refusal::BadMachine)
}

fn keep(state: &mut [u8], s: State)
    requires { length state.old ≡ 360 }
    ensures { state.new ≡ encode s }
{
    let encoded = s.encode();
    bytes::copy(&encoded, 0, state, 0, Layout::SIZE);
}

// A step as a run of one call.
pub(crate) fn ended(f: Finished) -> Stopped
    ensures { (p h o : List ℕ) → stopped result p h o ≡ ended (finished f p h o) }
{
    let answer = f.answer;
    let state = f.state;
    if f.counts {
        return Stopped {
            answer,
            state,
            used: f.used,
            count: 1,
        };
    }
    Stopped {
        answer,
        state,
        used: f.used,
        count: 0,
    }
}

// Writes the state's bytes and the entries, and gives the result.
pub(crate) fn finish(state: &mut [u8], answer: &mut [u64], e: Stopped) -> u64
    requires { (length state.old ≡ 360) × (4 ≤ length answer.old) }
    ensures { (p h o : List ℕ) → called result (lent state.new p h o answer.new) ≡ leaves answer.old (stopped e p h o) }
{
    let s = e.state;
    let a = e.answer;
    keep(state, s);
    tell(answer, a, e.used, e.count)
}
