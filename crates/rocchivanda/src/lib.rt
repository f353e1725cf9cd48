// The machine and the record checker on slices and numbers alone. No function asks anything of its arguments.
// crates/rocchivanda_c exports each for C (include/rocchivanda.h).
#![tactic(auto)]

ghost use Rattle.std.specs.Prelude.{◌≡◌};
ghost use Rattle.rocchivanda.specs.Calls.{lent, called, filed, step_call, record_call, run_call, check_call, version};

mod call;

use call::Entries;
use checker::check;
use interpreter::{layout, record, run, step};

// One step.
#[tactic(auto, using(crate::proofs::Laws::Calls::decoded, crate::proofs::Laws::Calls::step_few, crate::proofs::Laws::Calls::step_none, crate::proofs::Laws::Calls::step_done))]
pub fn rocchivanda_step(
    state: &mut [u8],
    pages: &mut [u8],
    hint: &mut [u8],
    output: &mut [u8],
    index: &[u8],
    data: &[u8],
    answer: &mut [u64],
) -> u64
    ensures { called result (lent state.new pages.new hint.new output.new answer.new) ≡ step_call index.now «data».now (lent state.old pages.old hint.old output.old answer.old) }
{
    if answer.len() < Entries::COUNT {
        return Entries::REFUSED;
    }
    let Some(s) = layout::decode(state) else {
        return call::refuse(answer);
    };
    let used = call::used(answer);
    let done = step::step(s, pages, used, hint, output, index, data);
    call::finish(state, answer, call::ended(done))
}

// One step, with its record.
#[tactic(auto, using(crate::proofs::Laws::Calls::decoded, crate::proofs::Laws::Calls::record_few, crate::proofs::Laws::Calls::record_none, crate::proofs::Laws::Calls::record_done))]
pub fn rocchivanda_step_recorded(
    state: &mut [u8],
    pages: &mut [u8],
    hint: &mut [u8],
    output: &mut [u8],
    index: &[u8],
    data: &[u8],
    record: &mut [u8],
    answer: &mut [u64],
) -> u64
    ensures { filed (called result (lent state.new pages.new hint.new output.new answer.new)) «record».new ≡ record_call index.now «data».now (lent state.old pages.old hint.old output.old answer.old) «record».old }
{
    if answer.len() < Entries::COUNT {
        return Entries::REFUSED;
    }
    let Some(s) = layout::decode(state) else {
        return call::refuse(answer);
    };
    let used = call::used(answer);
    let done = record::step_recorded(s, pages, used, hint, output, index, data, record);
    call::finish(state, answer, call::ended(done))
}

// Steps until an answer other than Stepped comes, or as many as the budget are made.
#[tactic(auto, using(crate::proofs::Laws::Calls::decoded, crate::proofs::Laws::Calls::run_few, crate::proofs::Laws::Calls::run_none, crate::proofs::Laws::Calls::run_done))]
pub fn rocchivanda_run(
    state: &mut [u8],
    pages: &mut [u8],
    hint: &mut [u8],
    output: &mut [u8],
    index: &[u8],
    data: &[u8],
    budget: u64,
    answer: &mut [u64],
) -> u64
    ensures { called result (lent state.new pages.new hint.new output.new answer.new) ≡ run_call index.now «data».now budget (lent state.old pages.old hint.old output.old answer.old) }
{
    if answer.len() < Entries::COUNT {
        return Entries::REFUSED;
    }
    let Some(s) = layout::decode(state) else {
        let without = call::idle(budget, state);
        return call::stand(answer, without);
    };
    let used = call::used(answer);
    let end = run::run(s, pages, used, hint, output, index, data, budget);
    call::finish(state, answer, end)
}

// 0 for an accepted record, or the number of the refusal.
#[tactic(auto, using(crate::proofs::Laws::Ends::check_is))]
pub fn rocchivanda_check(record: &[u8]) -> u64
    ensures { result ≡ check_call «record».now }
{
    match check::check(record) {
        Ok(()) => 0,
        Err(fault) => u8::from(fault) as u64,
    }
}

// The number of this interface.
pub fn rocchivanda_version() -> u64
    ensures { result ≡ version }
{
    1
}
