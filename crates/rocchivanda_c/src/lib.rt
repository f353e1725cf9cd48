// The machine and the record checker for C (include/rocchivanda.h): each function of crates/rocchivanda with its clauses, exported.
#![tactic(auto)]

ghost use Rattle.std.specs.Prelude.{◌≡◌};
ghost use Rattle.rocchivanda.specs.Calls.{lent, called, filed, step_call, record_call, run_call, check_call, version};

// One step.
#[unsafe(no_mangle)]
pub extern "C" fn rocchivanda_step(
    state: &mut [u8],
    pages: &mut [u8],
    hint: &mut [u8],
    output: &mut [u8],
    index: &[u8],
    data: &[u8],
    answer: &mut [u64],
) -> u64
    ensures { called result (lent state.new pages.new hint.new output.new answer.new) ≡ step_call index.now «data».now (lent state.old pages.old hint.old output.old answer.old) }
{
    rocchivanda::rocchivanda_step(state, pages, hint, output, index, data, answer)
}

// One step, with its record.
#[unsafe(no_mangle)]
pub extern "C" fn rocchivanda_step_recorded(
    state: &mut [u8],
    pages: &mut [u8],
    hint: &mut [u8],
    output: &mut [u8],
    index: &[u8],
    data: &[u8],
    record: &mut [u8],
    answer: &mut [u64],
) -> u64
    ensures { filed (called result (lent state.new pages.new hint.new output.new answer.new)) «record».new ≡ record_call index.now «data».now (lent state.old pages.old hint.old output.old answer.old) «record».old }
{
    rocchivanda::rocchivanda_step_recorded(state, pages, hint, output, index, data, record, answer)
}

// Steps until an answer other than Stepped comes, or as many as the budget are made.
#[unsafe(no_mangle)]
pub extern "C" fn rocchivanda_run(
    state: &mut [u8],
    pages: &mut [u8],
    hint: &mut [u8],
    output: &mut [u8],
    index: &[u8],
    data: &[u8],
    budget: u64,
    answer: &mut [u64],
) -> u64
    ensures { called result (lent state.new pages.new hint.new output.new answer.new) ≡ run_call index.now «data».now budget (lent state.old pages.old hint.old output.old answer.old) }
{
    rocchivanda::rocchivanda_run(state, pages, hint, output, index, data, budget, answer)
}

// 0 for an accepted record, or the number of the refusal.
#[unsafe(no_mangle)]
pub extern "C" fn rocchivanda_check(record: &[u8]) -> u64
    ensures { result ≡ check_call «record».now }
{
    rocchivanda::rocchivanda_check(record)
}

// The number of this interface.
#[unsafe(no_mangle)]
pub extern "C" fn rocchivanda_version() -> u64
    ensures { result ≡ version }
{
    rocchivanda::rocchivanda_version()
}
