// One record judged (document 01, "The step record"): it shows all that the checker sees.
ghost use Rattle.std.specs.Prelude.{◌≡◌, length};
ghost use Rattle.checker.specs.Records.{old_in, new_in, word_in};
ghost use Rattle.checker.specs.Check.{placed, agrees, check_def};
ghost use Rattle.checker.specs.Parts.{step_judged, result_judged};

use crate::verdict::Fault;
use interpreter::record::Record;
use interpreter::state::State;
use interpreter::{layout, shown};
use pages::bytes;

// The address is the touched one; without a touch the last 24 bytes are zero.
#[tactic(auto, using(crate::proofs::Laws::Judged::placed_eight, crate::proofs::Laws::Judged::placed_address, crate::proofs::Laws::Judged::placed_old, crate::proofs::Laws::Judged::placed_new))]
fn placed(record: &[u8], t: Option<u64>) -> bool
    requires { length «record».now ≡ 752 }
    ensures { result ≡ placed «record».now t }
{
    let address = bytes::doubleword_at(record, Record::ADDRESS);
    match t {
        None => {
            address == 0
                && bytes::doubleword_at(record, Record::OLD_EIGHT) == 0
                && bytes::doubleword_at(record, Record::NEW_EIGHT) == 0
        }
        Some(a) => address == a,
    }
}

// Where pc lies in the touched doubleword, the old bytes hold the instruction.
#[tactic(auto, using(crate::proofs::Laws::Judged::agrees_there))]
fn agrees(record: &[u8], pc: u64, word: u64, t: Option<u64>) -> bool
    requires { (length «record».now ≡ 752) × (word ≡ word_in «record».now) }
    ensures { result ≡ agrees «record».now pc t }
{
    match t {
        None => true,
        Some(a) => {
            let o = pc % 8;
            if pc - o != a {
                return true;
            }
            bytes::word_at(record, Record::OLD_EIGHT + o as usize) == word
        }
    }
}

// What the step left: a state, and the touched eight bytes y.
#[tactic(auto, using(crate::proofs::Laws::Judged::result_state, crate::proofs::Laws::Judged::result_eight, crate::proofs::Laws::Judged::result_same, crate::proofs::Laws::Same::not_state, crate::proofs::Laws::Same::tested_same, crate::proofs::Laws::Same::tested_not))]
fn judge_result(record: &[u8], new: State, left: State, y: u64) -> Result<(), Fault>
    requires { length «record».now ≡ 752 }
    ensures { result ≡ result_judged «record».now new left y }
{
    if left != new {
        return Err(Fault::Result);
    }
    if y != bytes::doubleword_at(record, Record::NEW_EIGHT) {
        return Err(Fault::Result);
    }
    Ok(())
}

// 23 to 27: the step made again from the old state.
fn judge_step(record: &[u8], s: State, n: State) -> Result<(), Fault>
    requires { (length «record».now ≡ 752) × (s ≡ old_in «record».now) × (n ≡ new_in «record».now) }
    ensures { result ≡ step_judged «record».now }
{
    if s.exited {
        return Err(Fault::AlreadyExited);
    }
    let mut regs = s.regs;
    let mut key = s.key;
    let word = bytes::word_at(record, Record::WORD);
    let old = bytes::doubleword_at(record, Record::OLD_EIGHT);
    let made = shown::step_shown(s.cpu(), &mut regs, &mut key, word, old)?;
    if !placed(record, made.touch) {
        return Err(Fault::Touch);
    }
    if !agrees(record, s.pc, word, made.touch) {
        return Err(Fault::Touch);
    }
    let left = made.cpu.with(regs, key);
    judge_result(record, n, left, made.eight)
}

/// The checker: refusals 21 to 27, and the first that applies.
#[tactic(auto, using(crate::proofs::Laws::Judged::old_as_shown, crate::proofs::Laws::Judged::new_as_shown, crate::proofs::Laws::Judged::check_long, crate::proofs::Laws::Judged::check_old, crate::proofs::Laws::Judged::check_new, crate::proofs::Laws::Judged::check_spare, crate::proofs::Laws::Judged::check_step))]
pub fn check(record: &[u8]) -> Result<(), Fault>
    ensures { result ≡ check_def «record».now }
{
    if record.len() != Record::SIZE {
        return Err(Fault::Length);
    }
    let Some(old) = layout::decode_at(record, Record::OLD_STATE) else {
        return Err(Fault::Form);
    };
    let Some(new) = layout::decode_at(record, Record::NEW_STATE) else {
        return Err(Fault::Form);
    };
    if bytes::word_at(record, Record::SPARE) != 0 {
        return Err(Fault::Form);
    }
    judge_step(record, old, new)
}
