//! A vector's whole machine: laid out, stepped, and every byte of it held against what the judge saw.
use crate::second;
use crate::vector::{Front, Reader};
use interpreter::effect::Refusal;
use interpreter::layout::Layout;
use interpreter::state::State;
use interpreter::step::Answer;
use interpreter::{layout, run, step};

/// The longest buffers of a list, and the state's bytes.
#[derive(Clone, Copy)]
pub struct Buffers {
    state: [u8; Layout::SIZE],
    pages: [u8; 20519],
    hint: [u8; 1024],
    output: [u8; 8191],
    index: [u8; 480],
    data: [u8; 1024],
}

impl Buffers {
    /// All zero. Every vector of a list is laid into the same ones, where they are.
    pub fn new() -> Buffers {
        Buffers {
            state: [0; Layout::SIZE],
            pages: [0; 20519],
            hint: [0; 1024],
            output: [0; 8191],
            index: [0; 480],
            data: [0; 1024],
        }
    }

    /// Whether they have as many bytes as a vector lends.
    fn have(&self, front: &Front) -> bool {
        front.pages <= self.pages.len()
            && front.hint <= self.hint.len()
            && front.output <= self.output.len()
            && front.index <= self.index.len()
            && front.data <= self.data.len()
    }

    /// Lays what was before: six patch lists over the fill, and the state's over zeros.
    fn lay(&mut self, input: &mut Reader<'_>, fill: u8) {
        self.state.fill(0);
        self.pages.fill(fill);
        self.hint.fill(fill);
        self.output.fill(fill);
        self.index.fill(fill);
        self.data.fill(fill);
        self.change(input);
        input.patch(&mut self.index);
        input.patch(&mut self.data);
    }

    /// Lays what the judge saw after, of what a step may change: four patch lists over what was before.
    fn lay_over(&mut self, before: &Buffers, input: &mut Reader<'_>) {
        self.state.copy_from_slice(&before.state);
        self.pages.copy_from_slice(&before.pages);
        self.hint.copy_from_slice(&before.hint);
        self.output.copy_from_slice(&before.output);
        self.change(input);
    }

    /// The four patch lists of what a step may change.
    fn change(&mut self, input: &mut Reader<'_>) {
        input.patch(&mut self.state);
        input.patch(&mut self.pages);
        input.patch(&mut self.hint);
        input.patch(&mut self.output);
    }

    /// Whether every byte that a step may change is the same.
    fn agrees(&self, other: &Buffers) -> bool {
        self.state == other.state
            && self.pages == other.pages
            && self.hint == other.hint
            && self.output == other.output
    }
}

/// A machine before a step or after it, with so many bytes of each buffer lent as its vector's front says.
#[derive(Drop)]
pub struct Machine<'a> {
    front: Front,
    state: State,
    used: usize,
    answer: Answer,
    buffers: &'a mut Buffers,
}

impl Machine<'_> {
    /// Makes a step. `None` where more is lent than the buffers have.
    pub fn step(&mut self) -> Option<()> {
        let buffers = &mut *self.buffers;
        let finished = step::step(
            self.state,
            buffers.pages.get_mut(..self.front.pages)?,
            self.used,
            buffers.hint.get_mut(..self.front.hint)?,
            buffers.output.get_mut(..self.front.output)?,
            buffers.index.get(..self.front.index)?,
            buffers.data.get(..self.front.data)?,
        );
        self.state = finished.state;
        self.used = finished.used;
        self.answer = finished.answer;
        Some(())
    }

    /// Makes a run, which has a quicker way for many instructions.
    pub fn run(&mut self, budget: u64) -> Option<()> {
        let buffers = &mut *self.buffers;
        let stopped = run::run(
            self.state,
            buffers.pages.get_mut(..self.front.pages)?,
            self.used,
            buffers.hint.get_mut(..self.front.hint)?,
            buffers.output.get_mut(..self.front.output)?,
            buffers.index.get(..self.front.index)?,
            buffers.data.get(..self.front.data)?,
            budget,
        );
        self.state = stopped.state;
        self.used = stopped.used;
        self.answer = stopped.answer;
        Some(())
    }

    /// Makes the step as the second of a run of two. `None` where it cannot be that.
    pub fn second(&mut self) -> Option<()> {
        // Refusal 1 leaves the step before it too, so that it is no second step.
        if self.front.answer == Answer::Refused(Refusal::BadMachine).values() {
            return None;
        }
        let state = self.state;
        let buffers = &mut *self.buffers;
        let pages = buffers.pages.get_mut(..self.front.pages)?;
        let before = second::lay(&state, pages, self.used)?;
        self.state = second::state(&state);
        self.run(2)?;
        let buffers = &mut *self.buffers;
        second::restore(before, &mut buffers.pages);
        Some(())
    }
}

/// Replays a vector in one way, and answers the step's answer and whether all is as the judge says. `None` where the state's bytes
/// are none, more is lent than the buffers have, or the vector doesn't go that way.
fn verdict<F: Fn(&mut Machine<'_>) -> Option<()>>(
    vector: &[u8],
    buffers: &mut Buffers,
    after: &mut Buffers,
    way: &F,
) -> Option<(Answer, bool)>
    requires { F.IsAlwaysCallable way.now }
{
    let mut input = Reader::new(vector);
    let front = Front::read(&mut input);
    if !buffers.have(&front) {
        return None;
    }
    buffers.lay(&mut input, front.fill);
    after.lay_over(buffers, &mut input);
    let state = layout::decode(&buffers.state)?;
    let mut machine = Machine {
        front,
        state,
        used: front.used,
        answer: Answer::Stepped,
        buffers,
    };
    way(&mut machine)?;
    machine.buffers.state = machine.state.encode();
    let agrees = machine.answer.values() == front.answer
        && machine.used == front.used_after
        && machine.buffers.agrees(after);
    Some((machine.answer, agrees))
}

/// How a vector's step went, beside what the judge says.
#[derive(Clone, Copy)]
pub enum Replayed {
    Differs,
    /// As the judge says, and whether as the second step of a run too.
    Agrees { answer: Answer, twice: bool },
}

/// Replays the vector at the front of a buffer by `step`, by a run of one, and as the second step of a run.
pub fn replay(vector: &[u8], buffers: &mut Buffers, after: &mut Buffers) -> Replayed {
    let stepped = verdict(
        vector,
        buffers,
        after,
        &|machine: &mut Machine<'_>| machine.step(),
    );
    let Some((answer, true)) = stepped else {
        return Replayed::Differs;
    };
    let ran = verdict(
        vector,
        buffers,
        after,
        &|machine: &mut Machine<'_>| machine.run(1),
    );
    let Some((_, true)) = ran else {
        return Replayed::Differs;
    };
    match verdict(
        vector,
        buffers,
        after,
        &|machine: &mut Machine<'_>| machine.second(),
    ) {
        Some((_, false)) => Replayed::Differs,
        second => Replayed::Agrees {
            answer,
            twice: second.is_some(),
        },
    }
}
