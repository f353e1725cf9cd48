//! A machine with a program at 0x1000.
use crate::answer::Said;
use interpreter::run;
use interpreter::state::State;
use pages::memory;
use pages::page::Page;
use std::io;

/// A machine with two page records, of which those that are needed are used. One machine is lent to all, and loaded again for each
/// program: its pages are too large to be handed on.
#[derive(Clone, Copy)]
pub struct Machine {
    pub state: State,
    pub pages: [u8; 2 * Page::RECORD_SIZE],
    pub used: usize,
    pub output: [u8; 64],
}

impl Machine {
    pub const START: u64 = 0x1000;

    /// All zero, before a program's first instruction.
    pub fn first_state(rules: u8) -> State {
        State {
            pc: Machine::START,
            next: Machine::START + 4,
            rules,
            ..State::default()
        }
    }

    /// The program alone in memory, before its first instruction.
    pub fn load(&mut self, rules: u8, program: &[u32]) {
        self.state = Machine::first_state(rules);
        self.used = 0;
        let mut address = Machine::START;
        for word in program {
            self.put(address, *word);
            address = address.wrapping_add(4);
        }
    }

    /// The same with "geodesy\n" at 0x2000.
    pub fn load_greeting(&mut self, rules: u8, program: &[u32]) {
        self.load(rules, program);
        self.put(0x2000, 0x6765_6f64);
        self.put(0x2004, 0x6573_790a);
    }

    /// Stores a word. There is room for each that is stored here.
    fn put(&mut self, address: u64, word: u32) {
        if let Ok(used) = memory::set_word(&mut self.pages, self.used, address, word) {
            self.used = used;
        }
    }

    /// Runs on with a budget, and says the answer, the count, and then pc, step and register 3.
    pub fn go(&mut self, rt: &impl Print, budget: u64) -> io::Result<()> {
        let mut hint = [0u8; 16];
        let ended = run::run(
            self.state,
            &mut self.pages,
            self.used,
            &mut hint,
            &mut self.output,
            &[],
            &[],
            budget,
        );
        self.state = ended.state;
        self.used = ended.used;
        let answer = Said(ended.answer);
        let count = ended.count;
        let pc = self.state.pc;
        let step = self.state.step;
        let sum = self.state.regs[3];
        println!(rt; "{answer}, {count} steps; pc 0x{pc:04x}, step {step}, register 3 is {sum}")
    }
}
