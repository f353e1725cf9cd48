// The machine: a state's numbers, and what is lent beside them (document 01, "What the machine holds").
ghost use Rattle.std.specs.Prelude.{◌≡◌, Some, ℕ, ◌%◌, ◌<◌};
ghost use Rattle.pages.specs.Bytes.{big};
ghost use Rattle.pages.specs.Pages.{byte_at};
ghost use Rattle.pages.specs.Calls.{set_def};
ghost use Rattle.interpreter.specs.Machine.{answering};
ghost use Rattle.interpreter.specs.Plan.{eight_at};
ghost use Rattle.interpreter.specs.Lent.{held, SameLoans, with_regs, kept, put_by};

use crate::effect::Refusal;
use crate::state::Cpu;
use crate::step;
use pages::memory;

/// What the program may read: an index of keys, and the data that it names parts of.
#[derive(Clone, Copy)]
pub(crate) struct Input<'a> {
    pub index: &'a [u8],
    pub bytes: &'a [u8],
}

/// The machine on lent registers, key and buffers, so that many steps follow each other without a copy.
#[derive(Drop)]
pub(crate) struct Machine<'r, 'k, 'p, 'h, 'o, 'i> {
    pub cpu: Cpu,
    pub regs: &'r mut [u64; 32],
    pub key: &'k mut [u8; 32],
    pub pages: &'p mut [u8],
    pub used: usize,
    pub hint: &'h mut [u8],
    pub output: &'o mut [u8],
    pub input: Input<'i>,
}

/// Page records and how many of them are used. Where more are said to be used than there are, every byte is zero.
#[derive(Clone, Copy)]
pub(crate) struct Memory<'a> {
    pub pages: &'a [u8],
    pub used: usize,
}

impl Memory<'_> {
    // The word at an aligned address.
    #[tactic(auto, using(crate::proofs::Laws::Paging::loaded))]
    pub(crate) fn word(&self, address: u64) -> u64
        requires { address % 4 ≡ 0 }
        ensures { result ≡ big 4 (byte_at self.now.pages.now self.now.used) address }
    {
        memory::get_word(self.pages, self.used, address).unwrap_or(0)
    }

    // The doubleword at an aligned address.
    #[tactic(auto, using(crate::proofs::Laws::Paging::loaded))]
    pub(crate) fn eight(&self, address: u64) -> u64
        requires { address % 8 ≡ 0 }
        ensures { result ≡ big 8 (byte_at self.now.pages.now self.now.used) address }
    {
        memory::get_doubleword(self.pages, self.used, address).unwrap_or(0)
    }

    // The eight bytes that an instruction touches, and 0 where it touches none.
    pub(crate) fn touched(&self, t: Option<u64>) -> u64
        requires { (a : ℕ) → t ≡ Some a → a % 8 ≡ 0 }
        ensures { result ≡ eight_at (byte_at self.now.pages.now self.now.used) t }
    {
        match t {
            None => 0,
            Some(a) => self.eight(a),
        }
    }
}

impl Machine<'_, '_, '_, '_, '_, '_> {
    // What a step reads of the page records.
    pub(crate) fn memory(&self) -> Memory<'_>
        ensures { (result.pages.now ≡ self.now.pages.now) × (result.used ≡ self.now.used) }
    {
        Memory {
            pages: self.pages,
            used: self.used,
        }
    }

    // The doubleword stored at an aligned address. Nothing changes where no page record is left for it.
    #[tactic(auto, using(crate::proofs::Laws::Lent::put_none))]
    pub(crate) fn store(&mut self, address: u64, value: u64) -> Result<(), Refusal>
        requires { address % 8 ≡ 0 }
        ensures lent { SameLoans self.old self.new }
        ensures machine { kept result (held self.new) ≡ put_by (held self.old) (set_def 8 self.old.pages.now self.old.used address value) }
    {
        let pages = &mut *self.pages;
        match memory::set_doubleword(pages, self.used, address, value) {
            Ok(used) => {
                self.used = used;
                Ok(())
            }
            Err(_) => Err(Refusal::MemoryFull),
        }
    }

    // A system call's answer goes to register 2, its error to register 7.
    #[tactic(auto, unfolding(crate::specs::Machine::answering))]
    pub(crate) fn reply(&mut self, value: u64, error: u64)
        ensures lent { SameLoans self.old self.new }
        ensures machine { held self.new ≡ with_regs (held self.old) (answering self.old.regs.now value error) }
    {
        self.regs[2] = value;
        self.regs[7] = error;
    }
}
