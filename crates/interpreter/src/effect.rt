// What an instruction reads, and what it does.
ghost use Rattle.std.specs.Prelude.{◌≡◌, ◌≢◌, IfOk, IfErr};
ghost use Rattle.interpreter.specs.declared.effect.Stop.TheVariants.{Refused};
ghost use Rattle.interpreter.specs.Words.{rules_of};
ghost use Rattle.interpreter.specs.Effects.{seeing, refusal_number, changes, to_register, to_rd, to_rt, storing, going};

use crate::bits;
use crate::isa::{IType, RType};
use std::fmt;

/// The rules that decide where the Rust and the MIPS manual part.
#[derive(Clone, Copy, Debug, PartialEq, Eq)]
pub enum Rules {
    /// Rules 0: what the Rust does.
    Interpreter,
    /// Rules 1: what the MIPS manual says.
    Manual,
}

/// An instruction with all that it reads. `mem` is the eight bytes at the touched address, and 0 where none is touched.
#[derive(Clone, Copy, Debug, PartialEq, Eq)]
pub struct Ins {
    // A number: `kernel` promises for every byte, and a state's byte above 1 is refused with 1 or 22.
    pub rules: u8,
    pub word: u64,
    pub rs: u64,
    pub rt: u64,
    pub pc: u64,
    pub next: u64,
    pub hi: u64,
    pub lo: u64,
    pub mem: u64,
}

/// What changes. Register 0 is never written, so `dest` is 0 where no register is. `store` is the eight bytes afterwards, where they
/// are stored.
#[derive(Clone, Copy, Debug, PartialEq, Eq)]
pub struct Change {
    pub dest: u64,
    pub value: u64,
    pub pc: u64,
    pub next: u64,
    pub hi: u64,
    pub lo: u64,
    pub store: Option<u64>,
}

/// Why a step is refused (document 01, "Numbers a refusal carries"); an instruction by itself only with 2 to 7.
#[derive(Clone, Copy, Debug, PartialEq, Eq)]
pub enum Refusal {
    /// 1: rules, used pages, hint length or recording buffer out of bounds.
    BadMachine,
    /// 2
    PcMisaligned,
    /// 3: no such code, or BEQL.
    Reserved,
    /// 4: a jump or branch in a delay slot.
    DelaySlot,
    /// 5
    DivideByZero,
    /// 6: rules 0, the least number by -1.
    Overflow,
    /// 7: rules 1, an access off its alignment.
    AddressError,
    /// 8: a store needs an absent page and all records are used.
    MemoryFull,
    /// 9: output or hint bytes exceed their room.
    NoRoom,
    /// 10: no input record with the key, or one that leaves the data.
    NoInput,
    /// 11: the input offset is past the end.
    InputOffset,
    /// 12: a hint shorter than its announced length.
    HintShort,
    /// 13: a complete hint that is not UTF-8.
    HintText,
}

impl fmt::Display for Refusal {
    fn fmt<W: fmt::Write>(&self, f: &mut fmt::Formatter<W>) -> fmt::Result {
        match self {
            Refusal::BadMachine => write!(f, "the machine's parts are out of bounds"),
            Refusal::PcMisaligned => write!(f, "the program counter is misaligned"),
            Refusal::Reserved => write!(f, "no such instruction"),
            Refusal::DelaySlot => write!(f, "a jump or branch in a delay slot"),
            Refusal::DivideByZero => write!(f, "division by zero"),
            Refusal::Overflow => write!(f, "a quotient that does not fit"),
            Refusal::AddressError => write!(f, "an access off its alignment"),
            Refusal::MemoryFull => write!(f, "all page records are used"),
            Refusal::NoRoom => write!(f, "too many output or hint bytes"),
            Refusal::NoInput => write!(f, "no such input"),
            Refusal::InputOffset => write!(f, "the input offset is past the end"),
            Refusal::HintShort => write!(f, "a hint shorter than announced"),
            Refusal::HintText => write!(f, "a hint that is not UTF-8"),
        }
    }
}

/// Document 01's number.
impl From<Refusal> for u8 {
    ghost from_gives = { λ r n. n ≡ refusal_number r };

    #[tactic(auto, unfolding(crate::specs::Effects::refusal_number))]
    fn from(r: Refusal) -> u8 {
        match r {
            Refusal::BadMachine => 1,
            Refusal::PcMisaligned => 2,
            Refusal::Reserved => 3,
            Refusal::DelaySlot => 4,
            Refusal::DivideByZero => 5,
            Refusal::Overflow => 6,
            Refusal::AddressError => 7,
            Refusal::MemoryFull => 8,
            Refusal::NoRoom => 9,
            Refusal::NoInput => 10,
            Refusal::InputOffset => 11,
            Refusal::HintShort => 12,
            Refusal::HintText => 13,
        }
    }
}

/// The refusal of a number; a number that no refusal has comes back.
impl TryFrom<u8> for Refusal {
    ghost use Rattle.interpreter.specs.declared.effect.Refusal.{Refusal};

    type Error = u8;

    ghost try_from_gives = { λ n r. IfOk r (λ x. refusal_number x ≡ n) × IfErr r (λ e. (e ≡ n) × ((x : Refusal) → refusal_number x ≢ n)) };

    #[tactic(auto, unfolding(crate::specs::Effects::refusal_number))]
    fn try_from(number: u8) -> Result<Refusal, u8> {
        match number {
            1 => Ok(Refusal::BadMachine),
            2 => Ok(Refusal::PcMisaligned),
            3 => Ok(Refusal::Reserved),
            4 => Ok(Refusal::DelaySlot),
            5 => Ok(Refusal::DivideByZero),
            6 => Ok(Refusal::Overflow),
            7 => Ok(Refusal::AddressError),
            8 => Ok(Refusal::MemoryFull),
            9 => Ok(Refusal::NoRoom),
            10 => Ok(Refusal::NoInput),
            11 => Ok(Refusal::InputOffset),
            12 => Ok(Refusal::HintShort),
            13 => Ok(Refusal::HintText),
            _ => Err(number),
        }
    }
}

/// Why an instruction by itself changes nothing.
#[derive(Clone, Copy, Debug, PartialEq, Eq)]
pub enum Stop {
    Refused(Refusal),
    /// SYSCALL: the step executes it.
    Call,
}

impl From<Refusal> for Stop {
    ghost from_gives = { λ r s. s ≡ Refused r };

    fn from(r: Refusal) -> Stop {
        Stop::Refused(r)
    }
}

/// What an instruction does.
pub type Effect = Result<Change, Stop>;

impl Ins {
    // The rules that the number names: 0 the interpreter's, every other the manual's.
    pub(crate) fn rules(self) -> Rules
        ensures { result ≡ rules_of self.rules }
    {
        if self.rules == 0 {
            Rules::Interpreter
        } else {
            Rules::Manual
        }
    }

    // The same instruction with these eight bytes.
    #[tactic(auto, unfolding(crate::specs::Effects::seeing))]
    pub(crate) fn seeing(self, mem: u64) -> Ins
        ensures { result ≡ seeing self mem }
    {
        let mut i = self;
        i.mem = mem;
        i
    }

    // Register d gets v, hi and lo become h and l, and the program goes on with the next instruction.
    #[tactic(auto, unfolding(crate::specs::Effects::changes))]
    pub(crate) fn changes(self, d: u64, v: u64, h: u64, l: u64) -> Change
        ensures { result ≡ changes self d v h l }
    {
        Change {
            dest: d,
            value: v,
            pc: self.next,
            next: bits::plus(self.next, 4),
            hi: h,
            lo: l,
            store: None,
        }
    }

    pub(crate) fn to_register(self, d: u64, v: u64) -> Change
        ensures { result ≡ to_register self d v }
    {
        self.changes(d, v, self.hi, self.lo)
    }

    pub(crate) fn to_rd(self, v: u64) -> Change
        ensures { result ≡ to_rd self v }
    {
        self.to_register(RType::decode(self.word).rd, v)
    }

    pub(crate) fn to_rt(self, v: u64) -> Change
        ensures { result ≡ to_rt self v }
    {
        self.to_register(IType::decode(self.word).rt, v)
    }

    // The eight bytes become m, and register d gets v.
    #[tactic(auto, unfolding(crate::specs::Effects::storing))]
    pub(crate) fn storing(self, d: u64, v: u64, m: u64) -> Change
        ensures { result ≡ storing self d v m }
    {
        Change {
            dest: d,
            value: v,
            pc: self.next,
            next: bits::plus(self.next, 4),
            hi: self.hi,
            lo: self.lo,
            store: Some(m),
        }
    }

    // A jump or branch to t with its link, refused in a delay slot (handle_jump, handle_branch).
    #[tactic(auto, unfolding(crate::specs::Effects::going))]
    pub(crate) fn going(self, d: u64, v: u64, t: u64) -> Effect
        ensures { result ≡ going self d v t }
    {
        if self.next != bits::plus(self.pc, 4) {
            return Err(Stop::Refused(Refusal::DelaySlot));
        }
        Ok(Change {
            dest: d,
            value: v,
            pc: self.next,
            next: t,
            hi: self.hi,
            lo: self.lo,
            store: None,
        })
    }
}
