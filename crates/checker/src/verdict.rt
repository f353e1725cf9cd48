// What the checker answers (document 01, "The step record").
ghost use Rattle.std.specs.Prelude.{◌≡◌};
ghost use Rattle.checker.specs.Verdicts.{fault_number, fault_of};

use interpreter::shown::Unshown;
use std::error::Error;
use std::fmt;

/// Why a record is refused.
#[derive(Clone, Copy, Debug, PartialEq, Eq)]
pub enum Fault {
    /// 21: it is not 752 bytes.
    Length,
    /// 22: a state's form, or a spare byte.
    Form,
    /// 23: the old state is exited.
    AlreadyExited,
    /// 24: the step is refused with 2 to 7.
    StepRefused,
    /// 25: the step moves more than eight bytes.
    WideStep,
    /// 26: the address, the touch fields, or an instruction that disagrees with the old bytes holding it.
    Touch,
    /// 27: the new state or the new bytes differ.
    Result,
}

/// Document 01's number.
impl From<Fault> for u8 {
    ghost from_gives = { λ f n. n ≡ fault_number f };

    #[tactic(auto, unfolding(crate::specs::Verdicts::fault_number))]
    fn from(fault: Fault) -> u8 {
        match fault {
            Fault::Length => 21,
            Fault::Form => 22,
            Fault::AlreadyExited => 23,
            Fault::StepRefused => 24,
            Fault::WideStep => 25,
            Fault::Touch => 26,
            Fault::Result => 27,
        }
    }
}

impl From<Unshown> for Fault {
    ghost from_gives = { λ u f. f ≡ fault_of u };

    fn from(unshown: Unshown) -> Fault {
        match unshown {
            Unshown::Refused(_) => Fault::StepRefused,
            Unshown::Wide => Fault::WideStep,
        }
    }
}

impl fmt::Display for Fault {
    fn fmt<W: fmt::Write>(&self, f: &mut fmt::Formatter<W>) -> fmt::Result {
        match self {
            Fault::Length => write!(f, "not 752 bytes"),
            Fault::Form => write!(f, "malformed state or spare byte"),
            Fault::AlreadyExited => write!(f, "old state exited"),
            Fault::StepRefused => write!(f, "step refused"),
            Fault::WideStep => write!(f, "wide step"),
            Fault::Touch => write!(f, "wrong address, touched bytes or instruction"),
            Fault::Result => write!(f, "wrong new state or new bytes"),
        }
    }
}

impl Error for Fault {}
