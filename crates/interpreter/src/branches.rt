// Where branches and jumps go (handle_branch, handle_jump).
ghost use Rattle.std.specs.Prelude.{◌≡◌};
ghost use Rattle.interpreter.specs.Effects.{going};
ghost use Rattle.interpreter.specs.Kernel.{link, branch_to, region, non_positive};

use crate::bits;
use crate::effect::{Effect, Ins};
use crate::isa::{IType, JType};

impl Ins {
    // The address behind the delay slot.
    pub(crate) fn link(self) -> u64
        ensures { result ≡ link self }
    {
        bits::plus(self.pc, 8)
    }

    // Four times the offset from the delay slot on, or behind the delay slot where the branch is not taken.
    fn branch_to(self, taken: bool) -> u64
        ensures { result ≡ branch_to self taken }
    {
        if taken {
            let offset = bits::sext::<16>(IType::decode(self.word).imm);
            return bits::plus(bits::plus(self.pc, 4), offset << 2);
        }
        bits::plus(self.next, 4)
    }

    pub(crate) fn branch(self, d: u64, v: u64, taken: bool) -> Effect
        ensures { result ≡ going self d v (branch_to self taken) }
    {
        self.going(d, v, self.branch_to(taken))
    }

    // The target within the delay slot's region of 256 megabytes.
    pub(crate) fn region(self) -> u64
        ensures { result ≡ region self }
    {
        self.next / 0x1000_0000 * 0x1000_0000 + JType::decode(self.word).address * 4
    }
}

pub(crate) fn non_positive(x: u64) -> bool
    ensures { result ≡ non_positive x }
{
    bits::negative::<64>(x) || x == 0
}
