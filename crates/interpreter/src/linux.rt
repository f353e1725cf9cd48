// System calls (linux.rs): numbers, descriptors, and which call it is.
ghost use Rattle.std.specs.Prelude.{◌≡◌};
ghost use Rattle.interpreter.specs.Calls.{bad_descriptor, mmap, reading, writing, mode_of, control, call_of};

use crate::bits;

/// Errors, by number. Constants of types, as in document 01, here and below.
#[derive(Clone, Copy)]
pub struct Errno {
    pub number: u64,
}

impl Errno {
    /// No such descriptor.
    pub const EBADF: u64 = 9;

    /// No such command.
    pub const EINVAL: u64 = 22;
}

/// Descriptors, by number.
#[derive(Clone, Copy)]
pub struct Fd {
    pub number: u64,
}

impl Fd {
    pub const STDIN: u64 = 0;

    pub const STDOUT: u64 = 1;

    pub const STDERR: u64 = 2;

    pub const HINT_READ: u64 = 3;

    pub const HINT_WRITE: u64 = 4;

    pub const PREIMAGE_READ: u64 = 5;

    pub const PREIMAGE_WRITE: u64 = 6;
}

/// Calls, by number.
#[derive(Clone, Copy)]
pub struct Syscall {
    pub number: u64,
}

impl Syscall {
    pub const READ: u64 = 5000;

    pub const WRITE: u64 = 5001;

    pub const MMAP: u64 = 5009;

    pub const BRK: u64 = 5012;

    pub const CLONE: u64 = 5055;

    pub const FCNTL: u64 = 5070;

    pub const EXIT_GROUP: u64 = 5205;

    /// What BRK answers.
    pub const BREAK: u64 = 0x4000_0000;

    /// The command of FCNTL that asks for a descriptor's mode.
    pub const GETFL: u64 = 3;

    /// Heap sizes are multiples of this.
    pub const PAGE: u64 = 4096;
}

/// Which call it is. What touches no memory is answered already.
#[derive(Clone, Copy, Debug, PartialEq, Eq)]
pub enum Call {
    /// The answer, and the error.
    Answer(u64, u64),
    /// Answers the old heap, which becomes this.
    Heap(u64),
    /// With this code.
    Exit(u8),
    /// 5001 on 6.
    Key,
    /// 5000 on 5.
    Input,
    /// 5001 on 1 or 2.
    Write(u64),
    /// 5001 on 4.
    Hint,
}

fn bad_descriptor() -> Call
    ensures { result ≡ bad_descriptor }
{
    Call::Answer(u64::MAX, Errno::EBADF)
}

#[tactic(auto, using(crate::proofs::Laws::Calls::rounding), unfolding(crate::specs::Calls::mmap))]
fn mmap(a0: u64, a1: u64, heap: u64) -> Call
    ensures { result ≡ mmap a0 a1 heap }
{
    if a0 == 0 {
        let size = bits::plus(a1, Syscall::PAGE - 1) / Syscall::PAGE * Syscall::PAGE;
        return Call::Heap(bits::plus(heap, size));
    }
    Call::Answer(a0, 0)
}

#[tactic(auto, unfolding(crate::specs::Calls::reading))]
fn read(fd: u64, a2: u64) -> Call
    ensures { result ≡ reading fd a2 }
{
    match fd {
        Fd::STDIN => Call::Answer(0, 0),
        Fd::HINT_READ => Call::Answer(a2, 0),
        Fd::PREIMAGE_READ => Call::Input,
        _ => bad_descriptor(),
    }
}

#[tactic(auto, unfolding(crate::specs::Calls::writing))]
fn write(fd: u64) -> Call
    ensures { result ≡ writing fd }
{
    match fd {
        Fd::STDOUT => Call::Write(Fd::STDOUT),
        Fd::STDERR => Call::Write(Fd::STDERR),
        Fd::HINT_WRITE => Call::Hint,
        Fd::PREIMAGE_WRITE => Call::Key,
        _ => bad_descriptor(),
    }
}

// 0 for descriptors that are read, 1 for those that are written.
#[tactic(auto, unfolding(crate::specs::Calls::mode_of))]
fn mode_of(fd: u64) -> Call
    ensures { result ≡ mode_of fd }
{
    match fd {
        Fd::STDIN => Call::Answer(0, 0),
        Fd::HINT_READ => Call::Answer(0, 0),
        Fd::PREIMAGE_READ => Call::Answer(0, 0),
        Fd::STDOUT => Call::Answer(1, 0),
        Fd::STDERR => Call::Answer(1, 0),
        Fd::HINT_WRITE => Call::Answer(1, 0),
        Fd::PREIMAGE_WRITE => Call::Answer(1, 0),
        _ => bad_descriptor(),
    }
}

#[tactic(auto, unfolding(crate::specs::Calls::control))]
fn control(fd: u64, a1: u64) -> Call
    ensures { result ≡ control fd a1 }
{
    if a1 == Syscall::GETFL {
        return mode_of(fd);
    }
    Call::Answer(u64::MAX, Errno::EINVAL)
}

/// The call with this number, descriptor, arguments and heap.
#[tactic(auto, unfolding(crate::specs::Calls::call_of))]
pub fn call_of(number: u64, fd: u64, a0: u64, a1: u64, a2: u64, heap: u64) -> Call
    ensures { result ≡ call_of number fd a0 a1 a2 heap }
{
    match number {
        Syscall::READ => read(fd, a2),
        Syscall::WRITE => write(fd),
        Syscall::MMAP => mmap(a0, a1, heap),
        Syscall::BRK => Call::Answer(Syscall::BREAK, 0),
        Syscall::CLONE => Call::Answer(1, 0),
        Syscall::FCNTL => control(fd, a1),
        Syscall::EXIT_GROUP => Call::Exit((a0 % 256) as u8),
        _ => Call::Answer(0, 0),
    }
}
