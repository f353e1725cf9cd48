// Hints: bytes held until one is complete.
ghost use Rattle.std.specs.Prelude.{◌≡◌, ◌+◌, ◌≤◌, length, nat_le, nat_lt, Ok};
ghost use Rattle.std.proofs.lemmas.List.Edits.{sets};
ghost use Rattle.pages.specs.Memory.{span};
ghost use Rattle.pages.specs.Pages.{byte_at};
ghost use Rattle.interpreter.specs.Machine.{room_of};
ghost use Rattle.interpreter.specs.Hints.{heard};
ghost use Rattle.interpreter.specs.Parts.{joined, listened, listened_to, listening};

use crate::effect::Refusal;
use crate::utf8;
use pages::{bytes, reader};

// The most bytes of a long text.
const LONG: usize = 65536;

// The most bytes of a short one.
const SHORT: usize = 256;

/// A hint's length stands before it.
pub const LENGTH: usize = 4;

/// The most hint bytes that are held: 65,536.
pub const ROOM: u64 = LONG as u64;

// Hint room: the buffer's length, at most 65,536.
#[tactic(auto, using(crate::proofs::Laws::Hints::room_least))]
pub(crate) fn room_of(hint: &[u8]) -> u64
    ensures { result ≡ room_of hint.now }
{
    ROOM.min(hint.len() as u64)
}

// Whether count bytes more than the held ones find no room in the buffer.
fn overflows(hint: &[u8], held: u64, count: u64) -> bool
    requires { held ≤ room_of hint.now }
    ensures { result ≡ nat_lt (room_of hint.now) (held + count) }
{
    room_of(hint) - held < count
}

// What is done with a text, where so many bytes of output have room: it is kept, or a hint of so many bytes is handed out.
#[tactic(auto, using(crate::proofs::Laws::Hints::word_announced, crate::proofs::Laws::Hints::text_valid, crate::proofs::Laws::Hints::heard_few, crate::proofs::Laws::Hints::heard_short, crate::proofs::Laws::Hints::heard_long, crate::proofs::Laws::Hints::heard_text, crate::proofs::Laws::Hints::heard_full, crate::proofs::Laws::Hints::heard_out))]
fn judge(text: &[u8], room: usize) -> Result<Option<u64>, Refusal>
    ensures { result ≡ heard text.now (λ n. nat_le n room) }
{
    if text.len() < LENGTH {
        return Ok(None);
    }
    let n = bytes::word_at(text, 0);
    let rest = (text.len() - LENGTH) as u64;
    if rest < n {
        return Err(Refusal::HintShort);
    }
    if n < rest {
        return Ok(None);
    }
    if !utf8::valid(&text[LENGTH..]) {
        return Err(Refusal::HintText);
    }
    if (room as u64) < n {
        return Err(Refusal::NoRoom);
    }
    Ok(Some(n))
}

// The same of the held bytes with the appended ones behind them, put together in a text that has room: no buffer is changed yet.
#[tactic(auto, using(crate::proofs::Laws::Hints::joined_copied))]
fn judge_in(
    text: &mut [u8],
    pages: &[u8],
    used: usize,
    hint: &[u8],
    held: usize,
    address: u64,
    count: usize,
    room: usize,
) -> Result<Option<u64>, Refusal>
    requires { (held + count ≤ length text.old) × (held ≤ length hint.now) }
    ensures { result ≡ heard (joined (byte_at pages.now used) hint.now held address count) (λ n. nat_le n room) }
{
    bytes::copy(hint, 0, text, 0, held);
    reader::copy_out(pages, used, address, text, held, count);
    let end = held + count;
    judge(&text[..end], room)
}

// The bytes are appended, and a hint of so many bytes that is handed out is copied to the front of the output.
#[tactic(auto, using(crate::proofs::Laws::Hints::lay_keep, crate::proofs::Laws::Hints::lay_out))]
fn append(
    pages: &[u8],
    used: usize,
    hint: &mut [u8],
    held: usize,
    address: u64,
    count: usize,
    output: &mut [u8],
    handed: Option<u64>,
)
    requires { (held + count ≤ length hint.old) × (Ok handed ≡ heard (joined (byte_at pages.now used) hint.old held address count) (λ n. nat_le n (length output.old))) }
    ensures { listened (Ok handed) hint.new output.new ≡ listened_to hint.old (sets hint.old held (span (byte_at pages.now used) address count)) (joined (byte_at pages.now used) hint.old held address count) output.old (Ok handed) }
{
    reader::copy_out(pages, used, address, hint, held, count);
    match handed {
        None => {}
        Some(n) => bytes::copy(hint, LENGTH, output, 0, n as usize),
    }
}

// A write that makes a text of at most N bytes. A function of its own: as a part of the step it would make every system call
// touch the stack that only a long text needs.
#[inline(never)]
#[tactic(auto, using(crate::proofs::Laws::Hints::lay_refuse, crate::proofs::Laws::Hints::lay_done))]
fn listen_in<const N: usize>(
    pages: &[u8],
    used: usize,
    hint: &mut [u8],
    held: usize,
    address: u64,
    count: usize,
    output: &mut [u8],
) -> Result<Option<u64>, Refusal>
    requires { (N ≤ 65536) × (held + count ≤ N) × (held + count ≤ length hint.old) }
    ensures { listened result hint.new output.new ≡ listened_to hint.old (sets hint.old held (span (byte_at pages.now used) address count)) (joined (byte_at pages.now used) hint.old held address count) output.old (heard (joined (byte_at pages.now used) hint.old held address count) (λ n. nat_le n (length output.old))) }
{
    let mut text = [0u8; N];
    let room = output.len();
    let handed = judge_in(&mut text, pages, used, hint, held, address, count, room)?;
    append(pages, used, hint, held, address, count, output, handed);
    Ok(handed)
}

// A write of count bytes from the address on to the hint descriptor. A refusal changes no byte.
#[tactic(auto, using(crate::proofs::Laws::Hints::room_enough, crate::proofs::Laws::Hints::listening_over, crate::proofs::Laws::Hints::listening_heard))]
pub(crate) fn listen(
    pages: &[u8],
    used: usize,
    hint: &mut [u8],
    held: u64,
    address: u64,
    count: u64,
    output: &mut [u8],
) -> Result<Option<u64>, Refusal>
    requires { held ≤ room_of hint.old }
    ensures { listened result hint.new output.new ≡ listening (byte_at pages.now used) hint.old held address count output.old }
{
    if overflows(hint, held, count) {
        return Err(Refusal::NoRoom);
    }
    let kept = held as usize;
    let more = count as usize;
    if SHORT < kept + more {
        return listen_in::<LONG>(pages, used, hint, kept, address, more, output);
    }
    listen_in::<SHORT>(pages, used, hint, kept, address, more, output)
}
