//! The lines of step records, put into a text.
ghost use Rattle.std.specs.Prelude.{◌≡◌, ◌+◌, ◌≤◌, length, decimal};
ghost use Rattle.checker.specs.Verdicts.{Refused};
ghost use Rattle.check_records.specs.Lines.{said, line as line_of, after as after_def, printed, printed_def};
ghost use Rattle.check_records.specs.Parts.{Puts};

use checker::check;
use checker::verdict::Fault;
use interpreter::record::Record;

/// The most bytes of a line: 20 digits, a space, `refused 27` and the line end.
pub const LINE: usize = 32;

/// Puts a text at a place of `out`, and answers the place behind it.
fn put(text: &[u8], out: &mut [u8], at: usize) -> usize
    requires { at + length text.now ≤ length out.old }
    ensures { Puts out.old at text.now result out.new }
{
    let next = at + text.len();
    out[at..next].copy_from_slice(text);
    next
}

/// Puts a number's digits.
fn put_number(n: u64, out: &mut [u8], at: usize) -> usize
    requires { at + length (decimal n) ≤ length out.old }
    ensures { Puts out.old at (decimal n) result out.new }
{
    if n < 10 {
        return put(&[b'0' + n as u8], out, at);
    }
    let next = put_number(n / 10, out, at);
    put(&[b'0' + (n % 10) as u8], out, next)
}

fn put_refused(fault: Fault, out: &mut [u8], at: usize) -> usize
    requires { at + length (said (Refused fault)) ≤ length out.old }
    ensures { Puts out.old at (said (Refused fault)) result out.new }
{
    let next = put(b"refused ", out, at);
    let number = u8::from(fault);
    put_number(u64::from(number), out, next)
}

fn put_verdict(verdict: Result<(), Fault>, out: &mut [u8], at: usize) -> usize
    requires { at + length (said verdict) ≤ length out.old }
    ensures { Puts out.old at (said verdict) result out.new }
{
    match verdict {
        Ok(()) => put(b"accepted", out, at),
        Err(fault) => put_refused(fault, out, at),
    }
}

fn put_line(position: u64, verdict: Result<(), Fault>, out: &mut [u8], at: usize) -> usize
    requires { at + length (line_of position verdict) ≤ length out.old }
    ensures { Puts out.old at (line_of position verdict) result out.new }
{
    let space = put_number(position, out, at);
    let word = put(b" ", out, space);
    let end = put_verdict(verdict, out, word);
    put(b"\n", out, end)
}

/// Puts a line for each record, and one for a short remainder, to the front of `out`, and answers how many bytes they have.
/// The first record has the position `from`. Where `out` has not `LINE` bytes for each line, it stays as it is, and the
/// answer is 0.
pub fn print(records: &[u8], from: u64, out: &mut [u8]) -> usize
    ensures { printed result out.new ≡ printed_def from records.now out.old }
{
    let count = records.len().div_ceil(Record::SIZE);
    if out.len() / LINE < count {
        return 0;
    }
    let mut at = 0;
    let mut position = from;
    for record in records.chunks(Record::SIZE) {
        at = put_line(position, check::check(record), out, at);
        position = position.wrapping_add(1);
    }
    at
}

/// The position behind whole records.
pub fn after(records: &[u8], from: u64) -> u64
    ensures { result ≡ after_def from records.now }
{
    from.wrapping_add((records.len() / Record::SIZE) as u64)
}
