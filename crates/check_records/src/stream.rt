//! A stream of step records in, a line for each out.
ghost use Rattle.std.specs.Prelude.{◌≡◌, ◌≢◌, ◌<◌, ◌≤◌, List, ℕ, length, take, IsOk, Err, OnOk, IfSome};
ghost use Rattle.std.specs.Io.KnownBytes.{Appends, Consumes, IsAtEnd};
ghost use Rattle.check_records.specs.Lines.{count_of, lines_of, whole_records};
ghost use Rattle.check_records.specs.declared.stream.Stop.TheVariants.{Unread};

use crate::lines::{LINE, after, print};
use interpreter::record::Record;
use std::io;
use std::io::{Read, Write};

/// How many records are judged at a time: the most that fit 65,536 bytes.
const RECORDS: usize = 87;

/// How many bytes they have.
const CHUNK: usize = RECORDS * Record::SIZE;

/// Room for their lines.
pub const TEXT: usize = RECORDS * LINE;

/// Why a stream was not judged to its end.
#[derive(Clone, Copy, Debug, PartialEq, Eq, Drop)]
pub enum Stop {
    /// A read failed. Nobody knows whether more would have come, so a remainder is not judged.
    Unread,
    /// A write failed.
    Unwritten,
    /// The input went on for 2^64 - 1 chunks: a proved loop has to end.
    Endless,
}

/// Fills the buffer from its front, and answers how many bytes were read, and how the last read went: fewer than all are
/// read only where the input ends or a read fails. A read may bring fewer bytes than asked, as one of a pipe does.
fn fill<R: Read>(input: &mut R, buf: &mut [u8]) -> (usize, io::Result<()>)
    ensures bound { result.0 ≤ length buf.new }
    ensures bytes { Consumes (R.remaining input.old) (R.remaining input.new) (take result.0 buf.new) }
    ensures end { IsOk result.1 → result.0 < length buf.new → IsAtEnd (R.remaining input.new) }
{
    let mut done = 0;
    // A loop of its own: after a failure std's `read_exact` doesn't say how many bytes it has read, nor which.
    while done < buf.len() {
        match input.read(&mut buf[done..]) {
            Ok(0) => return (done, Ok(())),
            Ok(count) => done += count,
            Err(error) => return (done, Err(error)),
        }
    }
    (done, Ok(()))
}

/// Writes a line for each record, and one for a short remainder, with one write. The first record has the position `from`.
fn lines<W: Write>(output: &mut W, records: &[u8], from: u64) -> io::Result<()>
    requires { count_of records.now ≤ RECORDS }
    ensures { OnOk result (Appends (W.contents output.old) (W.contents output.new) (lines_of from records.now)) }
{
    let mut text = [0u8; TEXT];
    let count = print(records, from, &mut text);
    output.write_all(&text[..count])?;
    output.flush()
}

/// Writes the lines of records, and says on standard error if that fails.
fn answer<W: Write>(rt: &impl Eprint, output: &mut W, records: &[u8], from: u64) -> Result<(), Stop>
    requires { count_of records.now ≤ RECORDS }
    ensures written { OnOk result (Appends (W.contents output.old) (W.contents output.new) (lines_of from records.now)) }
    ensures failed { result ≢ Err Unread }
{
    match lines(output, records, from) {
        Ok(()) => Ok(()),
        Err(error) => {
            let _ = eprintln!(rt; "standard output: {error}");
            Err(Stop::Unwritten)
        }
    }
}

/// Judges each record of the input. At its end the output has got exactly the lines of the input's bytes, and after a
/// failed read those of the whole records before it. A failure is said on standard error.
pub fn judge<R: Read, W: Write>(rt: &impl Eprint, input: &mut R, output: &mut W) -> Result<(), Stop>
    ensures whole { OnOk result (IfSome (R.remaining input.old) (λ xs. Appends (W.contents output.old) (W.contents output.new) (lines_of 0 xs))) }
    ensures unread { result ≡ Err Unread → (bs : List ℕ) × Consumes (R.remaining input.old) (R.remaining input.new) bs × Appends (W.contents output.old) (W.contents output.new) (lines_of 0 (whole_records bs)) }
{
    let mut records = [0u8; CHUNK];
    let mut from: u64 = 0;
    for _ in 0..u64::MAX {
        let (count, read) = fill(input, &mut records);
        if let Err(error) = read {
            let _ = eprintln!(rt; "standard input: {error}");
            answer(rt, output, &records[..count - count % Record::SIZE], from)?;
            return Err(Stop::Unread);
        }
        answer(rt, output, &records[..count], from)?;
        if count < CHUNK {
            return Ok(());
        }
        from = after(&records, from);
    }
    Err(Stop::Endless)
}

#[cfg(test)]
mod tests {
    use super::*;
    use std::io::BufWriter;
    use std::test::Fail;

    /// Gives its bytes five at a time, and then fails.
    #[derive(Drop)]
    struct Failing<'a> {
        bytes: &'a [u8],
    }

    impl Read for Failing<'_> {
        fn read(&mut self, buf: &mut [u8]) -> io::Result<usize> {
            if self.bytes.is_empty() {
                return Err(io::Error::from(io::ErrorKind::Other));
            }
            let count = self.bytes.len().min(buf.len()).min(5);
            let (front, rest) = self.bytes.split_at(count);
            buf[..count].copy_from_slice(front);
            self.bytes = rest;
            Ok(count)
        }
    }

    #[test]
    fn whole_records_before_an_error_are_judged(rt: HostRuntime) -> Result<(), Fail> {
        let bytes = vec![in rt.alloc(); 0u8; 2000]?;
        let mut input = Failing {
            bytes: bytes.as_slice(),
        };
        let mut output = Vec::new(rt.alloc());
        let judged = judge(&rt, &mut input, &mut output);
        assert!(rt; judged == Err(Stop::Unread));
        assert_eq!(rt;
            output.as_slice(),
            b"0 refused 27\n1 refused 27\n".as_slice()
        );
        Ok(())
    }

    /// Takes five bytes at a time as long as it has room, and then fails.
    #[derive(Drop)]
    struct Full {
        taken: Vec<u8>,
        room: usize,
    }

    impl Write for Full {
        fn write(&mut self, buf: &[u8]) -> io::Result<usize> {
            let count = self.room.saturating_sub(self.taken.len());
            if count == 0 {
                return Err(io::Error::from(io::ErrorKind::StorageFull));
            }
            let count = count.min(buf.len()).min(5);
            self.taken.extend_from_slice(&buf[..count])?;
            Ok(count)
        }

        fn flush(&mut self) -> io::Result<()> {
            Ok(())
        }
    }

    #[test]
    fn no_line_is_lost_at_a_failed_write(rt: HostRuntime) -> Result<(), Fail> {
        let bytes = [0u8; 2000];
        let writer = Full {
            taken: Vec::new(rt.alloc()),
            room: 18,
        };
        let mut output = BufWriter::with_capacity(rt.alloc(), TEXT, writer)?;
        let judged = judge(&rt, &mut bytes.as_slice(), &mut output);
        assert!(rt; judged == Err(Stop::Unwritten));
        let (writer, unwritten) = output.into_parts();
        assert_eq!(rt; writer.taken.as_slice(), b"0 refused 27\n1 ref".as_slice());
        assert_eq!(rt; unwritten.as_slice(), b"used 27\n2 refused 21\n".as_slice());
        Ok(())
    }

    #[test]
    fn a_remainder_is_judged(rt: HostRuntime) -> Result<(), Fail> {
        let bytes = [0u8; 753];
        let mut output = Vec::new(rt.alloc());
        let judged = judge(&rt, &mut bytes.as_slice(), &mut output);
        assert!(rt; judged == Ok(()));
        assert_eq!(rt;
            output.as_slice(),
            b"0 refused 27\n1 refused 21\n".as_slice()
        );
        Ok(())
    }
}
