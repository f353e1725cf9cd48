//! Answers as text.
use interpreter::step::Answer;
use std::fmt;

/// An answer that prints as text. A wrapper, since the text is this program's alone.
#[derive(Clone, Copy)]
pub struct Said(pub Answer);

impl fmt::Display for Said {
    fn fmt<W: fmt::Write>(&self, f: &mut fmt::Formatter<W>) -> fmt::Result {
        match self.0 {
            Answer::Stepped => write!(f, "Stepped"),
            Answer::Wrote(stream, count) => write!(f, "Wrote {count} to {stream}"),
            Answer::Hint(count) => write!(f, "Hint {count}"),
            Answer::Exited(code) => write!(f, "Exited {code}"),
            Answer::Refused(refusal) => {
                let number = u8::from(refusal);
                write!(f, "Refused {number}")
            }
        }
    }
}
