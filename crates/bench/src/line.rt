//! A line of a recording.
ghost use Rattle.std.specs.Prelude.{◌≡◌, Some};
ghost use Rattle.bench.specs.Lines.{line_text, line_read};
ghost use Rattle.bench.specs.Reading.{ReadsAs, ReadsExactly};
ghost use Rattle.bench.specs.Values.{value_of};
ghost use Rattle.bench.specs.declared.line.NotRead.TheVariants.{Refused, NoMemory};

use crate::MAX_LINE;
use crate::hex::Pairs;
use crate::reading::{BAD_LINE, read_body};
use frame::faults::LineFault;
use refusals::Refusal;
use std::alloc::{AllocError, Global};
use std::fmt;

/// What a line tells.
#[derive(Drop)]
pub enum Line {
    /// These bytes came over the bus.
    Bytes(Vec<u8>),
    /// So many milliseconds passed.
    Step(u32),
    /// The line's hardware reported a fault.
    Fault(LineFault),
}

impl Line {
    /// Reads a text that is one line, with its line feed.
    pub fn read(heap: Global, text: &[u8]) -> Result<Line, NotRead>
        ensures value { ReadsAs (line_read text.now) result }
        ensures exact { ReadsExactly text.now }
    {
        match text {
            [body @ .., b'\n'] if body.len() <= MAX_LINE => read_body(heap, body),
            _ => Err(BAD_LINE),
        }
    }
}

/// The line as it is recorded, with its line feed. A line of no bytes, or of more than one has room for, is written too, but
/// reading refuses it.
impl fmt::Display for Line {
    ghost output = { λ l. Some (line_text (value_of l)) };

    fn fmt<W: fmt::Write>(&self, f: &mut fmt::Formatter<W>) -> fmt::Result {
        match self {
            Line::Bytes(bytes) => writeln!(f, "L{}", Pairs(bytes.as_slice())),
            Line::Step(step) => writeln!(f, "T {step}"),
            Line::Fault(fault) => writeln!(f, "F {}", u8::from(*fault)),
        }
    }
}

/// Why a line was not read.
#[derive(Clone, Copy, PartialEq, Eq, Debug)]
pub enum NotRead {
    /// The text is no line: `Refusal::BadLine`.
    Refused(Refusal),
    /// There was no memory for the line's bytes.
    NoMemory,
}

// The three are written out, since contracts name the case that each gives.
impl From<Refusal> for NotRead {
    ghost from_gives = { λ why r. r ≡ Refused why };

    fn from(why: Refusal) -> NotRead {
        NotRead::Refused(why)
    }
}

impl From<AllocError> for NotRead {
    ghost from_gives = { λ _ r. r ≡ NoMemory };

    fn from(_none: AllocError) -> NotRead {
        NotRead::NoMemory
    }
}

impl<T: Drop> From<std::alloc::AllocFailed<T>> for NotRead {
    ghost from_gives = { λ _ r. r ≡ NoMemory };

    fn from(_none: std::alloc::AllocFailed<T>) -> NotRead {
        NotRead::from(AllocError)
    }
}
