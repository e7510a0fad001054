//! Why public calls refuse, and the number of each refusal.
#![tactic(auto)]

ghost use Rattle.std.specs.Prelude.{◌≡◌};
ghost use Rattle.refusals.specs.Numbers.{refusal_number};

use std::error::Error;
use std::fmt;

/// Why a call was refused, with the number of each refusal. A refused call leaves everything as it stood.
#[derive(Clone, Copy, PartialEq, Eq, Debug)]
pub enum Refusal {
    /// An own address is 0, the flag or the escape.
    OwnAddress = 1,
    /// A buffer is too short.
    ShortBuffer = 2,
    /// A destination is 0, the flag or the escape.
    Destination = 3,
    /// A request has the packet type of a reply.
    ReplyType = 4,
    /// A packet is to carry more data than fits it.
    TooMuchData = 5,
    /// A new reading names no reading.
    NoSuchReading = 6,
    /// A new reading is too wide for its variable.
    ReadingTooWide = 7,
    /// A table with no free row gets a new key.
    TableFull = 8,
    /// A bench line is malformed.
    BadLine = 9,
}

/// The refusal's number.
impl From<Refusal> for u8 {
    ghost from_gives = { λ why number. number ≡ refusal_number why };

    fn from(why: Refusal) -> u8 {
        why as u8
    }
}

impl fmt::Display for Refusal {
    fn fmt<W: fmt::Write>(&self, f: &mut fmt::Formatter<W>) -> fmt::Result {
        f.write_str(match self {
            Refusal::OwnAddress => "an own address is not to be 00, C0 or DB",
            Refusal::ShortBuffer => "the buffer is too short",
            Refusal::Destination => "a destination is not to be 00, C0 or DB",
            Refusal::ReplyType => "a request is not to have the type of a reply",
            Refusal::TooMuchData => "the data does not fit a packet",
            Refusal::NoSuchReading => "there is no such reading",
            Refusal::ReadingTooWide => "the value is too wide for the reading",
            Refusal::TableFull => "the table is full",
            Refusal::BadLine => "the line is malformed",
        })
    }
}

impl Error for Refusal {}
