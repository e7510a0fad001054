//! Why segments are dropped.
ghost use Rattle.std.specs.Prelude.{◌≡◌};
ghost use Rattle.packet.specs.Causes.{drop_number};

/// Why a segment was dropped: the first of these that applies to it. They are numbered in the order in which they are tried.
#[derive(Clone, Copy, PartialEq, Eq, Debug)]
pub enum DropCause {
    /// A line fault was reported in it.
    LineFault = 1,
    /// It holds no byte.
    Empty = 2,
    /// An escape in it is not followed by one of the two bytes that may follow it.
    BadEscape = 3,
    /// It stands for more bytes than the longest packet has.
    TooLong = 4,
    /// It stands for fewer bytes than the shortest packet has.
    TooShort = 5,
    /// Its CRC is wrong.
    WrongCrc = 6,
    /// Its source is 0.
    NullSource = 7,
    /// Its source is the flag or the escape.
    ForbiddenSource = 8,
    /// It is not addressed to us, or not from the process that we spoke to.
    NotForUs = 9,
    /// It is a reply at a node, or a request in a transaction.
    WrongDirection = 10,
}

/// The cause's number.
impl From<DropCause> for u8 {
    ghost from_gives = { λ cause number. number ≡ drop_number cause };

    fn from(cause: DropCause) -> u8 {
        cause as u8
    }
}
