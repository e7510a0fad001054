//! Why a request is not carried out.
ghost use Rattle.std.specs.Prelude.{◌≡◌};
ghost use Rattle.requests.specs.Naks.{nak_number};

/// Why a request gets a NAK, which carries no data. Nothing changed then. The numbers are those of the protocol.
#[derive(Clone, Copy, PartialEq, Eq, Debug)]
pub enum Nak {
    /// Its packet type is not known.
    Unknown = 0,
    /// Its supplement, its length or its content is wrong.
    Incorrect = 1,
    /// It could not be carried out.
    Failed = 2,
}

/// The cause's number, which is the NAK's supplement.
impl From<Nak> for u8 {
    ghost from_gives = { λ nak n. n ≡ nak_number nak };

    fn from(nak: Nak) -> u8 {
        nak as u8
    }
}
