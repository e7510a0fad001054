//! What the line's hardware can report besides bytes.
ghost use Rattle.std.specs.Prelude.{◌≡◌};
ghost use Rattle.frame.specs.Faults.{fault_number};

/// A fault of the line, by its number: the monitoring count that it adds to.
#[derive(Clone, Copy, PartialEq, Eq, Debug)]
pub enum LineFault {
    /// A character had a wrong stop bit or parity.
    Parity = 0,
    /// Characters came faster than they were taken.
    Overrun = 1,
    /// Another process sent while the line was ours.
    Ownership = 5,
}

/// The fault's number.
impl From<LineFault> for u8 {
    ghost from_gives = { λ fault number. number ≡ fault_number fault };

    fn from(fault: LineFault) -> u8 {
        fault as u8
    }
}
