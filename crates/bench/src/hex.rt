//! Bytes as pairs of upper-case hexadecimal digits.
ghost use Rattle.std.specs.Prelude.{◌≡◌, Some};
ghost use Rattle.bench.specs.Hex.{hex_pair, spaced_pairs, hex_value, pair_value};

use std::fmt;

/// A byte, shown as two digits.
#[derive(Clone, Copy)]
pub struct Hex(pub u8);

impl fmt::Display for Hex {
    ghost output = { λ x. Some (hex_pair x.0) };

    fn fmt<W: fmt::Write>(&self, f: &mut fmt::Formatter<W>) -> fmt::Result {
        let Hex(byte) = *self;
        write!(f, "{byte:02X}")
    }
}

/// Bytes, each shown as a space and two digits.
#[derive(Clone, Copy)]
pub struct Pairs<'a>(pub &'a [u8]);

impl fmt::Display for Pairs<'_> {
    ghost output = { λ x. Some (spaced_pairs x.0.now) };

    fn fmt<W: fmt::Write>(&self, f: &mut fmt::Formatter<W>) -> fmt::Result {
        // A `for`: of `try_for_each` nothing would be known of what its closure wrote.
        for byte in self.0 {
            write!(f, " {}", Hex(*byte))?;
        }
        Ok(())
    }
}

/// The digit that a character writes, if it writes one. Lower case writes none, so `to_digit` would take too much.
fn digit_value(character: u8) -> Option<u8>
    ensures { result ≡ hex_value character }
{
    match character {
        b'0'..=b'9' => Some(character - b'0'),
        b'A'..=b'F' => Some(character - b'A' + 10),
        _ => None,
    }
}

/// The byte that two characters write, if they write one.
pub(crate) fn byte_value(high: u8, low: u8) -> Option<u8>
    ensures { result ≡ pair_value high low }
{
    Some(16 * digit_value(high)? + digit_value(low)?)
}
