//! Reading what stands before a line's line feed: its first character, and what stands behind that.
ghost use Rattle.std.specs.Prelude.{◌≡◌, slice_index};
ghost use Rattle.std.specs.Int.{IsInRange};
ghost use Rattle.bench.specs.Hex.{spaced_value};
ghost use Rattle.bench.specs.Lines.{bytes_read, step_read, fault_read, body_read};
ghost use Rattle.bench.specs.Numbers.{number_read};
ghost use Rattle.bench.specs.Reading.{ReadsAs};

use crate::hex::byte_value;
use crate::line::{Line, NotRead};
use frame::faults::LineFault;
use refusals::Refusal;
use std::alloc::Global;
use std::str;

/// What a text that is no line is answered.
pub(crate) const BAD_LINE: NotRead = NotRead::Refused(Refusal::BadLine);

/// Reads what stands before the line feed.
pub(crate) fn read_body(heap: Global, body: &[u8]) -> Result<Line, NotRead>
    ensures { ReadsAs (body_read body.now) result }
{
    match body {
        [b'L', pairs @ ..] => read_bytes(heap, pairs),
        [b'T', step @ ..] => read_step(step),
        [b'F', fault @ ..] => read_fault(fault),
        _ => Err(BAD_LINE),
    }
}

/// Reads at least one pair of digits, each behind a space, and nothing else.
fn read_bytes(heap: Global, pairs: &[u8]) -> Result<Line, NotRead>
    ensures { ReadsAs (bytes_read pairs.now) result }
{
    let (triples, rest) = pairs.as_chunks::<3>();
    if triples.is_empty() || !rest.is_empty() {
        return Err(BAD_LINE);
    }
    let mut bytes = Vec::with_capacity(heap, triples.len())?;
    // Pushed and not collected: the library tells nothing of what an `Option` collects.
    for triple in triples {
        let byte = spaced_byte(triple).ok_or(Refusal::BadLine)?;
        bytes.push(byte)?;
    }
    Ok(Line::Bytes(bytes))
}

/// The byte that a space and two characters write, if they write one.
fn spaced_byte(triple: &[u8; 3]) -> Option<u8>
    ensures { result ≡ spaced_value triple.now }
{
    match *triple {
        [b' ', high, low] => byte_value(high, low),
        _ => None,
    }
}

/// Reads a step behind a space.
fn read_step(rest: &[u8]) -> Result<Line, NotRead>
    ensures { ReadsAs (step_read rest.now) result }
{
    let [b' ', digits @ ..] = rest else {
        return Err(BAD_LINE);
    };
    read_number(digits).map(Line::Step).ok_or(BAD_LINE)
}

/// Reads a number with no needless zero in front.
fn read_number(digits: &[u8]) -> Option<u32>
    ensures { result ≡ number_read digits.now }
{
    match digits {
        [b'0'] => Some(0),
        [b'1'..=b'9', ..] => parse_digits(digits),
        _ => None,
    }
}

/// Reads a number whose first digit is 1 to 9: `parse` alone would take a plus sign and needless zeros too.
fn parse_digits(digits: &[u8]) -> Option<u32>
    requires { IsInRange 49 57 (slice_index digits.now 0) }
    ensures { result ≡ number_read digits.now }
{
    str::from_utf8(digits).ok()?.parse().ok()
}

/// Reads the number of a fault behind a space.
fn read_fault(rest: &[u8]) -> Result<Line, NotRead>
    ensures { ReadsAs (fault_read rest.now) result }
{
    let fault = match rest {
        [b' ', b'0'] => LineFault::Parity,
        [b' ', b'1'] => LineFault::Overrun,
        [b' ', b'5'] => LineFault::Ownership,
        _ => return Err(BAD_LINE),
    };
    Ok(Line::Fault(fault))
}
