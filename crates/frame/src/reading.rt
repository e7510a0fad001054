//! Unescaping a whole segment.
ghost use Rattle.std.specs.Prelude.{◌≡◌, ◌≤◌, length};
ghost use Rattle.frame.specs.Buffer.{laid};
ghost use Rattle.frame.specs.Escapes.{unescaped};
ghost use Rattle.frame.specs.Writing.{measured, unescape_answer, unescape_left, OnlyFramesRead};

use crate::FLAG;
use crate::cursor::Cursor;
use crate::escaping::Escaping;

/// Why bytes were not unescaped. The buffer is then as it was.
#[derive(Clone, Copy, PartialEq, Eq, Debug)]
pub enum NotUnescaped {
    /// A flag is among them, so they are no segment.
    HasFlag,
    /// An escape among them is not followed by one of the two bytes that may follow it.
    BadEscape,
    /// The buffer is shorter than what they stand for.
    NoRoom,
}

/// How many bytes a segment stands for, unless it cannot be unescaped.
fn measure(segment: &[u8]) -> Result<usize, NotUnescaped>
    ensures { result ≡ measured segment.now }
{
    let mut escaping = Escaping::Outside;
    let mut count = 0;
    // A `for`: a `fold` would have to bound the count in its closure.
    for byte in segment {
        if *byte == FLAG {
            return Err(NotUnescaped::HasFlag);
        }
        let (next, meant) = escaping.step(*byte);
        escaping = next;
        if meant.is_some() {
            count += 1;
        }
    }
    match escaping {
        Escaping::Outside => Ok(count),
        Escaping::Pending | Escaping::Broken => Err(NotUnescaped::BadEscape),
    }
}

/// Writes the bytes that a segment stands for at the front of a buffer that has room for them.
fn lay_unescaped(segment: &[u8], out: &mut [u8])
    requires { length (unescaped segment.now) ≤ length out.old }
    ensures { out.new ≡ laid (unescaped segment.now) out.old }
{
    let mut escaping = Escaping::Outside;
    let mut cursor = Cursor::new(out);
    for byte in segment {
        let (next, meant) = escaping.step(*byte);
        escaping = next;
        if let Some(unescaped) = meant {
            // the buffer has room, as is required
            let _ = cursor.put(&[unescaped]);
        }
    }
}

/// Writes the bytes that a segment stands for at the front of `out`, and tells how many they are. Bytes that can be unescaped
/// are exactly what framing writes of the result between its two flags.
#[tactic(auto, using(crate::proofs::Escaped::only_frames_read))]
pub fn unescape(segment: &[u8], out: &mut [u8]) -> Result<usize, NotUnescaped>
    ensures told { result ≡ unescape_answer segment.now (length out.old) }
    ensures written { out.new ≡ unescape_left segment.now out.old }
    ensures only_frames { OnlyFramesRead segment.now }
{
    let count = measure(segment)?;
    if out.len() < count {
        return Err(NotUnescaped::NoRoom);
    }
    lay_unescaped(segment, out);
    Ok(count)
}
