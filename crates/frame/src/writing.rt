//! Writing a frame: a flag, the packet with its flags and escapes escaped, and a flag.
ghost use Rattle.std.specs.Prelude.{◌≡◌, ◌+◌, ◌≤◌, ◌↔◌, length, IsOk, OnOk, nat_lt};
ghost use Rattle.frame.specs.Framing.{escaped_byte, framed};
ghost use Rattle.frame.specs.Cursor.{buffer, rest, Puts};
ghost use Rattle.frame.specs.Writing.{frame_answer, frame_left, ReadsBack};

use crate::cursor::Cursor;
use crate::{ESCAPE, ESCAPED_ESCAPE, ESCAPED_FLAG, FLAG};
use refusals::Refusal;

/// How many bytes a byte takes inside a frame.
fn escaped_len(byte: u8) -> usize
    ensures value { result ≡ length (escaped_byte byte) }
    ensures few { result ≤ 2 }
{
    if byte == FLAG || byte == ESCAPE { 2 } else { 1 }
}

/// Whether a packet's frame has more than `room` bytes.
fn outgrows(packet: &[u8], room: usize) -> bool
    ensures { result ≡ nat_lt room (length (framed packet.now)) }
{
    // Each byte takes one at least, so the work is bounded by the room: a longer packet is not looked at.
    if room < packet.len() {
        return true;
    }
    // The flags are taken off the room, since a frame may be too long for a usize, and the bytes inside are not.
    let inside: usize = packet.iter().map(|byte| escaped_len(*byte)).sum();
    room < 2 || room - 2 < inside
}

/// Writes a byte as it stands inside a frame.
fn put_escaped(cursor: &mut Cursor<'_>, byte: u8) -> Result<(), Refusal>
    ensures same_buffer { buffer cursor.new ≡ buffer cursor.old }
    ensures fits { IsOk result ↔ (length (escaped_byte byte) ≤ length (rest cursor.old)) }
    ensures puts { OnOk result (Puts cursor.old (escaped_byte byte) cursor.new) }
{
    match byte {
        FLAG => cursor.put(&[ESCAPE, ESCAPED_FLAG]),
        ESCAPE => cursor.put(&[ESCAPE, ESCAPED_ESCAPE]),
        plain => cursor.put(&[plain]),
    }
}

/// Writes the frame of a packet at the front of `out`, and tells the frame's length. A buffer that is shorter than the frame
/// is refused. What stands between the frame's two flags can be unescaped to the packet again.
pub fn write_frame(packet: &[u8], out: &mut [u8]) -> Result<usize, Refusal>
    ensures told { result ≡ frame_answer packet.now (length out.old) }
    ensures written { out.new ≡ frame_left packet.now out.old }
    ensures reads_back { ReadsBack packet.now }
{
    if outgrows(packet, out.len()) {
        return Err(Refusal::ShortBuffer);
    }
    let mut cursor = Cursor::new(out);
    cursor.put(&[FLAG])?;
    for byte in packet {
        put_escaped(&mut cursor, *byte)?;
    }
    cursor.put(&[FLAG])?;
    Ok(cursor.written().len())
}
