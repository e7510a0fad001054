//! Writing a packet with its CRC.
ghost use Rattle.std.specs.Prelude.{◌≡◌, ◌+◌, ◌≤◌, length};
ghost use Rattle.frame.specs.Buffer.{laid};
ghost use Rattle.packet.specs.Limits.{min_packet};
ghost use Rattle.packet.specs.Packets.{headed, packed};
ghost use Rattle.packet.specs.Writing.{write_answer, write_left, WrittenReads};

use crate::kinds::Kind;
use crate::{DATA_OFFSET, MAX_DATA, MIN_PACKET};
use crc::checksum;
use refusals::Refusal;

/// What stands before a packet's data.
#[derive(Clone, Copy, PartialEq, Eq, Debug)]
pub struct Header {
    pub dest: u8,
    pub srce: u8,
    pub kind: Kind,
}

/// Writes a packet at the front of a buffer that has room for it, and tells its length.
fn lay(header: Header, data: &[u8], out: &mut [u8]) -> usize
    requires { length «data».now + min_packet ≤ length out.old }
    ensures size { result ≡ length «data».now + min_packet }
    ensures written { out.new ≡ laid (packed (headed header «data».now)) out.old }
{
    let end = DATA_OFFSET + data.len();
    out[..DATA_OFFSET].copy_from_slice(&[header.dest, header.srce, header.kind.0]);
    out[DATA_OFFSET..end].copy_from_slice(data);
    let crc = checksum(&out[..end]);
    out[end..end + 2].copy_from_slice(&crc.to_le_bytes());
    end + 2
}

/// Writes a packet with its CRC at the front of `out`, and tells its length. A buffer that is shorter than the packet is refused,
/// and so is more data than the longest packet has. What is written is read as this header and this data.
pub fn write_packet(header: Header, data: &[u8], out: &mut [u8]) -> Result<usize, Refusal>
    ensures told { result ≡ write_answer (length «data».now) (length out.old) }
    ensures written { out.new ≡ write_left header «data».now out.old }
    ensures reads_back { WrittenReads header «data».now result }
{
    if out.len() < data.len() + MIN_PACKET {
        return Err(Refusal::ShortBuffer);
    }
    if data.len() > MAX_DATA {
        return Err(Refusal::TooMuchData);
    }
    Ok(lay(header, data, out))
}
