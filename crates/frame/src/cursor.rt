//! A cursor: it writes bytes one behind another over a buffer's front.
ghost use Rattle.std.specs.Prelude.{◌≡◌, ◌+◌, ◌≤◌, ◌↔◌, [], Err, length, IsOk, OnOk, OnErr};
ghost use Rattle.refusals.specs.declared.Refusal.TheVariants.{ShortBuffer};

use refusals::Refusal;

/// A buffer that is written from its front on. What stands behind the bytes that were written is as it was.
#[derive(Drop)]
pub struct Cursor<'a> {
    out: &'a mut [u8],
    at: usize,
    ghost within: { at ≤ length out.now },
}

impl<'a> Cursor<'a> {
    ghost use Rattle.frame.specs.Cursor.{buffer, written as bytes_written, rest, Puts};

    /// At the front of a buffer.
    pub fn new(out: &'a mut [u8]) -> Cursor<'a>
        ensures same_buffer { buffer result ≡ out.entry.ghost_name }
        ensures written { bytes_written result ≡ [] }
        ensures rest { rest result ≡ out.old }
    {
        Cursor { out, at: 0 }
    }

    /// Writes bytes behind those that were written. Where they have no room, none is.
    pub fn put(&mut self, bytes: &[u8]) -> Result<(), Refusal>
        ensures same_buffer { buffer self.new ≡ buffer self.old }
        ensures fits { IsOk result ↔ (length bytes.now ≤ length (rest self.old)) }
        ensures puts { OnOk result (Puts self.old bytes.now self.new) }
        ensures refused { OnErr result ((result ≡ Err ShortBuffer) × Puts self.old [] self.new) }
    {
        let end = self.at + bytes.len();
        if self.out.len() < end {
            return Err(Refusal::ShortBuffer);
        }
        self.out[self.at..end].copy_from_slice(bytes);
        self.at = end;
        Ok(())
    }

    /// The bytes that were written.
    pub fn written(&self) -> &[u8]
        ensures { result.now ≡ bytes_written self.now }
    {
        &self.out[..self.at]
    }
}
