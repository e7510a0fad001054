//! The receiver: it takes what comes over the line byte by byte, and gathers the bytes that a segment stands for in memory lent to it.
ghost use Rattle.std.specs.Prelude.{◌≡◌, ℕ, List, take};
ghost use Rattle.frame.specs.Segment.{Segment, no_bytes, with_fault};
ghost use Rattle.frame.specs.Receiving.{blank, counted, kept, fault_digested, stored, byte_tells, byte_leaves, byte_places, Holds, Receives};

use crate::escaping::Escaping;
use crate::{FLAG, MAX_PACKET};
use refusals::Refusal;
use std::marker::Model;

/// What is kept of a segment beside the bytes that it stands for.
#[derive(Clone, Copy)]
pub struct Digest {
    /// How many bytes it stands for, unless they are more than the longest packet has.
    pub count: Option<usize>,
    /// Where its reading stands.
    pub escaping: Escaping,
    /// A line fault was reported in it.
    pub faulted: bool,
}

impl Digest {
    /// How many of the bytes that it stands for are kept: those up to the longest packet.
    fn kept(&self) -> usize
        ensures { result ≡ kept self.now }
    {
        self.count.unwrap_or(MAX_PACKET)
    }

    /// The bytes that the segment stands for, up to the longest packet, in the memory that they were gathered in.
    pub fn bytes<'a>(&self, memory: &'a [u8]) -> &'a [u8]
        ensures { result.now ≡ take (kept self.now) memory.now }
    {
        memory.get(..self.kept()).unwrap_or(memory)
    }

    /// Of a segment with no bytes: no derived `Default`, whose count would be that of too many.
    fn empty() -> Digest
        ensures { result ≡ blank }
    {
        Digest {
            count: Some(0),
            escaping: Escaping::Outside,
            faulted: false,
        }
    }

    /// The count with an unescaped byte, if there is one. The longest packet has no room for another.
    fn counted(&self, byte: Option<u8>) -> Option<usize>
        ensures { result ≡ counted byte self.now.count }
    {
        match (byte, self.count) {
            (Some(_), Some(count)) if count < MAX_PACKET => Some(count + 1),
            (Some(_), _) => None,
            (None, count) => count,
        }
    }
}

/// Stores an unescaped byte, if there is one, at its place, if it belongs to the longest packet. Behind `get_mut` no element would be
/// known to a proof.
fn store(memory: &mut [u8], at: usize, byte: Option<u8>)
    ensures { memory.new ≡ stored byte at memory.old }
{
    if let Some(meant) = byte
        && at < MAX_PACKET
        && at < memory.len()
    {
        memory[at] = meant;
    }
}

/// A receiver, which holds an open segment: what came since the last flag, or since the receiver was made.
#[derive(Clone, Copy)]
pub struct Receiver {
    digest: Digest,
}

/// A receiver stands for the digest of its open segment.
impl Model for Receiver {
    ghost use Rattle.frame.specs.declared.receiver.Digest.{Digest};

    ghost Value = { Digest };

    ghost view = { λ r. r.digest };

    ghost inverse = { λ d. record { digest = d } };
}

impl Receiver {
    /// At the start of a segment.
    pub fn new() -> Receiver
        ensures value { result ≡ blank }
        ensures segment { (memory : List ℕ) → Holds result memory no_bytes }
    {
        Receiver {
            digest: Digest::empty(),
        }
    }

    /// Takes a byte. A flag closes the segment and tells its digest; the bytes that the segment stands for are then at the
    /// memory's front. Memory shorter than the longest packet is refused, and then the byte never came.
    pub fn byte(&mut self, byte: u8, memory: &mut [u8]) -> Result<Option<Digest>, Refusal>
        ensures told { result ≡ byte_tells self.old byte memory.old }
        ensures after { self.new ≡ byte_leaves self.old byte memory.old }
        ensures placed { memory.new ≡ byte_places self.old byte memory.old }
        ensures segment { Receives self.old byte memory.old result self.new memory.new }
    {
        if memory.len() < MAX_PACKET {
            return Err(Refusal::ShortBuffer);
        }
        let digest = self.digest;
        if byte == FLAG {
            self.digest = Digest::empty();
            return Ok(Some(digest));
        }
        let (escaping, meant) = digest.escaping.step(byte);
        store(memory, digest.kept(), meant);
        self.digest = Digest {
            count: digest.counted(meant),
            escaping,
            ..digest
        };
        Ok(None)
    }

    /// Takes word of a line fault.
    pub fn fault(&mut self)
        ensures after { self.new ≡ fault_digested self.old }
        ensures segment { (memory : List ℕ) (s : Segment) → Holds self.old memory s → Holds self.new memory (with_fault s) }
    {
        self.digest.faulted = true;
    }
}
