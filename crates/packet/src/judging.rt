//! Judging what came over the line.
ghost use Rattle.std.specs.Prelude.{◌≡◌, take};
ghost use Rattle.frame.specs.Segment.{Segment};
ghost use Rattle.frame.specs.Receiving.{kept, Holds};
ghost use Rattle.packet.specs.Reading.{shown, shown_in};
ghost use Rattle.packet.specs.Judging.{is_for, right_way, judge_packet, judge_bytes, judge as segment_verdict, judge_kept};
ghost use Rattle.packet.specs.Valid.{Came, ExactlyValid};

use crate::address::Address;
use crate::causes::DropCause;
use crate::kinds::Kind;
use crate::reader::Packet;
use crate::writer::Header;
use frame::escaping::Escaping;
use frame::receiver::Digest;
use frame::{ESCAPE, FLAG};

/// Who judges a segment, and so what is for it and in the right direction.
#[derive(Clone, Copy, PartialEq, Eq, Debug)]
pub enum Station {
    /// A node with its own address, which takes requests.
    Node(Address),
    /// A process in a transaction, which takes a reply from the peer that it spoke to.
    Caller { own: Address, peer: Address },
    /// One that takes every packet, whoever it is for.
    Monitor,
}

impl Station {
    /// Whether a packet from `srce` to `dest` is for this station.
    fn hears(self, dest: u8, srce: u8) -> bool
        ensures { result ≡ is_for self dest srce }
    {
        match self {
            Station::Node(own) => dest == u8::from(own),
            Station::Caller { own, peer } => dest == u8::from(own) && srce == u8::from(peer),
            Station::Monitor => true,
        }
    }

    /// Whether a packet of this kind goes in the right direction.
    fn takes(self, kind: Kind) -> bool
        ensures { result ≡ right_way self kind.0 }
    {
        match self {
            Station::Node(_) => !kind.is_reply(),
            Station::Caller { .. } => kind.is_reply(),
            Station::Monitor => true,
        }
    }

    /// A packet that was read, unless it is dropped.
    fn sift<'a>(self, packet: Packet<'a>) -> Result<Packet<'a>, DropCause>
        ensures { shown_in result ≡ judge_packet self (shown packet.entry) }
    {
        let Header { dest, srce, kind } = packet.header();
        match srce {
            0 => Err(DropCause::NullSource),
            FLAG | ESCAPE => Err(DropCause::ForbiddenSource),
            _ if !self.hears(dest, srce) => Err(DropCause::NotForUs),
            _ if !self.takes(kind) => Err(DropCause::WrongDirection),
            _ => Ok(packet),
        }
    }

    /// Judges the bytes that a segment stands for.
    fn judge_bytes<'a>(self, bytes: &'a [u8]) -> Result<Packet<'a>, DropCause>
        ensures { shown_in result ≡ judge_bytes self bytes.now }
    {
        let packet = Packet::read(bytes)?;
        self.sift(packet)
    }

    /// Judges a segment by what a receiver kept of it: the digest, and the memory that holds the bytes it stands for. The segment
    /// is dropped for the first cause that applies to it, or it is a valid one and this is its packet.
    #[tactic(auto, using(crate::proofs::Judged::told_segment, crate::proofs::Validity::told_valid))]
    pub fn judge<'a>(self, digest: Digest, memory: &'a [u8]) -> Result<Packet<'a>, DropCause>
        ensures value { shown_in result ≡ judge_kept self digest (take (kept digest) memory.now) }
        ensures segment { (s : Segment) → Holds digest memory.now s → shown_in result ≡ segment_verdict self s }
        ensures valid { (s : Segment) → Came s → Holds digest memory.now s → ExactlyValid self s (shown_in result) }
    {
        match digest {
            Digest { faulted: true, .. } => Err(DropCause::LineFault),
            Digest {
                escaping: Escaping::Pending | Escaping::Broken,
                ..
            } => Err(DropCause::BadEscape),
            Digest { count: None, .. } => Err(DropCause::TooLong),
            _ => self.judge_bytes(digest.bytes(memory)),
        }
    }
}
