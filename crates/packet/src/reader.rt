//! Reading a packet over given bytes.
ghost use Rattle.std.specs.Prelude.{◌≡◌};
ghost use Rattle.packet.specs.Reading.{read as packet_read, header_of, data_of, shown_in, PartOf, ReadsBack, OneForm, DamageShows};

use crate::DATA_OFFSET;
use crate::causes::DropCause;
use crate::kinds::Kind;
use crate::writer::Header;
use crc::detection::intact;
use frame::MAX_PACKET;

/// A part of given bytes: where it begins in them, and what it holds.
#[derive(Clone, Copy)]
pub struct Part<'a> {
    pub offset: usize,
    pub bytes: &'a [u8],
}

/// A packet, over the bytes that it was read from.
#[derive(Clone, Copy)]
pub struct Packet<'a> {
    header: Header,
    data: Part<'a>,
}

impl<'a> Packet<'a> {
    /// Reads bytes as a packet, or tells why they are none: no byte, too many, too few, or a wrong CRC. The bytes of a packet
    /// are read as that packet, only they are, and never if they were damaged in a way that the CRC detects.
    #[tactic(auto, using(crate::proofs::Forms::zero_is_right, crate::proofs::Forms::bytes_from))]
    pub fn read(bytes: &'a [u8]) -> Result<Packet<'a>, DropCause>
        ensures value { shown_in result ≡ packet_read bytes.now }
        ensures place { PartOf bytes.now result }
        ensures reads_back { ReadsBack bytes.now result }
        ensures one_form { OneForm bytes.now result }
        ensures damage { DamageShows bytes.now result }
    {
        if bytes.is_empty() {
            return Err(DropCause::Empty);
        }
        if bytes.len() > MAX_PACKET {
            return Err(DropCause::TooLong);
        }
        // behind the data stand the two bytes of the CRC
        let [dest, srce, kind, data @ .., _, _] = bytes else {
            return Err(DropCause::TooShort);
        };
        if !intact(bytes) {
            return Err(DropCause::WrongCrc);
        }
        let header = Header {
            dest: *dest,
            srce: *srce,
            kind: Kind(*kind),
        };
        let data = Part {
            offset: DATA_OFFSET,
            bytes: data,
        };
        Ok(Packet { header, data })
    }

    /// What stands before its data.
    pub fn header(&self) -> Header
        ensures { result ≡ header_of self.now }
    {
        self.header
    }

    /// Its data, as a part of the bytes that it was read from.
    pub fn data(&self) -> Part<'a>
        ensures { result ≡ data_of self.now }
    {
        self.data
    }
}
