//! The type byte of a packet.
ghost use Rattle.std.specs.Prelude.{◌≡◌};
ghost use Rattle.packet.specs.Types.{ss as supplement, pktype as type_bits, type_number, type_named, is_reply as replies};

/// A packet type.
#[derive(Clone, Copy, PartialEq, Eq, Debug)]
pub enum PacketType {
    Ping,
    Init,
    Ack,
    Nak,
    Get,
    Put,
    Read,
    Write,
    Id,
    Addrt,
    Delrt,
    Getrt,
    /// A type that has no name, by its number.
    Other(u8),
}

/// The packet type with this number.
impl From<u8> for PacketType {
    ghost from_gives = { λ number pktype. pktype ≡ type_named number };

    fn from(number: u8) -> PacketType {
        match number {
            0 => PacketType::Ping,
            1 => PacketType::Init,
            2 => PacketType::Ack,
            3 => PacketType::Nak,
            4 => PacketType::Get,
            5 => PacketType::Put,
            6 => PacketType::Read,
            7 => PacketType::Write,
            8 => PacketType::Id,
            54 => PacketType::Addrt,
            55 => PacketType::Delrt,
            56 => PacketType::Getrt,
            other => PacketType::Other(other),
        }
    }
}

/// The packet type's number.
impl From<PacketType> for u8 {
    ghost from_gives = { λ pktype number. number ≡ type_number pktype };

    fn from(pktype: PacketType) -> u8 {
        match pktype {
            PacketType::Ping => 0,
            PacketType::Init => 1,
            PacketType::Ack => 2,
            PacketType::Nak => 3,
            PacketType::Get => 4,
            PacketType::Put => 5,
            PacketType::Read => 6,
            PacketType::Write => 7,
            PacketType::Id => 8,
            PacketType::Addrt => 54,
            PacketType::Delrt => 55,
            PacketType::Getrt => 56,
            PacketType::Other(number) => number,
        }
    }
}

/// The type byte of a packet: 64 times the supplement `ss`, and the number of the packet type.
#[derive(Clone, Copy, PartialEq, Eq, Debug)]
pub struct Kind(pub u8);

impl Kind {
    /// The supplement, 0 to 3.
    pub fn ss(self) -> u8
        ensures { result ≡ supplement self.0 }
    {
        self.0 / 64
    }

    /// The packet type.
    pub fn pktype(self) -> PacketType
        ensures { result ≡ type_named (type_bits self.0) }
    {
        PacketType::from(self.0 % 64)
    }

    /// Whether it is the type of a reply: ACK or NAK.
    pub fn is_reply(self) -> bool
        ensures { result ≡ replies self.0 }
    {
        // By the numbers of ACK and NAK: with its type made first, a call takes seven times the time.
        matches!(self.0 % 64, 2 | 3)
    }
}
