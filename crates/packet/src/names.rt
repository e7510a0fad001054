//! How packet types and type bytes are shown.
ghost use Rattle.std.specs.Prelude.{Some};
ghost use Rattle.packet.specs.Names.{type_text, kind_text};

use crate::kinds::{Kind, PacketType};
use std::fmt;

impl fmt::Display for PacketType {
    ghost output = { λ t. Some (type_text t) };

    fn fmt<W: fmt::Write>(&self, f: &mut fmt::Formatter<W>) -> fmt::Result {
        let name = match self {
            PacketType::Ping => "PING",
            PacketType::Init => "INIT",
            PacketType::Ack => "ACK",
            PacketType::Nak => "NAK",
            PacketType::Get => "GET",
            PacketType::Put => "PUT",
            PacketType::Read => "READ",
            PacketType::Write => "WRITE",
            PacketType::Id => "ID",
            PacketType::Addrt => "ADDRT",
            PacketType::Delrt => "DELRT",
            PacketType::Getrt => "GETRT",
            PacketType::Other(number) => return write!(f, "TYPE{number}"),
        };
        f.write_str(name)
    }
}

impl fmt::Display for Kind {
    ghost output = { λ k. Some (kind_text k.0) };

    fn fmt<W: fmt::Write>(&self, f: &mut fmt::Formatter<W>) -> fmt::Result {
        let name = self.pktype();
        let ss = self.ss();
        write!(f, "{name}/{ss}")
    }
}
