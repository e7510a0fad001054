//! Reading requests.
ghost use Rattle.std.specs.Prelude.{◌≡◌};
ghost use Rattle.std.specs.Option.{option_map};
ghost use Rattle.packet.specs.Types.{ss as supplement_of, pktype as type_bits, type_named};
ghost use Rattle.array_vec.specs.Held.{held};
ghost use Rattle.requests.specs.Asked.{asked, asked_in};
ghost use Rattle.requests.specs.Requests.{dataless as dataless_parsed, read_parsed, write_parsed, id_parsed, entries_with, routes_parsed, parsed};
ghost use Rattle.requests.specs.Requests.Request.{does};
ghost use Rattle.requests.specs.Requests.Change.{add_routes, delete_routes};

use crate::items::{Entries, read_items};
use crate::naks::Nak;
use crate::request::{Request, Space};
use crate::{MAX_READ, MAX_WRITE};
use packet::kinds::{Kind, PacketType};

/// A request that has supplement 0 and no data.
fn dataless<'a>(ss: u8, content: &[u8], request: Request<'a>) -> Result<Request<'a>, Nak>
    ensures { asked_in result ≡ dataless_parsed ss content.now (asked request.entry) }
{
    match (ss, content) {
        (0, []) => Ok(request),
        _ => Err(Nak::Incorrect),
    }
}

/// READ: the supplement is the memory, and the data are an address of four bytes and a count of two.
fn read_request<'a>(memory: u8, content: &[u8]) -> Result<Request<'a>, Nak>
    ensures { asked_in result ≡ read_parsed memory content.now }
{
    let [a0, a1, a2, a3, c0, c1] = content else {
        return Err(Nak::Incorrect);
    };
    let count = u16::from_le_bytes([*c0, *c1]);
    if count == 0 || count > MAX_READ {
        return Err(Nak::Incorrect);
    }
    Ok(Request::Read {
        memory,
        start: u32::from_le_bytes([*a0, *a1, *a2, *a3]),
        count,
    })
}

/// WRITE: the supplement is the memory, and the data are an address of four bytes and the bytes from there on.
fn write_request<'a>(memory: u8, content: &'a [u8]) -> Result<Request<'a>, Nak>
    ensures { asked_in result ≡ write_parsed memory content.now }
{
    let (start, bytes) = content.split_first_chunk().ok_or(Nak::Incorrect)?;
    if bytes.is_empty() || bytes.len() > MAX_WRITE {
        return Err(Nak::Incorrect);
    }
    Ok(Request::Write {
        memory,
        start: u32::from_le_bytes(*start),
        bytes,
    })
}

/// ID: phase 0 has no data, and phase 1 has the number of a fragment.
fn id_request<'a>(ss: u8, content: &[u8]) -> Result<Request<'a>, Nak>
    ensures { asked_in result ≡ id_parsed ss content.now }
{
    match (ss, content) {
        (0, []) => Ok(Request::Identify),
        (1, [number]) => Ok(Request::Fragment(*number)),
        _ => Err(Nak::Incorrect),
    }
}

/// The entries of an ADDRT or a DELRT, which has supplement 0.
fn read_entries(ss: u8, content: &[u8]) -> Option<Entries>
    ensures { option_map held result ≡ entries_with ss content.now }
{
    if ss != 0 {
        return None;
    }
    read_items(content)
}

/// ADDRT. It is a function, and so is DELRT: in `Request::read` every other request would pay for the room that the entries take.
fn add_request<'a>(ss: u8, content: &[u8]) -> Result<Request<'a>, Nak>
    ensures { asked_in result ≡ routes_parsed ss (λ es. does (add_routes es)) content.now }
{
    Ok(Request::AddRoutes(read_entries(ss, content).ok_or(Nak::Incorrect)?))
}

/// DELRT.
fn delete_request<'a>(ss: u8, content: &[u8]) -> Result<Request<'a>, Nak>
    ensures { asked_in result ≡ routes_parsed ss (λ es. does (delete_routes es)) content.now }
{
    Ok(Request::DeleteRoutes(read_entries(ss, content).ok_or(Nak::Incorrect)?))
}

impl<'a> Request<'a> {
    /// What a packet with this type byte and this data asks for, or why it gets a NAK.
    #[tactic(auto, unfolding(crate::specs::Requests::parsed))]
    pub fn read(kind: Kind, content: &'a [u8]) -> Result<Request<'a>, Nak>
        ensures { asked_in result ≡ parsed (type_named (type_bits kind.0)) (supplement_of kind.0) content.now }
    {
        let ss = kind.ss();
        match kind.pktype() {
            PacketType::Ping => dataless(ss, content, Request::Ping),
            PacketType::Init => dataless(ss, content, Request::Init),
            PacketType::Get => Ok(Request::Get(
                Space::try_from(ss)?,
                read_items(content).ok_or(Nak::Incorrect)?,
            )),
            PacketType::Put => Ok(Request::Put(
                Space::try_from(ss)?,
                read_items(content).ok_or(Nak::Incorrect)?,
            )),
            PacketType::Read => read_request(ss, content),
            PacketType::Write => write_request(ss, content),
            PacketType::Id => id_request(ss, content),
            PacketType::Addrt => add_request(ss, content),
            PacketType::Delrt => delete_request(ss, content),
            PacketType::Getrt => dataless(ss, content, Request::ListRoutes),
            PacketType::Ack | PacketType::Nak | PacketType::Other(_) => Err(Nak::Unknown),
        }
    }
}
