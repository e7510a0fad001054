//! Requests.
ghost use Rattle.std.specs.Prelude.{◌≡◌};
ghost use Rattle.requests.specs.Spaces.{space_named};

use crate::items::{Addresses, Assignments, Entries};
use crate::naks::Nak;

/// The address space of a GET or a PUT.
#[derive(Clone, Copy, PartialEq, Eq, Debug)]
pub enum Space {
    /// The device's variables.
    Device,
    /// The monitoring counts.
    Counts,
}

/// The space that a supplement names.
impl TryFrom<u8> for Space {
    type Error = Nak;

    ghost try_from_gives = { λ ss r. r ≡ space_named ss };

    fn try_from(ss: u8) -> Result<Space, Nak> {
        match ss {
            0 => Ok(Space::Device),
            1 => Ok(Space::Counts),
            _ => Err(Nak::Incorrect),
        }
    }
}

/// What a valid packet asks a node for.
#[derive(Drop)]
pub enum Request<'a> {
    /// Requests a reply and nothing else.
    Ping,
    /// Back to power-up.
    Init,
    /// The values at addresses.
    Get(Space, Addresses),
    /// New values at addresses.
    Put(Space, Assignments),
    /// Bytes of a memory.
    Read {
        memory: u8,
        start: u32,
        count: u16,
    },
    /// New bytes of a memory.
    Write {
        memory: u8,
        start: u32,
        bytes: &'a [u8],
    },
    /// What the node is.
    Identify,
    /// A fragment of the identity string.
    Fragment(u8),
    /// More routes.
    AddRoutes(Entries),
    /// Fewer routes.
    DeleteRoutes(Entries),
    /// The route table.
    ListRoutes,
}
