//! Routes as requests and replies carry them.
ghost use Rattle.std.specs.Prelude.{◌≡◌};
ghost use Rattle.routes.specs.Entries.{route_bytes, entry_in, can_add};

use crate::route::{Route, Subnet};

/// How many bytes an entry has: network, mask, flags and port, and the life in four bytes, lowest first.
pub const ENTRY_SIZE: usize = 8;

/// A route as a request carries it, with its flags, all of which are reserved.
#[derive(Clone, Copy)]
pub struct Entry {
    pub flags: u8,
    pub route: Route,
}

/// The entry that eight bytes carry.
impl From<[u8; ENTRY_SIZE]> for Entry {
    ghost from_gives = { λ bytes entry. entry ≡ entry_in bytes };

    fn from(bytes: [u8; ENTRY_SIZE]) -> Entry {
        let [network, mask, flags, port, l0, l1, l2, l3] = bytes;
        Entry {
            flags,
            route: Route {
                subnet: Subnet { network, mask },
                port,
                life: u32::from_le_bytes([l0, l1, l2, l3]),
            },
        }
    }
}

impl Entry {
    /// Whether the entry may be added: no flag is set, and the route may stand in a table.
    pub fn can_be_added(self) -> bool
        ensures { result ≡ can_add self }
    {
        self.flags == 0 && self.route.is_acceptable()
    }
}

/// The eight bytes that carry a route, with no flag set.
impl From<Route> for [u8; ENTRY_SIZE] {
    ghost from_gives = { λ route bytes. bytes ≡ route_bytes route };

    fn from(route: Route) -> [u8; ENTRY_SIZE] {
        let Subnet { network, mask } = route.subnet;
        let [l0, l1, l2, l3] = route.life.to_le_bytes();
        [network, mask, 0, route.port, l0, l1, l2, l3]
    }
}
