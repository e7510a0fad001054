//! Data made of items of equal size.
ghost use Rattle.std.specs.Prelude.{◌≡◌, ◌<◌, ℕ, List};
ghost use Rattle.std.proofs.Common.{lit<};
ghost use Rattle.std.specs.Option.{option_map};
ghost use Rattle.array_vec.specs.Held.{held};
ghost use Rattle.routes.specs.Entries.{entry_in};
ghost use Rattle.requests.specs.Items.{items as items_in, address_in, assignment_in};

use crate::{MAX_ENTRIES, MAX_GET, MAX_PUT};
use array_vec::ArrayVec;
use device::assignments::Assignment;
use routes::entry::{ENTRY_SIZE, Entry};

/// The addresses of a GET.
pub type Addresses = ArrayVec<u16, MAX_GET>;

/// The pairs of address and value of a PUT.
pub type Assignments = ArrayVec<Assignment, MAX_PUT>;

/// The entries of an ADDRT or a DELRT.
pub type Entries = ArrayVec<Entry, MAX_ENTRIES>;

/// What data are made of: items that are carried by `SIZE` bytes each.
pub trait Item<const SIZE: usize>: Copy {
    ghost item_in: { List ℕ → Self };

    /// The item that some bytes carry.
    fn from_bytes(bytes: [u8; SIZE]) -> Self
        ensures { result ≡ item_in bytes.entry };

    // Data are cut by the size, so it is not 0; that it is small shows that data of it can be counted.
    ghost some: { 0 < SIZE };

    ghost few: { SIZE < 256 };
}

/// An address has two bytes.
impl Item<2> for u16 {
    ghost item_in = { address_in };

    ghost some = { lit< tt };

    ghost few = { lit< tt };

    fn from_bytes(bytes: [u8; 2]) -> u16
        ensures { result ≡ address_in bytes }
    {
        u16::from_le_bytes(bytes)
    }
}

/// A pair has an address of two bytes and a value of four.
impl Item<6> for Assignment {
    ghost item_in = { assignment_in };

    ghost some = { lit< tt };

    ghost few = { lit< tt };

    fn from_bytes(bytes: [u8; 6]) -> Assignment
        ensures { result ≡ assignment_in bytes }
    {
        let [a0, a1, v0, v1, v2, v3] = bytes;
        Assignment {
            address: u16::from_le_bytes([a0, a1]),
            value: u32::from_le_bytes([v0, v1, v2, v3]),
        }
    }
}

/// An entry of a route table.
impl Item<ENTRY_SIZE> for Entry {
    ghost item_in = { entry_in };

    ghost some = { lit< tt };

    ghost few = { lit< tt };

    fn from_bytes(bytes: [u8; ENTRY_SIZE]) -> Entry
        ensures { result ≡ entry_in bytes }
    {
        Entry::from(bytes)
    }
}

/// Reads 1 to `MOST` items of `SIZE` bytes each, with no byte left over.
pub fn read_items<T: Item<SIZE>, const SIZE: usize, const MOST: usize>(
    content: &[u8],
) -> Option<ArrayVec<T, MOST>>
    ensures { option_map held result ≡ items_in MOST SIZE T.item_in content.now }
{
    let (chunks, rest) = content.as_chunks::<SIZE>();
    if chunks.is_empty() || !rest.is_empty() {
        return None;
    }
    // The item of zeros fills the places that are not in use.
    let mut found = ArrayVec::new(T::from_bytes([0; SIZE]));
    for chunk in chunks {
        found.push(T::from_bytes(*chunk)).ok()?;
    }
    Some(found)
}
