//! What a table holds, and where.
ghost use Rattle.std.specs.Prelude.{◌≡◌, ◌≤◌, true, length};
ghost use Rattle.std.specs.List.{insert};
ghost use Rattle.routes.specs.Acceptable.{is_port};
ghost use Rattle.routes.specs.Insert.{placed};
ghost use Rattle.routes.specs.Lawful.{Lawful};
ghost use Rattle.routes.specs.Listed.{listed};
ghost use Rattle.routes.specs.Lookup.{port_for, MostSpecific};
ghost use Rattle.routes.specs.Places.{Tells};

use super::Table;
use crate::DISCARD;
use crate::route::{Route, Subnet};

impl Table {
    /// The entries, in order.
    #[tactic(auto, using(crate::proofs::Lawfulness::by_places))]
    pub fn entries(&self) -> &[Route]
        ensures value { result.now ≡ listed self.now }
        ensures rules { Lawful result.now }
    {
        self.entries.as_slice()
    }

    /// Where the entry for a subnet stands, if there is one.
    pub(super) fn find(&self, subnet: Subnet) -> Option<usize>
        ensures { Tells subnet (listed self.now) result }
    {
        self.entries().iter().position(|r| subnet == r.subnet)
    }

    /// Where a new entry belongs: in front of the first one that it stands before.
    pub(super) fn place_for(&self, new: Route) -> usize
        ensures within { result ≤ length (listed self.now) }
        ensures is { placed new (listed self.now) ≡ insert (listed self.now) result new }
    {
        let entries = self.entries();
        entries
            .iter()
            .position(|r| new.subnet.is_before(r.subnet))
            .unwrap_or(entries.len())
    }

    /// The port for a destination: that of the most specific entry that fits it. Where none fits, what is sent is discarded.
    pub fn port_for(&self, dest: u8) -> u8
        ensures value { result ≡ port_for (listed self.now) dest }
        ensures best { MostSpecific (listed self.now) dest result }
        ensures port { is_port result ≡ true }
    {
        self.entries()
            .iter()
            .find(|r| r.subnet.contains(dest))
            .map_or(DISCARD, |r| r.port)
    }
}
