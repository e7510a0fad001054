//! Making and keeping routes.
ghost use Rattle.std.specs.Prelude.{◌≡◌, ◌≤◌, true, length};
ghost use Rattle.routes.specs.Acceptable.{is_port};
ghost use Rattle.routes.specs.Ageing.{aged};
ghost use Rattle.routes.specs.Kept.{routes_of};
ghost use Rattle.routes.specs.Lawful.{Lawful};
ghost use Rattle.routes.specs.Listed.{listed};
ghost use Rattle.routes.specs.Lookup.{port_for, MostSpecific};
ghost use Rattle.routes.specs.Start.{start_routes, refilled};

use super::Routes;
use crate::route::{Route, Subnet};
use crate::table::Table;

/// The entry that a node starts with: every destination at port 0, for good.
const START: Route = Route {
    subnet: Subnet {
        network: 0,
        mask: 0,
    },
    port: 0,
    life: 0,
};

/// The routes of a table; where it is empty, those that a node starts with.
impl From<Table> for Routes {
    ghost from_gives = { λ t r. routes_of r ≡ refilled (listed t) };

    fn from(table: Table) -> Routes {
        if table.entries().is_empty() {
            return Routes::new();
        }
        Routes { table }
    }
}

impl Routes {
    /// The routes that a node starts with.
    #[tactic(auto, using(crate::proofs::Acceptances::start_acceptable))]
    pub fn new() -> Routes
        ensures { routes_of result ≡ start_routes }
    {
        Routes {
            table: Table::only(START),
        }
    }

    /// A table with these routes, for a request to work on.
    pub fn table(&self) -> Table
        ensures { listed result ≡ routes_of self.now }
    {
        self.table
    }

    /// Ages each entry by a step of the clock, in milliseconds. Those whose life is used up go; where none is left, the routes are
    /// those that a node starts with.
    pub fn age(&mut self, step: u32)
        ensures { routes_of self.new ≡ refilled (aged step (routes_of self.old)) }
    {
        let mut table = self.table;
        table.age(step);
        *self = Routes::from(table);
    }

    /// The port for a destination: that of the most specific entry that fits it. Where none fits, what is sent is discarded.
    pub fn port_for(&self, dest: u8) -> u8
        ensures value { result ≡ port_for (routes_of self.now) dest }
        ensures best { MostSpecific (routes_of self.now) dest result }
        ensures port { is_port result ≡ true }
    {
        self.table.port_for(dest)
    }

    /// The entries, in order: at least one.
    pub fn entries(&self) -> &[Route]
        ensures value { result.now ≡ routes_of self.now }
        ensures rules { Lawful result.now }
        ensures some { 1 ≤ length result.now }
    {
        self.table.entries()
    }
}
