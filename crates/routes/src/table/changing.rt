//! Putting and removing entries.
ghost use Rattle.std.specs.Prelude.{◌≡◌, true, false, length, is_some, is_ok, if◌then◌else◌, nat_lt};
ghost use Rattle.std.specs.List.{find};
ghost use Rattle.std.specs.Option.{unwrap_or};
ghost use Rattle.routes.specs.Acceptable.{acceptable};
ghost use Rattle.routes.specs.Calls.{put_answer, put_left, TakenBack};
ghost use Rattle.routes.specs.Insert.{has_subnet, updated, placed};
ghost use Rattle.routes.specs.Limits.{max_routes};
ghost use Rattle.routes.specs.Listed.{listed};
ghost use Rattle.routes.specs.Order.{of_subnet};
ghost use Rattle.routes.specs.Places.{First};
ghost use Rattle.routes.specs.Remove.{remove as removal};

use super::{NotPut, Table};
use crate::route::{Route, Subnet};
use array_vec::items::Full;

/// A list that is full is a table that is.
impl From<Full> for NotPut {
    ghost use Rattle.routes.specs.declared.table.NotPut.TheVariants.{Full as table_full};

    ghost from_gives = { λ _ why. why ≡ table_full };

    fn from(_full: Full) -> NotPut {
        NotPut::Full
    }
}

impl Table {
    /// Sets the port and the life of the entry for a route's subnet.
    #[tactic(auto, using(crate::proofs::Subnets::updated_at, crate::proofs::Lawfulness::lawful_updated))]
    fn renew(&mut self, at: usize, route: Route)
        requires first { First route.subnet (listed self.old) at }
        requires accepted { acceptable route ≡ true }
        ensures { listed self.new ≡ updated route (listed self.old) }
    {
        self.entries.replace(at, route);
    }

    /// Puts a route for a new subnet where it belongs.
    #[tactic(auto, using(crate::proofs::Lawfulness::lawful_put))]
    fn place(&mut self, route: Route) -> Result<(), Full>
        requires accepted { acceptable route ≡ true }
        requires new { has_subnet route.subnet (listed self.old) ≡ false }
        ensures told { is_ok result ≡ nat_lt (length (listed self.old)) max_routes }
        ensures left { listed self.new ≡ (if is_ok result then placed route (listed self.old) else listed self.old) }
    {
        let at = self.place_for(route);
        self.entries.insert(at, route)
    }

    /// Puts a route: the entry for its subnet gets its port and life, or it stands as a new entry where it belongs. A new entry that
    /// is removed again leaves what was there before.
    #[tactic(auto, using(crate::proofs::Subnets::removes_placed))]
    pub fn put(&mut self, route: Route) -> Result<(), NotPut>
        ensures told { result ≡ put_answer route (listed self.old) }
        ensures left { listed self.new ≡ put_left route (listed self.old) }
        ensures taken_back { TakenBack route (listed self.old) result (listed self.new) }
    {
        if !route.is_acceptable() {
            return Err(NotPut::NotAcceptable);
        }
        match self.find(route.subnet) {
            Some(at) => self.renew(at, route),
            None => self.place(route)?,
        }
        Ok(())
    }

    /// Removes the entry for a subnet, whatever its port and life, and gives it; `None` where there was none.
    #[tactic(auto, using(crate::proofs::Lawfulness::lawful_removed))]
    pub fn remove(&mut self, subnet: Subnet) -> Option<Route>
        ensures removed { result ≡ find (of_subnet subnet) (listed self.old) }
        ensures told { is_some result ≡ is_some (removal subnet (listed self.old)) }
        ensures left { listed self.new ≡ unwrap_or (removal subnet (listed self.old)) (listed self.old) }
    {
        let at = self.find(subnet)?;
        self.entries.remove(at)
    }
}
