//! Several entries at once: all of them in order, or none.
ghost use Rattle.std.specs.Prelude.{◌≡◌, true, is_some};
ghost use Rattle.std.specs.Option.{option_map};
ghost use Rattle.routes.specs.Added.{added, listed_in};
ghost use Rattle.routes.specs.Kept.{routes_of};
ghost use Rattle.routes.specs.Listed.{listed};
ghost use Rattle.routes.specs.Several.{can_add_all, remove_all, add_answer, add_left, delete_left, OneTakenBack};

use super::Routes;
use crate::entry::Entry;
use crate::table::{NotPut, Table};

/// Whether each entry may be added.
fn can_add_all(entries: &[Entry]) -> bool
    ensures { result ≡ can_add_all entries.now }
{
    entries.iter().all(|e| e.can_be_added())
}

/// A table with the route of each entry put in turn, unless one finds no place.
fn put_each(table: Table, entries: &[Entry]) -> Result<Table, NotPut>
    requires { can_add_all entries.now ≡ true }
    ensures { listed_in result ≡ added entries.now (listed table) }
{
    let mut longer = table;
    // A `for`, here and below: `try_fold` would move the table in and out of a closure.
    for e in entries {
        longer.put(e.route)?;
    }
    Ok(longer)
}

/// A table with the entry for each subnet removed in turn, unless one is missing then.
#[tactic(auto, using(crate::proofs::Several::remove_more, crate::proofs::Several::remove_last, crate::proofs::Several::removed_one, crate::proofs::Several::removed_none))]
fn remove_each(table: Table, entries: &[Entry]) -> Option<Table>
    ensures { option_map listed result ≡ remove_all entries.now (listed table) }
{
    let mut shorter = table;
    for e in entries {
        shorter.remove(e.route.subnet)?;
    }
    Some(shorter)
}

impl Routes {
    /// Adds or updates an entry for each one given, in order, or none where one may not be added or there would be too many. A single
    /// new entry that is deleted again leaves what was there before.
    #[tactic(auto, using(crate::proofs::Several::all_added, crate::proofs::Several::all_taken_back))]
    pub fn add_all(&mut self, entries: &[Entry]) -> Result<(), NotPut>
        ensures told { result ≡ add_answer entries.now (routes_of self.old) }
        ensures left { routes_of self.new ≡ add_left entries.now (routes_of self.old) }
        ensures taken_back { OneTakenBack entries.now (routes_of self.old) result (routes_of self.new) }
    {
        if !can_add_all(entries) {
            return Err(NotPut::NotAcceptable);
        }
        let table = put_each(self.table, entries)?;
        *self = Routes::from(table);
        Ok(())
    }

    /// Deletes the entry for each subnet given, in order, or none where one is missing when its turn comes; tells whether all were
    /// there. Where none is left in the end, the routes are those that a node starts with.
    pub fn delete_all(&mut self, entries: &[Entry]) -> bool
        ensures told { result ≡ is_some (remove_all entries.now (routes_of self.old)) }
        ensures left { routes_of self.new ≡ delete_left entries.now (routes_of self.old) }
    {
        let Some(table) = remove_each(self.table, entries) else {
            return false;
        };
        *self = Routes::from(table);
        true
    }
}
