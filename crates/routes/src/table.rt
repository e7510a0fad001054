//! The table of routes, with its rules in its type. What it means is said in the modules below, since a type with an invariant cannot
//! name what names it.
ghost use Rattle.std.specs.Prelude.{◌≡◌, true};
ghost use Rattle.array_vec.specs.Held.{held};
ghost use Rattle.routes.specs.Lawful.{lawful};

use crate::MAX_ROUTES;
use crate::route::Route;
use array_vec::ArrayVec;

pub mod ageing;
pub mod changing;
pub mod making;
pub mod reading;

/// Why a route was not put into a table. The table is then as it was.
#[derive(Clone, Copy, PartialEq, Eq, Debug)]
pub enum NotPut {
    /// No table may hold it.
    NotAcceptable,
    /// Its subnet is new, and the table has as many entries as it can hold.
    Full,
}

/// Up to 15 routes, those with most ones in the mask first, and among as many those with the lower network; one for a subnet at most.
#[derive(Clone, Copy)]
pub struct Table {
    entries: ArrayVec<Route, MAX_ROUTES>,
    ghost rules: { lawful (held entries) ≡ true },
}
