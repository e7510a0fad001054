//! Making a table.
ghost use Rattle.std.specs.Prelude.{◌≡◌, true, [], ◌∷◌};
ghost use Rattle.routes.specs.Acceptable.{acceptable};
ghost use Rattle.routes.specs.Listed.{listed};

use super::Table;
use crate::route::Route;
use array_vec::ArrayVec;

impl Table {
    /// A table with one entry.
    #[tactic(auto, using(crate::proofs::Lawfulness::lawful_one))]
    pub(crate) fn only(route: Route) -> Table
        requires { acceptable route ≡ true }
        ensures { listed result ≡ route ∷ [] }
    {
        let mut entries = ArrayVec::new(route);
        // There is room for one.
        let _ = entries.push(route);
        Table { entries }
    }
}
