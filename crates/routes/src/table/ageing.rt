//! Ageing: lives run out.
ghost use Rattle.std.specs.Prelude.{◌≡◌};
ghost use Rattle.routes.specs.Ageing.{life_left, older, aged};
ghost use Rattle.routes.specs.Listed.{listed};

use super::Table;
use crate::route::Route;
use array_vec::ArrayVec;

/// What is left of a life after a step, unless it is used up.
fn life_left(life: u32, step: u32) -> Option<u32>
    ensures { result ≡ life_left life step }
{
    if life == 0 {
        Some(0)
    } else if step < life {
        Some(life - step)
    } else {
        None
    }
}

impl Route {
    /// The entry after a step of the clock, unless its life is used up.
    fn older(self, step: u32) -> Option<Route>
        ensures { result ≡ older step self }
    {
        life_left(self.life, step).map(|life| Route { life, ..self })
    }
}

impl Table {
    /// Ages each entry by a step of the clock, in milliseconds. Those whose life is used up go.
    pub fn age(&mut self, step: u32)
        ensures { listed self.new ≡ aged step (listed self.old) }
    {
        let mut left = ArrayVec::new(Route::default());
        for route in self.entries() {
            if let Some(older) = route.older(step) {
                // There is room, since no more stay than there were.
                let _ = left.push(older);
            }
        }
        self.entries = left;
    }
}
