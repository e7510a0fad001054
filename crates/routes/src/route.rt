//! An entry of the route table.
ghost use Rattle.std.specs.Prelude.{◌≡◌};
ghost use Rattle.routes.specs.Acceptable.{is_port, acceptable};
ghost use Rattle.routes.specs.Lookup.{within};
ghost use Rattle.routes.specs.Masks.{is_mask, NineMasks};
ghost use Rattle.routes.specs.Order.{stands_before};

use crate::{DISCARD, LAST_PORT, MAX_LIFE};

/// The addresses whose bits under the mask are the network.
#[derive(Clone, Copy, PartialEq, Eq, Default, Debug)]
pub struct Subnet {
    pub network: u8,
    pub mask: u8,
}

/// A subnet and the port that its addresses are reached at, for the life that is left, in milliseconds; 0 for no end.
#[derive(Clone, Copy, PartialEq, Eq, Default, Debug)]
pub struct Route {
    pub subnet: Subnet,
    pub port: u8,
    pub life: u32,
}

/// Whether a byte is a mask: ones followed by zeros. Nine bytes are.
#[tactic(auto, using(crate::proofs::Masks::ones_lead_masks, crate::proofs::Masks::nine_masks))]
pub fn is_mask(mask: u8) -> bool
    ensures value { result ≡ is_mask mask }
    ensures nine { NineMasks }
{
    mask.leading_ones() == mask.count_ones()
}

fn is_port(port: u8) -> bool
    ensures { result ≡ is_port port }
{
    port <= LAST_PORT || port == DISCARD
}

impl Subnet {
    /// Whether a destination is in the subnet.
    pub(crate) fn contains(self, dest: u8) -> bool
        ensures { result ≡ within self dest }
    {
        dest & self.mask == self.network
    }

    /// Whether the entry for the subnet stands before that for another one. This is no `Ord`, which would have to tell apart all that `==`
    /// does.
    pub(crate) fn is_before(self, other: Subnet) -> bool
        ensures { result ≡ stands_before self other }
    {
        let own = self.mask.count_ones();
        let others = other.mask.count_ones();
        others < own || others == own && self.network < other.network
    }
}

impl Route {
    /// Whether the entry may stand in the table.
    pub fn is_acceptable(self) -> bool
        ensures { result ≡ acceptable self }
    {
        let Subnet { network, mask } = self.subnet;
        is_mask(mask) && network & mask == network && is_port(self.port) && self.life <= MAX_LIFE
    }
}
