//! Addresses of processes.
ghost use Rattle.std.specs.Prelude.{◌≡◌, false};
ghost use Rattle.packet.specs.Addresses.{forbidden};

use frame::{ESCAPE, FLAG};
use refusals::Refusal;

/// The address of a process: any byte but 0, the flag and the escape. It has no model: a type that holds addresses would then not be
/// copied in proofs.
#[derive(Clone, Copy, PartialEq, Eq, Debug)]
pub struct Address {
    number: u8,
    ghost allowed: { forbidden number ≡ false },
}

/// The address with this number, unless no process may have it.
impl TryFrom<u8> for Address {
    ghost use Rattle.std.specs.Prelude.{◌≡◌};
    ghost use Rattle.packet.specs.Addresses.{accepted};
    ghost use Rattle.packet.specs.Numbered.{number_in};

    type Error = Refusal;

    ghost try_from_gives = { λ number address. number_in address ≡ accepted number };

    fn try_from(number: u8) -> Result<Address, Refusal> {
        match number {
            0 | FLAG | ESCAPE => Err(Refusal::OwnAddress),
            number => Ok(Address { number }),
        }
    }
}

/// The address as it stands in a packet.
impl From<Address> for u8 {
    ghost use Rattle.std.specs.Prelude.{◌≡◌};
    ghost use Rattle.packet.specs.Numbered.{number_of};

    ghost from_gives = { λ address number. number ≡ number_of address };

    fn from(address: Address) -> u8 {
        address.number
    }
}
