//! Several settings at once, on any device.
ghost use Rattle.std.specs.Prelude.{◌≡◌};
ghost use Rattle.device.specs.Assignments.{accepts_all, offered_all, assigned};

use crate::Device;

/// A setting's address and the value that it is to hold.
#[derive(Clone, Copy)]
pub struct Assignment {
    pub address: u16,
    pub value: u32,
}

/// Whether the device would accept every assignment.
pub fn can_set_all<D: Device>(device: &D, assignments: &[Assignment]) -> bool
    ensures { result ≡ accepts_all (D.means device.now) assignments.now }
{
    assignments
        .iter()
        .all(|a| device.can_set(a.address, a.value))
}

/// Offers each assignment in turn.
fn offer_each<D: Device>(device: &mut D, assignments: &[Assignment])
    ensures { D.means device.new ≡ offered_all (D.means device.old) assignments.now }
{
    // A `for`: of `for_each` nothing would be known of what its closure changed.
    for a in assignments {
        let _ = device.set(a.address, a.value);
    }
}

/// Makes all the assignments, in order, or none of them where the device would refuse one.
#[tactic(auto, using(crate::proofs::Several::all_assigned))]
pub fn set_all<D: Device>(device: &mut D, assignments: &[Assignment]) -> bool
    ensures answer { result ≡ accepts_all (D.means device.old) assignments.now }
    ensures after { D.means device.new ≡ assigned (D.means device.old) assignments.now }
{
    if !can_set_all(device, assignments) {
        return false;
    }
    offer_each(device, assignments);
    true
}
