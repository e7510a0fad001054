//! Reading, putting and counting.
ghost use Rattle.std.specs.Prelude.{◌≡◌, length, slice_set};
ghost use Rattle.std.specs.List.{slice_get};
ghost use Rattle.counts.specs.Limits.{count_of_counts};
ghost use Rattle.counts.specs.Counting.{no_counts, one_more, counted, count_of as place_of, cause_counted, fault_counted};
ghost use Rattle.counts.specs.Putting.{counts_there, counts_put, put_left};

use super::{COUNTS, Counts};
use device::assignments::Assignment;
use frame::faults::LineFault;
use packet::causes::DropCause;

/// One more than a count; the largest number stays, and a negative one goes on counting up.
fn one_more(count: u32) -> u32
    ensures { result ≡ one_more count }
{
    count.cast_signed().saturating_add(1).cast_unsigned()
}

/// The address of the count that a dropped segment adds to, if it adds to one.
fn count_of(cause: DropCause) -> Option<usize>
    ensures { result ≡ place_of cause }
{
    match cause {
        DropCause::BadEscape => Some(0),
        DropCause::TooShort => Some(2),
        DropCause::TooLong => Some(3),
        DropCause::WrongCrc => Some(4),
        DropCause::NullSource => Some(6),
        DropCause::WrongDirection => Some(7),
        DropCause::LineFault
        | DropCause::Empty
        | DropCause::ForbiddenSource
        | DropCause::NotForUs => None,
    }
}

/// Whether there is a count at each address.
fn all_there(assignments: &[Assignment]) -> bool
    ensures { result ≡ counts_there assignments.now }
{
    assignments.iter().all(|a| usize::from(a.address) < COUNTS)
}

impl Counts {
    /// At power-up: all are 0.
    pub fn new() -> Counts
        ensures { result ≡ no_counts }
    {
        Counts {
            values: [0; COUNTS],
        }
    }

    /// The count at an address, if there is one.
    pub fn value(&self, address: u16) -> Option<u32>
        ensures held { result ≡ slice_get self.now address }
        ensures nine { length self.now ≡ count_of_counts }
    {
        self.values.get(usize::from(address)).copied()
    }

    /// Sets the count at an address, if there is one. Behind an array's `get_mut` no element would be known to a proof.
    fn set(&mut self, address: usize, value: u32)
        ensures { self.new ≡ slice_set self.old address value }
    {
        if address < COUNTS {
            self.values[address] = value;
        }
    }

    /// One more of the count at an address, if there is one.
    fn add_one(&mut self, address: usize)
        ensures { self.new ≡ counted address self.old }
    {
        if let Some(&count) = self.values.get(address) {
            self.values[address] = one_more(count);
        }
    }

    /// Counts a dropped segment. The field is looked at in the end, here and below, so that a proof knows of the nine.
    pub fn count_drop(&mut self, cause: DropCause)
        ensures after { self.new ≡ cause_counted cause self.old }
        ensures nine { length self.new ≡ count_of_counts }
    {
        if let Some(address) = count_of(cause) {
            self.add_one(address);
        }
        let _ = &self.values;
    }

    /// Counts a line fault.
    pub fn count_fault(&mut self, fault: LineFault)
        ensures after { self.new ≡ fault_counted fault self.old }
        ensures nine { length self.new ≡ count_of_counts }
    {
        self.add_one(usize::from(u8::from(fault)));
        let _ = &self.values;
    }

    /// Sets each count in turn.
    fn set_each(&mut self, assignments: &[Assignment])
        ensures { self.new ≡ counts_put assignments.now self.old }
    {
        // A `for`: of `for_each` nothing would be known of what its closure changed.
        for a in assignments {
            self.set(usize::from(a.address), a.value);
        }
    }

    /// Gives counts other values, all of them in order, or none where an address is no count's; tells which.
    pub fn put_all(&mut self, assignments: &[Assignment]) -> bool
        ensures told { result ≡ counts_there assignments.now }
        ensures after { self.new ≡ put_left assignments.now self.old }
        ensures nine { length self.new ≡ count_of_counts }
    {
        if !all_there(assignments) {
            let _ = &self.values;
            return false;
        }
        self.set_each(assignments);
        let _ = &self.values;
        true
    }
}
