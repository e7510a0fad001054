//! The counts.
use std::marker::Model;

pub mod counting;

/// How many counts there are.
pub const COUNTS: usize = 9;

/// The nine monitoring counts by their addresses, 0 to 8: signed 32-bit numbers, held by their bits.
#[derive(Clone, Copy)]
pub struct Counts {
    values: [u32; COUNTS],
}

impl Model for Counts {
    ghost use Rattle.std.specs.Prelude.{◌≡◌, ℕ, List, length};
    ghost use Rattle.counts.specs.Limits.{count_of_counts};

    ghost Value = { List ℕ };

    ghost view = { λ c. c.values };

    ghost invariant = { λ c. length c.values ≡ count_of_counts };

    ghost inverse = { λ values. record { values = values } };
}
