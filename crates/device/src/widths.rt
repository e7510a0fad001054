//! Widths of variables.
ghost use Rattle.std.specs.Prelude.{◌≡◌, ◌^◌, nat_lt};

use crate::MAX_WIDTH;

/// Whether `value` is below 2 to the width.
pub fn fits(value: u32, width: u8) -> bool
    ensures { result ≡ nat_lt value (2 ^ width) }
{
    width >= MAX_WIDTH || value < 1 << width
}
