//! The line language of a bus recording. A line tells one thing, and ends in a line feed:
//! - `L C0 05 01`: these bytes came over the bus, at least one, each as a space and two upper-case hexadecimal digits;
//! - `T 250`: so many milliseconds passed, 0 to 4294967295 in base ten, with no needless zero in front;
//! - `F 0`, `F 1`, `F 5`: the line's hardware reported a parity, an overrun or an ownership fault.
//!
//! Nothing else is a line, so what a line tells is written in one way only.
#![tactic(auto)]

pub mod hex;
pub mod line;
mod reading;

/// The most bytes that a line has before its line feed: `max_line` of the definitions.
pub const MAX_LINE: usize = 300;

#[cfg(test)]
mod tests;
