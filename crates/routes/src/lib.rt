//! The route table of a node: which port a reply to an address goes out at.
#![tactic(auto)]

pub mod entry;
pub mod route;
pub mod routing;
pub mod table;

/// The most entries that the table holds.
pub const MAX_ROUTES: usize = 15;

/// The longest life of an entry, in milliseconds: a day.
pub const MAX_LIFE: u32 = 86_400_000;

/// Ports are numbered from 0 up to this one.
pub const LAST_PORT: u8 = 3;

/// The port that stands for none: what is sent there is discarded.
pub const DISCARD: u8 = 255;
