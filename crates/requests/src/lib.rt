//! What a node is asked for: the data of a valid packet taken apart.
#![tactic(auto)]

pub mod items;
pub mod naks;
pub mod reading;
pub mod request;

/// The most addresses of a GET.
pub const MAX_GET: usize = 30;

/// The most pairs of a PUT.
pub const MAX_PUT: usize = 20;

/// The most bytes that a READ asks for.
pub const MAX_READ: u16 = 123;

/// The most bytes that a WRITE carries.
pub const MAX_WRITE: usize = 119;

/// The most entries of an ADDRT or a DELRT.
pub const MAX_ENTRIES: usize = 15;
