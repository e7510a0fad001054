//! SSP 2.1 packets: addresses, types, reading and writing a packet with its CRC, and judging what came over the line.
#![tactic(auto)]

pub mod address;
pub mod causes;
pub mod judging;
pub mod kinds;
pub mod names;
pub mod reader;
pub mod writer;

/// The fewest bytes that a packet has: destination, source, type and two bytes of CRC.
pub const MIN_PACKET: usize = 5;

/// The most data bytes of a packet.
pub const MAX_DATA: usize = 123;

/// Where a packet's data begins.
pub const DATA_OFFSET: usize = 3;
