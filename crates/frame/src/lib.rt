//! SLIP framing (RFC 1055) as SSP 2.1 uses it: a packet stands between two flags, and flags and escapes inside it are escaped.
//! The bytes between one flag and the next are a segment.
#![tactic(auto)]

pub mod cursor;
pub mod escaping;
pub mod faults;
pub mod reading;
pub mod receiver;
pub mod writing;

/// The byte that stands before and behind each packet.
pub const FLAG: u8 = 0xC0;

/// The byte that announces that the next one stands for another.
pub const ESCAPE: u8 = 0xDB;

/// What stands for a flag, behind an escape.
pub const ESCAPED_FLAG: u8 = 0xDC;

/// What stands for an escape, behind an escape.
pub const ESCAPED_ESCAPE: u8 = 0xDD;

/// The most bytes that a packet has, CRC included.
pub const MAX_PACKET: usize = 128;

/// The most bytes that a packet's frame has: two flags, and each byte of the longest packet escaped.
pub const MAX_FRAME: usize = 258;
