//! Runs published cases: the CRCs of known texts, the byte table as the standard prints it, frames and dropped segments.
#![tactic(auto)]

use bench::hex::{Hex, Pairs};
use crc::Method;
use crc::bitwise::Bitwise;
use crc::nibble::Nibbles;
use crc::table::ByteTable;
use dump::dump_recording;
use frame::MAX_FRAME;
use frame::writing::write_frame;
use packet::MAX_DATA;
use packet::kinds::Kind;
use packet::writer::{Header, write_packet};

/// How many numbers the standard prints in a row.
const ROW: u16 = 8;

/// The CRC of a text, by each of the three methods.
fn crcs(rt: &HostRuntime, text: &str) -> anyhow::Result<()> {
    let bytes = text.as_bytes();
    let bits = Bitwise::checksum(bytes);
    let nibbles = Nibbles::checksum(bytes);
    let table = ByteTable::checksum(bytes);
    println!(rt; "{text}: {bits:04x} {nibbles:04x} {table:04x}")?;
    Ok(())
}

/// The byte table: at each place, what eight steps of the bit rule make of a register that holds the place.
fn byte_table(rt: &HostRuntime) -> anyhow::Result<()> {
    for place in 0..256u16 {
        let entry = Bitwise::update(place, 0);
        let end = if place % ROW == ROW - 1 { "\n" } else { " " };
        print!(rt; "0x{entry:04x},{end}")?;
    }
    Ok(())
}

/// The frame of some packet bytes.
fn framed(rt: &HostRuntime, bytes: &[u8]) -> anyhow::Result<()> {
    let mut out = [0u8; MAX_FRAME];
    if let Ok(length) = write_frame(bytes, &mut out) {
        println!(rt; "frame of{}:{}", Pairs(bytes), Pairs(&out[..length]))?;
    }
    Ok(())
}

/// What is dumped of a segment of `size` bytes: a packet of the most data where that is its length, and else too long or too short.
fn sized(rt: &HostRuntime, size: usize) -> anyhow::Result<()> {
    let heap = rt.alloc();
    let mut bytes = [0x11u8; 129];
    let header = Header {
        dest: 5,
        srce: 1,
        kind: Kind(0),
    };
    let _ = write_packet(header, &[0x22u8; MAX_DATA], &mut bytes);
    let mut lines = String::new(heap);
    for part in bytes.iter().take(size) {
        writeln!(lines, "L {}", Hex(*part))?;
    }
    lines.push_str("L C0\n")?;
    let text = dump_recording(heap, lines.as_bytes())?;
    println!(rt; "{size} bytes:")?;
    rt.print(text)?;
    Ok(())
}

/// What a recording says.
fn dumped(rt: &HostRuntime, lines: &str) -> anyhow::Result<()> {
    let text = dump_recording(rt.alloc(), lines.as_bytes())?;
    rt.print(text)?;
    Ok(())
}

fn run(rt: &HostRuntime) -> anyhow::Result<()> {
    crcs(rt, "CCITT-16")?;
    crcs(rt, "123456789")?;
    byte_table(rt)?;
    framed(rt, &[0xDB, 0xC0, 0xDC])?;
    framed(rt, &[0x05, 0x01, 0x00, 0x56, 0x19])?;
    dumped(rt, "L 05 01 00 56 18 C0\n")?;
    dumped(rt, "L DB 01 C0\n")?;
    dumped(rt, "L 05 01 C0\n")?;
    sized(rt, 128)?;
    sized(rt, 129)?;
    Ok(())
}

fn main(rt: HostRuntime) -> anyhow::Result<()> {
    run(&rt)
}
