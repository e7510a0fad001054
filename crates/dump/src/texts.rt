//! What is written of a segment.
ghost use Rattle.std.specs.Prelude.{Some};
ghost use Rattle.packet.specs.Reading.{shown_in};
ghost use Rattle.dump.specs.Texts.{verdict_text};

use bench::hex::{Hex, Pairs};
use packet::causes::DropCause;
use packet::reader::Packet;
use packet::writer::Header;
use std::fmt;

/// The verdict on a segment.
#[derive(Clone, Copy)]
pub(crate) struct Verdict<'a>(pub(crate) Result<Packet<'a>, DropCause>);

/// A packet is written as its destination, its source, its type and its data, and a dropped segment as the cause's number; of an
/// empty one nothing is written.
impl fmt::Display for Verdict<'_> {
    ghost output = { λ v. Some (verdict_text (shown_in v.0)) };

    fn fmt<W: fmt::Write>(&self, f: &mut fmt::Formatter<W>) -> fmt::Result {
        match self.0 {
            Ok(packet) => {
                let Header { dest, srce, kind } = packet.header();
                let data = Pairs(packet.data().bytes);
                writeln!(f, "{}<{} {kind}{data}", Hex(dest), Hex(srce))
            }
            Err(DropCause::Empty) => Ok(()),
            Err(cause) => writeln!(f, "drop {}", u8::from(cause)),
        }
    }
}
