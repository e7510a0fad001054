//! A monitor of the bus, which obeys the lines of a recording: it hears every packet, and tells what every segment is.
ghost use Rattle.std.specs.Prelude.{[], map, IfOk};
ghost use Rattle.frame.specs.Arrivals.Arrival.{byte as byte_came};
ghost use Rattle.bench.specs.Lines.LineValue.{bytes as bytes_came};
ghost use Rattle.session.specs.Obeying.{Obeys};
ghost use Rattle.dump.specs.Dumped.{dumped};
ghost use Rattle.dump.specs.Hearing.{Hears, HearsOne};
ghost use Rattle.dump.specs.Monitored.{Heard};
ghost use Rattle.dump.specs.Silent.{silent_start};

use crate::texts::Verdict;
use bench::line::Line;
use frame::MAX_PACKET;
use frame::receiver::Receiver;
use packet::judging::Station;
use session::obey::Obey;
use std::alloc::{AllocError, Global};

/// A monitor, from its power-up on: a receiver, and the memory that it gathers a segment in.
#[derive(Clone, Copy)]
pub struct BusMonitor {
    receiver: Receiver,
    memory: [u8; MAX_PACKET],
}

impl BusMonitor {
    /// Before anything came.
    pub fn new() -> BusMonitor
        ensures { Heard result [] }
    {
        BusMonitor {
            receiver: Receiver::new(),
            memory: [0; MAX_PACKET],
        }
    }

    /// Hears one byte, and tells the text of the segment that it closes, if it closes one.
    fn hear(&mut self, heap: Global, byte: u8) -> Result<Option<String>, AllocError>
        ensures { IfOk result (HearsOne self.old (byte_came byte) self.new) }
    {
        match self.receiver.byte(byte, &mut self.memory) {
            Ok(Some(digest)) => {
                let verdict = Verdict(Station::Monitor.judge(digest, &self.memory));
                Ok(Some(format!(in heap; "{verdict}")?))
            }
            // it is never refused: the memory is long enough
            Ok(None) | Err(_) => Ok(None),
        }
    }

    /// Hears bytes, and tells the texts of the segments that they close.
    fn hear_all(&mut self, heap: Global, bytes: &[u8]) -> Result<String, AllocError>
        ensures { IfOk result (Hears self.old (map byte_came bytes.now) self.new) }
    {
        let mut out = String::new(heap);
        for byte in bytes {
            if let Some(text) = self.hear(heap, *byte)? {
                out.push_str(text.as_str())?;
            }
        }
        Ok(out)
    }

    /// Hears bytes. Where memory runs out, nothing was heard.
    fn bytes(&mut self, heap: Global, bytes: &[u8]) -> Result<String, AllocError>
        ensures { Obeys Heard dumped self.old (bytes_came bytes.now) result self.new }
    {
        let mut next = *self;
        let out = next.hear_all(heap, bytes)?;
        *self = next;
        Ok(out)
    }
}

impl Obey for BusMonitor {
    ghost obeyed = { Heard };

    ghost writes = { dumped };

    ghost silent = { silent_start };

    fn obey(&mut self, heap: Global, line: &Line) -> Result<String, AllocError> {
        match line {
            Line::Bytes(bytes) => self.bytes(heap, bytes.as_slice()),
            Line::Step(_) => Ok(String::new(heap)),
            Line::Fault(_) => {
                self.receiver.fault();
                Ok(String::new(heap))
            }
        }
    }
}
