//! Reading a recording of the bus: what every segment on it is.
#![tactic(auto)]

ghost use Rattle.std.specs.Prelude.{◌≡◌, IfOk, string_bytes};
ghost use Rattle.session.specs.Texts.{texts as input_texts};
ghost use Rattle.session.specs.Obeying.{output};
ghost use Rattle.dump.specs.Dumped.{dumped};

use monitor::BusMonitor;
use session::feeding;
use std::alloc::{AllocError, Global};

pub mod monitor;
mod texts;

/// What is written of a whole recording.
pub fn dump_recording(heap: Global, input: &[u8]) -> Result<String, AllocError>
    ensures { IfOk result (λ out. string_bytes out ≡ output dumped (input_texts input.now)) }
{
    feeding::run(heap, BusMonitor::new(), input)
}

#[cfg(test)]
mod tests;
