//! Reads a recording of the bus from the standard input, and prints what every segment on it is.
#![tactic(auto)]

use anyhow::anyhow;
use dump::monitor::BusMonitor;
use std::env;
use stream::obey_input;

const HELP: &str = "\
dome-dump: reads a recording of a bus from its standard input, and prints a line for every segment on it.

The recording has lines, each ended by a line feed:
  L C0 05 01 00 56 19 C0   these bytes came over the line
  T 250                    so many milliseconds passed
  F 0                      the line's hardware reported a fault: 0 parity, 1 overrun, 5 ownership
Printed are
  05<01 PING/0             a packet: destination < source, type/ss and the data bytes
  drop 6                   a segment that is dropped, with the number of the cause (see docs/PROTOCOL.md)
  bad 3                    the number of the first line that is malformed; nothing behind it is read
";

fn run(rt: &HostRuntime) -> anyhow::Result<()> {
    match env::args(rt)?.nth(1) {
        None => obey_input(rt, BusMonitor::new()),
        Some(word) if word.as_str() == "--help" => Ok(rt.print(HELP)?),
        Some(_) => Err(anyhow!("dome-dump takes a recording on its standard input, or --help")),
    }
}

fn main(rt: HostRuntime) -> anyhow::Result<()> {
    run(&rt)
}
