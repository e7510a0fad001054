//! Dumps each recording of the examples, and holds what is written to what should be.
#![tactic(auto)]

use dump::dump_recording;
use std::fs;

/// The recordings: NAME.lines is dumped, and NAME.out is what should be written.
const NAMES: [&str; 5] = [
    "first-night",
    "loose-plug",
    "cut-off",
    "too-long",
    "longest-line",
];

fn compare(rt: &HostRuntime, name: &str) -> anyhow::Result<bool> {
    let heap = rt.alloc();
    let lines = format!(in heap; "{name}.lines")?;
    let out = format!(in heap; "{name}.out")?;
    let recording = fs::read(rt, lines.as_str())?;
    let expected = fs::read(rt, out.as_str())?;
    let written = dump_recording(heap, recording.as_slice())?;
    Ok(written.as_bytes() == expected.as_slice())
}

fn run(rt: &HostRuntime) -> anyhow::Result<()> {
    for name in NAMES {
        let verdict = if compare(rt, name)? {
            "as it should be"
        } else {
            "DIFFERS"
        };
        println!(rt; "{name}: {verdict}")?;
    }
    Ok(())
}

fn main(rt: HostRuntime) -> anyhow::Result<()> {
    run(&rt)
}
