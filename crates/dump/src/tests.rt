use crate::dump_recording;
use std::alloc::Global;
use std::process::Abort;
use std::test::Fail;

// what is written of a recording, held to what should be
fn dumps(rt: &impl Abort, heap: Global, recording: &[u8], text: &str) -> Result<(), Fail> {
    let written = dump_recording(heap, recording)?;
    assert_eq!(rt; written.as_str(), text);
    Ok(())
}

#[test]
fn a_request_and_its_reply(rt: HostRuntime) -> Result<(), Fail> {
    dumps(
        &rt,
        rt.alloc(),
        b"L C0 05 01 00 56 19 C0\nT 3\nL C0 01 05 02 45 3E C0\n",
        "05<01 PING/0\n01<05 ACK/0\n",
    )
}

#[test]
fn dropped_segments(rt: HostRuntime) -> Result<(), Fail> {
    dumps(
        &rt,
        rt.alloc(),
        b"L 05 01 00 56 18 C0 DB 01 C0 05 01 C0 C0\nF 1\nL C0\n",
        "drop 6\ndrop 3\ndrop 5\ndrop 1\n",
    )
}

#[test]
fn malformed_lines(rt: HostRuntime) -> Result<(), Fail> {
    dumps(&rt, rt.alloc(), b"T 0\nL C0 05\nT 01\nL C0\n", "bad 3\n")
}

#[test]
fn no_last_line_feed(rt: HostRuntime) -> Result<(), Fail> {
    dumps(&rt, rt.alloc(), b"L C0\nF 0", "bad 2\n")
}
