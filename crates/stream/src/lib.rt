//! Running a session over the standard streams: the input is read part by part, and what is written of each part goes out at once.
#![tactic(auto)]

use session::feeding::Session;
use session::obey::Obey;
use std::io::Read;

/// How many bytes are read at once, at most.
const PART: usize = 4096;

/// Obeys the lines of the standard input until it ends or a text is no line.
pub fn obey_input<H: Obey + Drop>(rt: &HostRuntime, handler: H) -> anyhow::Result<()> {
    let mut input = rt.stdin();
    let mut session = Session::new(rt.alloc(), handler);
    // The input's end is not known before it comes.
    for _ in 0..u64::MAX {
        let mut part = [0u8; PART];
        let read = input.read(&mut part)?;
        if read == 0 {
            break;
        }
        let (next, text) = session.feed(&part[..read])?;
        session = next;
        rt.print(text)?;
        if session.is_stopped() {
            return Ok(());
        }
    }
    rt.print(session.finish()?)?;
    Ok(())
}
