//! A session: an input is cut into lines as it comes, and each is obeyed.
ghost use Rattle.std.specs.Prelude.{◌≡◌, ⊤, ℕ, ◌+◌, ◌^◌, ◌<◌, List, [], ◌++◌, length, is_some, IfOk, Some, string_bytes};
ghost use Rattle.std.specs.Option.{MatchOption, option_map};
ghost use Rattle.bench.specs.Lines.{line_read};
ghost use Rattle.bench.specs.Values.{value_of};
ghost use Rattle.session.specs.Texts.{ends_text as text_ends, cut, texts};
ghost use Rattle.session.specs.Obeying.{first_bad, bad_text, output};
ghost use Rattle.session.specs.Sessions.{is_stopped, Fed, EndsText, TakesByte, Feeds, Finishes};

use crate::obey::Obey;
use bench::MAX_LINE;
use bench::line::{Line, NotRead};
use std::alloc::{AllocError, Global};

/// An input that is being read, and what obeys its lines.
#[derive(Drop)]
pub struct Session<H> {
    heap: Global,
    handler: H,
    /// None once a text was no line: nothing counts any more.
    reading: Option<Reading>,
}

/// What is kept while the input is being read.
#[derive(Drop)]
struct Reading {
    /// The text that is not ended yet.
    text: Vec<u8>,
    /// How many texts were lines.
    count: u64,
}

/// Whether a text of `held` bytes ends with the byte behind them.
fn ends_text(held: usize, byte: u8) -> bool
    ensures { result ≡ text_ends held byte }
{
    byte == b'\n' || held >= MAX_LINE
}

/// What a text tells, if it is a line.
fn read_text(heap: Global, text: &[u8]) -> Result<Option<Line>, AllocError>
    ensures { IfOk result (λ o. option_map value_of o ≡ line_read text.now) }
{
    match Line::read(heap, text) {
        Ok(line) => Ok(Some(line)),
        Err(NotRead::Refused(_)) => Ok(None),
        Err(NotRead::NoMemory) => Err(AllocError),
    }
}

/// What is written of a text that is no line.
fn bad(heap: Global, number: u64) -> Result<String, AllocError>
    ensures { IfOk result (λ s. string_bytes s ≡ bad_text (Some number)) }
{
    format!(in heap; "bad {number}\n")
}

impl<H: Obey + Drop> Session<H> {
    /// Before the first byte.
    pub fn new(heap: Global, handler: H) -> Session<H>
        ensures { H.obeyed handler [] → Fed H.obeyed result [] }
    {
        let reading = Some(Reading {
            text: Vec::new(heap),
            count: 0,
        });
        Session {
            heap,
            handler,
            reading,
        }
    }

    /// Ends the text that is being read, if one is: obeys it as a line, or stops. The text and the count stay where they are: to take them
    /// out and back would move them for each line.
    fn end_text(&mut self) -> Result<String, AllocError>
        ensures { MatchOption self.old.reading ⊤ (λ r. EndsText H.obeyed H.writes self.old.handler r result self.new) }
    {
        match &mut self.reading {
            Some(reading) => {
                let number = reading.count.saturating_add(1);
                let Some(line) = read_text(self.heap, reading.text.as_slice())? else {
                    self.reading = None;
                    return bad(self.heap, number);
                };
                reading.text.clear();
                reading.count = number;
                self.handler.obey(self.heap, &line)
            }
            None => Ok(String::new(self.heap)),
        }
    }

    /// Takes one byte, and tells what this writes, if it ends a text.
    fn byte(&mut self, byte: u8) -> Result<Option<String>, AllocError>
        ensures { IfOk result (TakesByte H.obeyed H.writes self.old byte self.new) }
    {
        match &mut self.reading {
            Some(reading) => {
                let ends = ends_text(reading.text.len(), byte);
                reading.text.push(byte)?;
                if !ends {
                    return Ok(None);
                }
            }
            None => return Ok(None),
        }
        Ok(Some(self.end_text()?))
    }

    /// Feeds a part of the input, and tells what its lines write. A session that runs out of memory is gone.
    pub fn feed(mut self, chunk: &[u8]) -> Result<(Session<H>, String), AllocError>
        ensures { IfOk result (λ p. Feeds H.obeyed H.writes self chunk.now p.0 p.1) }
    {
        let mut out = String::new(self.heap);
        for byte in chunk {
            if let Some(text) = self.byte(*byte)? {
                out.push_str(text.as_str())?;
            }
        }
        Ok((self, out))
    }

    /// Whether a text was no line, so that nothing counts any more.
    pub fn is_stopped(&self) -> bool
        ensures value { result ≡ is_stopped self.now }
        ensures input { (input : List ℕ) → Fed H.obeyed self.now input → result ≡ is_some (first_bad 1 (cut [] input)) }
    {
        self.reading.is_none()
    }

    /// Comes to the end of the input, and tells what this writes: bytes that no line feed ended are no line.
    pub fn finish(mut self) -> Result<String, AllocError>
        ensures { IfOk result (Finishes H.obeyed H.writes self) }
    {
        match &self.reading {
            Some(reading) if !reading.text.is_empty() => self.end_text(),
            _ => Ok(String::new(self.heap)),
        }
    }
}

/// Obeys a whole input, and tells what this writes.
pub fn run<H: Obey + Drop>(heap: Global, handler: H, input: &[u8]) -> Result<String, AllocError>
    ensures { IfOk result (λ out. H.obeyed handler [] → string_bytes out ≡ output H.writes (texts input.now)) }
{
    let (session, mut out) = Session::new(heap, handler).feed(input)?;
    let last = session.finish()?;
    out.push_str(last.as_str())?;
    Ok(out)
}
