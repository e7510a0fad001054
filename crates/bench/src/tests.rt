//! Examples of texts that are lines and of texts that are none.
use crate::line::{Line, NotRead};
use refusals::Refusal;
use std::alloc::{AllocError, Global};
use std::iter::repeat_n;
use std::test::Fail;

#[test]
fn lines_come_back(rt: HostRuntime) -> Result<(), Fail> {
    const LINES: &[&str] = &[
        "L C0 05 01\n",
        "L 9A\n",
        "T 0\n",
        "T 10\n",
        "T 4294967295\n",
        "F 0\n",
        "F 1\n",
        "F 5\n",
    ];
    for text in LINES {
        let line = Line::read(rt.alloc(), text.as_bytes())?;
        let back = line.to_string(rt.alloc())?;
        assert!(rt; back.as_str() == *text, "{}", *text);
    }
    Ok(())
}

fn is_refused(heap: Global, text: &str) -> bool {
    matches!(
        Line::read(heap, text.as_bytes()),
        Err(NotRead::Refused(Refusal::BadLine))
    )
}

#[test]
fn malformed_lines_are_refused(rt: HostRuntime) {
    const MALFORMED: &[&str] = &[
        "",
        "\n",
        "T 1",
        "T 1\r\n",
        "T 1\n\n",
        "t 1\n",
        " T 1\n",
        "T  1\n",
        "T\t1\n",
        "T 1 \n",
        "T\n",
        "T \n",
        "T 007\n",
        "T +7\n",
        "T 4294967296\n",
        "L\n",
        "L \n",
        "L c0\n",
        "L C0 \n",
        "L  C0\n",
        "L C\n",
        "L C00\n",
        "LC0\n",
        "F 2\n",
        "F 05\n",
        "F\n",
        "X 1\n",
    ];
    for text in MALFORMED {
        assert!(rt; is_refused(rt.alloc(), text), "{}", text);
    }
}

// A line of this many bytes.
fn line_of(heap: Global, count: usize) -> Result<String, AllocError> {
    let pairs = repeat_n(" 5A", count).collect::<String>(heap)?;
    format!(in heap; "L{pairs}\n")
}

#[test]
fn ninety_nine_bytes_fit(rt: HostRuntime) -> Result<(), Fail> {
    assert!(rt; !is_refused(rt.alloc(), line_of(rt.alloc(), 99)?.as_str()));
    assert!(rt; is_refused(rt.alloc(), line_of(rt.alloc(), 100)?.as_str()));
    Ok(())
}
