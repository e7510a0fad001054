//! Reading escaped bytes one after another.
ghost use Rattle.std.specs.Prelude.{◌≡◌};
ghost use Rattle.frame.specs.Escapes.{after, meant};

use crate::{ESCAPE, ESCAPED_ESCAPE, ESCAPED_FLAG, FLAG};

/// Where the reading of a segment stands.
#[derive(Clone, Copy, PartialEq, Eq, Debug)]
pub enum Escaping {
    /// Outside an escape.
    Outside,
    /// Right behind an escape.
    Pending,
    /// Behind an escape that was followed by a byte that may not follow one.
    Broken,
}

impl Escaping {
    /// Takes one more byte: where the reading stands then, and the byte that this one stands for, if it stands for one.
    pub fn step(self, byte: u8) -> (Escaping, Option<u8>)
        ensures after { result.0 ≡ after self byte }
        ensures meant { result.1 ≡ meant self byte }
    {
        match (self, byte) {
            (Escaping::Outside, ESCAPE) => (Escaping::Pending, None),
            (Escaping::Outside, plain) => (Escaping::Outside, Some(plain)),
            (Escaping::Pending, ESCAPED_FLAG) => (Escaping::Outside, Some(FLAG)),
            (Escaping::Pending, ESCAPED_ESCAPE) => (Escaping::Outside, Some(ESCAPE)),
            (Escaping::Pending | Escaping::Broken, _) => (Escaping::Broken, None),
        }
    }
}
