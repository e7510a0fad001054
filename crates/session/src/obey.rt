//! What obeys the lines of a recording.
ghost use Rattle.std.specs.Prelude.{◌≡◌, ℕ, List, []};
ghost use Rattle.bench.specs.Lines.{LineValue};
ghost use Rattle.session.specs.Obeying.{Obeys};
ghost use Rattle.bench.specs.Values.{value_of};

use bench::line::Line;
use std::alloc::{AllocError, Global};

/// What obeys lines, one after another, and writes some text at each.
pub trait Obey {
    /// It obeyed these lines since it was made.
    ghost obeyed: { Self → List LineValue → Type 0 };

    /// What is written where these lines are obeyed.
    ghost writes: { List LineValue → List ℕ };

    /// Obeys one more line, and tells the text that this writes.
    fn obey(&mut self, heap: Global, line: &Line) -> Result<String, AllocError>
        ensures { Obeys obeyed writes self.old (value_of line.now) result self.new };

    ghost silent: { writes [] ≡ [] };
}
