//! Putting texts together.
ghost use Rattle.std.specs.Prelude.{◌≡◌, ◌++◌, IfOk, string_bytes};

use std::alloc::AllocError;

/// One text with another behind it.
pub fn append(mut out: String, text: &str) -> Result<String, AllocError>
    ensures { IfOk result (λ s. string_bytes s ≡ string_bytes out ++ text.now) }
{
    out.push_str(text)?;
    Ok(out)
}
