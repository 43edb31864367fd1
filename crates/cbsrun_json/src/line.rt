//! A value as a line of text.

ghost use Rattle.std.specs.Prelude.{◌≡◌, ◌++◌, false, codes, IfOk, string_bytes};
ghost use Rattle.serde_json.specs.View.{view};
ghost use Rattle.serde_json.specs.Written.{compact_text, has_float};

use serde_json::Value;
use std::alloc::{AllocError, Global};

/// Returns a value as text on one line, with a line feed at its end. The value has no float. The only error is out of
/// memory.
pub fn line_of(alloc: Global, value: &Value) -> Result<String, AllocError>
    requires { has_float (view value.now) ≡ false }
    ensures { IfOk result (λ text. string_bytes text
        ≡ compact_text (view value.now) ++ codes "\n") }
{
    let mut text = value.to_string(alloc)?;
    text.push_str("\n")?;
    Ok(text)
}
