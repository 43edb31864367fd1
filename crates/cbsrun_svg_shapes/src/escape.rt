//! Texts in XML.

ghost use Rattle.std.specs.Prelude.{◌≡◌, ◌++◌, IfOk, OnOk, string_bytes};
ghost use Rattle.cbsrun_svg_shapes.specs.Shapes.{escaped, escaped_byte};

use std::alloc::{AllocError, Global};

/// Appends a byte as it is written in XML.
fn append_escaped(bytes: &mut Vec<u8>, byte: u8) -> Result<(), AllocError>
    ensures { OnOk result (bytes.new.items ≡ bytes.old.items ++ escaped_byte byte) }
{
    match byte {
        b'&' => bytes.extend_from_slice(b"&amp;"),
        b'<' => bytes.extend_from_slice(b"&lt;"),
        b'>' => bytes.extend_from_slice(b"&gt;"),
        b'"' => bytes.extend_from_slice(b"&quot;"),
        0..=31 => bytes.extend_from_slice(b"?"),
        other => bytes.extend_from_slice(&[other]),
    }
}

/// Returns a text as it is written in XML. `&`, `<`, `>` and `"` are written as entities, and what XML does not allow
/// as a question mark.
pub fn escaped(alloc: Global, text: &str) -> Result<String, AllocError>
    ensures { IfOk result (λ written. string_bytes written ≡ escaped text.now) }
{
    let mut bytes = Vec::new(alloc);
    for byte in text.as_bytes() {
        append_escaped(&mut bytes, *byte)?;
    }
    String::from_utf8_lossy(alloc, &bytes)
}
