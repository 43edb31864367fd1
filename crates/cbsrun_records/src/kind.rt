//! How a record is told from other files.

ghost use Rattle.std.specs.Prelude.{◌≡◌};
ghost use Rattle.cbsrun_records.specs.Kinds.{begins_record, begins_pair};

use crate::parts::text_of;
use cbsrun_toml::skip_bom;
use toml_parser::text::{first, skip, skip_blank, skip_ws};

/// Returns whether a text begins with the key `record`, which has no quotes, and `=`.
fn begins_pair(text: &str) -> bool
    ensures { result ≡ begins_pair text.now }
{
    text.as_bytes().starts_with(b"record") && first(skip_ws(skip(text, 6))) == b'='
}

/// Returns whether the bytes begin as those of a record do. Up to the first byte 3 they are UTF-8, and after blanks and
/// comments stands the key `record`, with no quotes, and `=`. So what kind of file it is can be told before the file is
/// read.
pub fn is_record(bytes: &[u8]) -> bool
    ensures { result ≡ begins_record bytes.now }
{
    match std::str::from_utf8(text_of(bytes)) {
        Ok(text) => begins_pair(skip_blank(skip_bom(text), true)),
        Err(_) => false,
    }
}
