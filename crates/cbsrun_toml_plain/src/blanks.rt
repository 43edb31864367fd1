//! Words and blanks at the start of a text.

ghost use Rattle.std.specs.Prelude.{◌≡◌, ◌≤◌, length, ◌++◌, IfSome};
ghost use Rattle.toml_parser.specs.Lexical.{skip_blank, skip_ws};
ghost use Rattle.cbsrun_toml_plain.specs.Pairs.{begins_trivia};

use toml_parser::bytes::is_ws;
use toml_parser::text::{first, skip, skip_blank, skip_ws};

/// Returns the text after a word, or `None` if the text does not begin with the word.
pub fn after_word<'s>(s: &'s str, word: &str) -> Option<&'s str>
    ensures { IfSome result (λ rest. s.now ≡ word.now ++ rest.now) }
{
    s.strip_prefix(word)
}

/// Returns the text after the space at its start, if there is one.
fn after_space(s: &str) -> &str
    ensures rest { skip_ws result.now ≡ skip_ws s.now }
    ensures blank { skip_blank result.now ≡ skip_blank s.now }
    ensures within { length result.now ≤ length s.now }
{
    if first(s) == b' ' { skip(s, 1) } else { s }
}

/// Returns the text after its blanks, as [`skip_ws`] does, and in less time if there is one space at most.
pub(crate) fn after_blanks(s: &str) -> &str
    ensures rest { result.now ≡ skip_ws s.now }
    ensures within { length result.now ≤ length s.now }
{
    let rest = after_space(s);
    if is_ws(first(rest)) {
        skip_ws(rest)
    } else {
        rest
    }
}

/// Returns whether white space, a newline or a comment may begin with a byte.
fn begins_trivia(byte: u8) -> bool
    ensures { result ≡ begins_trivia byte }
{
    is_ws(byte) || byte == b'\n' || byte == b'\r' || byte == b'#'
}

/// Returns the text after white space, newlines and comments, as [`skip_blank`] does, and in less time if there is one
/// space at most.
pub fn after_trivia(s: &str) -> &str
    ensures rest { result.now ≡ skip_blank s.now }
    ensures within { length result.now ≤ length s.now }
{
    let rest = after_space(s);
    if begins_trivia(first(rest)) {
        skip_blank(rest, true)
    } else {
        rest
    }
}
