//! Tables that are read pair by pair: keys that are bare, in an order that the caller knows.

ghost use Rattle.std.specs.Prelude.{◌≡◌, ◌<◌, true, length, IfSome};
ghost use Rattle.std.specs.List.{list_all};
ghost use Rattle.toml_parser.specs.Lexical.{is_bare};
ghost use Rattle.cbsrun_toml_plain.specs.Pairs.{StartsPair, OpensTable, OpensLines, Opens, FollowsComma, FollowsLine, Follows, EndsTable, EndsLines, Ends};

use crate::blanks::{after_blanks, after_trivia, after_word};
use cbsrun_toml::{after_element, ends_line};
use toml_parser::text::{first, skip, skip_blank};

/// How the pairs of a table are set apart.
#[derive(Clone, Copy)]
pub enum Layout {
    /// They stand between braces, with commas between.
    Inline,
    /// They stand on lines after a header.
    Lines,
}

/// Returns the text from the value on of the pair with this key at the start of a text. Returns `None` if no such pair
/// stands there.
fn value_of<'s>(s: &'s str, key: &str) -> Option<&'s str>
    requires bare { list_all is_bare key.now ≡ true }
    requires some { 0 < length key.now }
    ensures { IfSome result (λ at. StartsPair s.now key.now at.now) }
{
    let named = after_word(s, key)?;
    let rest = after_blanks(named);
    if first(rest) != b'=' {
        return None;
    }
    Some(after_blanks(skip(rest, 1)))
}

/// Returns the text from the value on of the first pair of an inline table at the start of a text.
fn first_inline<'s>(s: &'s str, key: &str) -> Option<&'s str>
    requires bare { list_all is_bare key.now ≡ true }
    requires some { 0 < length key.now }
    ensures { IfSome result (λ at. OpensTable s.now key.now at.now) }
{
    if first(s) != b'{' {
        return None;
    }
    let at = value_of(after_trivia(skip(s, 1)), key)?;
    Some(at)
}

/// Returns the text from the value on of the pair on the first line of a text.
fn first_line<'s>(s: &'s str, key: &str) -> Option<&'s str>
    requires bare { list_all is_bare key.now ≡ true }
    requires some { 0 < length key.now }
    ensures { IfSome result (λ at. OpensLines s.now key.now at.now) }
{
    let at = value_of(skip_blank(s, true), key)?;
    Some(at)
}

/// Returns the text from the value on of the first pair of a table. Returns `None` if the text does not begin with a
/// table whose first pair has this key.
pub fn first_value<'s>(layout: Layout, s: &'s str, key: &str) -> Option<&'s str>
    requires bare { list_all is_bare key.now ≡ true }
    requires some { 0 < length key.now }
    ensures { IfSome result (λ at. Opens layout s.now key.now at.now) }
{
    match layout {
        Layout::Inline => first_inline(s, key),
        Layout::Lines => first_line(s, key),
    }
}

/// Returns the text from the value on of the pair that follows a value of an inline table.
fn next_inline<'s>(s: &'s str, key: &str) -> Option<&'s str>
    requires bare { list_all is_bare key.now ≡ true }
    requires some { 0 < length key.now }
    ensures { IfSome result (λ at. FollowsComma s.now key.now at.now) }
{
    let next = after_element(s, b'}').ok()?;
    let at = value_of(after_trivia(next), key)?;
    Some(at)
}

/// Returns the text from the value on of the pair on the line after a value.
fn next_line<'s>(s: &'s str, key: &str) -> Option<&'s str>
    requires bare { list_all is_bare key.now ≡ true }
    requires some { 0 < length key.now }
    ensures { IfSome result (λ at. FollowsLine s.now key.now at.now) }
{
    if !ends_line(after_blanks(s)) {
        return None;
    }
    let at = value_of(skip_blank(s, true), key)?;
    Some(at)
}

/// Returns the text from the value on of the pair that follows a value. Returns `None` if no pair with this key
/// follows.
pub fn next_value<'s>(layout: Layout, s: &'s str, key: &str) -> Option<&'s str>
    requires bare { list_all is_bare key.now ≡ true }
    requires some { 0 < length key.now }
    ensures { IfSome result (λ at. Follows layout s.now key.now at.now) }
{
    match layout {
        Layout::Inline => next_inline(s, key),
        Layout::Lines => next_line(s, key),
    }
}

/// Returns the text after an inline table whose last value was read.
fn inline_end(s: &str) -> Option<&str>
    ensures { IfSome result (λ rest. EndsTable s.now rest.now) }
{
    let next = after_element(s, b'}').ok()?;
    let end = after_trivia(next);
    if first(end) != b'}' {
        return None;
    }
    Some(skip(end, 1))
}

/// Returns the text after the last value of a table on lines, if the line ends and no other pair comes.
fn lines_end(s: &str) -> Option<&str>
    ensures { IfSome result (λ rest. EndsLines s.now rest.now) }
{
    if !ends_line(after_blanks(s)) {
        return None;
    }
    let end = skip_blank(s, true);
    if !end.is_empty() && first(end) != b'[' {
        return None;
    }
    Some(s)
}

/// Returns the text after a table whose last value was read. Returns `None` if another pair follows.
pub fn table_end(layout: Layout, s: &str) -> Option<&str>
    ensures { IfSome result (λ rest. Ends layout s.now rest.now) }
{
    match layout {
        Layout::Inline => inline_end(s),
        Layout::Lines => lines_end(s),
    }
}
