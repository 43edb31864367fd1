//! The explanation of a text that is no TOML.

ghost use Rattle.std.specs.Prelude.{◌≤◌};

use crate::notes::{append_brackets_help, append_help};
use crate::pieces::append_part;
use cbsrun_faults::{BadByte, Broken, Position, Quote, Wrong, bad_byte, broken_at};
use cbsrun_refusal_texts::{COLUMNS, Page};
use std::alloc::{AllocError, Global};
use toml::de::Error;

/// A line of a file as it is shown, in two parts.
#[derive(Drop)]
struct Shown {
    before: String,
    after: String,
    /// The part from the beginning of `after` on to which carets point.
    marked: String,
}

/// Returns what is wrong, in words.
fn sentence(wrong: Wrong<'_>) -> &str {
    match wrong {
        Wrong::NoComma => "missing comma between the entries of an array",
        Wrong::NoTableComma => "missing comma between the entries of a table",
        Wrong::TwoNumbers => "one value is wanted here, and there are two",
        Wrong::NoValue => "a value is missing",
        Wrong::Unquoted => "a text has to stand in quotes",
        Wrong::NoNumber => "this is no number",
        Wrong::AfterNumber => "the line should end here, after the number",
        Wrong::GoesOn => {
            "the line should end here: a key and its value stand on a line of their own"
        }
        Wrong::KeyTwice => "this key is there twice",
        Wrong::TableTwice(_) => "this table is there already",
        Wrong::BadText | Wrong::Unclosed(_) => "a text has a character that it may not have",
        Wrong::Other(message) => message,
    }
}

/// Appends what is wrong.
fn append_sentence(page: &mut Page, wrong: Wrong<'_>) {
    match wrong {
        Wrong::Unclosed(Quote { column, mark }) => write!(
            page,
            "error: this text is not closed: its `{mark}` opens at column {column}"
        ),
        _ => page.push_all(&["error: ", sentence(wrong)]),
    }
}

/// Appends the end of a line, and the line of a place in a file.
fn append_place(page: &mut Page, name: &str, line: usize, column: usize) {
    page.push("\n  --> ");
    page.push_printable(name);
    writeln!(page, ":{line}:{column}");
}

/// Returns a part of a line as it is shown. The only error is out of memory.
fn shown_part(alloc: Global, part: &str) -> Result<String, AllocError> {
    let mut shown = Page::new(alloc);
    append_part(&mut shown, part);
    shown.finish()
}

/// Returns the line of an error as it is shown. The only error is out of memory.
fn shown_line(alloc: Global, broken: Broken<'_>) -> Result<Shown, AllocError> {
    Ok(Shown {
        before: shown_part(alloc, broken.position.before)?,
        after: shown_part(alloc, broken.position.after)?,
        marked: shown_part(alloc, broken.marked)?,
    })
}

/// Appends the line of an error, with carets below what the error is about, and what should be there.
fn append_line(page: &mut Page, gutter: &str, broken: Broken<'_>) {
    let line = shown_line(page.alloc(), broken);
    let Some(line) = page.accept(line) else {
        return;
    };
    let from = line.before.chars().count();
    let count = line.marked.chars().count();
    page.push_line(gutter, &[&line.before, &line.after], from, count);
    if let Wrong::Unquoted = broken.wrong {
        page.push_all(&[" write \"", &line.marked, "\""]);
    }
    page.push("\n");
}

/// Appends what helps against an error, if that is known.
fn append_remedy(page: &mut Page, margin: usize, wrong: Wrong<'_>)
    requires { margin ≤ 80 }
{
    match wrong {
        Wrong::TwoNumbers => append_help(
            page,
            margin,
            "`bound`, `every`, `units` and `overrun` take two numbers, as [1, 2]",
        ),
        Wrong::NoNumber | Wrong::AfterNumber => append_help(
            page,
            margin,
            "write ticks as 5 or [4, 12], and a time in quotes, as \"5 ms\"",
        ),
        Wrong::TableTwice(name) => append_brackets_help(page, margin, name),
        _ => {}
    }
}

/// Appends what is wrong at a place of a text, the place, its line with carets, and what helps.
fn append_broken(page: &mut Page, name: &str, broken: Broken<'_>) {
    let Position { number, before, .. } = broken.position;
    append_sentence(page, broken.wrong);
    append_place(page, name, number, before.chars().count().saturating_add(1));
    let gutter = format!(in page.alloc(); "{number} ");
    if let Some(gutter) = page.accept(gutter) {
        append_line(page, &gutter, broken);
        append_remedy(page, gutter.len().min(COLUMNS), broken.wrong);
    }
}

/// Appends that a byte is no part of a text.
fn append_bad_byte(page: &mut Page, name: &str, bad: BadByte) {
    let BadByte { line, column, byte } = bad;
    write!(page, "error: the byte 0x{byte:x} is no UTF-8");
    append_place(page, name, line, column);
    append_help(page, 2, "save the file as UTF-8");
}

/// Returns the error of bytes that are a text, or `None` if its place is not known.
fn broken_in<'a>(bytes: &'a [u8], error: &'a Error) -> Option<Broken<'a>> {
    broken_at(std::str::from_utf8(bytes).ok()?, error)
}

/// Appends the explanation of bytes that are no TOML.
pub(crate) fn append_not_toml(page: &mut Page, name: &str, bytes: &[u8], error: &Error) {
    if let Some(broken) = broken_in(bytes, error) {
        return append_broken(page, name, broken);
    }
    if let Some(bad) = bad_byte(bytes) {
        return append_bad_byte(page, name, bad);
    }
    page.push_all(&["error: ", error.message(), "\n  --> "]);
    page.push_printable(name);
    page.push("\n");
}
