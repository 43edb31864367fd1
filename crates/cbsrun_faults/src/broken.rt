//! The place at which a text is no TOML, and what is wrong there.

use toml::de::Error;

/// The messages of `toml` for a comma that is missing in an array, and in a table.
const NO_COMMA: &str = "missing comma between array elements, expected `,` or `]`";

const NO_TABLE_COMMA: &str = "missing comma between key-value pairs, expected `,` or `}`";

/// The message of `toml` for a bad character in a text, and for a text that is not closed.
const BAD_TEXT: &str = "invalid string";

/// The message of `toml` for a key or a table that is there twice.
const TWICE: &str = "duplicate key";

/// The message of `toml` for a line that goes on after a value.
const GOES_ON: &str = "unexpected key or value, expected newline, `#`";

/// The messages of `toml` for a value that is none, and for one that begins as a date does.
const NO_VALUE: &str =
    "invalid value, expected a string, number, boolean, date-time, array or inline table";

const NO_DATE: &str = "invalid date-time";

/// A place in a text.
#[derive(Clone, Copy)]
pub struct Position<'a> {
    /// The line, from 1.
    pub number: usize,
    /// The part of the line before the place.
    pub before: &'a str,
    /// The part of the line from the place on.
    pub after: &'a str,
}

/// A quote that opens a text.
#[derive(Clone, Copy)]
pub struct Quote {
    /// The column, from 1.
    pub column: usize,
    /// The quote.
    pub mark: char,
}

/// What is wrong at a place of a text that is no TOML.
#[derive(Clone, Copy)]
pub enum Wrong<'a> {
    /// A comma is missing in an array.
    NoComma,
    /// A comma is missing in an inline table.
    NoTableComma,
    /// A key has two numbers, and no array of them.
    TwoNumbers,
    /// A value is missing.
    NoValue,
    /// A text has no quotes.
    Unquoted,
    /// A value that begins as a number does is none.
    NoNumber,
    /// Something follows a number in its line.
    AfterNumber,
    /// Something follows a value in its line.
    GoesOn,
    /// A key is there twice.
    KeyTwice,
    /// A table with this name is there already.
    TableTwice(&'a str),
    /// A text has a bad character.
    BadText,
    /// A text is not closed.
    Unclosed(Quote),
    /// Any other error, by the message of `toml`.
    Other(&'a str),
}

/// The error of a text that is no TOML.
#[derive(Clone, Copy)]
pub struct Broken<'a> {
    /// What is wrong.
    pub wrong: Wrong<'a>,
    /// The place of the error.
    pub position: Position<'a>,
    /// The part of the line that the error is about.
    pub marked: &'a str,
}

/// A byte that is no part of a text.
#[derive(Clone, Copy)]
pub struct BadByte {
    /// The line, from 1.
    pub line: usize,
    /// The column, from 1.
    pub column: usize,
    /// The byte.
    pub byte: u8,
}

/// Returns the number of the line in which a text ends.
pub(crate) fn line_number(head: &str) -> usize {
    let newlines = head.bytes().filter(|byte| *byte == b'\n').count();
    newlines.saturating_add(1)
}

/// Returns the last line of a text.
fn last_line(head: &str) -> &str {
    match head.rsplit_once('\n') {
        Some((_, line)) => line,
        None => head,
    }
}

/// Returns the first line of a text.
fn first_line(tail: &str) -> &str {
    let line = match tail.split_once('\n') {
        Some((line, _)) => line,
        None => tail,
    };
    line.strip_suffix('\r').unwrap_or(line)
}

/// Returns the position of a place in a text, or `None` if the text does not have the place.
fn position_at(text: &str, at: usize) -> Option<Position<'_>> {
    let (head, tail) = text.split_at_checked(at)?;
    Some(Position {
        number: line_number(head),
        before: last_line(head),
        after: first_line(tail),
    })
}

/// Returns whether a text is a number.
fn is_number(word: &str) -> bool {
    word.parse::<i64>().is_ok()
}

/// Returns the place of the second of two numbers that an error is about, since something is missing between them.
/// `toml` takes such numbers for a date with a blank in it. Returns `None` for any other error.
fn second_number(text: &str, start: usize, end: usize) -> Option<usize> {
    let (first, second) = text.get(start..end)?.split_once(' ')?;
    let second = second.trim_start();
    if is_number(first) && is_number(second) {
        return Some(end.saturating_sub(second.len()));
    }
    None
}

/// Returns what is wrong with two numbers, of which the first begins at `start`. After a key no array is open.
fn of_two_numbers(text: &str, start: usize) -> Wrong<'static> {
    match text.get(..start) {
        Some(head) if head.trim_end().ends_with('=') => Wrong::TwoNumbers,
        _ => Wrong::NoComma,
    }
}

/// Returns the quote that is open after one more character, if one is.
fn open_after(open: Option<Quote>, escaped: bool, next: Quote) -> Option<Quote> {
    match open {
        None if next.mark == '"' || next.mark == '\'' => Some(next),
        Some(quote) if next.mark == quote.mark && !escaped => None,
        other => other,
    }
}

/// Returns the quote that is open after the beginning of a line, if one is.
fn open_quote(before: &str) -> Option<Quote> {
    let mut open: Option<Quote> = None;
    let mut escaped = false;
    let mut column = 0usize;
    for mark in before.chars() {
        column = column.saturating_add(1);
        open = open_after(open, escaped, Quote { column, mark });
        escaped = mark == '\\' && !escaped;
    }
    open
}

/// Returns what is wrong with a text that has a bad character or is not closed.
fn of_text(position: Position<'_>) -> Wrong<'static> {
    match open_quote(position.before) {
        Some(quote) if position.after.is_empty() => Wrong::Unclosed(quote),
        _ => Wrong::BadText,
    }
}

/// Returns what is wrong with a key that is there twice, or with a header of a table.
fn of_twice(line: &str) -> Wrong<'_> {
    if !line.starts_with('[') {
        return Wrong::KeyTwice;
    }
    match line.trim_start_matches('[').split_once(']') {
        Some((name, _)) => Wrong::TableTwice(name.trim()),
        None => Wrong::KeyTwice,
    }
}

/// Returns what is wrong with a line that goes on after a value.
fn of_longer_line(position: Position<'_>) -> Wrong<'static> {
    let before = position.before.trim_end();
    let after_number = before.ends_with(|mark: char| mark.is_ascii_digit());
    if after_number && !position.after.contains('=') {
        Wrong::AfterNumber
    } else {
        Wrong::GoesOn
    }
}

/// Returns whether a number may begin with a character.
fn begins_number(mark: char) -> bool {
    mark.is_ascii_digit() || matches!(mark, '+' | '-' | '.')
}

/// Returns what is wrong with a value that is none.
fn of_value(entry: &str) -> Wrong<'static> {
    match entry.chars().next() {
        None => Wrong::NoValue,
        Some(first) if first.is_ascii_alphabetic() || first == '_' => Wrong::Unquoted,
        Some(first) if begins_number(first) => Wrong::NoNumber,
        Some(_) => Wrong::Other(NO_VALUE),
    }
}

/// Returns what is wrong if it is common, by the message of `toml`, the place, and the part of the line that the error is
/// about. Returns `None` for other errors, and for what is there twice.
fn common_wrong(message: &str, position: Position<'_>, entry: &str) -> Option<Wrong<'static>> {
    match message {
        NO_COMMA => Some(Wrong::NoComma),
        NO_TABLE_COMMA => Some(Wrong::NoTableComma),
        BAD_TEXT => Some(of_text(position)),
        GOES_ON => Some(of_longer_line(position)),
        NO_VALUE => Some(of_value(entry)),
        NO_DATE => Some(Wrong::NoNumber),
        _ => None,
    }
}

/// Returns what is wrong, by the message of `toml`, the place, and the part of the line that the error is about.
fn wrong_of<'a>(message: &'a str, position: Position<'a>, entry: &str) -> Wrong<'a> {
    if message == TWICE {
        return of_twice(position.after);
    }
    match common_wrong(message, position, entry) {
        Some(wrong) => wrong,
        None => Wrong::Other(message),
    }
}

/// Returns the first bytes of a line, or the whole line if it has no more. If a character would be cut, returns nothing.
fn first_bytes(line: &str, count: usize) -> &str {
    line.get(..count.min(line.len())).unwrap_or("")
}

/// Returns the key of an entry if the key is there twice, and else the whole entry.
fn marked_part<'a>(wrong: Wrong<'_>, entry: &'a str) -> &'a str {
    match (wrong, entry.split_once('=')) {
        (Wrong::KeyTwice, Some((key, _))) => key.trim_end(),
        _ => entry,
    }
}

/// Returns the error of a text, from the error of `toml`, or `None` if that has no place.
pub fn broken_at<'a>(text: &'a str, error: &'a Error) -> Option<Broken<'a>> {
    let span = error.span()?;
    let second = second_number(text, span.start, span.end);
    let start = second.unwrap_or(span.start);
    let position = position_at(text, start)?;
    let entry = first_bytes(position.after, span.end.saturating_sub(start));
    let wrong = match second {
        Some(_) => of_two_numbers(text, span.start),
        None => wrong_of(error.message(), position, entry),
    };
    Some(Broken {
        wrong,
        position,
        marked: marked_part(wrong, entry),
    })
}

/// Returns the first byte that is no part of a text, or `None` if the bytes are a text.
pub fn bad_byte(bytes: &[u8]) -> Option<BadByte> {
    let at = std::str::from_utf8(bytes).err()?.valid_up_to();
    let byte = *bytes.get(at)?;
    let head = std::str::from_utf8(bytes.get(..at)?).ok()?;
    Some(BadByte {
        line: line_number(head),
        column: last_line(head).chars().count().saturating_add(1),
        byte,
    })
}
