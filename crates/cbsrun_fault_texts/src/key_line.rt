//! The line of a key and its value, with the place of a fault above it.

ghost use Rattle.std.specs.Prelude.{◌≤◌};

use crate::pieces::{append_part, append_spot_at};
use crate::shown::append_shown;
use cbsrun_faults::{Line, Spot, line_of};
use cbsrun_refusal_texts::{COLUMNS, Page};
use std::alloc::{AllocError, Global};
use toml::Value;

/// The longest value that is shown as it is spelt, in bytes.
const LONGEST: usize = 60;

/// The part of the line of a key and its value to which carets point.
#[derive(Clone, Copy)]
pub(crate) enum Marked {
    Key,
    Value,
    /// The text between the quotes of the value.
    Inside,
}

/// The line of a key and its value, as it is shown.
#[derive(Drop)]
pub(crate) struct KeyLine {
    /// What stands before the bar: the number of the line, or blanks if it is not known.
    gutter: String,
    key: String,
    value: String,
    number: Option<usize>,
}

/// Returns whether a value is shown as it is spelt: if it has one line, and is not long.
fn is_plain(value: &str) -> bool {
    value.len() <= LONGEST
        && !value.contains('\n')
        && !value.starts_with("\"\"\"")
        && !value.starts_with("'''")
}

/// Returns a key as it is shown. The only error is out of memory.
fn shown_key(alloc: Global, key: &str) -> Result<String, AllocError> {
    let mut shown = Page::new(alloc);
    shown.push_printable(key);
    shown.finish()
}

/// Returns a value as it is shown. The only error is out of memory.
fn shown_value(alloc: Global, line: Option<Line<'_>>, value: &Value) -> Result<String, AllocError> {
    let mut shown = Page::new(alloc);
    match line {
        Some(line) if is_plain(line.value) => append_part(&mut shown, line.value),
        _ => append_shown(&mut shown, value),
    }
    shown.finish()
}

/// Returns what stands before the bar beside a line. The only error is out of memory.
fn gutter_of(alloc: Global, line: Option<Line<'_>>) -> Result<String, AllocError> {
    match line {
        Some(Line { number, .. }) => format!(in alloc; "{number} "),
        None => String::from_str(alloc, "  "),
    }
}

impl KeyLine {
    /// Returns the line of a key and its value, in the table of a spot. The only error is out of memory.
    pub(crate) fn new(
        alloc: Global,
        spot: &Spot<'_>,
        key: &str,
        value: &Value,
    ) -> Result<KeyLine, AllocError> {
        let line = line_of(alloc, spot, key)?;
        Ok(KeyLine {
            gutter: gutter_of(alloc, line)?,
            key: shown_key(alloc, key)?,
            value: shown_value(alloc, line, value)?,
            number: line.map(|line| line.number),
        })
    }

    /// Returns how many columns stand before the bar.
    pub(crate) fn margin(&self) -> usize
        ensures { result ≤ 80 }
    {
        self.gutter.len().min(COLUMNS)
    }

    /// Appends the place of a fault, and the line with carets below a part of it. A remark may follow, and the end of
    /// the line has to.
    pub(crate) fn append(&self, page: &mut Page, spot: &Spot<'_>, marked: Marked) {
        let width = self.key.chars().count();
        let start = width.saturating_add(3);
        let count = self.value.chars().count();
        let (from, count) = match marked {
            Marked::Key => (0, width),
            Marked::Value => (start, count),
            Marked::Inside => (start.saturating_add(1), count.saturating_sub(2)),
        };
        append_spot_at(page, spot, self.number);
        page.push_line(&self.gutter, &[&self.key, " = ", &self.value], from, count);
    }
}
