//! Colours for a terminal. A text that has a colour also has a mark, so no information is in the colour alone.
#![tactic(auto)]

ghost use Rattle.std.specs.Prelude.{◌≡◌};
ghost use Rattle.std.specs.Io.{WritesAtMost};

use std::alloc::{AllocError, Global};
use std::io;
use std::io::Write;
use std::marker::Model;

/// The style in which a piece of text is painted.
#[derive(Clone, Copy)]
enum Style {
    /// The style of a text that needs attention.
    Alarm,
    /// The style of a text that says that all is well.
    Well,
    /// The style of a heading.
    Heading,
}

impl Style {
    /// Returns the escape sequence that begins the style.
    fn begin(self) -> &'static str {
        match self {
            Style::Alarm => "\x1b[1;31m",
            Style::Well => "\x1b[32m",
            Style::Heading => "\x1b[1m",
        }
    }
}

/// The escape sequence that ends each style.
const END: &str = "\x1b[0m";

/// The first words of the lines that are painted, with their styles.
static WORDS: [(&str, Style); 6] = [
    ("not in time:", Style::Alarm),
    ("in time:", Style::Well),
    ("fits:", Style::Well),
    ("error:", Style::Alarm),
    ("note:", Style::Heading),
    ("help:", Style::Heading),
];

/// The first words of the headings of tables.
static HEADINGS: [&str; 7] = [
    "JOBS",
    "TICKS",
    "RESPONSE",
    "EARLY",
    "CHARGES",
    "SERVER",
    "SOURCE OF",
];

/// Appends a piece in a style.
fn append(text: &mut String, style: Style, piece: &str) -> Result<(), AllocError> {
    text.push_str(style.begin())?;
    text.push_str(piece)?;
    text.push_str(END)
}

/// Appends a part of a line that ends at a mark. Its last entry, which begins after two blanks, is painted.
fn append_marked(text: &mut String, part: &str) -> Result<(), AllocError> {
    match part.rsplit_once("  ") {
        Some((before, entry)) => {
            text.push_str(before)?;
            text.push_str("  ")?;
            append(text, Style::Alarm, entry)
        }
        None => append(text, Style::Alarm, part),
    }
}

/// Appends a line of a table, with its marked entries painted.
fn append_row(text: &mut String, line: &str) -> Result<(), AllocError> {
    for part in line.split_inclusive('!') {
        if part.ends_with('!') {
            append_marked(text, part)?;
        } else {
            text.push_str(part)?;
        }
    }
    Ok(())
}

/// Returns the first words of a line that are painted, with their style, and the rest of the line. Returns `None` if the
/// line begins with no such words.
fn first_words(line: &str) -> Option<(&'static str, Style, &str)> {
    for &(words, style) in &WORDS {
        if let Some(rest) = line.strip_prefix(words) {
            return Some((words, style, rest));
        }
    }
    None
}

/// Returns whether a line is the heading of a table.
fn is_heading(line: &str) -> bool {
    HEADINGS.iter().any(|words| line.starts_with(words))
}

/// Appends a line, with its first words, a whole heading, or its marked entries painted.
fn append_line(text: &mut String, line: &str) -> Result<(), AllocError> {
    if let Some((words, style, rest)) = first_words(line) {
        append(text, style, words)?;
        return text.push_str(rest);
    }
    if is_heading(line) {
        return append(text, Style::Heading, line);
    }
    append_row(text, line)
}

/// Returns a text that is painted. Without the escape sequences it is the same text.
fn in_colours(alloc: Global, text: &str) -> Result<String, AllocError> {
    let mut colours = String::with_capacity(alloc, text.len())?;
    for line in text.split_inclusive('\n') {
        match line.strip_suffix('\n') {
            Some(line) => {
                append_line(&mut colours, line)?;
                colours.push_str("\n")?;
            }
            None => append_line(&mut colours, line)?,
        }
    }
    Ok(colours)
}

/// A writer whose text is painted, if that is allowed. A piece that is no text, or for which there is no memory, is not
/// painted.
#[derive(Drop)]
pub struct Painted<W> {
    writer: W,
    alloc: Global,
    may: bool,
}

impl<W> Model for Painted<W> {
    ghost use Rattle.cbsrun_text_colours.specs.Painting.{Painting};

    ghost Value = { Painting W };

    ghost view = { λ p. record { writer = p.writer; may = p.may } };
}

impl<W> Painted<W> {
    /// Returns a writer that paints its text if `may` is true, and otherwise passes it on as it is.
    pub fn new(writer: W, alloc: Global, may: bool) -> Painted<W>
        ensures { result ≡ record { writer = writer; may = may } }
    {
        Painted { writer, alloc, may }
    }
}

impl<W: Write> Painted<W> {
    /// Writes a text with its colours. A piece that is no text, or for which there is no memory, is written as it is.
    fn write_painted(&mut self, buf: &[u8]) -> io::Result<usize>
        ensures bound { WritesAtMost result buf.now }
        ensures may { self.new.may ≡ self.old.may }
    {
        let Ok(text) = str::from_utf8(buf) else {
            return self.writer.write(buf);
        };
        match in_colours(self.alloc, text) {
            Ok(colours) => {
                self.writer.write_all(colours.as_bytes())?;
                Ok(buf.len())
            }
            Err(_) => self.writer.write(buf),
        }
    }
}

impl<W: Write> Write for Painted<W> {
    ghost use Rattle.cbsrun_text_colours.specs.Painting.{contents_of};

    // What is painted is not known.
    ghost contents = { contents_of W.contents };

    fn write(&mut self, buf: &[u8]) -> io::Result<usize> {
        match self.may {
            true => self.write_painted(buf),
            false => self.writer.write(buf),
        }
    }

    fn flush(&mut self) -> io::Result<()> {
        self.writer.flush()
    }
}
