//! A text that is put together, in lines as rustc and cargo lay them out.

ghost use Rattle.std.specs.Prelude.{◌≡◌, ◌+◌, ◌++◌, ◌≤◌, ◌<◌, Bool, true, false, [], codes, decimal, map, IfOk, MatchResult, IfSome, MatchOption, Some, None, string_bytes};
ghost use Rattle.std.specs.List.{concat};
ghost use Rattle.cbsrun_check_text.specs.Fractions.{fraction_text};
ghost use Rattle.cbsrun_refusal_texts.specs.Pages.{Appends, AppendsA, times, left_in, right_in, bar, marked_line, printable_character, printable, words_of, spaced, IsLaid, IsNote};
ghost use Rattle.cbsrun_refusal_texts.specs.Refusals.{IsSpotLine};

use cbs_rate::Ratio;
use cbsrun_check_text::append_fraction;
use cbsrun_faults::Spot;
use cbsrun_text::append_pair;
use cbsrun_toml_tables::FileKind;
use std::alloc::{AllocError, Global};
use std::fmt::Display;
use std::marker::Model;

/// The most columns of a line before it is broken.
pub const COLUMNS: usize = 80;

/// A text that is put together. It fails if it is out of memory, and nothing is appended after that.
#[derive(Drop)]
pub struct Page {
    alloc: Global,
    text: String,
    failed: bool,
}

impl Model for Page {
    ghost use Rattle.std.specs.Prelude.{string_bytes};
    ghost use Rattle.cbsrun_refusal_texts.specs.Pages.{PageText};

    ghost Value = { PageText };

    ghost view = { λ p. record { text = string_bytes p.text; failed = p.failed } };
}

impl Page {
    /// Returns an empty page.
    pub fn new(alloc: Global) -> Page
        ensures { (result.failed ≡ false) × (result.text ≡ []) }
    {
        Page {
            alloc,
            text: String::new(alloc),
            failed: false,
        }
    }

    /// Returns the allocator of the page, for other texts that go into it.
    pub fn alloc(&self) -> Global {
        self.alloc
    }

    /// Returns the whole text. The only error is out of memory.
    pub fn finish(self) -> Result<String, AllocError>
        ensures { IfOk result (λ text. (self.failed ≡ false) × (string_bytes text ≡ self.text)) }
    {
        if self.failed {
            return Err(AllocError);
        }
        Ok(self.text)
    }

    /// Notes that the page is out of memory.
    pub fn fail(&mut self)
        ensures { self.new.failed ≡ true }
    {
        self.failed = true;
    }

    /// Returns what was made for the page, or `None` if that is out of memory. Then the page fails, too.
    pub fn accept<T>(&mut self, made: Result<T, AllocError>) -> Option<T>
        ensures { MatchResult made
            (λ value. (result ≡ Some value) × (self.new ≡ self.old))
            (λ _. (result ≡ None) × (self.new.failed ≡ true)) }
    {
        match made {
            Ok(value) => Some(value),
            Err(AllocError) => {
                self.fail();
                None
            }
        }
    }

    /// Appends a text.
    pub fn push(&mut self, part: &str)
        ensures { Appends self.old self.new part.now }
    {
        if !self.failed {
            self.failed = self.text.push_str(part).is_err();
        }
    }

    /// Appends texts, one after another.
    pub fn push_all(&mut self, parts: &[&str])
        ensures { Appends self.old self.new (concat (map (λ part. part.now) parts.now)) }
    {
        for part in parts {
            self.push(part);
        }
    }

    /// Appends a text this many times.
    fn push_times(&mut self, part: &str, count: usize)
        ensures { Appends self.old self.new (times count part.now) }
    {
        for _time in 0..count {
            self.push(part);
        }
    }

    /// Appends words, and a number after them.
    pub fn push_number(&mut self, words: &str, number: u64)
        ensures { Appends self.old self.new (words.now ++ decimal number) }
    {
        if !self.failed {
            self.failed = append_pair(&mut self.text, words, number).is_err();
        }
    }

    /// Appends words, and a part of a whole after them, as a shortened fraction. The whole must not be 0.
    pub(crate) fn push_fraction(&mut self, words: &str, ratio: Ratio)
        requires { 0 < ratio.whole }
        ensures { Appends self.old self.new (words.now ++ fraction_text ratio.part ratio.whole) }
    {
        if !self.failed {
            self.failed = append_fraction(&mut self.text, words, ratio.part, ratio.whole).is_err();
        }
    }

    /// Appends a text, and blanks after it to fill so many columns.
    pub(crate) fn push_left(&mut self, width: usize, text: &str)
        ensures { Appends self.old self.new (left_in width text.now) }
    {
        self.push(text);
        self.push_times(" ", width.saturating_sub(text.len()));
    }

    /// Appends a text, and blanks before it to fill so many columns.
    pub(crate) fn push_right(&mut self, width: usize, text: &str)
        ensures { Appends self.old self.new (right_in width text.now) }
    {
        self.push_times(" ", width.saturating_sub(text.len()));
        self.push(text);
    }

    /// Appends what `write!` and `writeln!` are given.
    pub fn write_fmt<D: Display + Drop>(&mut self, value: D)
        ensures { IfSome (D.output value) (λ text. Appends self.old self.new text) }
    {
        if !self.failed {
            self.failed = self.text.write(value).is_err();
        }
    }

    /// Appends a character. One that controls a terminal is appended as its code.
    fn push_character(&mut self, character: char)
        ensures { Appends self.old self.new (printable_character character) }
    {
        if character.is_control() {
            let code = character as u32;
            write!(self, "\\u{{{code:x}}}");
        } else {
            write!(self, "{character}");
        }
    }

    /// Appends a text. Characters that control a terminal are appended as their codes.
    pub fn push_printable(&mut self, text: &str)
        ensures { Appends self.old self.new (printable text.now) }
    {
        for character in text.chars() {
            self.push_character(character);
        }
    }

    /// Appends the kind of a fault, for a fault of which nothing more is known.
    pub fn push_kind(&mut self, kind: FileKind) {
        writeln!(self, "error: {kind}");
    }

    /// Appends the end of a line, and the line of the place of a fault.
    pub fn push_spot(&mut self, spot: &Spot<'_>)
        ensures { AppendsA (IsSpotLine spot.now) self.old self.new }
    {
        let place = spot.place;
        let label = spot.label(self.alloc());
        let Some(label) = self.accept(label) else {
            return;
        };
        self.push("\n  --> ");
        self.push_printable(spot.document.name);
        self.push(": ");
        write!(self, "{place}");
        self.push_all(&[&label, "\n"]);
    }

    /// Appends a bar after `margin` columns, with nothing beside it.
    pub fn push_bar(&mut self, margin: usize)
        ensures { Appends self.old self.new (bar margin) }
    {
        self.push_times(" ", margin);
        self.push("|\n");
    }

    /// Appends a line of a document, and carets below the `count` characters from the character `from` on, at least
    /// one. `gutter` is the line's number, or blanks, and stands before the bar. A remark may follow, and the end of
    /// the line has to.
    pub fn push_line(&mut self, gutter: &str, line: &[&str], from: usize, count: usize)
        ensures { Appends self.old self.new (marked_line gutter.now (concat (map (λ part.
            part.now) line.now)) from count) }
    {
        let margin = gutter.len();
        self.push_bar(margin);
        self.push_all(&[gutter, "| "]);
        self.push_all(line);
        self.push("\n");
        self.push_times(" ", margin);
        self.push("| ");
        self.push_times(" ", from);
        self.push_times("^", count.max(1));
    }

    /// Appends a word at a column, or on a new line if it does not fit. The first word has no column, and nothing
    /// before it. Returns the column after the word.
    fn push_word(&mut self, indent: usize, column: Option<usize>, word: &str) -> usize
        ensures { MatchOption column
            (Appends self.old self.new word.now)
            (λ _. (breaks : Bool) × Appends self.old self.new (spaced indent (breaks, word.now))) }
    {
        let width = word.chars().count();
        let Some(column) = column else {
            self.push(word);
            return indent.saturating_add(width);
        };
        let after = column.saturating_add(width);
        if after < COLUMNS {
            self.push_all(&[" ", word]);
            return after.saturating_add(1);
        }
        self.push("\n");
        self.push_times(" ", indent);
        self.push(word);
        indent.saturating_add(width)
    }

    /// Appends a note or a help with these words, in lines of at most [`COLUMNS`] columns.
    pub fn push_note(&mut self, margin: usize, kind: &str, words: Result<String, AllocError>)
        requires { margin ≤ 80 }
        ensures { MatchResult words
            (λ words. AppendsA (IsNote margin kind.now (string_bytes words)) self.old self.new)
            (λ _. self.new.failed ≡ true) }
    {
        let Some(words) = self.accept(words) else {
            return;
        };
        let indent = margin + kind.len() + 4;
        self.push_times(" ", margin);
        self.push_all(&["= ", kind, ": "]);
        self.push_words(indent, &words);
        self.push("\n");
    }

    /// Appends the words of a text, in lines of at most [`COLUMNS`] columns, each but the first after `indent` blanks.
    fn push_words(&mut self, indent: usize, text: &str)
        ensures { AppendsA (IsLaid indent (words_of text.now)) self.old self.new }
    {
        let mut column = None;
        for word in text.split(' ') {
            column = Some(self.push_word(indent, column, word));
        }
    }
}

/// Returns a text as a terminal shows it: a character that controls a terminal as its code, as `\u{1b}`. The only error is
/// out of memory.
pub fn printable(alloc: Global, text: &str) -> Result<String, AllocError>
    ensures { IfOk result (λ shown. string_bytes shown ≡ printable text.now) }
{
    let mut page = Page::new(alloc);
    page.push_printable(text);
    page.finish()
}
