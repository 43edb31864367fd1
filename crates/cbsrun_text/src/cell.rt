//! Cells of a table.

ghost use Rattle.std.specs.Prelude.{◌≡◌, false, string_bytes};

use std::marker::Model;

/// A cell of a table. It may be marked, so that a reader looks at it.
#[derive(Drop)]
pub struct Cell {
    text: String,
    marked: bool,
}

impl Model for Cell {
    ghost use Rattle.std.specs.Prelude.{string_bytes};
    ghost use Rattle.cbsrun_text.specs.Columns.{CellText};

    ghost Value = { CellText };

    ghost view = { λ c. record { text = string_bytes c.text; marked = c.marked } };
}

impl Cell {
    /// Returns a cell with a text, not marked.
    pub fn new(text: String) -> Cell
        ensures { result ≡ record { text = string_bytes text; marked = false } }
    {
        Cell {
            text,
            marked: false,
        }
    }

    /// Returns the same cell, marked or not.
    pub fn marked_if(self, marked: bool) -> Cell
        ensures { result ≡ record self { marked = marked } }
    {
        Cell {
            text: self.text,
            marked,
        }
    }

    /// Returns the text.
    pub fn text(&self) -> &str
        ensures { result.now ≡ self.now.text }
    {
        &self.text
    }

    /// Returns whether the cell is marked.
    pub fn is_marked(&self) -> bool
        ensures { result ≡ self.now.marked }
    {
        self.marked
    }
}
