//! Rows of cells as text in columns.

ghost use Rattle.std.specs.Prelude.{◌≡◌, ◌<◌, ◌≤◌, ◌++◌, List, All, IfOk, OnOk, length, string_bytes};
ghost use Rattle.cbsrun_text.specs.Columns.{CellText, AreWidths, rows_of, blanks, placed, placed_last, width_in, width_of, gap_after, end_after, inner_text, last_text, cell_in, row_text, columns_text};

use crate::cell::Cell;
use std::alloc::{AllocError, Global};

/// Returns how many bytes the cell of a row in a column has, or 0 if the row ends before the column.
fn width_in(row: &[Cell], column: usize) -> usize
    ensures { result ≡ width_in column row.now }
{
    match row.get(column) {
        Some(cell) => cell.text().len(),
        None => 0,
    }
}

/// Returns the width of a column: the width of its widest cell, in bytes.
fn width_of(rows: &[Vec<Cell>], column: usize) -> usize
    ensures { result ≡ width_of column (rows_of rows.now) }
{
    let mut width = 0;
    for row in rows {
        width = width.max(width_in(row, column));
    }
    width
}

/// Returns how many columns rows have: as many as the longest row has cells.
fn column_count(rows: &[Vec<Cell>]) -> usize
    ensures { All (λ row. length row.items ≤ result) rows.now }
{
    let mut count = 0;
    for row in rows {
        count = count.max(row.len());
    }
    count
}

/// Returns the widths of the first columns, so many. The only error is out of memory.
fn widths_of(alloc: Global, rows: &[Vec<Cell>], count: usize) -> Result<Vec<usize>, AllocError>
    ensures count { IfOk result (λ widths. length widths.items ≡ count) }
    ensures widths { IfOk result (λ widths. AreWidths (rows_of rows.now) widths.items) }
{
    let mut widths = Vec::with_capacity(alloc, count)?;
    for column in 0..count {
        widths.push(width_of(rows, column))?;
    }
    Ok(widths)
}

/// Appends this many blanks.
fn append_blanks(text: &mut String, count: usize) -> Result<(), AllocError>
    ensures { OnOk result (string_bytes text.new ≡ string_bytes text.old ++ blanks count) }
{
    for _blank in 0..count {
        text.push_str(" ")?;
    }
    Ok(())
}

/// Appends a word in a column of this width, with the blanks after it.
fn append_placed(
    text: &mut String,
    column: usize,
    width: usize,
    word: &str,
) -> Result<(), AllocError>
    ensures { OnOk result (string_bytes text.new ≡ string_bytes text.old
        ++ placed column width word.now) }
{
    let missing = width.saturating_sub(word.len());
    if column == 0 {
        text.push_str(word)?;
        return append_blanks(text, missing);
    }
    append_blanks(text, missing)?;
    text.push_str(word)
}

/// Appends a word in a column of this width, as the last one of its row.
fn append_placed_last(
    text: &mut String,
    column: usize,
    width: usize,
    word: &str,
) -> Result<(), AllocError>
    ensures { OnOk result (string_bytes text.new ≡ string_bytes text.old
        ++ placed_last column width word.now) }
{
    if column == 0 {
        return text.push_str(word);
    }
    append_blanks(text, width.saturating_sub(word.len()))?;
    text.push_str(word)
}

/// Returns the text between a cell and the next one: two blanks, or the mark and a blank.
fn gap_after(marked: bool) -> &'static str
    ensures { result.now ≡ gap_after marked }
{
    if marked { "! " } else { "  " }
}

/// Returns the text after the last cell of a row: nothing, or the mark.
fn end_after(marked: bool) -> &'static str
    ensures { result.now ≡ end_after marked }
{
    if marked { "!" } else { "" }
}

/// Appends a cell that is followed by another, with the text between them.
fn append_inner(
    text: &mut String,
    column: usize,
    width: usize,
    cell: &Cell,
) -> Result<(), AllocError>
    ensures { OnOk result (string_bytes text.new ≡ string_bytes text.old
        ++ inner_text column width cell.now) }
{
    append_placed(text, column, width, cell.text())?;
    text.push_str(gap_after(cell.is_marked()))
}

/// Appends the last cell of a row, with the text after it.
fn append_last(
    text: &mut String,
    column: usize,
    width: usize,
    cell: &Cell,
) -> Result<(), AllocError>
    ensures { OnOk result (string_bytes text.new ≡ string_bytes text.old
        ++ last_text column width cell.now) }
{
    append_placed_last(text, column, width, cell.text())?;
    text.push_str(end_after(cell.is_marked()))
}

/// Appends the cell of a row in a column of this width, with the text after it.
fn append_cell(
    text: &mut String,
    width: usize,
    row: &[Cell],
    column: usize,
) -> Result<(), AllocError>
    requires { column < length row.now }
    ensures { OnOk result (string_bytes text.new ≡ string_bytes text.old
        ++ cell_in width row.now column) }
{
    let cell = &row[column];
    if column + 1 == row.len() {
        return append_last(text, column, width, cell);
    }
    append_inner(text, column, width, cell)
}

/// Appends a row as a line, in columns of these widths.
#[tactic(auto, unfolding(crate::specs::Columns::row_text))]
fn append_row(text: &mut String, widths: &[usize], row: &[Cell]) -> Result<(), AllocError>
    requires { length row.now ≤ length widths.now }
    ensures { (rows : List (List CellText)) → AreWidths rows widths.now → OnOk result
        (string_bytes text.new ≡ string_bytes text.old ++ row_text rows row.now) }
{
    for column in 0..row.len() {
        append_cell(text, widths[column], row, column)?;
    }
    text.push_str("\n")
}

/// Appends rows of cells as lines. The first column is aligned left, and all others right. Each is as wide as its
/// widest cell. Two blanks are between two columns; after a marked cell the first of these is a `!`. The only error is
/// out of memory.
#[tactic(auto, unfolding(crate::specs::Columns::columns_text))]
pub fn append_columns(
    alloc: Global,
    text: &mut String,
    rows: &[Vec<Cell>],
) -> Result<(), AllocError>
    ensures { OnOk result (string_bytes text.new ≡ string_bytes text.old
        ++ columns_text (rows_of rows.now)) }
{
    let widths = widths_of(alloc, rows, column_count(rows))?;
    for row in rows {
        append_row(text, &widths, row)?;
    }
    Ok(())
}
