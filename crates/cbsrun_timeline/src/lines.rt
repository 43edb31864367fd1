//! The lines of a server.

ghost use Rattle.std.specs.Prelude.{◌≡◌, ◌≤◌, ◌++◌, IfOk, OnOk, string_bytes};
ghost use Rattle.cbsrun_timeline.specs.Timelines.{label_text, line_text, marks_line, marks_text, padded, server_text, signs_text};

use crate::grid::Grid;
use crate::signs::{column_mark, column_sign};
use cbsrun_chart::{Drawn, ServerChart};
use std::alloc::{AllocError, Global};

/// Appends a word, and blanks after it up to the width.
#[tactic(auto, unfolding(crate::specs::Timelines::padded))]
pub(crate) fn append_padded(text: &mut String, width: u64, word: &str) -> Result<(), AllocError>
    ensures { OnOk result (string_bytes text.new ≡ string_bytes text.old ++ padded width word.now) }
{
    text.push_str(word)?;
    for _blank in 0..width.saturating_sub(word.len() as u64) {
        text.push_str(" ")?;
    }
    Ok(())
}

/// Appends the label before the columns: a name up to the width, and two blanks.
pub(crate) fn append_label(text: &mut String, width: u64, name: &str) -> Result<(), AllocError>
    ensures { OnOk result (string_bytes text.new ≡ string_bytes text.old
        ++ label_text width name.now) }
{
    append_padded(text, width, name)?;
    text.push_str("  ")
}

/// Appends a line, without the white space at the line's end.
pub(crate) fn append_line(text: &mut String, line: &str) -> Result<(), AllocError>
    ensures { OnOk result (string_bytes text.new ≡ string_bytes text.old ++ line_text line.now) }
{
    text.push_str(line.trim_end())?;
    text.push_str("\n")
}

/// Appends the signs of what a server does in these columns.
#[tactic(auto, unfolding(crate::specs::Timelines::signs_text))]
fn append_signs(
    text: &mut String,
    grid: &Grid,
    chart: &ServerChart,
    first: u64,
    count: u64,
) -> Result<(), AllocError>
    requires first { first ≤ 120000 }
    requires count { count ≤ 60 }
    ensures { OnOk result (string_bytes text.new ≡ string_bytes text.old
        ++ signs_text grid.now chart.now first count) }
{
    for place in 0..count {
        text.push(column_sign(grid, chart, first + place))?;
    }
    Ok(())
}

/// Returns the marks above these columns.
#[tactic(auto, unfolding(crate::specs::Timelines::marks_text))]
fn marks_text(
    alloc: Global,
    grid: &Grid,
    chart: &ServerChart,
    first: u64,
    count: u64,
) -> Result<String, AllocError>
    requires first { first ≤ 120000 }
    requires count { count ≤ 60 }
    ensures { IfOk result (λ text. string_bytes text ≡ marks_text grid.now chart.now first count) }
{
    let mut text = String::new(alloc);
    for place in 0..count {
        text.push(column_mark(grid, chart, first + place))?;
    }
    Ok(text)
}

/// Appends the marks as a line, if there are any.
#[tactic(auto, unfolding(crate::specs::Timelines::marks_line))]
fn append_marks(alloc: Global, text: &mut String, width: u64, marks: &str) -> Result<(), AllocError>
    ensures { OnOk result (string_bytes text.new ≡ string_bytes text.old
        ++ marks_line width marks.now) }
{
    if marks.trim_end().is_empty() {
        return Ok(());
    }
    let mut line = String::new(alloc);
    append_label(&mut line, width, "")?;
    line.push_str(marks)?;
    append_line(text, &line)
}

/// Appends the lines of a server in a block.
#[tactic(auto, unfolding(crate::specs::Timelines::server_text))]
pub(crate) fn append_server(
    alloc: Global,
    text: &mut String,
    grid: &Grid,
    first: u64,
    count: u64,
    drawn: &Drawn,
) -> Result<(), AllocError>
    requires first { first ≤ 120000 }
    requires count { count ≤ 60 }
    ensures { OnOk result (string_bytes text.new ≡ string_bytes text.old
        ++ server_text grid.now first count drawn.now) }
{
    let marks = marks_text(alloc, grid, &drawn.chart, first, count)?;
    append_marks(alloc, text, grid.width(), &marks)?;
    let mut line = String::new(alloc);
    append_label(&mut line, grid.width(), &drawn.name)?;
    append_signs(&mut line, grid, &drawn.chart, first, count)?;
    append_line(text, &line)
}
