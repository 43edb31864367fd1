//! The ruler of a block.

ghost use Rattle.std.specs.Prelude.{◌≡◌, ◌≤◌, ◌<◌, ◌++◌, OnOk, string_bytes};
ghost use Rattle.cbsrun_timeline.specs.Timelines.{number_text, numbers_text, ruler_marks, ruler_sign, ruler_text};

use crate::grid::Grid;
use crate::lines::{append_label, append_line, append_padded};
use crate::signs::{BLANK, FIVE, TEN};
use cbsrun_time_texts::append_amount;
use std::alloc::{AllocError, Global};

/// Appends the number of the tick at which a numbered column begins. It is in milliseconds if the nanoseconds of a tick
/// are known.
fn append_number(
    alloc: Global,
    text: &mut String,
    grid: &Grid,
    first: u64,
    place: u64,
) -> Result<(), AllocError>
    requires first { first ≤ 120000 }
    requires place { place ≤ 60 }
    ensures { OnOk result (string_bytes text.new ≡ string_bytes text.old
        ++ number_text grid.now first place) }
{
    let tick = grid.tick(first + place * grid.step());
    let mut number = String::new(alloc);
    append_amount(&mut number, grid.nanoseconds(), tick)?;
    append_padded(text, grid.step(), &number)
}

/// Appends the numbers of ticks.
#[tactic(auto, unfolding(crate::specs::Timelines::numbers_text))]
fn append_numbers(
    alloc: Global,
    text: &mut String,
    grid: &Grid,
    first: u64,
    count: u64,
) -> Result<(), AllocError>
    requires first { first ≤ 120000 }
    requires count { count ≤ 60 }
    ensures { OnOk result (string_bytes text.new ≡ string_bytes text.old
        ++ numbers_text grid.now first count) }
{
    for place in 0..count / grid.step() + 1 {
        append_number(alloc, text, grid, first, place)?;
    }
    Ok(())
}

/// Returns the mark at the beginning of a column.
fn ruler_sign(place: u64) -> char
    ensures value { result ≡ ruler_sign place }
    ensures ascii { result < 128 }
{
    if place % 10 == 0 {
        return TEN;
    }
    if place % 5 == 0 {
        return FIVE;
    }
    BLANK
}

/// Appends the marks of this many columns, and the mark of their end.
#[tactic(auto, unfolding(crate::specs::Timelines::ruler_marks))]
fn append_ruler_marks(text: &mut String, count: u64) -> Result<(), AllocError>
    requires { count ≤ 60 }
    ensures { OnOk result (string_bytes text.new ≡ string_bytes text.old ++ ruler_marks count) }
{
    for place in 0..count + 1 {
        text.push(ruler_sign(place))?;
    }
    Ok(())
}

/// Appends the ruler of a block.
#[tactic(auto, unfolding(crate::specs::Timelines::ruler_text))]
pub(crate) fn append_ruler(
    alloc: Global,
    text: &mut String,
    grid: &Grid,
    first: u64,
    count: u64,
) -> Result<(), AllocError>
    requires first { first ≤ 120000 }
    requires count { count ≤ 60 }
    ensures { OnOk result (string_bytes text.new ≡ string_bytes text.old
        ++ ruler_text grid.now first count) }
{
    let mut line = String::new(alloc);
    append_label(&mut line, grid.width(), "")?;
    append_numbers(alloc, &mut line, grid, first, count)?;
    append_line(text, &line)?;
    let mut line = String::new(alloc);
    append_label(&mut line, grid.width(), "")?;
    append_ruler_marks(&mut line, count)?;
    append_line(text, &line)
}
