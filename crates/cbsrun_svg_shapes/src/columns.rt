//! What a server does, drawn in columns by counts of ticks in cells.

ghost use Rattle.std.specs.Prelude.{◌≡◌, ◌≤◌, ◌<◌, ◌++◌, IfOk, OnOk, length, string_bytes};
ghost use Rattle.cbsrun_svg_shapes.specs.Columns.{cell_counts, columns_shape, count_up_to, counts_at, edge_between, edge_text, edges_text, end_text, height_before, height_of, heights_of};

use crate::axis::Axis;
use cbsrun_chart::{Counts, Stretch};
use std::alloc::{AllocError, Global};
use std::fmt::Write;

/// A layer of columns: the ticks in which this goes on.
#[derive(Clone, Copy)]
pub enum Layer {
    /// The server runs.
    Runs,
    /// The server runs or is charged.
    Charged,
    /// The server runs, is charged, or is throttled with a job.
    Throttled,
    /// The server runs, is charged, or has a job.
    Active,
    /// Nobody runs.
    Idle,
    /// A release is refused.
    Refused,
    /// A job is late.
    Late,
}

/// Returns the counts of a cell.
#[tactic(auto, unfolding(crate::specs::Columns::counts_at))]
fn counts_at(axis: &Axis, stretches: &[Stretch], cell: u64) -> Counts
    requires { cell ≤ 1000 }
    ensures { result ≡ counts_at axis.now stretches.now cell }
{
    Counts::of(
        stretches,
        axis.tick_of_cell(cell),
        axis.tick_of_cell(cell + 1),
    )
}

/// Returns the counts of all cells.
#[tactic(auto, unfolding(crate::specs::Columns::cell_counts))]
pub fn cell_counts(
    alloc: Global,
    axis: &Axis,
    stretches: &[Stretch],
) -> Result<Vec<Counts>, AllocError>
    ensures { IfOk result (λ counts. counts.items ≡ cell_counts axis.now stretches.now) }
{
    let mut counts = Vec::with_capacity(alloc, axis.cells() as usize)?;
    for cell in 0..axis.cells() {
        counts.push(counts_at(axis, stretches, cell))?;
    }
    Ok(counts)
}

/// Returns how many ticks of a cell are in a layer: at most all ticks of the cell.
fn count_up_to(cell: u64, layer: Layer, counts: &Counts) -> u64
    requires { cell ≤ 20000 }
    ensures value { result ≡ count_up_to cell layer counts.now }
    ensures few { result ≤ cell }
{
    let runs = counts.runs.min(cell);
    let charged = counts.charged.min(cell);
    let throttled = counts.throttled.min(cell);
    match layer {
        Layer::Runs => runs,
        Layer::Charged => (runs + charged).min(cell),
        Layer::Throttled => (runs + charged + throttled).min(cell),
        Layer::Active => (runs + charged + throttled + counts.waits.min(cell)).min(cell),
        Layer::Idle => counts.idle.min(cell),
        Layer::Refused => {
            if counts.refused == 0 {
                return 0;
            }
            cell
        }
        Layer::Late => {
            if counts.late == 0 {
                return 0;
            }
            cell
        }
    }
}

/// Returns the height of a count of ticks. A count of 0 has height 0, and a count of 1 is high enough to be seen. All
/// ticks of a cell have the whole height.
#[tactic(auto, unfolding(crate::specs::Columns::height_of))]
fn height_of(cell: u64, whole: u64, count: u64) -> u64
    requires count { count ≤ 20000 }
    requires whole { whole ≤ 10000 }
    ensures { result ≡ height_of cell whole count }
{
    if count == 0 {
        return 0;
    }
    200 + count * whole.saturating_sub(200) / cell.max(1)
}

/// Returns the heights of a layer in all cells.
#[tactic(auto, unfolding(crate::specs::Columns::heights_of))]
pub fn heights_of(
    alloc: Global,
    axis: &Axis,
    whole: u64,
    layer: Layer,
    counts: &[Counts],
) -> Result<Vec<u64>, AllocError>
    requires { whole ≤ 10000 }
    ensures { IfOk result (λ heights. heights.items ≡ heights_of axis.now whole layer counts.now) }
{
    let mut heights = Vec::with_capacity(alloc, counts.len())?;
    for cell in counts {
        heights.push(height_of(axis.cell(), whole, count_up_to(axis.cell(), layer, cell)))?;
    }
    Ok(heights)
}

/// Returns the height of the cell before this one, or 0 if this is the first cell.
fn height_before(heights: &[u64], cell: usize) -> u64
    requires { cell < length heights.now }
    ensures { result ≡ height_before heights.now cell }
{
    if cell == 0 { 0 } else { heights[cell - 1] }
}

/// Appends the left edge of a cell between two heights. The edge begins columns, ends them, or goes on at another
/// height.
fn append_edge_between(
    shape: &mut String,
    axis: &Axis,
    base: u64,
    before: u64,
    height: u64,
    cell: u64,
) -> Result<(), AllocError>
    ensures { OnOk result (string_bytes shape.new ≡ string_bytes shape.old
        ++ edge_between axis.now base before height cell) }
{
    if height == before {
        return Ok(());
    }
    let x = axis.x_of_cell(cell);
    let y = base.saturating_sub(height);
    if before == 0 {
        return write!(shape, "M{x} {base}V{y}");
    }
    if height == 0 {
        return write!(shape, "H{x}V{base}z");
    }
    write!(shape, "H{x}V{y}")
}

/// Appends the left edge of a cell.
fn append_edge(
    shape: &mut String,
    axis: &Axis,
    base: u64,
    heights: &[u64],
    cell: usize,
) -> Result<(), AllocError>
    requires { cell < length heights.now }
    ensures { OnOk result (string_bytes shape.new ≡ string_bytes shape.old
        ++ edge_text axis.now base heights.now cell) }
{
    let before = height_before(heights, cell);
    append_edge_between(shape, axis, base, before, heights[cell], cell as u64)
}

/// Appends the left edges of all cells.
#[tactic(auto, unfolding(crate::specs::Columns::edges_text))]
fn append_edges(
    shape: &mut String,
    axis: &Axis,
    base: u64,
    heights: &[u64],
) -> Result<(), AllocError>
    ensures { OnOk result (string_bytes shape.new ≡ string_bytes shape.old
        ++ edges_text axis.now base heights.now) }
{
    for cell in 0..heights.len() {
        append_edge(shape, axis, base, heights, cell)?;
    }
    Ok(())
}

/// Appends the end of the columns at the right edge, if the last cell has a height.
#[tactic(auto, unfolding(crate::specs::Columns::end_text))]
fn append_end(shape: &mut String, axis: &Axis, base: u64, height: u64) -> Result<(), AllocError>
    ensures { OnOk result (string_bytes shape.new ≡ string_bytes shape.old
        ++ end_text axis.now base height) }
{
    if height == 0 {
        return Ok(());
    }
    let right = axis.right();
    write!(shape, "H{right}V{base}z")
}

/// Appends columns that stand on the line `base`.
#[tactic(auto, unfolding(crate::specs::Columns::columns_shape))]
pub fn append_columns(
    shape: &mut String,
    axis: &Axis,
    base: u64,
    heights: &[u64],
) -> Result<(), AllocError>
    ensures { OnOk result (string_bytes shape.new ≡ string_bytes shape.old
        ++ columns_shape axis.now base heights.now) }
{
    append_edges(shape, axis, base, heights)?;
    append_end(shape, axis, base, heights.last().copied().unwrap_or(0))
}
