//! The whole timeline.

ghost use Rattle.std.specs.Prelude.{◌≡◌, ◌≤◌, ◌<◌, ◌++◌, IfOk, OnOk, string_bytes};
ghost use Rattle.std.specs.List.{list_any};
ghost use Rattle.cbsrun_timeline.specs.Timelines.{block_text, blocks_text, cell_text, charged_legend, drawn_text, heading_text, hidden_line, is_charged, left_out_line, legend_text, servers_text, timeline_text, times_text};
ghost use Rattle.cbsrun_window.specs.Windows.{IsShort};

use crate::grid::Grid;
use crate::legend::{CHARGED_LEGEND, COLUMN_LEGEND, LEGEND};
use crate::lines::append_server;
use crate::ruler::append_ruler;
use cbsrun_chart::{Counts, Drawn, Hidden, LeftOut, Picture, Window};
use cbsrun_time_texts::append_ticks;
use std::alloc::{AllocError, Global};
use std::fmt::Write;

/// Appends how many ticks a column has, if it has more than one.
#[tactic(auto, unfolding(crate::specs::Timelines::cell_text))]
fn append_cell(text: &mut String, grid: &Grid) -> Result<(), AllocError>
    ensures { OnOk result (string_bytes text.new ≡ string_bytes text.old ++ cell_text grid.now) }
{
    if grid.is_fine() {
        return Ok(());
    }
    text.push_str(", a column is ")?;
    append_ticks(text, grid.nanoseconds(), grid.cell())
}

/// Appends the ticks that are shown in milliseconds, too, if the nanoseconds of a tick are known.
fn append_times(
    text: &mut String,
    nanoseconds: Option<u64>,
    from: u64,
    to: u64,
) -> Result<(), AllocError>
    ensures { OnOk result (string_bytes text.new ≡ string_bytes text.old
        ++ times_text nanoseconds from to) }
{
    if nanoseconds.is_none() {
        return Ok(());
    }
    text.push_str(", ")?;
    append_ticks(text, nanoseconds, from)?;
    text.push_str(" to ")?;
    append_ticks(text, nanoseconds, to)
}

/// Appends the heading: the name of the file, and the ticks that are shown.
#[tactic(auto, unfolding(crate::specs::Timelines::heading_text))]
fn append_heading(text: &mut String, grid: &Grid, file: &str) -> Result<(), AllocError>
    ensures { OnOk result (string_bytes text.new ≡ string_bytes text.old
        ++ heading_text grid.now file.now) }
{
    let from = grid.from();
    let to = grid.to();
    write!(text, "{file}, ticks {from} to {to}")?;
    append_times(text, grid.nanoseconds(), from, to)?;
    append_cell(text, grid)?;
    text.push_str("\n")
}

/// Appends the line of how many ticks of the run are not shown, if there are any.
#[tactic(auto, unfolding(crate::specs::Timelines::hidden_line))]
fn append_hidden(text: &mut String, hidden: Option<Hidden>) -> Result<(), AllocError>
    ensures { OnOk result (string_bytes text.new ≡ string_bytes text.old ++ hidden_line hidden) }
{
    match hidden {
        Some(hidden) => writeln!(text, "{hidden}"),
        None => Ok(()),
    }
}

/// Appends the line of how many servers are not drawn, if there are any.
#[tactic(auto, unfolding(crate::specs::Timelines::left_out_line))]
fn append_left_out(text: &mut String, left_out: Option<LeftOut>) -> Result<(), AllocError>
    ensures { OnOk result (string_bytes text.new ≡ string_bytes text.old
        ++ left_out_line left_out) }
{
    match left_out {
        Some(left_out) => writeln!(text, "{left_out}"),
        None => Ok(()),
    }
}

/// Appends the lines of all servers in a block.
#[tactic(auto, unfolding(crate::specs::Timelines::servers_text))]
fn append_servers(
    alloc: Global,
    text: &mut String,
    grid: &Grid,
    first: u64,
    count: u64,
    servers: &[Drawn],
) -> Result<(), AllocError>
    requires first { first ≤ 120000 }
    requires count { count ≤ 60 }
    ensures { OnOk result (string_bytes text.new ≡ string_bytes text.old
        ++ servers_text grid.now first count servers.now) }
{
    for server in servers {
        append_server(alloc, text, grid, first, count, server)?;
    }
    Ok(())
}

/// Appends a block: a ruler, and the lines of all servers.
#[tactic(auto, unfolding(crate::specs::Timelines::block_text))]
fn append_block(
    alloc: Global,
    text: &mut String,
    grid: &Grid,
    servers: &[Drawn],
    block: u64,
) -> Result<(), AllocError>
    requires { block ≤ 2000 }
    ensures { OnOk result (string_bytes text.new ≡ string_bytes text.old
        ++ block_text grid.now servers.now block) }
{
    let first = grid.first(block);
    let count = grid.count(block);
    text.push_str("\n")?;
    append_ruler(alloc, text, grid, first, count)?;
    append_servers(alloc, text, grid, first, count, servers)
}

/// Appends all blocks.
#[tactic(auto, unfolding(crate::specs::Timelines::blocks_text))]
fn append_blocks(
    alloc: Global,
    text: &mut String,
    grid: &Grid,
    servers: &[Drawn],
) -> Result<(), AllocError>
    ensures { OnOk result (string_bytes text.new ≡ string_bytes text.old
        ++ blocks_text grid.now servers.now) }
{
    for block in 0..grid.blocks() {
        append_block(alloc, text, grid, servers, block)?;
    }
    Ok(())
}

/// Returns whether a server is charged in a window.
fn is_charged(window: Window, drawn: &Drawn) -> bool
    ensures { result ≡ is_charged window drawn.now }
{
    Counts::of(&drawn.chart.spans, window.from, window.to).charged > 0
}

/// Returns whether one of these servers is charged in a window.
fn is_any_charged(window: Window, servers: &[Drawn]) -> bool
    ensures { result ≡ list_any (is_charged window) servers.now }
{
    servers.iter().any(|server| is_charged(window, server))
}

/// Appends the legend of charged ticks, if there are any in the window.
#[tactic(auto, unfolding(crate::specs::Timelines::charged_legend))]
fn append_charged_legend(
    text: &mut String,
    window: Window,
    servers: &[Drawn],
) -> Result<(), AllocError>
    ensures { OnOk result (string_bytes text.new ≡ string_bytes text.old
        ++ charged_legend window servers.now) }
{
    if is_any_charged(window, servers) {
        return text.push_str(CHARGED_LEGEND);
    }
    Ok(())
}

/// Appends the legend of the signs.
#[tactic(auto, unfolding(crate::specs::Timelines::legend_text))]
fn append_legend(
    text: &mut String,
    grid: &Grid,
    window: Window,
    servers: &[Drawn],
) -> Result<(), AllocError>
    ensures { OnOk result (string_bytes text.new ≡ string_bytes text.old
        ++ legend_text grid.now window servers.now) }
{
    text.push_str("\n")?;
    text.push_str(if grid.is_fine() {
        LEGEND
    } else {
        COLUMN_LEGEND
    })?;
    append_charged_legend(text, window, servers)
}

/// Returns a picture of a short window as a timeline of text. Its lines have at most 80 letters, if the names have
/// room. The only error is out of memory.
#[tactic(auto, unfolding(crate::specs::Timelines::drawn_text))]
pub fn timeline_text(alloc: Global, picture: &Picture) -> Result<String, AllocError>
    requires { IsShort picture.now.window }
    ensures { IfOk result (λ text. string_bytes text ≡ timeline_text picture.now) }
{
    let grid = Grid::of(alloc, picture)?;
    let mut text = String::new(alloc);
    append_heading(&mut text, &grid, &picture.file)?;
    append_hidden(&mut text, picture.hidden())?;
    append_left_out(&mut text, picture.left_out())?;
    append_blocks(alloc, &mut text, &grid, &picture.servers)?;
    append_legend(&mut text, &grid, picture.window, &picture.servers)?;
    Ok(text)
}
