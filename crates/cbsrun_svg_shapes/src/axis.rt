//! The places of ticks.

ghost use Rattle.std.specs.Prelude.{◌≡◌, ◌+◌, ◌≤◌, ◌<◌};
ghost use Rattle.cbsrun_window.specs.Counts.{told};
ghost use Rattle.cbsrun_window.specs.Windows.{IsShort};
ghost use Rattle.cbsrun_svg_shapes.specs.Axes.{axis_of, cell_of, cells_of, is_wide, right_of, tick_of_cell, x_at, x_of_cell};

use cbsrun_chart::Window;
use std::marker::Model;

/// The places of ticks, in hundredths of a pixel.
#[derive(Clone, Copy)]
pub struct Axis {
    left: u64,
    from: u64,
    ticks: u64,
    cell: u64,
    cells: u64,
    width: u64,
}

impl Model for Axis {
    ghost use Rattle.cbsrun_svg_shapes.specs.Axes.{AxisSeen, IsAxis};

    ghost Value = { AxisSeen };

    ghost view = { λ a. record { left = a.left; from = a.from; ticks = a.ticks; cell = a.cell; cells = a.cells; width = a.width } };

    ghost invariant = { λ a. IsAxis a.left a.ticks a.cell a.cells a.width };

    ghost inverse = { λ a. record { left = a.left; from = a.from; ticks = a.ticks; cell = a.cell; cells = a.cells; width = a.width } };
}

/// Returns how many ticks a cell has if there are `ticks` of them: 1 to 20,000.
fn cell_of(ticks: u64) -> u64
    requires { ticks ≤ 20000 }
    ensures value { result ≡ cell_of ticks }
    ensures some { 0 < result }
    ensures few { result ≤ 20000 }
{
    ticks.div_ceil(1000).max(1)
}

/// Returns how many cells there are for `ticks` ticks: 1 to 1,000.
fn cells_of(ticks: u64) -> u64
    requires { ticks ≤ 20000 }
    ensures value { result ≡ cells_of ticks }
    ensures some { 0 < result }
    ensures few { result ≤ 1000 }
{
    ticks.div_ceil(cell_of(ticks)).min(1000).max(1)
}

impl Axis {
    /// Returns the axis of a short window, with its left edge at `left`.
    pub fn of(window: Window, left: u64) -> Axis
        requires short { IsShort window }
        requires left { left ≤ 100000 }
        ensures { result ≡ axis_of window left }
    {
        let ticks = window.ticks();
        let cell = cell_of(ticks);
        let cells = cells_of(ticks);
        let width = (100_000 / cells).min(5000);
        Axis {
            left,
            from: window.from,
            ticks,
            cell,
            cells,
            width,
        }
    }

    /// Returns the place at which a tick begins.
    pub fn x(&self, tick: u64) -> u64
        ensures value { result ≡ x_at self.now tick }
        ensures small { result ≤ 100100000 }
    {
        let ticks = tick.saturating_sub(self.from).min(self.ticks);
        self.left + ticks * self.width / self.cell
    }

    /// Returns the place at which a cell begins.
    pub fn x_of_cell(&self, cell: u64) -> u64
        ensures value { result ≡ x_of_cell self.now cell }
        ensures small { result ≤ 5100000 }
    {
        self.left + cell.min(self.cells) * self.width
    }

    /// Returns the left edge.
    pub fn left(&self) -> u64
        ensures value { result ≡ self.now.left }
        ensures small { result ≤ 100000 }
    {
        self.left
    }

    /// Returns the right edge.
    pub fn right(&self) -> u64
        ensures value { result ≡ right_of self.now }
        ensures small { result ≤ 5100000 }
    {
        self.left + self.cells * self.width
    }

    /// Returns the width of a cell.
    pub fn width(&self) -> u64
        ensures value { result ≡ self.now.width }
        ensures small { result ≤ 5000 }
    {
        self.width
    }

    /// Returns whether cells are at least 5 pixels wide, so that an outline leaves some of a cell free.
    pub fn is_wide(&self) -> bool
        ensures { result ≡ is_wide self.now }
    {
        self.width >= 500
    }

    /// Returns how many ticks a cell has.
    pub fn cell(&self) -> u64
        ensures value { result ≡ self.now.cell }
        ensures some { 0 < result }
        ensures few { result ≤ 20000 }
    {
        self.cell
    }

    /// Returns how many cells there are.
    pub fn cells(&self) -> u64
        ensures value { result ≡ self.now.cells }
        ensures few { result ≤ 1000 }
    {
        self.cells
    }

    /// Returns the first tick of a cell, or 2^64 - 1 if it would be greater.
    pub fn tick_of_cell(&self, cell: u64) -> u64
        requires { cell ≤ 1001 }
        ensures { result ≡ tick_of_cell self.now cell }
    {
        self.from.saturating_add(cell * self.cell)
    }

    /// Returns how many ticks there are: at most 20,000.
    pub fn ticks(&self) -> u64
        ensures value { result ≡ self.now.ticks }
        ensures few { result ≤ 20000 }
    {
        self.ticks
    }

    /// Returns the tick with this place after the first tick, or 2^64 - 1 if it would be greater.
    pub fn tick(&self, place: u64) -> u64
        ensures { result ≡ told (self.now.from + place) }
    {
        self.from.saturating_add(place)
    }
}
