//! The ticks that the columns of a timeline stand for.

ghost use Rattle.std.specs.Prelude.{◌≡◌, ◌+◌, ◌-◌, ◌≤◌, ◌<◌, IfOk};
ghost use Rattle.cbsrun_timeline.specs.Signs.{blocks_of, cell_of, columns_of, count_of, end_of, first_of, grid_of, is_fine, letters_of, plot_of, step_of, tick_of, width_of};
ghost use Rattle.cbsrun_window.specs.Windows.{IsShort};

use cbsrun_chart::{Drawn, Picture};
use cbsrun_text::digits_of;
use cbsrun_time_texts::append_milliseconds;
use std::alloc::{AllocError, Global};
use std::marker::Model;

/// The ticks of a window, in blocks of columns.
#[derive(Clone, Copy)]
pub(crate) struct Grid {
    nanoseconds: Option<u64>,
    width: u64,
    plot: u64,
    step: u64,
    from: u64,
    to: u64,
    cell: u64,
}

impl Model for Grid {
    ghost use Rattle.cbsrun_timeline.specs.Signs.{GridSeen, IsGrid};

    ghost Value = { GridSeen };

    ghost view = { λ g. record { nanoseconds = g.nanoseconds; width = g.width; plot = g.plot; step = g.step; from = g.from; to = g.to; cell = g.cell } };

    ghost invariant = { λ g. IsGrid g.plot g.step g.from g.to g.cell };

    ghost inverse = { λ g. record { nanoseconds = g.nanoseconds; width = g.width; plot = g.plot; step = g.step; from = g.from; to = g.to; cell = g.cell } };
}

/// Returns the width of the widest name.
fn width_of(servers: &[Drawn]) -> u64
    ensures { result ≡ width_of servers.now }
{
    let mut width = 0;
    for server in servers {
        width = (server.name.len() as u64).max(width);
    }
    width
}

/// Returns how many letters the number of a tick up to `to` has at most, which are at most 29. In milliseconds these are
/// the digits of the whole ones at `to`, and the letters of one tick after its first.
fn letters_of(alloc: Global, nanoseconds: Option<u64>, to: u64) -> Result<u64, AllocError>
    ensures value { IfOk result (λ letters. letters ≡ letters_of nanoseconds to) }
    ensures few { IfOk result (λ letters. letters ≤ 29) }
{
    let Some(nanoseconds) = nanoseconds else {
        return digits_of(alloc, to);
    };
    let mut one = String::new(alloc);
    append_milliseconds(&mut one, nanoseconds, 1)?;
    let more = (one.len() as u64).saturating_sub(1).min(9);
    let whole = u128::from(nanoseconds) * u128::from(to) / 1_000_000;
    Ok(digits_of(alloc, u64::try_from(whole).unwrap_or(u64::MAX))? + more)
}

/// Returns how many columns a block has: 10 to 60.
fn plot_of(width: u64, letters: u64) -> u64
    ensures value { result ≡ plot_of width letters }
    ensures wide { 10 ≤ result }
    ensures narrow { result ≤ 60 }
{
    let room = 78u64.saturating_sub(width).saturating_sub(letters);
    (room / 10 * 10).min(60).max(10)
}

/// Returns the number of columns from one numbered tick to the next, by the letters of the numbers: 10 to 30.
fn step_of(letters: u64) -> u64
    requires { letters ≤ 29 }
    ensures value { result ≡ step_of letters }
    ensures apart { 10 ≤ result }
    ensures near { result ≤ 30 }
{
    10 * (1 + letters / 10)
}

/// Returns how many ticks a column has: 1 to 20,000.
fn cell_of(ticks: u64, plot: u64) -> u64
    requires ticks { ticks ≤ 20000 }
    requires plot { 10 ≤ plot }
    ensures value { result ≡ cell_of ticks plot }
    ensures some { 0 < result }
    ensures fine { result ≤ 20000 }
{
    if ticks <= 240 {
        return 1;
    }
    ticks.div_ceil(plot)
}

impl Grid {
    /// Returns the grid of a picture of a short window.
    pub fn of(alloc: Global, picture: &Picture) -> Result<Grid, AllocError>
        requires { IsShort picture.now.window }
        ensures { IfOk result (λ grid. grid ≡ grid_of picture.now) }
    {
        let window = picture.window;
        let width = width_of(&picture.servers);
        let letters = letters_of(alloc, picture.tick, window.to)?;
        let plot = plot_of(width, letters);
        Ok(Grid {
            nanoseconds: picture.tick,
            width,
            plot,
            step: step_of(letters),
            from: window.from,
            to: window.to,
            cell: cell_of(window.ticks(), plot),
        })
    }

    /// Returns the nanoseconds of a tick, or `None` if they are not known.
    pub fn nanoseconds(&self) -> Option<u64>
        ensures { result ≡ self.now.nanoseconds }
    {
        self.nanoseconds
    }

    /// Returns the width of the widest name.
    pub fn width(&self) -> u64
        ensures { result ≡ self.now.width }
    {
        self.width
    }

    /// Returns the number of columns from one numbered tick to the next: 10 to 30.
    pub fn step(&self) -> u64
        ensures value { result ≡ self.now.step }
        ensures apart { 10 ≤ result }
        ensures near { result ≤ 30 }
    {
        self.step
    }

    /// Returns the first tick.
    pub fn from(&self) -> u64
        ensures { result ≡ self.now.from }
    {
        self.from
    }

    /// Returns the tick after the last one.
    pub fn to(&self) -> u64
        ensures { result ≡ self.now.to }
    {
        self.to
    }

    /// Returns how many ticks a column has.
    pub fn cell(&self) -> u64
        ensures { result ≡ self.now.cell }
    {
        self.cell
    }

    /// Returns whether each column is one tick.
    pub fn is_fine(&self) -> bool
        ensures { result ≡ is_fine self.now }
    {
        self.cell == 1
    }

    /// Returns the first tick of a column, or 2^64 - 1 if it would be greater.
    pub fn tick(&self, column: u64) -> u64
        requires { column ≤ 200000 }
        ensures { result ≡ tick_of self.now column }
    {
        self.from.saturating_add(column * self.cell)
    }

    /// Returns the tick after the last one of a column.
    pub fn end(&self, column: u64) -> u64
        requires { column < 200000 }
        ensures value { result ≡ end_of self.now column }
        ensures short { result ≤ tick_of self.now column + 20000 }
    {
        self.tick(column + 1).min(self.to)
    }

    /// Returns how many columns there are: at most 20,000.
    fn columns(&self) -> u64
        ensures value { result ≡ columns_of self.now }
        ensures few { result ≤ 20000 }
    {
        self.to.saturating_sub(self.from).div_ceil(self.cell)
    }

    /// Returns how many blocks there are: at most 2,000.
    pub fn blocks(&self) -> u64
        ensures value { result ≡ blocks_of self.now }
        ensures few { result ≤ 2000 }
    {
        self.columns().div_ceil(self.plot)
    }

    /// Returns the first column of a block.
    pub fn first(&self, block: u64) -> u64
        requires { block ≤ 2000 }
        ensures value { result ≡ first_of self.now block }
        ensures small { result ≤ 120000 }
    {
        block * self.plot
    }

    /// Returns how many columns a block has: at most 60.
    pub fn count(&self, block: u64) -> u64
        requires { block ≤ 2000 }
        ensures value { result ≡ count_of self.now block }
        ensures few { result ≤ 60 }
    {
        self.columns()
            .saturating_sub(self.first(block))
            .min(self.plot)
    }
}
