//! The ticks that a picture shows.

ghost use Rattle.std.specs.Prelude.{◌≡◌, ◌-◌, ◌<◌};

use std::fmt;
use thiserror::Error;

/// The greatest number of ticks of a short window: of one that text or SVG shows.
pub const MOST_TICKS: u64 = 20_000;

/// The ticks from `from` up to `to`, without `to`: at least one.
#[derive(Clone, Copy, Debug, PartialEq, Eq)]
pub struct Window {
    /// The first tick.
    pub from: u64,
    /// The tick after the last one.
    pub to: u64,
    ghost some: { from < to },
}

/// The reason why ticks make no window.
#[derive(Clone, Copy, Debug, PartialEq, Eq, Error)]
pub enum WindowError {
    /// There is no tick from `from` up to `to`.
    #[error("there is no tick to show")]
    Empty,
    /// There are more than [`MOST_TICKS`] ticks, and a short window is wanted.
    #[error("at most 20000 ticks are shown at a time")]
    TooLong,
}

impl Window {
    ghost use Rattle.cbsrun_window.specs.Windows.{AnswersLong, AnswersWindow, ends_tick, has_tick, ticks_of};

    /// Returns the short window of the ticks from `from` up to `to`. Refuses if there is no such tick, or more than
    /// [`MOST_TICKS`].
    pub fn new(from: u64, to: u64) -> Result<Window, WindowError>
        ensures { AnswersWindow from to result }
    {
        if to <= from {
            return Err(WindowError::Empty);
        }
        if to - from > MOST_TICKS {
            return Err(WindowError::TooLong);
        }
        Ok(Window { from, to })
    }

    /// Returns the window of the ticks from `from` up to `to`, however many they are. Refuses if there is no such tick.
    pub fn long(from: u64, to: u64) -> Result<Window, WindowError>
        ensures { AnswersLong from to result }
    {
        if to <= from {
            return Err(WindowError::Empty);
        }
        Ok(Window { from, to })
    }

    /// Returns how many ticks the window has.
    pub fn ticks(&self) -> u64
        ensures value { result ≡ ticks_of self.now }
        ensures some { 0 < result }
    {
        self.to - self.from
    }

    /// Returns whether the window has the tick `tick`.
    pub fn has(&self, tick: u64) -> bool
        ensures { result ≡ has_tick self.now tick }
    {
        self.from <= tick && tick < self.to
    }

    /// Returns whether a tick of the window ends when the clock comes to `clock`.
    pub fn ends(&self, clock: u64) -> bool
        ensures { result ≡ ends_tick self.now clock }
    {
        self.from < clock && clock <= self.to
    }
}
