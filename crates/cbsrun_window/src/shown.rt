//! The ticks of a run that are shown.

ghost use Rattle.cbsrun_window.specs.Windows.{AnswersShown};

use crate::window::Window;
use std::fmt;
use thiserror::Error;

/// The error of a run that has none of the ticks to show, since it ends at or before the first of them.
#[derive(Clone, Copy, Debug, Error)]
#[error("the first tick to show is {from}, and the run ends at tick {end}")]
pub struct NothingShown {
    /// The first tick to show.
    pub from: u64,
    /// The tick at which the run ends.
    pub end: u64,
}

/// Returns those ticks of a window that a run has which ends at the tick `end`: the ticks before the end.
///
/// Refuses if the run has none of the window's ticks.
pub fn shown_of(asked: Window, end: u64) -> Result<Window, NothingShown>
    ensures { AnswersShown asked end result }
{
    if end <= asked.from {
        return Err(NothingShown {
            from: asked.from,
            end,
        });
    }
    Ok(Window {
        from: asked.from,
        to: asked.to.min(end),
    })
}
