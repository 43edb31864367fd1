//! The drawing of a run that a command line asks for.

ghost use Rattle.cbsrun_options.specs.Fits.{Fits};

use crate::actions::Drawing;
use cbsrun_window::Window;

/// The drawing of a run that a command line asks for.
#[derive(Clone, Copy, PartialEq, Eq)]
pub struct RunDrawing {
    /// The form in which the run is drawn.
    pub drawing: Drawing,
    /// The ticks that are asked for: however many for a trace, and else a short window.
    pub ticks: Window,
    /// Whether the command line says where the ticks end.
    pub bounded: bool,
    ghost fits: { Fits drawing ticks },
}
