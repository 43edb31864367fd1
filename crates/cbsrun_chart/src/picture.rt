//! The content of a picture.

ghost use Rattle.std.specs.Prelude.{◌≡◌, bytes_eq, map, string_bytes};
ghost use Rattle.std.specs.List.{list_any};
ghost use Rattle.cbsrun_chart.specs.Chosen.{IsChosen, is_named};

use crate::chart::ServerChart;
use cbs_rate::{Bandwidth, Reservation};
use cbs_rules::Mode;
use cbsrun_window::{Stretch, Window};

/// A server that is drawn.
#[derive(Drop)]
pub struct Drawn {
    /// Its name.
    pub name: String,
    /// Its mode.
    pub mode: Mode,
    /// Its reservation.
    pub reservation: Reservation,
    /// What the window shows of it.
    pub chart: ServerChart,
}

/// The content of a picture of a run.
#[derive(Drop)]
pub struct Picture {
    /// The name of the file that was run.
    pub file: String,
    /// The share of the time that is reserved for all servers together.
    pub reserved: Bandwidth,
    /// The window.
    pub window: Window,
    /// The clock at the end of the run.
    pub end: u64,
    /// The nanoseconds of a tick, or `None` if the file does not say how long a tick is.
    pub tick: Option<u64>,
    /// The ticks in which nobody runs.
    pub idle: Vec<Stretch>,
    /// The servers that are drawn, by number.
    pub servers: Vec<Drawn>,
    /// How many other servers the run has.
    pub others: u64,
}

/// Returns whether a name is among these.
fn is_among(names: &[String], name: &str) -> bool
    ensures { result ≡ list_any (λ one. bytes_eq (string_bytes one) name.now) names.now }
{
    names.iter().any(|one| one.as_str() == name)
}

/// Returns whether a server has one of these names.
fn is_named(names: &[String], server: &Drawn) -> bool
    ensures { result ≡ is_named (map string_bytes names.now) server.now }
{
    is_among(names, &server.name)
}

impl Picture {
    /// Returns the picture of those of its servers alone that have one of these names, in their order. Without names, this
    /// is the picture itself.
    pub fn chosen(mut self, names: &[String]) -> Picture
        ensures { IsChosen (map string_bytes names.now) self result }
    {
        if names.is_empty() {
            return self;
        }
        let count = self.servers.len() as u64;
        self.servers.retain(|server| is_named(names, server));
        let left_out = count - self.servers.len() as u64;
        self.others = self.others.saturating_add(left_out);
        self
    }
}
