//! The content of a report.

ghost use Rattle.std.specs.Prelude.{◌≡◌, ◌^◌, ◌<◌};
ghost use Rattle.cbsrun_report_text.specs.Notes.{wanted};
ghost use Rattle.cbsrun_report_text.specs.Reports.{accepted, is_in_time, late, released};
ghost use Rattle.cbsrun_report_text.specs.Tables.{is_asked_too_much};

use cbs_rate::{Bandwidth, Bound, Reservation};
use cbs_rules::Mode;
use cbsrun_figures::Figures;
use cbsrun_simulate::Range;

/// The content of a report on one server.
#[derive(Drop)]
pub struct ServerReport {
    /// Its name.
    pub name: String,
    /// Its mode.
    pub mode: Mode,
    /// Its reservation.
    pub reservation: Reservation,
    /// Within how many ticks of their arrival the server's jobs are to be finished, if that is wanted: from the least
    /// number to the greatest.
    pub within: Option<Range>,
    /// Its figures.
    pub figures: Figures,
}

/// The content of a report.
#[derive(Drop)]
pub struct RunReport {
    /// The name of the file that was run.
    pub file: String,
    /// The nanoseconds of a tick, if the file says how long it is.
    pub tick: Option<u64>,
    /// The seed of the numbers that were drawn, if any were.
    pub seed: Option<u64>,
    /// The clock at the end.
    pub clock: u64,
    /// The number of ticks in which nobody ran.
    pub idle: u64,
    /// How many accepted, unfinished jobs a server may have.
    pub backlog: u64,
    /// The bound on the share of the time that may be reserved.
    pub bound: Bound,
    /// The share of the time that is reserved for all servers together.
    pub reserved: Bandwidth,
    /// The servers, by number: at most 64.
    pub servers: Vec<ServerReport>,
}

impl ServerReport {
    /// Returns how many jobs are late.
    pub(crate) fn late(&self) -> u128
        ensures value { result ≡ late self.now.figures }
        ensures small { result < 2 ^ 66 }
    {
        u128::from(self.figures.late_finished) + u128::from(self.figures.late_unfinished)
    }

    /// Returns how many jobs were accepted.
    pub(crate) fn accepted(&self) -> u128
        ensures value { result ≡ accepted self.now.figures }
        ensures small { result < 2 ^ 65 }
    {
        u128::from(self.figures.finished) + u128::from(self.figures.unfinished)
    }

    /// Returns how many jobs came.
    pub fn released(&self) -> u128
        ensures value { result ≡ released self.now.figures }
        ensures small { result < 2 ^ 66 }
    {
        u128::from(self.figures.refused) + self.accepted()
    }

    /// Returns how many ticks the server was asked for: the units of its jobs, and the ticks that it was charged.
    pub(crate) fn wanted(&self) -> u128
        ensures value { result ≡ wanted self.now }
        ensures small { result < 2 ^ 65 }
    {
        u128::from(self.figures.asked) + u128::from(self.figures.charged)
    }

    /// Returns whether no job is late, and none was refused.
    pub fn is_in_time(&self) -> bool
        ensures { result ≡ is_in_time self.now.figures }
    {
        self.late() == 0 && self.figures.refused == 0
    }

    /// Returns whether the server was asked for more than its share of the time, and a job of it is late or was
    /// refused.
    pub(crate) fn is_asked_too_much(&self, clock: u64) -> bool
        ensures { result ≡ is_asked_too_much clock self.now }
    {
        let asked = u128::from(self.figures.asked) * u128::from(self.reservation.period());
        let share = u128::from(self.reservation.budget()) * u128::from(clock);
        !self.is_in_time() && share < asked
    }
}
