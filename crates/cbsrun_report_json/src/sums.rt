//! Figures of several servers, added up.

ghost use Rattle.std.specs.Prelude.{◌≡◌};
ghost use Rattle.cbsrun_report_text.specs.Reports.{sum_of};
ghost use Rattle.cbsrun_json.specs.Members.{told};
ghost use Rattle.cbsrun_report_json.specs.Json.{figure_of};

use cbsrun_json::told;
use cbsrun_report_text::ServerReport;

/// A figure that is added up over servers.
#[derive(Clone, Copy)]
pub(crate) enum Sum {
    /// The jobs that came.
    Released,
    /// The jobs that were refused.
    Refused,
    /// The accepted jobs that are finished.
    Finished,
    /// The accepted jobs that are not finished.
    Unfinished,
    /// The finished jobs that are late.
    LateFinished,
    /// The unfinished jobs that are late.
    LateUnfinished,
    /// The units that ran.
    Run,
    /// The ticks that were charged.
    Charged,
}

impl Sum {
    /// Returns this figure of one server.
    fn of_server(self, server: &ServerReport) -> u128
        ensures { result ≡ figure_of self server.now.figures }
    {
        let figures = &server.figures;
        match self {
            Sum::Released => server.released(),
            Sum::Refused => u128::from(figures.refused),
            Sum::Finished => u128::from(figures.finished),
            Sum::Unfinished => u128::from(figures.unfinished),
            Sum::LateFinished => u128::from(figures.late_finished),
            Sum::LateUnfinished => u128::from(figures.late_unfinished),
            Sum::Run => u128::from(figures.run),
            Sum::Charged => u128::from(figures.charged),
        }
    }

    /// Returns the sum of this figure over servers, or 2^64 - 1 if the sum is greater.
    pub(crate) fn of(self, servers: &[ServerReport]) -> u64
        ensures { result ≡ told (sum_of (figure_of self) servers.now) }
    {
        let mut sum: u64 = 0;
        for server in servers {
            sum = sum.saturating_add(told(self.of_server(server)));
        }
        sum
    }
}
