//! Figures of all servers, added up.

ghost use Rattle.std.specs.Prelude.{◌≡◌, ◌^◌, ◌<◌, ◌≤◌, length};
ghost use Rattle.cbsrun_report_text.specs.Reports.{figure_of, sum_of};

use crate::report::ServerReport;

/// A figure that is added up over all servers.
#[derive(Clone, Copy)]
pub(crate) enum Total {
    /// The jobs that came.
    Released,
    /// The jobs that were refused.
    Refused,
    /// The accepted jobs that are finished.
    Finished,
    /// The accepted jobs that are not finished.
    Unfinished,
    /// The accepted jobs that are late.
    Late,
    /// The units of all jobs that came.
    Asked,
    /// The units that ran.
    Run,
    /// The units that used up a budget.
    UsedUp,
    /// The ticks in which a server was throttled and had a job.
    Throttled,
    /// The ticks that were charged.
    Charged,
}

impl Total {
    /// Returns this figure of one server.
    fn of_server(self, server: &ServerReport) -> u128
        ensures value { result ≡ figure_of self server.now.figures }
        ensures small { result < 2 ^ 66 }
    {
        let figures = &server.figures;
        match self {
            Total::Released => server.released(),
            Total::Refused => u128::from(figures.refused),
            Total::Finished => u128::from(figures.finished),
            Total::Unfinished => u128::from(figures.unfinished),
            Total::Late => server.late(),
            Total::Asked => u128::from(figures.asked),
            Total::Run => u128::from(figures.run),
            Total::UsedUp => u128::from(figures.used_up),
            Total::Throttled => u128::from(figures.throttled),
            Total::Charged => u128::from(figures.charged),
        }
    }

    /// Returns the sum of this figure over at most 64 servers.
    pub(crate) fn of(self, servers: &[ServerReport]) -> u128
        requires { length servers.now ≤ 64 }
        ensures value { result ≡ sum_of (figure_of self) servers.now }
        ensures small { result ≤ 2 ^ 72 }
    {
        let mut sum = 0;
        for server in servers {
            sum += self.of_server(server);
        }
        sum
    }
}
