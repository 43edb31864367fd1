//! What many runs of a load tell of one server.

ghost use Rattle.std.specs.Prelude.{◌≡◌};
ghost use Rattle.cbsrun_sweeps.specs.Servers.{is_in_time, joined, late_jobs, no_sweep, one_if, run_sweep, worse};

use cbsrun_figures::Figures;

/// The greatest response of a job, and the run that has it.
#[derive(Clone, Copy, Debug, PartialEq, Eq)]
pub struct Worst {
    /// The response, in ticks.
    pub response: u64,
    /// The seed of the first run that has it.
    pub seed: u64,
}

/// What many runs of a load tell of one server. Each count is given as at most 2^64 - 1.
#[derive(Clone, Copy, Debug, PartialEq, Eq)]
pub struct ServerSweep {
    /// In how many runs a job of the server is late.
    pub late_in: u64,
    /// The late jobs of all runs.
    pub late: u64,
    /// In how many runs a job of the server was refused.
    pub refused_in: u64,
    /// The refused jobs of all runs.
    pub refused: u64,
    /// The greatest response of a finished job, if there is one.
    pub worst: Option<Worst>,
}

/// Returns how many jobs are late.
fn late_jobs(figures: &Figures) -> u64
    ensures { result ≡ late_jobs figures.now }
{
    figures
        .late_finished
        .saturating_add(figures.late_unfinished)
}

/// Returns 1 if there are some, else 0.
fn one_if(count: u64) -> u64
    ensures { result ≡ one_if count }
{
    if count > 0 { 1 } else { 0 }
}

/// Returns the worse one of two responses, that of earlier runs and that of later ones. Of two that are equal, the
/// earlier one.
fn worse(earlier: Option<Worst>, later: Option<Worst>) -> Option<Worst>
    ensures { result ≡ worse earlier later }
{
    let Some(first) = earlier else {
        return later;
    };
    match later {
        Some(later) if later.response > first.response => Some(later),
        _ => earlier,
    }
}

impl ServerSweep {
    /// Returns what no runs tell.
    pub(crate) fn none() -> ServerSweep
        ensures { result ≡ no_sweep }
    {
        ServerSweep {
            late_in: 0,
            late: 0,
            refused_in: 0,
            refused: 0,
            worst: None,
        }
    }

    /// Returns what one run tells, with this seed and these figures of the server.
    pub(crate) fn of_run(seed: u64, figures: &Figures) -> ServerSweep
        ensures { result ≡ run_sweep seed figures.now }
    {
        let late = late_jobs(figures);
        ServerSweep {
            late_in: one_if(late),
            late,
            refused_in: one_if(figures.refused),
            refused: figures.refused,
            worst: figures.responses.map(|ranks| Worst {
                response: ranks.greatest,
                seed,
            }),
        }
    }

    /// Returns what these runs and later ones tell together.
    pub(crate) fn joined(self, later: ServerSweep) -> ServerSweep
        ensures { result ≡ joined self later }
    {
        ServerSweep {
            late_in: self.late_in.saturating_add(later.late_in),
            late: self.late.saturating_add(later.late),
            refused_in: self.refused_in.saturating_add(later.refused_in),
            refused: self.refused.saturating_add(later.refused),
            worst: worse(self.worst, later.worst),
        }
    }

    /// Returns whether no job of the server was late in any run, or refused.
    pub(crate) fn is_in_time(&self) -> bool
        ensures { result ≡ is_in_time self.now }
    {
        self.late_in == 0 && self.refused_in == 0
    }
}
