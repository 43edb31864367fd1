//! A job, and what its line tells of it.

ghost use Rattle.std.specs.Prelude.{◌≡◌};
ghost use Rattle.cbsrun_csv.specs.Jobs.{ended, is_late, job_of, put_off, response_of, with_charged};

use cbsrun_events::Arrival;
use cbsrun_figures::exceeds;

/// An accepted job.
#[derive(Clone, Copy)]
pub(crate) struct CsvJob {
    /// The number of the job among the accepted jobs of its server, from 0.
    pub number: u64,
    /// The tick at which the job came.
    pub came: u64,
    /// Within how many ticks of its arrival the job is to be finished, if that is wanted.
    pub within: Option<u64>,
    /// The ticks that the server was charged for the job's units, at most 2^64 - 1.
    pub charged: u64,
    /// The tick at which the job ended, if it did: the clock after its last unit and all that was charged for that
    /// unit.
    pub finish: Option<u64>,
}

impl CsvJob {
    /// Returns the job that was accepted.
    pub fn of(job: Arrival, number: u64) -> CsvJob
        ensures { result ≡ job_of job number }
    {
        CsvJob {
            number,
            came: job.came,
            within: job.within,
            charged: 0,
            finish: None,
        }
    }

    /// Returns the job, for whose units the server was charged this many ticks.
    pub fn with_charged(self, charged: u64) -> CsvJob
        ensures { result ≡ with_charged charged self }
    {
        CsvJob { charged, ..self }
    }

    /// Returns the job, ended at the tick `clock`. For its units the server was charged this many ticks.
    pub fn ended(self, clock: u64, charged: u64) -> CsvJob
        ensures { result ≡ ended clock charged self }
    {
        CsvJob {
            charged,
            finish: Some(clock),
            ..self
        }
    }

    /// Returns the job, whose end a charge of this many ticks put off to the tick `clock`.
    pub fn put_off(self, clock: u64, ticks: u64) -> CsvJob
        ensures { result ≡ put_off clock ticks self }
    {
        CsvJob {
            charged: self.charged.saturating_add(ticks),
            finish: Some(clock),
            ..self
        }
    }

    /// Returns how many ticks after its arrival the job ended, or `None` if it is unfinished.
    pub fn response(&self) -> Option<u64>
        ensures { result ≡ response_of self.now }
    {
        let finish = self.finish?;
        Some(finish.saturating_sub(self.came))
    }

    /// Returns whether the job is late, in a run that ends at the tick `end`: it took more ticks than wanted, or is
    /// unfinished and has taken as many already.
    pub fn is_late(&self, end: u64) -> bool
        ensures { result ≡ is_late end self.now }
    {
        if let Some(response) = self.response() {
            return exceeds(response, self.within);
        }
        match self.within {
            Some(within) => within <= end.saturating_sub(self.came),
            None => false,
        }
    }
}
