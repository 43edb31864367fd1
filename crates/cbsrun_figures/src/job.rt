//! Jobs that wait to be finished, and jobs that are.

ghost use Rattle.std.specs.Prelude.{◌≡◌, ◌-◌};
ghost use Rattle.cbsrun_figures.specs.Figures.{response};

/// An accepted job.
#[derive(Clone, Copy)]
pub struct AcceptedJob {
    /// The tick at which the job came.
    pub came: u64,
    /// Within how many ticks of its arrival the job is to be finished, if that is wanted.
    pub within: Option<u64>,
    /// The tick by which the job was promised to be finished, if one was promised.
    pub promised: Option<u128>,
}

impl AcceptedJob {
    /// Returns how many ticks after the job's arrival the tick `now` is.
    pub fn age(&self, now: u64) -> u64
        ensures { result ≡ now - self.now.came }
    {
        now.saturating_sub(self.came)
    }
}

/// A finished job, with the tick at which it ended.
#[derive(Clone, Copy)]
pub struct Finish {
    /// The job.
    pub job: AcceptedJob,
    /// The clock after the job's last unit and all that was charged for that unit.
    pub at: u64,
}

impl Finish {
    /// Returns the job's response time: how many ticks after its arrival it ended.
    pub fn response(&self) -> u64
        ensures { result ≡ response self.now }
    {
        self.job.age(self.at)
    }
}
