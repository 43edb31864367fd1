//! The figures of one server.

/// Response times by their ranks, in ticks.
#[derive(Clone, Copy, Debug, PartialEq, Eq)]
pub struct Ranks {
    /// The least.
    pub least: u64,
    /// The 50th percentile, by nearest rank.
    pub median: u64,
    /// The 95th percentile.
    pub p95: u64,
    /// The 99th percentile.
    pub p99: u64,
    /// The greatest.
    pub greatest: u64,
}

/// The figures of one server: what it was asked for, what it ran, and how its jobs ended. A count is given as at most
/// 2^64 - 1, and a sum of ticks as at most 2^128 - 1.
#[derive(Clone, Copy, Debug, PartialEq, Eq)]
pub struct Figures {
    /// The jobs that were refused.
    pub refused: u64,
    /// The accepted jobs that are finished.
    pub finished: u64,
    /// The accepted jobs that are not finished.
    pub unfinished: u64,
    /// The finished jobs that took more ticks than the number within which they were to be finished.
    pub late_finished: u64,
    /// The unfinished jobs that have taken at least the ticks within which they were to be finished.
    pub late_unfinished: u64,
    /// The greatest number of unfinished jobs after a step.
    pub greatest_backlog: u64,
    /// The units of all jobs that came, with those of refused jobs.
    pub asked: u64,
    /// The units that ran.
    pub run: u64,
    /// The units that used up the budget.
    pub used_up: u64,
    /// The ticks in which the server was throttled and had a job.
    pub throttled: u64,
    /// The ticks that the server was charged.
    pub charged: u64,
    /// The greatest charge, in ticks.
    pub greatest_charge: u64,
    /// The response times of the finished jobs by their ranks, if there are any. A response time is the ticks from a
    /// job's arrival to its end: the clock after its last unit and all that was charged for that unit.
    pub responses: Option<Ranks>,
    /// The response times added up.
    pub response_total: u128,
    /// How many finished jobs had been promised a tick at their acceptance.
    pub early_count: u64,
    /// The ticks by which these jobs were finished earlier than promised, added up. A job that was finished later
    /// counts as 0.
    pub early_total: u128,
    /// The least of these numbers of ticks, if there is one.
    pub early_least: Option<u128>,
}
