//! The completion of a job.

/// The completion of job `seq` of `server`, with its result.
#[derive(Clone, Copy, Debug, PartialEq, Eq)]
pub struct Completion {
    /// The server whose job it was.
    pub server: u16,
    /// The job's number among the accepted jobs of its server, from 0.
    pub seq: u64,
    /// The output of the job after its last unit.
    pub result: u64,
}
