//! The view of a server.

/// The budget, deadline, flags and counts of one server.
#[derive(Clone, Copy, Debug, PartialEq, Eq)]
pub struct ServerView {
    /// The ticks that the server may still use, at most the budget of its reservation.
    pub budget: u64,
    /// The tick by which the server may use its budget.
    pub deadline: u128,
    /// Whether the server waits for its replenishment.
    pub throttled: bool,
    /// Whether the server accepts no further job.
    pub closed: bool,
    /// The number of jobs that the server accepted.
    pub accepted: u64,
    /// The number of accepted jobs that are finished.
    pub finished: u64,
}
