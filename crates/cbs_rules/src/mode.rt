//! The rules that a server follows.

/// What happens to a server that has used its whole budget.
#[derive(Clone, Copy, Debug, Default, PartialEq, Eq)]
pub enum Mode {
    /// The server gets a whole budget at once, and its deadline is postponed by one period: it may use time that no
    /// other server needs. This is the Constant Bandwidth Server of Abeni and Buttazzo, RTSS 1998.
    #[default]
    Soft,
    /// The server waits until its deadline, and is then replenished. It gets one budget for each deadline, and no more
    /// before that deadline has come. Modelled on Linux's SCHED_DEADLINE.
    Throttled,
}
