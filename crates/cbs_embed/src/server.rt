//! A server as a host describes it.

/// A server: its reservation and its mode.
#[repr(C)]
#[derive(Clone, Copy, Debug, PartialEq, Eq)]
pub struct Server {
    /// The budget, in ticks.
    pub budget: u64,
    /// The period, in ticks.
    pub period: u64,
    /// The mode: 0 soft, 1 throttled.
    pub mode: u32,
}
