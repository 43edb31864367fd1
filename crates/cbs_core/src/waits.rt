//! The first ticks for which throttled servers wait.

ghost use Rattle.std.specs.Prelude.{◌≡◌};
ghost use Rattle.cbs_core.specs.Waiting.{IsNoted};
ghost use Rattle.cbs_steps.specs.Waiting.{most};

use crate::server::Server;

/// The first ticks for which the throttled servers wait, each `u64::MAX` if there is no such server.
#[derive(Clone, Copy)]
pub struct Waits {
    /// The tick before which no server is due for replenishment.
    pub due: u64,
    /// The least deadline of the throttled servers that have a job.
    pub wakes: u64,
}

impl Waits {
    /// Returns the ticks if no server waits.
    pub fn new() -> Self
        ensures { result ≡ record { due = most; wakes = most } }
    {
        Waits {
            due: u64::MAX,
            wakes: u64::MAX,
        }
    }

    /// Takes a server into account, if it is throttled.
    pub fn note(&mut self, it: &Server)
        ensures { IsNoted self.old it.now self.new }
    {
        if !it.is_throttled() {
            return;
        }
        let tick = u64::try_from(it.deadline()).unwrap_or(u64::MAX);
        self.due = self.due.min(tick);
        if it.is_active() {
            self.wakes = self.wakes.min(tick);
        }
    }
}
