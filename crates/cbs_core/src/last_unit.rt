//! The server of the last unit, what was charged for the unit, and whether its job is unfinished.

ghost use Rattle.std.specs.Prelude.{◌≡◌, ◌+◌, ◌<◌, ◌≤◌, ◌^◌, ◌&&◌, not, eqb, false, true};
ghost use Rattle.cbs_core.specs.Held.{is_some_of, runner_at, charged_at};

/// The server of the last unit, what was charged for the unit, and whether its job is unfinished.
///
/// A run writes only the server, and whether the job is unfinished. The server runs as long as the clock differs from
/// the clock after the last advance.
#[derive(Clone, Copy)]
pub struct LastUnit {
    /// The server of the last unit, if there was one.
    pub server: u16,
    /// The clock after the last advance, 0 before the first.
    pub advanced_to: u64,
    /// The ticks of the last charge, and of the charges before it for the same unit.
    pub charged: u64,
    /// The clock after the last charge, 0 before the first.
    pub charged_to: u64,
    /// Whether the unit left its job unfinished, and the server has accepted no job since.
    pub unfinished: bool,
}

impl LastUnit {
    /// Returns the value before the first unit.
    pub fn new() -> LastUnit
        ensures { result ≡ record { server = 0; advanced_to = 0; charged = 0; charged_to = 0; unfinished = false } }
    {
        LastUnit {
            server: 0,
            advanced_to: 0,
            charged: 0,
            charged_to: 0,
            unfinished: false,
        }
    }

    /// Returns the server that runs at tick `now`, or `None` if none runs.
    pub fn running(&self, now: u64) -> Option<u16>
        ensures { result ≡ runner_at now self.now }
    {
        if self.advanced_to == now {
            None
        } else {
            Some(self.server)
        }
    }

    /// Returns whether `server` runs at tick `now`.
    pub fn is_of(&self, server: u16, now: u64) -> bool
        ensures { result ≡ is_some_of (runner_at now self.now) server }
    {
        self.advanced_to != now && self.server == server
    }

    /// Returns whether all of it is from tick `now` or before.
    pub fn is_early(&self, now: u64) -> bool
        ensures sound { result ≡ true → (self.now.advanced_to ≤ now) × (self.now.charged_to ≤ now)
            × (self.now.charged ≤ now) }
        ensures whole { self.now.advanced_to ≤ now → self.now.charged_to ≤ now
            → self.now.charged ≤ now → result ≡ true }
    {
        self.advanced_to <= now && self.charged_to <= now && self.charged <= now
    }

    /// Records that `server` accepted a job.
    pub fn join(&mut self, server: u16)
        ensures { self.new ≡ record self.old {
          unfinished = self.old.unfinished && not (eqb self.old.server server);
        } }
    {
        self.unfinished = self.unfinished && self.server != server;
    }

    /// Records a charge of `ticks` ticks at tick `now`. Returns how many ticks were charged for the unit in total.
    pub fn charge(&mut self, now: u64, ticks: u64) -> u64
        requires clock { now + ticks < 2 ^ 63 }
        requires few { self.old.charged < 2 ^ 63 }
        ensures charged { result ≡ charged_at now self.old + ticks }
        ensures kept { self.new ≡ record self.old {
          charged = charged_at now self.old + ticks;
          charged_to = now + ticks;
        } }
    {
        let before = if self.charged_to == now {
            self.charged
        } else {
            0
        };
        self.charged = before + ticks;
        self.charged_to = now + ticks;
        self.charged
    }
}
