//! Releases.

ghost use Rattle.std.specs.Prelude.{◌≡◌};
ghost use Rattle.cbsrun_simulate.specs.Shown.{arrival_of};

use cbsrun_events::Arrival;

/// A job that a source releases.
#[derive(Clone, Copy, Debug, PartialEq, Eq)]
pub struct Release {
    /// The tick at which it comes.
    pub tick: u64,
    /// The place of the source that releases it, from 0.
    pub source: u16,
    /// The server that is to run the job.
    pub server: u16,
    /// How many units the job has.
    pub units: u32,
    /// The ticks that each of the units takes beyond its first.
    pub overrun: u64,
    /// Within how many ticks of its release the job is to be finished, if that is wanted.
    pub within: Option<u64>,
}

impl Release {
    /// Returns the job of the release, as a view sees it when it comes.
    #[inline(always)]
    pub fn arrival(&self) -> Arrival
        ensures { result ≡ arrival_of self.now }
    {
        Arrival {
            server: self.server,
            came: self.tick,
            units: self.units,
            within: self.within,
        }
    }
}
