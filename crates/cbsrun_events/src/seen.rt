//! Steps as a view sees them.

ghost use Rattle.std.specs.Prelude.{◌≡◌};
ghost use Rattle.cbsrun_events.specs.Events.{server_of_unit, server_of, ticks_of_run, ticks_of, begun};

use cbs_steps::{CoreError, Ran, ServerView};

/// A job as a view sees it when it comes.
#[derive(Clone, Copy, Debug, PartialEq, Eq)]
pub struct Arrival {
    /// The server that is to run the job.
    pub server: u16,
    /// The tick at which the job came: the tick of its release, or of its submit if nothing released it.
    pub came: u64,
    /// How many units the job has.
    pub units: u32,
    /// Within how many ticks of its arrival the job is to be finished, if that is wanted.
    pub within: Option<u64>,
}

/// The effect of a step.
#[derive(Clone, Copy, Debug, PartialEq, Eq)]
pub enum Event {
    /// A job was accepted.
    Accepted {
        /// The job.
        job: Arrival,
        /// The number of the job among the accepted jobs of its server, from 0.
        number: u64,
        /// The tick by which all jobs that the server has accepted are finished, as long as nobody is charged.
        promised: Option<u128>,
    },
    /// A job was refused.
    NotAccepted {
        /// The job.
        job: Arrival,
        /// Why it was refused.
        error: CoreError,
    },
    /// A unit was run, or none.
    Ran(Ran),
    /// This many ticks passed.
    Advanced(u64),
    /// This many ticks were to pass, but did not.
    NotAdvanced(u64, CoreError),
    /// A server was closed.
    Closed(u16),
    /// A server was to be closed, but was not.
    NotClosed(u16, CoreError),
    /// A server was charged this many ticks, and they passed.
    Charged {
        /// The server.
        server: u16,
        /// How many ticks.
        ticks: u64,
    },
    /// A server was to be charged, but was not.
    NotCharged {
        /// The server.
        server: u16,
        /// How many ticks.
        ticks: u64,
        /// Why the server was not charged.
        error: CoreError,
    },
}

/// Returns the server of a unit, or `None` if none ran.
#[inline]
fn server_of_unit(ran: Ran) -> Option<u16>
    ensures { result ≡ server_of_unit ran }
{
    match ran {
        Ran::Unit { server, .. } => Some(server),
        Ran::Done(done) => Some(done.server),
        Ran::Idle | Ran::ClockEnd => None,
    }
}

/// Returns the ticks that a run takes: 1 if it ran a unit, else 0.
#[inline]
pub fn ticks_of_run(ran: Ran) -> u64
    ensures { result ≡ ticks_of_run ran }
{
    match ran {
        Ran::Unit { .. } | Ran::Done(_) => 1,
        Ran::Idle | Ran::ClockEnd => 0,
    }
}

impl Event {
    /// Returns the server of the step: the one that a job came for, that ran, or that was charged. Returns `None` if
    /// there is no such server.
    #[inline]
    pub fn server(&self) -> Option<u16>
        ensures { result ≡ server_of self.now }
    {
        match self {
            Event::Accepted { job, .. } | Event::NotAccepted { job, .. } => Some(job.server),
            Event::Ran(ran) => server_of_unit(*ran),
            Event::Charged { server, .. } => Some(*server),
            Event::Advanced(_)
            | Event::NotAdvanced(..)
            | Event::Closed(_)
            | Event::NotClosed(..)
            | Event::NotCharged { .. } => None,
        }
    }

    /// Returns the ticks that the step took.
    #[inline]
    pub fn ticks(&self) -> u64
        ensures { result ≡ ticks_of self.now }
    {
        match self {
            Event::Ran(ran) => ticks_of_run(*ran),
            Event::Advanced(ticks) | Event::Charged { ticks, .. } => *ticks,
            Event::Accepted { .. }
            | Event::NotAccepted { .. }
            | Event::NotAdvanced(..)
            | Event::Closed(_)
            | Event::NotClosed(..)
            | Event::NotCharged { .. } => 0,
        }
    }
}

/// A step as a view sees it.
#[derive(Clone, Copy)]
pub struct Seen {
    /// The clock after the step, in ticks.
    pub clock: u64,
    /// The effect of the step.
    pub event: Event,
    /// The view of the step's server after the step, if there is one.
    pub view: Option<ServerView>,
}

impl Seen {
    /// Returns the clock before the step.
    #[inline]
    pub fn begun(&self) -> u64
        ensures { result ≡ begun self.now }
    {
        self.clock.saturating_sub(self.event.ticks())
    }
}
