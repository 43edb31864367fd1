//! The jobs of one server.

ghost use Rattle.std.specs.Prelude.{◌≡◌, OnOk};
ghost use Rattle.cbsrun_csv.specs.Jobs.{jobs_after, jobs_after_run, jobs_charged, no_jobs, settled};

use crate::job::CsvJob;
use cbs_steps::Ran;
use cbsrun_events::Event;
use std::alloc::{AllocError, Global};
use std::collections::VecDeque;
use std::marker::Model;

/// The jobs of one server.
#[derive(Drop)]
pub(crate) struct Jobs {
    // Those that units before the newest finished, in order.
    pub(crate) finished: Vec<CsvJob>,
    // The one that the newest unit finished: a charge for that unit puts its end off.
    pub(crate) newest: Option<CsvJob>,
    // The ticks that were charged for the units of the first job that waits.
    pub(crate) charged: u64,
    // Those that wait to be finished, the oldest first.
    pub(crate) waiting: VecDeque<CsvJob>,
    // The ticks at which the refused ones came, in order.
    pub(crate) refused: Vec<u64>,
}

impl Model for Jobs {
    ghost use Rattle.cbsrun_csv.specs.Jobs.{JobsSeen};

    ghost Value = { JobsSeen };

    ghost view = { λ j. record {
      finished = j.finished.items;
      newest = j.newest;
      charged = j.charged;
      waiting = j.waiting.items;
      refused = j.refused.items;
    } };
}

impl Jobs {
    /// Returns no jobs.
    pub fn new(alloc: Global) -> Jobs
        ensures { result ≡ no_jobs }
    {
        Jobs {
            finished: Vec::new(alloc),
            newest: None,
            charged: 0,
            waiting: VecDeque::new(alloc),
            refused: Vec::new(alloc),
        }
    }

    /// Adds the newest finished job, if there is one, to those before it: nothing can put its end off any more. Refuses
    /// if out of memory.
    #[inline]
    fn settle(&mut self) -> Result<(), AllocError>
        ensures { OnOk result (self.new ≡ settled self.old) }
    {
        if let Some(job) = self.newest.take() {
            self.finished.push(job)?;
        }
        Ok(())
    }

    /// Adds a run, after which the clock is at `clock`. The last unit of a job ends the oldest one that waits. Refuses
    /// if out of memory.
    #[inline]
    fn run(&mut self, clock: u64, ran: Ran) -> Result<(), AllocError>
        ensures { OnOk result (self.new ≡ jobs_after_run clock ran self.old) }
    {
        self.settle()?;
        if let Ran::Done(_) = ran {
            let charged = self.charged;
            self.newest = self
                .waiting
                .pop_front()
                .map(|job| job.ended(clock, charged));
            self.charged = 0;
        }
        Ok(())
    }

    /// Adds a charge of this many ticks for the newest unit, after which the clock is at `clock`.
    #[inline]
    fn charge(&mut self, clock: u64, ticks: u64)
        ensures { self.new ≡ jobs_charged clock ticks self.old.newest self.old }
    {
        match self.newest {
            Some(job) => self.newest = Some(job.put_off(clock, ticks)),
            None => self.charged = self.charged.saturating_add(ticks),
        }
    }

    /// Adds a step of the server, after which the clock is at `clock`. Refuses if out of memory.
    #[inline]
    pub fn add(&mut self, clock: u64, event: Event) -> Result<(), AllocError>
        ensures { OnOk result (self.new ≡ jobs_after clock event self.old) }
    {
        match event {
            Event::Accepted { job, number, .. } => self.waiting.push_back(CsvJob::of(job, number))?,
            Event::NotAccepted { job, .. } => self.refused.push(job.came)?,
            Event::Ran(ran) => self.run(clock, ran)?,
            Event::Charged { ticks, .. } => self.charge(clock, ticks),
            _ => {}
        }
        Ok(())
    }
}
