//! The jobs of one server.

ghost use Rattle.std.specs.Prelude.{◌≡◌, ◌++◌, ◌∷◌, [], IfOk, OnOk, true};
ghost use Rattle.std.specs.Option.{option_map};
ghost use Rattle.cbsrun_events.specs.declared.seen.Event.{Event};
ghost use Rattle.cbsrun_chart.specs.Jobs.{all_jobs, are_in_turn, completions, finished_at, is_shown, job_numbered, job_of};
ghost use Rattle.cbsrun_chart.specs.Jobs.{jobs_after, jobs_after_run, jobs_settled, late_stretch, no_jobs};

use cbs_steps::Ran;
use cbsrun_events::{Arrival, Event};
use cbsrun_window::{Kind, Stretch, Window};
use std::alloc::{AllocError, Global};
use std::collections::VecDeque;
use std::marker::Model;

/// An accepted job.
#[derive(Clone, Copy)]
pub struct ChartJob {
    /// The number of the job among the accepted jobs of its server, from 0.
    pub number: u64,
    /// The tick at which the job came.
    pub came: u64,
    /// How many units the job has.
    pub units: u32,
    /// Within how many ticks of its arrival the job is to be finished, if that is wanted.
    pub within: Option<u64>,
    /// The tick by which the job was promised to be finished, if one was promised.
    pub promised: Option<u128>,
    /// The tick at which the job ended, if it did: the clock after its last unit and all that was charged for that
    /// unit.
    pub finish: Option<u64>,
}

/// Returns the job with this number, or `None` if it is not among the jobs.
pub fn job_numbered(number: u64, jobs: &[ChartJob]) -> Option<ChartJob>
    ensures { result ≡ job_numbered number jobs.now }
{
    jobs.iter().copied().find(|job| job.number == number)
}

/// Returns whether the numbers of jobs go on by one from each job to the next.
pub fn are_in_turn(jobs: &[ChartJob]) -> bool
    ensures { result ≡ are_in_turn jobs.now }
{
    let Some(first) = jobs.first() else {
        return true;
    };
    for (place, job) in jobs.iter().enumerate() {
        if job.number.checked_sub(first.number) != Some(place as u64) {
            return false;
        }
    }
    true
}

/// Returns the job with this number, or `None` if it is not among the jobs, whose numbers go on by one. Looks at one job,
/// however many there are.
pub fn job_in_turn(number: u64, jobs: &[ChartJob]) -> Option<ChartJob>
    requires { are_in_turn jobs.now ≡ true }
    ensures { result ≡ job_numbered number jobs.now }
{
    match jobs.first() {
        Some(first) if first.number <= number => {
            jobs.get((number - first.number) as usize).copied()
        }
        _ => None,
    }
}

/// Returns the ticks up to the window's end at which these jobs ended. The only error is out of memory.
pub(crate) fn completions_of(
    alloc: Global,
    window: Window,
    jobs: &[ChartJob],
) -> Result<Vec<u64>, AllocError>
    ensures { IfOk result (λ ticks. ticks.items ≡ completions window jobs.now) }
{
    let mut ticks = Vec::new(alloc);
    for job in jobs {
        match job.finish {
            Some(finish) if finish <= window.to => ticks.push(finish)?,
            _ => {}
        }
    }
    Ok(ticks)
}

/// The jobs of one server that a window shows, and the jobs that wait.
#[derive(Drop)]
pub(crate) struct Jobs {
    finished: Vec<ChartJob>,
    // The job that the newest unit finished: a charge for that unit puts its end off.
    newest: Option<ChartJob>,
    // The oldest first.
    waiting: VecDeque<ChartJob>,
}

impl Model for Jobs {
    ghost use Rattle.cbsrun_chart.specs.Jobs.{JobsSeen};

    ghost Value = { JobsSeen };

    ghost view = { λ j. record { finished = j.finished.items; newest = j.newest; waiting = j.waiting.items } };
}

/// Returns the job that was accepted.
fn job_of(job: Arrival, number: u64, promised: Option<u128>) -> ChartJob
    ensures { result ≡ job_of job number promised }
{
    ChartJob {
        number,
        came: job.came,
        units: job.units,
        within: job.within,
        promised,
        finish: None,
    }
}

impl ChartJob {
    /// Returns the job, finished at the tick `clock`.
    fn finished_at(self, clock: u64) -> ChartJob
        ensures { result ≡ finished_at clock self }
    {
        ChartJob {
            finish: Some(clock),
            ..self
        }
    }

    /// Returns whether the job is unfinished in some tick of the window.
    fn is_shown(&self, window: Window) -> bool
        ensures { result ≡ is_shown window self.now }
    {
        let open = match self.finish {
            Some(finish) => window.from < finish,
            None => true,
        };
        open && self.came < window.to
    }

    /// Returns the ticks in which the job is late, in a run that ends at the tick `end`.
    pub(crate) fn late(&self, end: u64) -> Stretch
        ensures { result ≡ late_stretch end self.now }
    {
        let to = self.finish.unwrap_or(end);
        Stretch {
            kind: Kind::Late,
            from: match self.within {
                Some(within) => self.came.saturating_add(within),
                None => to,
            },
            to,
        }
    }
}

impl Jobs {
    /// Returns an empty list of jobs.
    pub fn new(alloc: Global) -> Jobs
        ensures { result ≡ no_jobs }
    {
        Jobs {
            finished: Vec::new(alloc),
            newest: None,
            waiting: VecDeque::new(alloc),
        }
    }

    /// Keeps the newest finished job if the window shows it: nothing can put its end off any more. Refuses if out of
    /// memory.
    fn settle(&mut self, window: Window) -> Result<(), AllocError>
        ensures { OnOk result (self.new ≡ jobs_settled window self.old) }
    {
        let Some(job) = self.newest.take() else {
            return Ok(());
        };
        if job.is_shown(window) {
            self.finished.push(job)?;
        }
        Ok(())
    }

    /// Adds a run, after which the clock is at `clock`. The last unit of a job finishes the oldest one that waits.
    /// Refuses if out of memory.
    fn run(&mut self, window: Window, clock: u64, ran: Ran) -> Result<(), AllocError>
        ensures { OnOk result (self.new ≡ jobs_after_run window clock ran self.old) }
    {
        self.settle(window)?;
        if let Ran::Done(_) = ran {
            self.newest = self.waiting.pop_front().map(|job| job.finished_at(clock));
        }
        Ok(())
    }

    /// Puts the end of the newest finished job off to the tick `clock`, if there is such a job.
    fn put_off(&mut self, clock: u64)
        ensures { self.new ≡ record self.old {
          newest = option_map (finished_at clock)
              self.old.newest;
        } }
    {
        self.newest = self.newest.map(|job| job.finished_at(clock));
    }

    /// Adds a step, after which the clock is at `clock`. Refuses if out of memory.
    #[inline]
    pub fn add(&mut self, window: Window, clock: u64, event: Event) -> Result<(), AllocError>
        ensures { OnOk result (self.new ≡ jobs_after window clock event self.old) }
    {
        match event {
            Event::Accepted {
                job,
                number,
                promised,
            } => self.waiting.push_back(job_of(job, number, promised))?,
            Event::Ran(ran) => self.run(window, clock, ran)?,
            Event::Charged { .. } => self.put_off(clock),
            _ => {}
        }
        Ok(())
    }

    /// Returns the jobs that the window shows: the finished ones, and after them those that wait. The only error is out
    /// of memory.
    pub fn into_all(mut self, window: Window) -> Result<Vec<ChartJob>, AllocError>
        ensures { IfOk result (λ all. all.items ≡ all_jobs window self) }
    {
        self.settle(window)?;
        let Jobs {
            finished: mut all,
            newest: _,
            mut waiting,
        } = self;
        while let Some(job) = waiting.pop_front() {
            if job.is_shown(window) {
                all.push(job)?;
            }
        }
        Ok(all)
    }
}
