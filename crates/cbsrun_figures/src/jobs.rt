//! The jobs of one server.

ghost use Rattle.std.specs.Prelude.{◌≡◌, [], None, IfOk, OnOk, length};
ghost use Rattle.cbsrun_figures.specs.Figures.{exceeds, overdue, put_off, uses};
ghost use Rattle.cbsrun_figures.specs.Tallies.{jobs_of, jobs_with, jobs_settled, jobs_without, jobs_after, jobs_after_run, settled_jobs, MakeFigures};

use crate::early::Early;
use crate::figures::Figures;
use crate::job::{AcceptedJob, Finish};
use crate::ranks::ranks_of;
use crate::sums::{Sums, count};
use cbs_steps::Ran;
use cbsrun_events::Event;
use std::alloc::{AllocError, Allocator, Global};
use std::collections::VecDeque;
use std::marker::Model;

/// The jobs of one server: those that wait, the one that the newest unit finished, the response times of those finished
/// before it, and sums.
#[derive(Drop)]
pub struct JobTally<A: Allocator = Global> {
    // The oldest first.
    jobs: VecDeque<AcceptedJob, A>,
    // When the first of these ended, if the newest unit finished it. It is not counted yet: a charge for that unit puts
    // its end off.
    ended: Option<u64>,
    responses: Vec<u64, A>,
    response_total: u128,
    greatest_backlog: usize,
    late: u64,
    early: Early,
}

impl<A: Allocator> Model for JobTally<A> {
    ghost use Rattle.std.specs.Prelude.{◌<◌, IfSome, length};
    ghost use Rattle.cbsrun_figures.specs.Tallies.{Jobs, newest_in, waiting_in};

    ghost Value = { Jobs };

    ghost invariant = { λ t. IfSome t.ended (λ _. 0 < length t.jobs.items) };

    ghost view = { λ t. record {
      waiting = waiting_in t.ended t.jobs.items;
      newest = newest_in t.ended t.jobs.items;
      responses = t.responses.items;
      response_total = t.response_total;
      greatest_backlog = t.greatest_backlog;
      late = t.late;
      early = t.early;
    } };
}

/// Returns whether a number of ticks is greater than the wanted one. Without a wanted number, returns `false`.
pub fn exceeds(ticks: u64, within: Option<u64>) -> bool
    ensures { result ≡ exceeds ticks within }
{
    match within {
        Some(within) => within < ticks,
        None => false,
    }
}

/// Returns whether a number of ticks is at least the wanted one. Without a wanted number, returns `false`.
fn uses(ticks: u64, within: Option<u64>) -> bool
    ensures { result ≡ uses ticks within }
{
    match within {
        Some(within) => within <= ticks,
        None => false,
    }
}

impl<A: Allocator + Clone> JobTally<A> {
    /// Returns the tally of no job.
    pub fn new(alloc: A) -> Result<JobTally<A>, AllocError>
        ensures { IfOk result (λ t. t ≡ jobs_of []) }
    {
        let other = alloc.clone()?;
        Ok(JobTally {
            jobs: VecDeque::new(other),
            ended: None,
            responses: Vec::new(alloc),
            response_total: 0,
            greatest_backlog: 0,
            late: 0,
            early: Early::new(),
        })
    }
}

impl<A: Allocator> JobTally<A> {
    /// Adds a job that was accepted. Refuses if out of memory.
    #[inline(always)]
    fn accept(&mut self, job: AcceptedJob) -> Result<(), AllocError>
        ensures { OnOk result (self.new ≡ jobs_with job self.old) }
    {
        self.jobs.push_back(job)?;
        self.greatest_backlog = self.greatest_backlog.max(self.waiting());
        Ok(())
    }

    /// Returns how many jobs wait.
    #[inline(always)]
    fn waiting(&self) -> usize
        ensures { result ≡ length self.now.waiting }
    {
        self.jobs.len() - usize::from(self.ended.is_some())
    }

    /// Counts the newest finished job, if there is one: nothing can put its end off any more. Refuses if out of memory.
    #[inline(always)]
    fn settle(&mut self) -> Result<(), AllocError>
        ensures { OnOk result (self.new ≡ jobs_settled self.old.newest self.old) }
    {
        let Some(at) = self.ended else {
            return Ok(());
        };
        self.ended = None;
        let job = self.jobs.pop_front().unwrap();
        let response = Finish { job, at }.response();
        self.responses.push(response)?;
        self.response_total = self.response_total.saturating_add(u128::from(response));
        if exceeds(response, job.within) {
            count(&mut self.late);
        }
        self.early.add(job.promised, at);
        Ok(())
    }

    /// Adds a run, after which the clock is at `now`. The last unit of a job finishes the oldest job that waits. Refuses
    /// if out of memory.
    #[inline(always)]
    fn run(&mut self, now: u64, ran: Ran) -> Result<(), AllocError>
        ensures { OnOk result (self.new ≡ jobs_after_run now ran self.old) }
    {
        self.settle()?;
        if let Ran::Done(_) = ran {
            self.end_first(now);
        }
        Ok(())
    }

    /// Ends the oldest job that waits, if there is one, at the tick `now`. Each job that ended before is counted.
    #[inline(always)]
    fn end_first(&mut self, now: u64)
        requires { self.old.newest ≡ None }
        ensures { self.new ≡ jobs_without now self.old }
    {
        if !self.jobs.is_empty() {
            self.ended = Some(now);
        }
    }

    /// Puts the end of the newest finished job off to the tick `now`, if there is such a job.
    #[inline(always)]
    fn put_off(&mut self, now: u64)
        ensures { self.new ≡ record self.old { newest = put_off now self.old.newest } }
    {
        if let Some(at) = &mut self.ended {
            *at = now;
        }
    }

    /// Adds a step, after which the clock is at `now`. Refuses if out of memory.
    #[inline(always)]
    pub fn add(&mut self, now: u64, event: Event) -> Result<(), AllocError>
        ensures { OnOk result (self.new ≡ jobs_after now event self.old) }
    {
        match event {
            Event::Accepted { job, promised, .. } => self.accept(AcceptedJob {
                came: job.came,
                within: job.within,
                promised,
            }),
            Event::Ran(ran) => self.run(now, ran),
            Event::Charged { .. } => {
                self.put_off(now);
                Ok(())
            }
            _ => Ok(()),
        }
    }

    /// Returns how many of the waiting jobs are late at the tick `now`.
    fn overdue(&self, now: u64) -> u64
        ensures { result ≡ overdue now self.now.waiting }
    {
        let mut waiting = self.jobs.iter();
        if self.ended.is_some() {
            waiting.next();
        }
        let late = waiting.filter(|job| uses(job.age(now), job.within));
        late.count() as u64
    }

    /// Returns the figures up to the tick `now`, if each finished job is counted. Sorts the response times.
    fn settled_figures(&mut self, now: u64, sums: &Sums, throttled_ticks: u64) -> Figures
        ensures { MakeFigures settled_jobs now throttled_ticks self.old sums.now result }
    {
        Figures {
            refused: sums.refused,
            finished: self.responses.len() as u64,
            unfinished: self.waiting() as u64,
            late_finished: self.late,
            late_unfinished: self.overdue(now),
            greatest_backlog: self.greatest_backlog as u64,
            asked: sums.asked,
            run: sums.run,
            used_up: sums.used_up,
            throttled: throttled_ticks,
            charged: sums.charged,
            greatest_charge: sums.greatest_charge,
            response_total: self.response_total,
            early_count: self.early.count,
            early_total: self.early.total,
            early_least: self.early.least,
            responses: ranks_of(&mut self.responses),
        }
    }

    /// Returns the figures up to the tick `now`, with these sums and this many ticks in which the server was throttled
    /// and had a job. Counts the newest finished job, and sorts the response times. The only error is out of memory.
    pub fn figures(
        &mut self,
        now: u64,
        sums: &Sums,
        throttled_ticks: u64,
    ) -> Result<Figures, AllocError>
        ensures { IfOk result (MakeFigures jobs_of now throttled_ticks self.old sums.now) }
    {
        self.settle()?;
        Ok(self.settled_figures(now, sums, throttled_ticks))
    }
}
