//! The tally of one server, as a report keeps it.

ghost use Rattle.std.specs.Prelude.{◌≡◌, ℕ, List, [], ◌∷◌, IfOk, OnOk};
ghost use Rattle.cbsrun_events.specs.declared.seen.Seen.{Seen};
ghost use Rattle.cbsrun_figures.specs.Figures.{AreFigures};
ghost use Rattle.cbsrun_figures.specs.Tallies.{kept_of};

use crate::figures::Figures;
use crate::jobs::JobTally;
use crate::sums::Sums;
use crate::throttled_ticks::ThrottledTicks;
use cbsrun_events::Seen;
use std::alloc::{AllocError, Allocator, Global};
use std::marker::Model;

/// The tally of one server: its sums, its throttled ticks and its jobs.
#[derive(Drop)]
pub struct Tally<A: Allocator = Global> {
    budget: u64,
    sums: Sums,
    throttled_ticks: ThrottledTicks,
    jobs: JobTally<A>,
}

impl<A: Allocator> Model for Tally<A> {
    ghost use Rattle.cbsrun_figures.specs.Tallies.{Kept};

    ghost Value = { Kept };

    ghost view = { λ t. record { budget = t.budget; sums = t.sums; throttled_ticks = t.throttled_ticks; jobs = t.jobs } };
}

impl<A: Allocator + Clone> Tally<A> {
    /// Returns the tally of a server with this budget, before its first step.
    pub fn new(alloc: A, budget: u64) -> Result<Tally<A>, AllocError>
        ensures { IfOk result (λ t. t ≡ kept_of budget []) }
    {
        let jobs = JobTally::new(alloc)?;
        Ok(Tally {
            budget,
            sums: Sums::new(),
            throttled_ticks: ThrottledTicks::new(),
            jobs,
        })
    }
}

impl<A: Allocator> Tally<A> {
    /// Adds a step of the server. Refuses if out of memory.
    #[inline(always)]
    pub fn add(&mut self, seen: Seen) -> Result<(), AllocError>
        ensures adds { OnOk result ((own : List Seen) → self.old ≡ kept_of self.old.budget own
            → self.new ≡ kept_of self.old.budget (seen ∷ own)) }
        ensures budget { OnOk result (self.new.budget ≡ self.old.budget) }
    {
        self.sums.add(self.budget, seen.event, seen.view);
        self.throttled_ticks
            .add(seen.begun(), seen.clock, seen.view);
        self.jobs.add(seen.clock, seen.event)
    }

    /// Returns the figures up to the tick `now`. Sorts the response times. The only error is out of memory.
    pub fn figures(&mut self, now: u64) -> Result<Figures, AllocError>
        ensures { IfOk result (λ figures. (own : List Seen) → self.old ≡ kept_of self.old.budget own
            → AreFigures self.old.budget now own figures) }
    {
        let throttled = self.throttled_ticks.until(now);
        self.jobs.figures(now, &self.sums, throttled)
    }
}
