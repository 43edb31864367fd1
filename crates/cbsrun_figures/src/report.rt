//! The figures of all servers.

ghost use Rattle.std.specs.Prelude.{◌≡◌, ℕ, ◌+◌, List, [], IfOk, OnOk, map};
ghost use Rattle.cbsrun_events.specs.declared.seen.Seen.{Seen};
ghost use Rattle.cbsrun_figures.specs.Figures.{told, total, AreAllFigures};
ghost use Rattle.cbsrun_figures.specs.Tallies.{AddsStep, HasSeen, Reported, budgets, passed, ticks_idle};

use crate::figures::Figures;
use crate::tally::Tally;
use cbs_rate::Plan;
use cbsrun_events::{Event, Seen, View};
use std::alloc::{AllocError, Allocator, Global};
use std::marker::Model;

/// The figures of the servers of a plan, over the steps that it saw.
///
/// It keeps a number for each finished job, a job for each unfinished one, and sums.
#[derive(Drop)]
pub struct Report<A: Allocator = Global> {
    tallies: Vec<Tally<A>, A>,
    idle: u64,
}

impl<A: Allocator> Model for Report<A> {
    ghost use Rattle.cbsrun_figures.specs.Tallies.{Reported};

    ghost Value = { Reported };

    ghost view = { λ r. record { kept = r.tallies.items; idle = r.idle } };
}

impl<A: Allocator + Clone> Report<A> {
    /// Returns the report of the servers of a plan, before the first step.
    pub fn new(alloc: A, plan: &Plan) -> Result<Report<A>, AllocError>
        ensures servers { IfOk result (λ r. budgets r ≡ map (λ rate. rate.budget) plan.now.rates) }
        ensures none { IfOk result (λ r. HasSeen r r []) }
    {
        let mut tallies = Vec::with_capacity(alloc.clone()?, plan.len())?;
        for server in 0..plan.len() as u16 {
            let reservation = plan.get(server).unwrap();
            tallies.push(Tally::new(alloc.clone()?, reservation.budget())?)?;
        }
        Ok(Report { tallies, idle: 0 })
    }

    /// Returns the figures of each server up to the tick `now`, by the server's number. The only error is out of
    /// memory.
    pub fn figures(self, alloc: A, now: u64) -> Result<Vec<Figures, A>, AllocError>
        ensures { IfOk result (λ figures. (first : Reported) (seen : List Seen)
            → HasSeen first self seen
            → AreAllFigures (budgets first) now seen figures.items) }
    {
        let mut figures = Vec::with_capacity(alloc, self.tallies.len())?;
        for mut tally in self.tallies {
            let own = tally.figures(now)?;
            figures.push(own)?;
        }
        Ok(figures)
    }
}

impl<A: Allocator> Report<A> {
    /// Returns in how many ticks nobody ran, or 2^64 - 1 if there were more.
    pub fn idle(&self) -> u64
        ensures { (first : Reported) (seen : List Seen) → HasSeen first self.now seen
            → result ≡ told (total (λ o. ticks_idle o.event) seen) }
    {
        self.idle
    }

    /// Adds a step of the server with this number, if there is such a server. Refuses if out of memory.
    #[inline(always)]
    fn add(&mut self, server: u16, seen: Seen) -> Result<(), AllocError>
        ensures adds { OnOk result (AddsStep server seen self.old.kept self.new.kept) }
        ensures idle { OnOk result (self.new.idle ≡ self.old.idle) }
    {
        let index = usize::from(server);
        if index >= self.tallies.len() {
            return Ok(());
        }
        self.tallies[index].add(seen)
    }

    /// Adds the ticks of a step, if nobody ran in them.
    #[inline(always)]
    fn pass(&mut self, event: Event)
        ensures { self.new ≡ passed event self.old }
    {
        match event {
            Event::Advanced(ticks) => self.idle = self.idle.saturating_add(ticks),
            Event::Accepted { .. }
            | Event::NotAccepted { .. }
            | Event::Ran(_)
            | Event::NotAdvanced(..)
            | Event::Closed(_)
            | Event::NotClosed(..)
            | Event::Charged { .. }
            | Event::NotCharged { .. } => {}
        }
    }
}

impl<A: Allocator> View<()> for Report<A> {
    ghost use Rattle.cbsrun_figures.specs.Tallies.{HasSeen};

    ghost saw = { λ first now seen. HasSeen first.0 now.0 seen };

    #[inline(always)]
    fn see(&mut self, _lent: &mut (), seen: Seen) -> Result<(), AllocError> {
        match seen.event.server() {
            Some(server) => self.add(server, seen),
            None => {
                self.pass(seen.event);
                Ok(())
            }
        }
    }
}
