//! Sums over the steps of one server.

ghost use Rattle.std.specs.Prelude.{◌≡◌, ◌+◌, []};
ghost use Rattle.cbsrun_figures.specs.Figures.{is_used_up, told};
ghost use Rattle.cbsrun_figures.specs.Tallies.{sums_of, sums_with, sums_after};

use cbs_steps::{Ran, ServerView};
use cbsrun_events::Event;

/// Sums over the steps of one server.
#[derive(Clone, Copy)]
pub struct Sums {
    /// The jobs that were refused.
    pub refused: u64,
    /// The units of the jobs that came.
    pub asked: u64,
    /// The units that ran.
    pub run: u64,
    /// The units that used up the budget.
    pub used_up: u64,
    /// The ticks that the server was charged.
    pub charged: u64,
    /// The greatest charge, in ticks.
    pub greatest_charge: u64,
}

/// Adds one to a count, which stays at most 2^64 - 1.
#[inline(always)]
pub(crate) fn count(count: &mut u64)
    ensures { count.new ≡ told (count.old + 1) }
{
    // A test costs less than a sum that saturates.
    if *count < u64::MAX {
        *count += 1;
    }
}

/// Returns whether a server that shows this view after a unit has used up its budget.
fn is_used_up(budget: u64, view: Option<ServerView>) -> bool
    ensures { result ≡ is_used_up budget view }
{
    match view {
        Some(view) => view.throttled || view.budget == budget,
        None => false,
    }
}

impl Sums {
    /// Returns the sums over no step.
    pub fn new() -> Sums
        ensures { result ≡ sums_of 0 [] }
    {
        Sums {
            refused: 0,
            asked: 0,
            run: 0,
            used_up: 0,
            charged: 0,
            greatest_charge: 0,
        }
    }

    /// Adds a unit, if the run had one, by the server's view after it.
    #[inline(always)]
    fn add_run(&mut self, budget: u64, ran: Ran, view: Option<ServerView>)
        ensures { self.new ≡ sums_with budget ran view self.old }
    {
        match ran {
            Ran::Unit { .. } | Ran::Done(_) => {
                count(&mut self.run);
                if is_used_up(budget, view) {
                    count(&mut self.used_up);
                }
            }
            Ran::Idle | Ran::ClockEnd => {}
        }
    }

    /// Adds a step, by the server's view after it.
    #[inline(always)]
    pub fn add(&mut self, budget: u64, event: Event, view: Option<ServerView>)
        ensures { self.new ≡ sums_after budget event view self.old }
    {
        match event {
            Event::Accepted { job, .. } => {
                self.asked = self.asked.saturating_add(u64::from(job.units));
            }
            Event::NotAccepted { job, .. } => {
                count(&mut self.refused);
                self.asked = self.asked.saturating_add(u64::from(job.units));
            }
            Event::Ran(ran) => self.add_run(budget, ran, view),
            Event::Charged { ticks, .. } => {
                self.charged = self.charged.saturating_add(ticks);
                self.greatest_charge = self.greatest_charge.max(ticks);
            }
            Event::Advanced(_)
            | Event::NotAdvanced(..)
            | Event::Closed(_)
            | Event::NotClosed(..)
            | Event::NotCharged { .. } => {}
        }
    }
}
