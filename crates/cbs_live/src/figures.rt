//! The figures of one server.

ghost use Rattle.std.specs.Prelude.{◌≡◌, ℕ, List, length};
ghost use Rattle.cbs_live.specs.Figures.{Past, no_past, past_with_jobs, past_with_unit, time_of, time_of_done, responses_with, share_of, AreFiguresOf, Notes};
ghost use Rattle.cbs_live.specs.Spreads.{IsSpreadOf};

use crate::spread::Spread;

/// The figures of one server, in a memory that stays the same. No number of them passes `u64::MAX`:
/// it stops there.
///
/// Beside them there is a ring of times, in which it is kept when each of the last jobs was
/// accepted. It has as many places as jobs are unfinished at most: the backlog of the house.
///
/// All bytes 0 are the figures of a server that did nothing.
#[repr(C)]
#[derive(Clone, Copy, Debug, PartialEq, Eq)]
pub struct Figures {
    /// By how many ticks the house's clock went on. Whoever keeps the figures sets it.
    pub ticks: u64,
    /// How many jobs were accepted.
    pub accepted: u64,
    /// How many units have ended.
    pub units: u64,
    /// How many ticks were charged for them.
    pub charged: u64,
    /// The responses of the jobs that are done, in nanoseconds: from when a job was accepted to the
    /// end of its last unit.
    pub responses: Spread,
    /// The latenesses of the units that have ended, in ticks: by how much a unit ended after the
    /// deadline by which it was chosen, and 0 if it did not.
    pub lateness: Spread,
}

/// A unit that has ended.
#[derive(Clone, Copy, Debug, PartialEq, Eq)]
pub struct Ended {
    /// When it ended.
    pub time: u64,
    /// The number of the job that it finished, if it was the last unit of one.
    pub done: Option<u64>,
    /// How many ticks it was charged.
    pub charged: u64,
    /// Its lateness, in ticks.
    pub lateness: u64,
}

impl Figures {
    /// Returns the figures of a server that did nothing.
    pub fn new() -> Figures
        ensures { (came : List ℕ) → AreFiguresOf result came no_past }
    {
        Figures {
            ticks: 0,
            accepted: 0,
            units: 0,
            charged: 0,
            responses: Spread::new(),
            lateness: Spread::new(),
        }
    }

    /// Notes that so many jobs are accepted in all. Those that were not noted before were accepted
    /// at this time.
    pub fn note_accepted(&mut self, came: &mut [u64], accepted: u64, time: u64)
        ensures { Notes self.old came.old self.new came.new (past_with_jobs accepted time) }
    {
        let places = came.len() as u64;
        let first = self.accepted.max(accepted.saturating_sub(places));
        for job in first..accepted {
            came[(job % places) as usize] = time;
        }
        self.accepted = self.accepted.max(accepted);
    }

    /// Notes a unit that has ended. If it was the last of a job, and the job is one of the last
    /// that were accepted, as many as the ring has places, the response of the job is added.
    pub fn note_ended(&mut self, came: &[u64], unit: Ended)
        ensures { Notes self.old came.now self.new came.now (past_with_unit (length came.now) unit) }
    {
        let came = self.time_of_done(came, unit.done);
        add_response(&mut self.responses, came, unit.time);
        self.lateness.add(unit.lateness);
        self.units = self.units.saturating_add(1);
        self.charged = self.charged.saturating_add(unit.charged);
    }

    /// Returns when a job was accepted, or `None` if it is not one of the last that were, as many
    /// as the ring has places.
    pub fn accepted_at(&self, came: &[u64], job: u64) -> Option<u64>
        ensures { (past : Past) → AreFiguresOf self.now came.now past
            → result ≡ time_of (length came.now) past job }
    {
        let places = came.len() as u64;
        let unfinished = self.accepted.saturating_sub(job);
        if unfinished == 0 || unfinished > places {
            return None;
        }
        Some(came[(job % places) as usize])
    }

    /// Returns when the job was accepted that a unit finished, if it finished one.
    fn time_of_done(&self, came: &[u64], done: Option<u64>) -> Option<u64>
        ensures { (past : Past) → AreFiguresOf self.now came.now past
            → result ≡ time_of_done (length came.now) past done }
    {
        match done {
            Some(job) => self.accepted_at(came, job),
            None => None,
        }
    }

    /// Returns the share of the server: how many of a thousand ticks of the house's clock were
    /// those of its units, or charged for these. It is rounded down, and 0 if there is no tick.
    pub fn share(&self) -> u64
        ensures { result ≡ share_of self.now }
    {
        let taken = u128::from(self.units) + u128::from(self.charged);
        let share = (taken * 1000)
            .checked_div(u128::from(self.ticks))
            .unwrap_or(0);
        share.min(u128::from(u64::MAX)) as u64
    }
}

/// Adds the response of a job that ends now, if it is known when it was accepted.
fn add_response(responses: &mut Spread, came: Option<u64>, now: u64)
    ensures { (before : List ℕ) → IsSpreadOf responses.old before
        → IsSpreadOf responses.new (responses_with now came before) }
{
    if let Some(time) = came {
        responses.add(now.saturating_sub(time));
    }
}
