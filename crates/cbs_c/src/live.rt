//! The figures of servers, and the summaries of numbers that they are made of.

ghost use Rattle.std.specs.Prelude.{◌≡◌, ◌+◌, ◌-◌, ◌/◌, ◌^◌, ◌≤◌, ℕ, List, ◌∷◌, length, min};
ghost use Rattle.cbs_c.specs.Live.{told_of, ended_of};
ghost use Rattle.cbs_live.specs.Figures.{past_with_jobs, past_with_unit, share_of, Notes};
ghost use Rattle.cbs_live.specs.Late.{OfEachStart};
ghost use Rattle.cbs_live.specs.Spreads.{most, IsSpreadOf, IsCounted, AreAtMost, mean_of};

use crate::values::{Unit, View, wide};
use cbs_embed::Server;
use cbs_live::{Ended, Figures, Spread, Told};

/// Adds one more number to a summary.
#[unsafe(no_mangle)]
pub extern "C" fn cbs_spread_add(spread: &mut Spread, number: u64)
    ensures { (numbers : List ℕ) → IsSpreadOf spread.old numbers
        → IsSpreadOf spread.new (number ∷ numbers) }
{
    spread.add(number);
}

/// Returns the mean of the numbers, rounded down, and 0 if there is none.
#[unsafe(no_mangle)]
pub extern "C" fn cbs_spread_mean(spread: &Spread) -> u64
    ensures mean { (numbers : List ℕ) → IsSpreadOf spread.now numbers → IsCounted numbers
        → result ≡ mean_of numbers }
    ensures value { result ≡ spread.now.total / spread.now.count }
{
    spread.mean()
}

/// Returns a number such that at least so many of a thousand numbers are at most it.
#[unsafe(no_mangle)]
pub extern "C" fn cbs_spread_at_most(spread: &Spread, per_mille: u64) -> u64
    ensures enough { (numbers : List ℕ) → IsSpreadOf spread.now numbers → IsCounted numbers
        → AreAtMost (min per_mille 1000) result numbers }
    ensures least { (numbers : List ℕ) → IsSpreadOf spread.now numbers → IsCounted numbers
        → (k : ℕ) → 2 ^ k ≤ result → ¬ AreAtMost (min per_mille 1000) (2 ^ k - 1) numbers }
{
    spread.at_most(per_mille)
}

/// Notes that so many jobs of a server are accepted in all. Those that were not noted before were
/// accepted at this time.
#[unsafe(no_mangle)]
pub extern "C" fn cbs_figures_accepted(
    figures: &mut Figures,
    came: &mut [u64],
    accepted: u64,
    time: u64,
)
    ensures { Notes figures.old came.old figures.new came.new (past_with_jobs accepted time) }
{
    figures.note_accepted(came, accepted, time);
}

/// Notes that a unit of a server ended at this time, was charged so many ticks, and has this
/// lateness. If the unit was the last of its job, the response of the job is added.
#[unsafe(no_mangle)]
pub extern "C" fn cbs_figures_ended(
    figures: &mut Figures,
    came: &[u64],
    unit: &Unit,
    time: u64,
    charged: u64,
    lateness: u64,
)
    ensures { Notes figures.old came.now figures.new came.now
        (past_with_unit (length came.now) (ended_of unit.now time charged lateness)) }
{
    figures.note_ended(came, ended(unit, time, charged, lateness));
}

/// Returns the share of a server in a thousand ticks.
#[unsafe(no_mangle)]
pub extern "C" fn cbs_figures_share(figures: &Figures) -> u64
    ensures { result ≡ share_of figures.now }
{
    figures.share()
}

/// Returns by how many ticks a unit of a server ended after the deadline by which it was chosen.
#[unsafe(no_mangle)]
pub extern "C" fn cbs_lateness(server: &Server, view: &View, clock: u64, charged: u64) -> u64
    ensures { OfEachStart (told_of server.now view.now) (λ before.
        result ≡ min (clock + charged - before.deadline) most) }
{
    told(server, view).lateness(clock, charged)
}

/// Returns what was told of a unit's end.
fn ended(unit: &Unit, time: u64, charged: u64, lateness: u64) -> Ended
    ensures { result ≡ ended_of unit.now time charged lateness }
{
    Ended {
        time,
        done: match unit.kind {
            3 => Some(unit.seq),
            _ => None,
        },
        charged,
        lateness,
    }
}

/// Returns what a view shows of a server, with the server's reservation.
fn told(server: &Server, view: &View) -> Told
    ensures { result ≡ told_of server.now view.now }
{
    Told {
        whole: server.budget,
        period: server.period,
        budget: view.budget,
        deadline: wide(view.deadline_low, view.deadline_high),
    }
}
