//! The theorem about all houses in real time.

ghost use Rattle.std.specs.Prelude.{◌≡◌, ◌<◌, length};
ghost use Rattle.cbs_steps.specs.Setups.{setup_of};
ghost use Rattle.cbs_pacer.specs.Timed.{KeepsShareOfTime, KeepsLatenessInTime};

use cbs_job::Work;
use cbs_pace::{Rounding, Tick};
use cbs_rate::Plan;
use cbs_rules::Modes;
use cbs_steps::all_punctual;

/// States what the laws of a server's share and lateness say of time. The servers were admitted to
/// a plan, and each has a mode. The function does nothing. Its contract is the theorem, for every
/// executor that makes the steps, and for every clock.
///
/// `share`: the units of a server take no more than its share of the time that its deadline moves
/// over, but for its budget, its overrun and what it carries. It holds if each unit's charge was
/// granted, in any window that neither opens nor closes within a unit of the server.
///
/// `late`: if each advance was quiet, a ready server's deadline has passed by less than some ticks,
/// in the time of any pace. They are the most that each server with a later deadline was charged
/// for one unit, and the whole ticks by which the house's clock is behind.
pub fn all_in_time<W: Work>(
    plan: &Plan,
    modes: &Modes,
    backlog: u64,
    rounding: Rounding,
    tick: Tick,
)
    requires { length modes.now ≡ length plan.now.rates }
    ensures share { KeepsShareOfTime W.meaning
        (setup_of modes.now plan.now.rates backlog)
        rounding tick }
    ensures late { KeepsLatenessInTime W.meaning
        (setup_of modes.now plan.now.rates backlog) }
{
    let _ = (rounding, tick.nanos());
    all_punctual::<W>(plan, modes, backlog);
}
