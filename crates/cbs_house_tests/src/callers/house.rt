//! A caller of cbs_house.

ghost use Rattle.std.specs.Prelude.{◌≡◌, List, length, OnOk};
ghost use Rattle.cbs_steps.specs.Punctual.{IsPunctual};
ghost use Rattle.cbs_steps.specs.Setups.{history_of};
ghost use Rattle.cbs_steps.specs.declared.step.Step.{Step};

use cbs_house::{House, HouseError, open_house};
use cbs_job::Work;
use cbs_rate::Plan;
use cbs_rules::Modes;
use std::alloc::Global;

/// Returns a house that is on time, with a backlog and rings of four. The laws on time hold of all steps that it will
/// make.
pub fn opened_in_time<W: Work>(
    alloc: Global,
    plan: Plan,
    modes: Modes,
) -> Result<House<W>, HouseError>
    requires { length modes ≡ length plan.rates }
    ensures { OnOk result ((steps : List (Step W))
        → IsPunctual W.meaning (history_of modes plan.rates 4 steps)) }
{
    let (house, _clients) = open_house(alloc, plan, modes, 4, 4)?;
    Ok(house)
}
