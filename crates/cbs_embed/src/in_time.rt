//! What the calls in real time on a handle do to its house.

ghost use Rattle.std.specs.Prelude.{◌≡◌};
ghost use Rattle.cbs_pace.specs.Paces.{time_to, measured};
ghost use Rattle.cbs_clients.specs.Houses.{NamesJob};
ghost use Rattle.cbs_pacer.specs.Paced.{ran_next};
ghost use Rattle.cbs_embed.specs.Calls.{Drops, NamesToken};
ghost use Rattle.cbs_embed.specs.Jobs.{counting};
ghost use Rattle.cbs_embed.specs.Paces.{Asks, BeginsPace, EndsUnit};

use crate::job::UnitJob;
use crate::on_house::{forget, token_of};
use crate::refusal::Refusal;
use crate::told::Asked;
use cbs_house::House;
use cbs_pacer::{Next, Pacer, Rounding, Tick};

/// Returns a pacer of a house.
pub(crate) fn pace(
    house: &mut House<UnitJob>,
    tick: Tick,
    rounding: Rounding,
    reading: u64,
) -> Result<Pacer, Refusal>
    ensures { BeginsPace tick rounding reading house.old result house.new }
{
    Ok(Pacer::begin(tick, rounding, house.now(), reading))
}

/// Returns the token of the job whose unit is done next, if one is. Drops the result of a finished job.
fn token_told(house: &mut House<UnitJob>, next: Next) -> u64
    requires { NamesJob counting (ran_next next) house.old }
    ensures named { NamesToken (ran_next next) result house.old }
    ensures drops { Drops (ran_next next) house.old house.new }
{
    let ran = next.ran();
    let token = token_of(house, ran);
    forget(house, ran);
    token
}

/// Returns what the host does next.
pub(crate) fn next(
    house: &mut House<UnitJob>,
    pacer: &mut Pacer,
    reading: u64,
) -> Result<Asked, Refusal>
    ensures { Asks reading (time_to reading pacer.old.pace) pacer.old pacer.new house.old result
        house.new }
{
    let next = pacer.next(house, reading);
    let token = token_told(house, next);
    let taken = pacer.taken();
    Ok(Asked { next, token, taken })
}

/// Returns what the host does next, if the unit that was being done took so long by another measure.
pub(crate) fn next_measured(
    house: &mut House<UnitJob>,
    pacer: &mut Pacer,
    reading: u64,
    took: u64,
) -> Result<Asked, Refusal>
    ensures { Asks reading (measured took reading pacer.old.pace) pacer.old pacer.new house.old
        result house.new }
{
    let next = pacer.next_measured(house, reading, took);
    let token = token_told(house, next);
    let taken = pacer.taken();
    Ok(Asked { next, token, taken })
}

/// Ends a unit that was being done.
pub(crate) fn done(
    house: &mut House<UnitJob>,
    pacer: &mut Pacer,
    reading: u64,
) -> Result<(), Refusal>
    ensures { EndsUnit reading (time_to reading pacer.old.pace) pacer.old pacer.new house.old result
        house.new }
{
    pacer.done(house, reading);
    Ok(())
}

/// Ends a unit that was being done, if it took so long by another measure.
pub(crate) fn done_measured(
    house: &mut House<UnitJob>,
    pacer: &mut Pacer,
    reading: u64,
    took: u64,
) -> Result<(), Refusal>
    ensures { EndsUnit reading (measured took reading pacer.old.pace) pacer.old pacer.new
        house.old result house.new }
{
    pacer.done_measured(house, reading, took);
    Ok(())
}
