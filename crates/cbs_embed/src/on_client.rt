//! What the calls on a handle do to its client.

ghost use Rattle.std.specs.Prelude.{◌≡◌, IfErr};
ghost use Rattle.cbs_clients.specs.Calls.{LooksAtRing};
ghost use Rattle.cbs_embed.specs.Calls.{Sends, Ends, Waits};
ghost use Rattle.cbs_embed.specs.declared.refusal.HandleError.TheVariants as HandleError;
ghost use Rattle.cbs_embed.specs.declared.refusal.Refusal.TheVariants as refused;

use crate::job::UnitJob;
use crate::refusal::{HandleError, Refusal};
use cbs_house::Client;
use cbs_job::Task;

/// Refuses a client whose house was freed, by [`HandleError::HouseGone`].
fn require_house(client: &mut Client<UnitJob>) -> Result<(), Refusal>
    ensures looked { LooksAtRing client.old client.new }
    ensures gone { IfErr result (λ e. e ≡ refused.Handle HandleError.HouseGone) }
{
    if client.house_is_gone() {
        return Err(Refusal::Handle(HandleError::HouseGone));
    }
    Ok(())
}

/// Sends a job.
pub(crate) fn send(client: &mut Client<UnitJob>, token: u64, units: u32) -> Result<u64, Refusal>
    ensures { Sends token units client.old result client.new }
{
    let task = Task::new(UnitJob { token, units }).map_err(|refused| Refusal::Task(refused.error))?;
    require_house(client)?;
    client
        .send(task)
        .map_err(|refused| Refusal::Send(refused.error))
}

/// Sends the end.
pub(crate) fn end(client: &mut Client<UnitJob>) -> Result<(), Refusal>
    ensures { Ends client.old result client.new }
{
    require_house(client)?;
    client.end().map_err(|error| Refusal::Send(error))
}

/// Returns how many messages wait in the client's ring.
pub(crate) fn waiting(client: &mut Client<UnitJob>) -> Result<u64, Refusal>
    ensures { Waits client.old result client.new }
{
    Ok(client.waiting())
}
