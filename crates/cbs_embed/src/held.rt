//! What a handle may hold.

ghost use Rattle.std.specs.Prelude.{◌≡◌, Some, MatchResult};
ghost use Rattle.std.specs.Borrow.{sem};
ghost use Rattle.cbs_embed.specs.Lending.{LendsHouse, LendsClient};
ghost use Rattle.cbs_embed.specs.declared.held.Held.TheVariants as held;
ghost use Rattle.cbs_embed.specs.Calls.{RefusesHouse, RefusesClient};

use crate::job::UnitJob;
use crate::refusal::{HandleError, Refusal};
use cbs_house::{Client, House};

/// What a handle may hold.
#[derive(Drop)]
pub enum Held {
    /// A house.
    House(House<UnitJob>),
    /// The client of one server of a house.
    Client(Client<UnitJob>),
}

impl Held {
    /// Returns the house, in place. Refuses by [`HandleError::OtherKind`] if this is a client.
    pub(crate) fn house_mut(&mut self) -> Result<&mut House<UnitJob>, Refusal>
        ensures* writes_back { sem 𝓛 (LendsHouse self.entry result) }
        ensures value { MatchResult result
            (λ house. self.old ≡ held.House house.now)
            (λ e. RefusesHouse (Some self.old) e) }
    {
        match self {
            Held::House(house) => Ok(house),
            Held::Client(_) => Err(Refusal::Handle(HandleError::OtherKind)),
        }
    }

    /// Returns the client, in place. Refuses by [`HandleError::OtherKind`] if this is a house.
    pub(crate) fn client_mut(&mut self) -> Result<&mut Client<UnitJob>, Refusal>
        ensures* writes_back { sem 𝓛 (LendsClient self.entry result) }
        ensures value { MatchResult result
            (λ client. self.old ≡ held.Client client.now)
            (λ e. RefusesClient (Some self.old) e) }
    {
        match self {
            Held::Client(client) => Ok(client),
            Held::House(_) => Err(Refusal::Handle(HandleError::OtherKind)),
        }
    }
}
