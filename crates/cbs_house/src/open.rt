//! Opens a house with its feeds.

ghost use Rattle.std.specs.Prelude.{◌≡◌, length, map, IfOk, MatchResult};
ghost use Rattle.std.specs.List.{All, range_with_len};
ghost use Rattle.cbs_rate.specs.Refusals.{HandsBackByOrMemory};
ghost use Rattle.cbs_steps.specs.Setups.{setup_of};
ghost use Rattle.cbs_clients.specs.Calls.{IsNewHouse};
ghost use Rattle.cbs_house.specs.Feeds.{client_of, unsent_jobs, servers_of};
ghost use Rattle.cbs_clients.specs.Opened.{open_refusal, IsUnused};
ghost use Rattle.cbs_house.specs.Rounds.{Ready};

use crate::feed::{Feed, feeds_of};
use cbs_clients::{House, HouseError, open_house};
use cbs_job::{Task, Work};
use cbs_rate::Plan;
use cbs_rules::Modes;
use std::alloc::{Allocator, Global};

/// Lists of jobs for which no house was opened, handed back.
#[derive(Drop)]
pub struct OpenRefused<W: Work, A: Allocator = Global> {
    /// The reason of the refusal.
    pub error: HouseError,
    /// The lists of jobs, as they were given.
    pub lists: Vec<Vec<Task<W>, A>, A>,
}

/// Opens a house as [`open_house`] does. Returns the house, and for each server, in order of their numbers, a feed of
/// the list of jobs at its place. The feeds are ready to be served.
///
/// There must be a mode and a list for each server of the plan. Both are conditions. A caller that reads its lists from
/// elsewhere compares their number with `plan.len()` first. If a list is missing, that caller still has all of them.
///
/// Refuses by the errors of [`open_house`], in the same order, and by [`HouseError::OutOfMemory`] also if no memory is
/// found for the list of feeds. The lists then come back.
pub fn open_feeds<W: Work, A: Allocator + Copy>(
    alloc: A,
    plan: Plan,
    modes: Modes,
    backlog: u64,
    ring: u64,
    lists: Vec<Vec<Task<W>, A>, A>,
) -> Result<(House<W, A>, Vec<Feed<W, A>, A>), OpenRefused<W, A>>
    requires modes { length modes ≡ length plan.rates }
    requires lists { length lists.items ≡ length plan.rates }
    ensures new { IfOk result (λ r. IsNewHouse W.meaning
        (setup_of modes plan.rates backlog) r.0) }
    ensures servers { IfOk result (λ r. servers_of r.1.items
        ≡ range_with_len 0 (length plan.rates)) }
    ensures unused { IfOk result (λ r. All (λ f. IsUnused ring (client_of f)) r.1.items) }
    ensures jobs { MatchResult result (λ r. map unsent_jobs r.1.items
        ≡ map (λ jobs. jobs.items) lists.items) (λ refused. refused.lists ≡ lists) }
    ensures ready { IfOk result (λ r. Ready r.0 r.1.items) }
    ensures refusal { HandsBackByOrMemory (λ refused. refused.error) HouseError.OutOfMemory result
        (open_refusal backlog ring) }
{
    match open_house(alloc, plan, modes, backlog, ring) {
        Ok((house, clients)) => match feeds_of(alloc, clients, lists) {
            Ok(feeds) => Ok((house, feeds)),
            Err(refused) => Err(OpenRefused {
                error: HouseError::OutOfMemory,
                lists: refused.lists,
            }),
        },
        Err(error) => Err(OpenRefused { error, lists }),
    }
}
