//! Calls of houses and clients, each with the result that a test checks.
//!
//! Each call stands in its own function, which promises only what later calls need. So a test that makes many calls is
//! proved fast. A sequence of calls of one house and its client stands in rows instead (`rows`).

ghost use Rattle.cbs_clients.specs.Clients.{SameClient};

use super::{same, same_at, sum_of};
use cbs_house::{Client, House, SendError};
use cbs_job::SumJob;
use std::alloc::{Allocator, Global};
use std::process::Abort;

/// Sends a sum of these numbers, and checks the number that the job gets.
pub fn sends<A: Allocator>(
    rt: &impl Abort,
    alloc: Global,
    at: (&str, usize),
    client: &mut Client<SumJob, A>,
    numbers: &[u32],
    number: u64,
)
    ensures { SameClient client.old client.new }
{
    let answer = client.send(sum_of(rt, alloc, numbers)).ok();
    same_at(rt, at, "send", answer, Some(number));
}

/// Ends a client, and checks the result.
pub fn ends<A: Allocator>(
    rt: &impl Abort,
    client: &mut Client<SumJob, A>,
    wanted: Result<(), SendError>,
) {
    same(rt, "end", client.end(), wanted);
}

/// Checks the clock.
pub fn stands_at<A: Allocator>(rt: &impl Abort, house: &House<SumJob, A>, wanted: u64) {
    same(rt, "now", house.now(), wanted);
}

/// Checks the results of a server.
pub fn gave<A: Allocator>(rt: &impl Abort, house: &House<SumJob, A>, server: u16, wanted: &[u64]) {
    same(rt, "results", house.results(server), Ok(wanted));
}
