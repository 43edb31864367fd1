//! Tests of a house with the greatest number of servers.

ghost use Rattle.cbs_house.specs.Rounds.{Ready};

use super::calls::{gave, sends};
use super::serving::with_lists;
use super::{house_of, same, sums_of};
use cbs_house::{Client, Feed, House, NoSink, OpenGate, serve};
use cbs_job::SumJob;
use cbs_rules::Mode;
use std::alloc::Global;
use std::process::Abort;

/// Returns a house of 64 servers with one tick in every 64 each, and for each a feed of two jobs. The first job adds up the server's number and 1000. The
/// second has the server's number alone.
fn fed<R: Abort>(rt: &R, alloc: Global) -> (House<SumJob>, Vec<Feed<SumJob>>)
    ensures { Ready result.0 result.1.items }
{
    let mut lists = Vec::new(alloc);
    for number in 0..64 {
        let list = sums_of(rt, alloc, &[&[number, 1000], &[number]]);
        lists.push(list).ok().expect(rt, "memory");
    }
    with_lists(rt, alloc, &[(Mode::Soft, 1, 64); 64], 4, lists)
}

/// Checks the results of each server.
fn all_gave(rt: &impl Abort, house: &House<SumJob>) {
    for server in 0..64u16 {
        let number = u64::from(server);
        gave(rt, house, server, &[1000 + number, number]);
    }
}

#[test]
fn the_feeds_of_64_servers_are_served(rt: HostRuntime) {
    let (mut house, mut feeds) = fed(&rt, rt.alloc());
    let answer = serve(&rt, &mut house, &mut feeds, &OpenGate);
    same(&rt, "serve", answer, Ok(()));
    all_gave(&rt, &house);
}

/// Sends the two jobs of a server, and ends.
fn sends_all(rt: &impl Abort, alloc: Global, client: &mut Client<SumJob>) {
    let number = u32::from(client.server());
    sends(rt, alloc, ("the first job", 0), client, &[number, 1000], 0);
    sends(rt, alloc, ("the second job", 1), client, &[number], 1);
    same(rt, "end", client.end(), Ok(()));
}

#[test]
fn a_house_of_64_servers_runs_until_closed(rt: HostRuntime) {
    let alloc = rt.alloc();
    let servers = [(Mode::Throttled, 1, 64); 64];
    let (mut house, mut clients) = house_of(&rt, alloc, &servers, (4, 4));
    same(&rt, "clients", clients.len(), 64);
    for client in &mut clients {
        sends_all(&rt, alloc, client);
    }
    let answer = house.run_until_closed(&rt, &mut NoSink, 1);
    same(&rt, "run_until_closed", answer, Ok(()));
    all_gave(&rt, &house);
}
