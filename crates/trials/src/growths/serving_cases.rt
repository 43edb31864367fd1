//! Makes feeds, and serves them, by a round and to the end.

ghost use Rattle.std.specs.Prelude.{◌<◌, ◌≡◌, length, IfOk, IfSome};
ghost use Rattle.cbs_house.specs.Rounds.{Ready};

use crate::load::read_load;
use crate::setup::fed;
use crate::telling::{begin, tell};
use anyhow::{Result, ensure};
use cbs_house::{
    Client, Feed, FeedsRefused, House, OpenGate, feeds_of, open_house, serve, serve_round,
};
use cbs_job::{FileJob, Task};
use std::alloc::Global;
use std::thread::Threads;
use std::time::Clock;

/// A number of turns so large that a round ends because all is taken.
const TURNS: u64 = 100_000;

/// A load of two servers, with a job for the first.
const TWO: &str = "0 4 4
server 2 5 soft
server 2 5 soft
job 0 sum 5
";

/// A load of three servers, with two jobs each for the first and the third.
const THREE: &str = "0 4 4
server 2 5 soft
server 1 10 soft
server 1 4 soft
job 0 sum 1 2 3
job 0 sum 9
job 2 sum 10
job 2 sum 20 30 0
";

/// Makes feeds of two clients, with a list of one job, and an empty list.
pub fn feeds(rt: &impl Print, alloc: Global) -> Result<()> {
    let load = read_load(alloc, TWO)?;
    let (plan, modes) = load.setup.into_parts();
    let (_house, clients) = open_house(alloc, plan, modes, load.backlog, load.ring)?;
    make_feeds(rt, alloc, clients, load.jobs)
}

/// Makes feeds of these clients and lists, once more if they come back.
fn make_feeds(
    rt: &impl Print,
    alloc: Global,
    clients: Vec<Client<FileJob>>,
    lists: Vec<Vec<Task<FileJob>>>,
) -> Result<()> {
    ensure!(clients.len() == lists.len(), "not a list for each client");
    begin(rt);
    if let Some(back) = made(rt, alloc, clients, lists) {
        made(rt, alloc, back.clients, back.lists);
    }
    Ok(())
}

/// Makes feeds, and prints the result. Returns the clients and the lists if they come back.
fn made(
    rt: &impl Print,
    alloc: Global,
    clients: Vec<Client<FileJob>>,
    lists: Vec<Vec<Task<FileJob>>>,
) -> Option<FeedsRefused<FileJob>>
    requires { length lists.items ≡ length clients.items }
    ensures { IfSome result (λ back. length back.lists.items ≡ length back.clients.items) }
{
    match feeds_of(alloc, clients, lists) {
        Ok(feeds) => {
            tell(rt, "feeds", feeds.len());
            None
        }
        Err(refused) => {
            tell(rt, "clients that came back", refused.clients.len());
            tell(rt, "lists that came back", refused.lists.len());
            Some(refused)
        }
    }
}

/// Returns a house of three servers, and a feed of the jobs of each.
fn three_fed(alloc: Global) -> Result<(House<FileJob>, Vec<Feed<FileJob>>)>
    ensures { IfOk result (λ r. Ready r.0 r.1.items) }
{
    let load = read_load(alloc, THREE)?;
    fed(alloc, load.setup, load.backlog, load.ring, load.jobs)
}

/// Returns how many messages stand in the ring of the feed at this index.
fn standing(house: &mut House<FileJob>, feeds: &mut [Feed<FileJob>], index: usize) -> u64
    requires ready { Ready house.old feeds.old }
    requires within { index < length feeds.old }
    ensures ready { Ready house.new feeds.new }
    ensures count { length feeds.new ≡ length feeds.old }
{
    let feed = &mut feeds[index];
    house.settle(feed.client())
}

/// Prints where the jobs of a server's feed are: not sent, in the ring, held by the core, or among the results.
/// `standing` is how many messages stand in the ring.
fn tell_feed(
    rt: &impl Print,
    house: &House<FileJob>,
    server: u16,
    feed: &Feed<FileJob>,
    standing: u64,
) {
    let Ok(view) = house.view(server) else {
        return;
    };
    let ends = u64::from(feed.done() && !view.closed);
    tell(rt, "server", server);
    tell(rt, "left", feed.left());
    tell(rt, "in the ring", standing.saturating_sub(ends));
    tell(rt, "held", view.accepted.saturating_sub(view.finished));
    tell(rt, "results", house.results(server));
}

/// Prints where all jobs are.
fn tell_all(rt: &impl Print, house: &mut House<FileJob>, feeds: &mut [Feed<FileJob>])
    requires { Ready house.old feeds.old }
    ensures { Ready house.new feeds.new }
{
    for index in 0..feeds.len() {
        let standing = standing(house, feeds, index);
        tell_feed(rt, house, index as u16, &feeds[index], standing);
    }
}

/// Takes a round in which all is sent and taken, and prints the result.
fn takes_round<R: Print + Threads + Clock + Sync>(
    rt: &R,
    house: &mut House<FileJob>,
    feeds: &mut [Feed<FileJob>],
)
    requires { Ready house.old feeds.old }
    ensures { Ready house.new feeds.new }
{
    let round = serve_round(rt, house, feeds, TURNS, &OpenGate);
    tell(rt, "round", round);
}

/// Serves the feeds, and prints the result and where all jobs are.
fn serves<R: Print + Threads + Clock + Sync>(
    rt: &R,
    what: &str,
    house: &mut House<FileJob>,
    feeds: &mut [Feed<FileJob>],
)
    requires { Ready house.old feeds.old }
    ensures { Ready house.new feeds.new }
{
    let answer = serve(rt, house, feeds, &OpenGate);
    tell(rt, what, answer);
    tell_all(rt, house, feeds);
}

/// Serves the feeds twice, or takes a round and serves what is left.
fn serves_on<R: Print + Threads + Clock + Sync>(
    rt: &R,
    house: &mut House<FileJob>,
    feeds: &mut [Feed<FileJob>],
    by_round: bool,
)
    requires { Ready house.old feeds.old }
{
    if by_round {
        takes_round(rt, house, feeds);
        serves(rt, "serve", house, feeds);
    } else {
        serves(rt, "first", house, feeds);
        serves(rt, "again", house, feeds);
    }
}

/// Serves the feeds of three servers to their end, after a round or twice.
pub fn serve_three<R: Print + Threads + Clock + Sync>(
    rt: &R,
    alloc: Global,
    by_round: bool,
) -> Result<()> {
    let (mut house, mut feeds) = three_fed(alloc)?;
    begin(rt);
    serves_on(rt, &mut house, &mut feeds, by_round);
    Ok(())
}
