//! Tests of feeds that are served.

ghost use Rattle.std.specs.Prelude.{◌<◌, ◌≤◌, length};
ghost use Rattle.cbs_house.specs.Rounds.{Ready};

use super::calls::{gave, sends};
use super::meeting::{Meet, Shut};
use super::polling::one_client;
use super::rows::{Row, does_all, looks};
use super::{lists_of, same, same_at, setup_of};
use cbs_house::{Feed, Gate, House, HouseError, OpenGate, open_feeds, serve, serve_round};
use cbs_job::{SumJob, Task};
use cbs_rules::Mode;
use std::alloc::Global;
use std::process::Abort;
use std::slice::from_mut;
use std::thread::Threads;
use std::time::Clock;

/// Returns a house of these servers, and for each a feed of the sums at its place.
pub fn opened<R: Abort>(
    rt: &R,
    alloc: Global,
    servers: &[(Mode, u64, u64)],
    ring: u64,
    lists: &[&[&[u32]]],
) -> (House<SumJob>, Vec<Feed<SumJob>>)
    ensures { Ready result.0 result.1.items }
{
    with_lists(rt, alloc, servers, ring, lists_of(rt, alloc, lists))
}

/// Returns a house of these servers, and for each a feed of the list at its place.
pub fn with_lists<R: Abort>(
    rt: &R,
    alloc: Global,
    servers: &[(Mode, u64, u64)],
    ring: u64,
    lists: Vec<Vec<Task<SumJob>>>,
) -> (House<SumJob>, Vec<Feed<SumJob>>)
    ensures { Ready result.0 result.1.items }
{
    let (plan, modes) = setup_of(rt, servers);
    assert!(rt; lists.len() == plan.len());
    let Ok(opened) = open_feeds(alloc, plan, modes, 4, ring, lists) else {
        panic!(rt; "a house with its feeds");
    };
    opened
}

/// Serves a round of `turns` turns, and checks how many messages were sent and taken.
pub fn rounds<R: Threads + Clock + Sync + Abort, G: Gate + Sync>(
    rt: &R,
    house: &mut House<SumJob>,
    feeds: &mut [Feed<SumJob>],
    turns: u64,
    gate: &G,
    wanted: (u64, u64),
)
    requires ready { Ready house.old feeds.old }
    requires turns { turns ≤ 1000000000 }
    ensures { Ready house.new feeds.new }
{
    let round = serve_round(rt, house, feeds, turns, gate);
    same(rt, "round", (round.sent, round.took), wanted);
}

/// Serves feeds, and checks the result.
pub fn serves<R: Threads + Clock + Sync + Abort, G: Gate + Sync>(
    rt: &R,
    house: &mut House<SumJob>,
    feeds: &mut [Feed<SumJob>],
    gate: &G,
    wanted: Result<(), HouseError>,
)
    requires { Ready house.old feeds.old }
    ensures { Ready house.new feeds.new }
{
    same(rt, "serve", serve(rt, house, feeds, gate), wanted);
}

/// Returns how many messages stand in the ring of the feed at this index.
fn standing(house: &mut House<SumJob>, feeds: &mut [Feed<SumJob>], index: usize) -> u64
    requires ready { Ready house.old feeds.old }
    requires within { index < length feeds.old }
    ensures ready { Ready house.new feeds.new }
{
    let feed = &mut feeds[index];
    house.settle(feed.client())
}

/// Checks the only feed: how many jobs are left, and whether it is done.
fn one_feed(rt: &impl Abort, at: (&str, usize), feeds: &[Feed<SumJob>], wanted: (u64, bool)) {
    same_at(rt, at, "feeds", feeds.len(), 1);
    for feed in feeds {
        same_at(rt, at, "left, done", (feed.left(), feed.done()), wanted);
    }
}

/// A call of a house and its feeds, with its result.
#[derive(Clone, Copy)]
pub enum Step {
    /// A round of so many turns, and how many messages were sent and taken.
    Round(u64, (u64, u64)),
    Serve(Result<(), HouseError>),
    /// The number of messages that stand in the ring of the first feed.
    Standing(u64),
    /// How many jobs of the only feed are left, and whether it is done.
    Feed(u64, bool),
    /// A call of the house that only reads.
    Look(Row),
}

/// A house, and a feed for each of its servers.
#[derive(Drop)]
pub struct Fed {
    house: House<SumJob>,
    feeds: Vec<Feed<SumJob>>,
    ghost ready: { Ready house feeds.items },
}

impl Fed {
    /// Returns a house of these servers, and for each a feed of the sums at its place.
    pub fn new(
        rt: &impl Abort,
        alloc: Global,
        servers: &[(Mode, u64, u64)],
        ring: u64,
        lists: &[&[&[u32]]],
    ) -> Fed {
        let (house, feeds) = opened(rt, alloc, servers, ring, lists);
        Fed { house, feeds }
    }

    /// Returns the house, after its feeds were dropped.
    pub fn without_feeds(self) -> House<SumJob> {
        let Fed { house, feeds } = self;
        drop(feeds);
        house
    }

    /// Makes these steps in turn, and checks each result.
    pub fn goes<R: Threads + Clock + Sync + Abort, G: Gate + Sync>(
        &mut self,
        rt: &R,
        name: &str,
        steps: &[Step],
        gate: &G,
    ) {
        for (place, &step) in steps.iter().enumerate() {
            self.makes(rt, (name, place), step, gate);
        }
    }

    /// Makes a step, and checks the result.
    fn makes<R: Threads + Clock + Sync + Abort, G: Gate + Sync>(
        &mut self,
        rt: &R,
        at: (&str, usize),
        step: Step,
        gate: &G,
    ) {
        match step {
            Step::Round(turns, wanted) => {
                assert!(rt; turns <= 1_000_000_000);
                rounds(rt, &mut self.house, &mut self.feeds, turns, gate, wanted);
            }
            Step::Serve(wanted) => serves(rt, &mut self.house, &mut self.feeds, gate, wanted),
            Step::Standing(wanted) => {
                assert!(rt; !self.feeds.is_empty());
                let standing = standing(&mut self.house, &mut self.feeds, 0);
                same_at(rt, at, "standing", standing, wanted);
            }
            Step::Feed(left, done) => one_feed(rt, at, &self.feeds, (left, done)),
            Step::Look(row) => looks(rt, at, &self.house, row),
        }
    }
}

/// Steps of a new house and its feeds.
struct Served {
    name: &'static str,
    /// The mode, the budget and the period of each server.
    servers: &'static [(Mode, u64, u64)],
    /// The jobs of each feed: the numbers that each job adds up.
    lists: &'static [&'static [&'static [u32]]],
    steps: &'static [Step],
    /// The calls of the house when its feeds are gone.
    after: &'static [Row],
}

/// Makes the steps of a case whose rings have so many slots, and checks each result.
fn plays<R: Threads + Clock + Sync + Abort, G: Gate + Sync>(
    rt: &R,
    alloc: Global,
    case: &Served,
    ring: u64,
    gate: &G,
) {
    let mut fed = Fed::new(rt, alloc, case.servers, ring, case.lists);
    fed.goes(rt, case.name, case.steps, gate);
    let mut house = fed.without_feeds();
    does_all(rt, case.name, &mut house, case.after);
}

static IN_A_ROUND: Served = Served {
    name: "both sides of a round run at once",
    servers: &[(Mode::Soft, 2, 5), (Mode::Soft, 2, 5)],
    lists: &[&[&[1], &[2], &[3]], &[&[4]]],
    steps: &[Step::Round(1_000_000_000, (6, 6))],
    after: &[
        Row::Drain(Ok(())),
        Row::Results(0, Ok(&[1, 2, 3])),
        Row::Results(1, Ok(&[4])),
    ],
};

#[test]
fn both_sides_of_a_round_run_at_once(rt: HostRuntime) {
    let gate = Meet::new(true);
    plays(&rt, rt.alloc(), &IN_A_ROUND, 1, &gate);
    assert!(rt; gate.first.met() == 3 && gate.second.met() == 2);
}

static SERVED: Served = Served {
    name: "serving runs both sides at once",
    servers: &[(Mode::Soft, 2, 5), (Mode::Soft, 2, 5)],
    lists: &[&[&[1], &[2], &[3]], &[&[4]]],
    steps: &[Step::Serve(Ok(()))],
    after: &[Row::Results(0, Ok(&[1, 2, 3])), Row::Results(1, Ok(&[4]))],
};

#[test]
fn serving_runs_both_sides_at_once(rt: HostRuntime) {
    let gate = Meet::new(false);
    plays(&rt, rt.alloc(), &SERVED, 1, &gate);
    assert!(rt; gate.first.met() == 3);
}

static HELD_BACK: Served = Served {
    name: "a gate that holds all back stalls",
    servers: &[(Mode::Soft, 2, 5)],
    lists: &[&[&[1], &[2]]],
    steps: &[
        Step::Round(10, (0, 0)),
        Step::Standing(0),
        Step::Look(Row::Results(0, Ok(&[]))),
        Step::Serve(Err(HouseError::Stalled)),
        Step::Look(Row::Results(0, Ok(&[]))),
        Step::Feed(2, false),
    ],
    after: &[],
};

#[test]
fn a_gate_that_holds_all_back_stalls(rt: HostRuntime) {
    plays(&rt, rt.alloc(), &HELD_BACK, 4, &Shut);
}

static SERVED_TWICE: Served = Served {
    name: "served feeds may be served again",
    servers: &[(Mode::Soft, 2, 5)],
    lists: &[&[&[1], &[2]]],
    steps: &[
        Step::Serve(Ok(())),
        Step::Look(Row::Results(0, Ok(&[1, 2]))),
        Step::Serve(Ok(())),
        Step::Look(Row::Results(0, Ok(&[1, 2]))),
        Step::Look(Row::Now(2)),
        Step::Feed(0, true),
    ],
    after: &[],
};

#[test]
fn served_feeds_may_be_served_again(rt: HostRuntime) {
    plays(&rt, rt.alloc(), &SERVED_TWICE, 4, &OpenGate);
}

static OF_THREE: Served = Served {
    name: "every ring gives the same results",
    servers: &[(Mode::Soft, 2, 5), (Mode::Soft, 1, 10), (Mode::Soft, 1, 4)],
    lists: &[&[&[1, 2, 3], &[9]], &[], &[&[10], &[20, 30]]],
    steps: &[Step::Serve(Ok(()))],
    after: &[
        Row::Results(0, Ok(&[6, 9])),
        Row::Results(1, Ok(&[])),
        Row::Results(2, Ok(&[10, 50])),
    ],
};

#[test]
fn every_ring_gives_the_same_results(rt: HostRuntime) {
    for ring in [1, 2, 1024] {
        plays(&rt, rt.alloc(), &OF_THREE, ring, &OpenGate);
    }
}

#[test]
fn a_turn_polls_and_then_runs(rt: HostRuntime) {
    let alloc = rt.alloc();
    let (mut house, mut client) = one_client(&rt, alloc, Mode::Soft, (2, 5), (1, 2));
    sends(&rt, alloc, ("a turn", 0), &mut client, &[1], 0);
    sends(&rt, alloc, ("a turn", 1), &mut client, &[2], 1);
    let mut feed = Feed::new(client, Vec::new(alloc));
    rounds(&rt, &mut house, from_mut(&mut feed), 2, &Shut, (0, 2));
    same(&rt, "now", house.now(), 2);
    gave(&rt, &house, 0, &[1, 2]);
}

/// Checks that a feed of two jobs is refused by this error, and comes back.
fn is_refused(rt: &impl Abort, alloc: Global, backlog: u64, ring: u64, wanted: HouseError) {
    let (plan, modes) = setup_of(rt, &[(Mode::Soft, 2, 5)]);
    let lists = lists_of(rt, alloc, &[&[&[1], &[2]]]);
    assert!(rt; lists.len() == plan.len());
    let Err(refused) = open_feeds(alloc, plan, modes, backlog, ring, lists) else {
        panic!(rt; "refused");
    };
    same(rt, "error", refused.error, wanted);
    for list in &refused.lists {
        same(rt, "jobs back", list.len(), 2);
    }
}

/// A backlog and a number of slots of a ring, and the error by which feeds with them are refused.
static LIMITS: [(u64, u64, HouseError); 5] = [
    (0, 4, HouseError::BadBacklog),
    (4097, 4, HouseError::BadBacklog),
    (4, 0, HouseError::BadRing),
    (4, 1025, HouseError::BadRing),
    (0, 0, HouseError::BadBacklog),
];

#[test]
fn feeds_are_refused_with_their_jobs(rt: HostRuntime) {
    for &(backlog, ring, wanted) in &LIMITS {
        is_refused(&rt, rt.alloc(), backlog, ring, wanted);
    }
}
