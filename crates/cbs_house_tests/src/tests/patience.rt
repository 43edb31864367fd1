//! Tests of how long an idle side waits: its turns, and its sleeps.

use super::naps::{Naps, Sleeps};
use super::rows::{Case, Phase, Row, plays_all, plays_in_heap};
use super::same;
use super::serving::{Fed, Step, opened};
use cbs_house::{Gate, HouseError, Poll, SendError, serve_round};
use cbs_rules::Mode;
use std::io;
use std::sync::atomic::{AtomicU64, Ordering};
use std::thread::Threads;
use std::time::{Clock, Duration};

/// A gate that holds every message back. It counts how often it was asked, and how many results of polls it got.
#[derive(Drop)]
struct Counted {
    asked: AtomicU64,
    told: AtomicU64,
}

impl Counted {
    fn new() -> Counted {
        Counted {
            asked: AtomicU64::new(0),
            told: AtomicU64::new(0),
        }
    }

    /// Returns how often the gate was asked, and how many results of polls it got.
    fn seen(&self) -> (u64, u64) {
        (
            self.asked.load(Ordering::SeqCst),
            self.told.load(Ordering::SeqCst),
        )
    }
}

impl Gate for Counted {
    fn before_send(&self, _server: u16, _number: u64) -> bool {
        self.asked.fetch_add(1, Ordering::SeqCst);
        false
    }

    fn answered(&self, _server: u16, _poll: Poll) {
        self.told.fetch_add(1, Ordering::SeqCst);
    }
}

/// No sleep.
const NONE: Sleeps = (0, 0, 0);

/// A house whose client has not ended.
const STALLED: Result<(), HouseError> = Err(HouseError::Stalled);

/// A client at a full ring.
const FULL: Result<(), SendError> = Err(SendError::RingFull);

static CASES: [Case; 3] = [
    // A house yields in the first 64 idle turns, and sleeps in each 128th turn after those. Each sleep is 20
    // microseconds longer than the one before, up to 2000.
    Case {
        name: "a house waits for as many turns as it is told",
        mode: Mode::Soft,
        rate: (2, 5),
        limits: (4, 4),
        rows: &[
            Row::Close(0, STALLED, NONE),
            Row::Close(1, STALLED, NONE),
            Row::Close(191, STALLED, NONE),
            Row::Close(192, STALLED, (1, 20, 20)),
            Row::Close(447, STALLED, (2, 40, 60)),
            Row::Close(448, STALLED, (3, 60, 120)),
            Row::Close(1600, STALLED, (12, 240, 1560)),
            Row::Close(12992, STALLED, (101, 2000, 103000)),
        ],
    },
    Case {
        name: "a house does not wait after the last end",
        mode: Mode::Throttled,
        rate: (1, 4),
        limits: (4, 4),
        rows: &[
            Row::Send(&[5, 7], 0),
            Row::End(Ok(())),
            Row::Close(100_000, Ok(()), NONE),
            Row::Now(5),
        ],
    },
    // After each try but the last a client rests as a house does after an idle turn.
    Case {
        name: "a client tries as often as it is told",
        mode: Mode::Soft,
        rate: (2, 5),
        limits: (4, 1),
        rows: &[
            Row::SendWithin(&[1], 0, Ok(0), NONE),
            Row::SendWithin(&[2], 0, Err(SendError::RingFull), NONE),
            Row::EndWithin(0, FULL, NONE),
            Row::SendWithin(&[2], 1, Err(SendError::RingFull), NONE),
            Row::EndWithin(1, FULL, NONE),
            Row::SendWithin(&[2], 192, Err(SendError::RingFull), NONE),
            Row::EndWithin(192, FULL, NONE),
            Row::SendWithin(&[2], 193, Err(SendError::RingFull), (1, 20, 20)),
            Row::EndWithin(193, FULL, (1, 20, 20)),
            Row::Poll(0, Poll::Took(0)),
            Row::EndWithin(1000, Ok(()), NONE),
            Row::EndWithin(1000, Err(SendError::Ended), NONE),
        ],
    },
];

#[test]
fn each_side_waits_as_long_as_it_is_told(rt: HostRuntime) {
    plays_all(&rt, rt.alloc(), &CASES);
}

static PHASES: [Phase; 3] = [
    Phase {
        name: "a job and the end are sent",
        full: false,
        rows: &[Row::Send(&[1, 2, 3], 0), Row::End(Ok(()))],
    },
    Phase {
        name: "without memory",
        full: true,
        rows: &[
            Row::RefusedTurn,
            Row::Close(100_000, Err(HouseError::OutOfMemory), NONE),
        ],
    },
    Phase {
        name: "with memory",
        full: false,
        rows: &[Row::Close(100_000, Ok(()), NONE), Row::Now(3)],
    },
];

#[test]
fn a_run_stops_at_the_first_poll_without_memory(rt: HostRuntime) {
    plays_in_heap(&rt, rt.alloc(), Mode::Soft, &PHASES);
}

/// Both sides of a round, of which neither has a message that comes through.
static ONE_ROUND: [Step; 1] = [Step::Round(10, (0, 0))];

/// One round, and one for each message that is left: two jobs and the end. Each round has 10,000 turns.
static FOUR_ROUNDS: [Step; 1] = [Step::Serve(Err(HouseError::Stalled))];

#[test]
fn each_side_of_a_round_takes_all_its_turns(rt: HostRuntime) {
    let mut fed = Fed::new(&rt, rt.alloc(), &[(Mode::Soft, 2, 5)], 4, &[&[&[1], &[2]]]);
    let gate = Counted::new();
    fed.goes(&rt, "a round of 10 turns", &ONE_ROUND, &gate);
    same(&rt, "a round of 10 turns", gate.seen(), (10, 10));
    let gate = Counted::new();
    fed.goes(&rt, "four rounds", &FOUR_ROUNDS, &gate);
    same(&rt, "four rounds", gate.seen(), (40_000, 40_000));
}

/// A gate that holds every message back, and counts the results of polls by their servers.
#[derive(Drop)]
struct ByServer {
    first: AtomicU64,
    second: AtomicU64,
}

impl Gate for ByServer {
    fn before_send(&self, _server: u16, _number: u64) -> bool {
        false
    }

    fn answered(&self, server: u16, _poll: Poll) {
        if server == 0 {
            self.first.fetch_add(1, Ordering::SeqCst);
        } else if server == 1 {
            self.second.fetch_add(1, Ordering::SeqCst);
        }
    }
}

#[test]
fn each_poll_is_told_with_its_server(rt: HostRuntime) {
    let servers = [(Mode::Soft, 2, 5), (Mode::Soft, 2, 5)];
    let mut fed = Fed::new(&rt, rt.alloc(), &servers, 4, &[&[&[1]], &[&[2]]]);
    let gate = ByServer {
        first: AtomicU64::new(0),
        second: AtomicU64::new(0),
    };
    fed.goes(&rt, "two servers", &ONE_ROUND, &gate);
    let told = (
        gate.first.load(Ordering::SeqCst),
        gate.second.load(Ordering::SeqCst),
    );
    same(&rt, "two servers", told, (10, 10));
}

/// How often a sender looks whether the house has taken its turns, and how often it looks once more, until it has left.
const LOOKS: u64 = 1_000_000_000;

const LAST_LOOKS: u64 = 50_000_000;

/// A gate that holds every message back. The first call of the sender waits until the house has taken all its turns.
#[derive(Drop)]
struct AfterTheHouse {
    turns: u64,
    asked: AtomicU64,
    told: AtomicU64,
}

impl AfterTheHouse {
    /// Looks so often, or until the house has taken so many turns.
    fn look(&self, times: u64, turns: u64) {
        for _look in 0..times {
            if self.told.load(Ordering::SeqCst) >= turns {
                return;
            }
        }
    }
}

impl Gate for AfterTheHouse {
    fn before_send(&self, _server: u16, _number: u64) -> bool {
        if self.asked.fetch_add(1, Ordering::SeqCst) == 0 {
            self.look(LOOKS, self.turns);
            self.look(LAST_LOOKS, u64::MAX);
        }
        false
    }

    fn answered(&self, _server: u16, _poll: Poll) {
        self.told.fetch_add(1, Ordering::SeqCst);
    }
}

/// A runtime with the threads of another one, and a clock that only counts its sleeps.
#[derive(Drop)]
struct Napping<R> {
    _threads: R,
    naps: Naps,
}

impl<R: Threads> Threads for Napping<R> {}

impl<R> Clock for Napping<R> {
    fn monotonic(&self) -> io::Result<Duration> {
        self.naps.monotonic()
    }

    fn since_1970(&self) -> io::Result<Duration> {
        self.naps.since_1970()
    }

    fn sleep(&self, duration: Duration) {
        self.naps.sleep(duration);
    }
}

// The house sleeps as in 1600 idle turns of its own, and the sender not at all.
#[test]
fn a_sender_does_not_wait_for_a_house_that_has_left(rt: HostRuntime) {
    let (mut house, mut feeds) = opened(&rt, rt.alloc(), &[(Mode::Soft, 2, 5)], 4, &[&[&[1]]]);
    let gate = AfterTheHouse {
        turns: 1600,
        asked: AtomicU64::new(0),
        told: AtomicU64::new(0),
    };
    let napping = Napping {
        _threads: &rt,
        naps: Naps::none(),
    };
    let round = serve_round(&napping, &mut house, &mut feeds, 1600, &gate);
    same(&rt, "sent, took", (round.sent, round.took), (0, 0));
    same(&rt, "sleeps", napping.naps.seen(), (12, 240, 1560));
}
