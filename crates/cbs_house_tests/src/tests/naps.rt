//! Calls that wait, with a clock that only counts their sleeps.

ghost use Rattle.std.specs.Prelude.{◌≡◌};
ghost use Rattle.cbs_clients.specs.Clients.{SameClient};
ghost use Rattle.cbs_clients.specs.Houses.{rings_of};

use super::{same_at, sum_of};
use cbs_house::{Client, House, HouseError, NoSink, SendError};
use cbs_job::SumJob;
use std::alloc::{Allocator, Global};
use std::io;
use std::process::Abort;
use std::sync::atomic::{AtomicU64, Ordering};
use std::time::{Clock, Duration};

/// How often a call slept, its longest sleep, and the sum of all, in microseconds.
pub type Sleeps = (u64, u64, u64);

/// A clock that only counts: how often it was asked to sleep, the longest sleep, and the sum of all, in microseconds.
#[derive(Drop)]
pub struct Naps {
    count: AtomicU64,
    longest: AtomicU64,
    all: AtomicU64,
}

impl Naps {
    /// Returns a clock that was not asked to sleep.
    pub fn none() -> Naps {
        Naps {
            count: AtomicU64::new(0),
            longest: AtomicU64::new(0),
            all: AtomicU64::new(0),
        }
    }

    /// Returns how many sleeps there were, the longest, and the sum of all.
    pub fn seen(&self) -> Sleeps {
        (
            self.count.load(Ordering::SeqCst),
            self.longest.load(Ordering::SeqCst),
            self.all.load(Ordering::SeqCst),
        )
    }
}

impl Clock for Naps {
    fn monotonic(&self) -> io::Result<Duration> {
        Ok(Duration::from_micros(0))
    }

    fn since_1970(&self) -> io::Result<Duration> {
        Ok(Duration::from_micros(0))
    }

    fn sleep(&self, duration: Duration) {
        let micros = u64::try_from(duration.as_micros()).unwrap_or(u64::MAX);
        self.count.fetch_add(1, Ordering::SeqCst);
        self.longest.fetch_max(micros, Ordering::SeqCst);
        self.all.fetch_add(micros, Ordering::SeqCst);
    }
}

/// Runs a house until its clients have ended, or it was idle for so many turns. Checks the result and the sleeps.
pub fn closes<A: Allocator>(
    rt: &impl Abort,
    at: (&str, usize),
    house: &mut House<SumJob, A>,
    idle_turns: u64,
    wanted: Result<(), HouseError>,
    sleeps: Sleeps,
)
    ensures { rings_of house.new ≡ rings_of house.old }
{
    let naps = Naps::none();
    let answer = house.run_until_closed(&naps, &mut NoSink, idle_turns);
    same_at(rt, at, "run_until_closed", answer, wanted);
    same_at(rt, at, "sleeps", naps.seen(), sleeps);
}

/// Sends a job of these numbers with so many tries. Checks the answer and the sleeps.
pub fn sends<A: Allocator>(
    rt: &impl Abort,
    alloc: Global,
    at: (&str, usize),
    client: &mut Client<SumJob, A>,
    sum: (&[u32], u64),
    answer: (Result<u64, SendError>, Sleeps),
)
    ensures { SameClient client.old client.new }
{
    let (numbers, tries) = sum;
    let (wanted, sleeps) = answer;
    let naps = Naps::none();
    let sent = client.send_within(&naps, sum_of(rt, alloc, numbers), tries);
    match sent {
        Ok(number) => same_at(rt, at, "send_within", Ok(number), wanted),
        Err(refused) => same_at(rt, at, "send_within", Err(refused.error), wanted),
    }
    same_at(rt, at, "sleeps of a send", naps.seen(), sleeps);
}

/// Ends a client with so many tries. Checks the result and the sleeps.
pub fn ends<A: Allocator>(
    rt: &impl Abort,
    at: (&str, usize),
    client: &mut Client<SumJob, A>,
    tries: u64,
    wanted: Result<(), SendError>,
    sleeps: Sleeps,
)
    ensures { SameClient client.old client.new }
{
    let naps = Naps::none();
    let answer = client.end_within(&naps, tries);
    same_at(rt, at, "end_within", answer, wanted);
    same_at(rt, at, "sleeps of an end", naps.seen(), sleeps);
}
