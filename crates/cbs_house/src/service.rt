//! Serves feeds to their end.

ghost use Rattle.std.specs.Prelude.{ℕ, suc, ◌≡◌, ◌≢◌, ◌+◌, ◌≤◌, ◌↔◌, true, length, IsTrue, IfOk, OnOk, IfErr, MatchResult};
ghost use Rattle.std.specs.List.{All};
ghost use Rattle.cbs_house.specs.Feeds.{IsDone, KeepsFeed, KeepsFeeds, all_unsent};
ghost use Rattle.cbs_clients.specs.Houses.{core_of, rings_of, IsHouseOnTime, IsHousePaced, LooksOnly, ServesOn, ServesBy};
ghost use Rattle.cbs_host.specs.Meters.{NothingBeyond, NeverCharges};
ghost use Rattle.cbs_core.specs.Held.{HoldsNoJob};
ghost use Rattle.cbs_clients.specs.Clients.{IsOpened};
ghost use Rattle.cbs_house.specs.Rounds.{Ready, Standing, IsTaken, ReceivesFirst, IsSettled, IsServed, Halts, Stops};
ghost use Rattle.cbs_rate.specs.Limits.{most_servers};

use crate::feed::Feed;
use crate::round::serve_round_metered;
use cbs_clients::{Client, Gate, House, HouseError, Meter, NoMeter, Poll};
use cbs_job::Work;
use std::thread::Threads;
use std::time::Clock;

/// The number of turns in each round of serving.
const TURNS: u64 = 10_000;

/// Serves the feeds until each is done and all its jobs are finished. Then the results of each feed's server are those
/// of all the feed's jobs, in order and each once. Only the first ones are missing, which were handed out. They are
/// whole results if no job of the server ended early. This holds whatever the threads did.
///
/// Serving makes rounds of 10000 turns ([`serve_round`]). After each round it takes what stands in the rings, and
/// drains. The gate does not see the polls of that part. With no feed, serving makes one round, and drains what the
/// house holds.
///
/// Refuses by:
/// - [`HouseError::OutOfMemory`] if there is no memory to take what stands in a ring;
/// - [`HouseError::ClockEnd`] if the clock stands at its end with a job unfinished;
/// - [`HouseError::Stalled`] if a feed is not done after one round more than the feeds had messages to send.
///
/// A refusal loses no job. Each job is in its feed, its ring, the core or the results, and the feeds may be served
/// again.
///
/// There are at most 64 feeds, each with a client that was opened with this house. A feed whose client ended with jobs
/// left is never done.
pub fn serve<R: Threads + Clock + Sync, G: Gate + Sync, W: Work + Send>(
    rt: &R,
    house: &mut House<W>,
    feeds: &mut [Feed<W>],
    gate: &G,
) -> Result<(), HouseError>
    requires ready { Ready house.old feeds.old }
    ensures ready { Ready house.new feeds.new }
    ensures feeds { KeepsFeeds feeds.old feeds.new }
    ensures steps { ServesOn W.meaning house.old house.new }
    ensures on_time { IsHouseOnTime house.old → IsHouseOnTime house.new }
    ensures paced { IsHousePaced house.old → IsHousePaced house.new }
    ensures served { OnOk result (All (IsServed W.meaning house.new) feeds.new
        × HoldsNoJob (core_of house.new)) }
    ensures received { All (ReceivesFirst house.new) feeds.new }
    ensures stops { IfErr result (Stops W.meaning NothingBeyond house.old feeds.old house.new
        feeds.new) }
{
    serve_metered(rt, house, feeds, gate, &mut NoMeter)
}

/// Serves the feeds until each is done and all its jobs are finished, as [`serve`] does, with a meter. After each unit
/// its server is charged what the meter returns, as by [`House::run_metered`].
///
/// The meter is asked on the calling thread. The errors are those of [`serve`], in the same cases.
///
/// There are at most 64 feeds, each with a client that was opened with this house.
pub fn serve_metered<R: Threads + Clock + Sync, G: Gate + Sync, W: Work + Send, M: Meter>(
    rt: &R,
    house: &mut House<W>,
    feeds: &mut [Feed<W>],
    gate: &G,
    meter: &mut M,
) -> Result<(), HouseError>
    requires ready { Ready house.old feeds.old }
    ensures ready { Ready house.new feeds.new }
    ensures feeds { KeepsFeeds feeds.old feeds.new }
    ensures steps { ServesBy W.meaning M.may_tell house.old house.new }
    ensures on_time { NeverCharges M.may_tell → IsHouseOnTime house.old → IsHouseOnTime house.new }
    ensures paced { IsHousePaced house.old → IsHousePaced house.new }
    ensures served { OnOk result (All (IsServed W.meaning house.new) feeds.new
        × HoldsNoJob (core_of house.new)) }
    ensures received { All (ReceivesFirst house.new) feeds.new }
    ensures stops { IfErr result (Stops W.meaning M.may_tell house.old feeds.old house.new
        feeds.new) }
{
    for _ in 0..rounds_for(feeds) {
        serve_round_metered(rt, house, feeds, TURNS, gate, meter);
        if finish_round(house, feeds, meter)? {
            return Ok(());
        }
    }
    Err(HouseError::Stalled)
}

/// Returns how many rounds the feeds are given: one, and one for each message that they still have to send.
fn rounds_for<W: Work>(feeds: &[Feed<W>]) -> u128
    requires { length feeds.now ≤ most_servers }
    ensures { result ≡ all_unsent feeds.now + 1 }
{
    let mut rounds = 1;
    for feed in feeds {
        rounds += u128::from(feed.left());
        if !feed.client.ended() {
            rounds += 1;
        }
    }
    rounds
}

/// Takes and finishes what a round left, and settles all feeds, also if an error stopped it. Returns whether all feeds
/// are done, or the error that stopped it.
fn finish_round<W: Work, M: Meter>(
    house: &mut House<W>,
    feeds: &mut [Feed<W>],
    meter: &mut M,
) -> Result<bool, HouseError>
    requires ready { Ready house.old feeds.old }
    ensures ready { Ready house.new feeds.new }
    ensures feeds { KeepsFeeds feeds.old feeds.new }
    ensures steps { ServesBy W.meaning M.may_tell house.old house.new }
    ensures received { All (ReceivesFirst house.new) feeds.new }
    ensures drained { OnOk result (HoldsNoJob (core_of house.new)) }
    ensures settled { OnOk result (All (IsSettled house.new) feeds.new) }
    ensures done { IfOk result (λ all. IsTrue all ↔ All IsDone feeds.new) }
    ensures halts { IfErr result (λ error. Halts error house.new) }
{
    let drained = drain_rest(house, feeds, meter);
    settle_all(house, feeds);
    drained?;
    Ok(all_done(feeds))
}

/// Takes what stands in the rings of the feeds, and finishes all jobs. Returns the error that stopped it, if there is
/// one.
fn drain_rest<W: Work, M: Meter>(
    house: &mut House<W>,
    feeds: &mut [Feed<W>],
    meter: &mut M,
) -> Result<(), HouseError>
    requires ready { Ready house.old feeds.old }
    ensures ready { Ready house.new feeds.new }
    ensures feeds { KeepsFeeds feeds.old feeds.new }
    ensures steps { ServesBy W.meaning M.may_tell house.old house.new }
    ensures drained { OnOk result (HoldsNoJob (core_of house.new)) }
    ensures taken { OnOk result (All (IsTaken house.new) feeds.new) }
    ensures halts { IfErr result (λ error. Halts error house.new) }
{
    take_rest(house, feeds, meter)?;
    house.drain_metered(meter)
}

/// Takes what stands in the rings of the feeds. Returns the error that stopped it, if there is one.
fn take_rest<W: Work, M: Meter>(
    house: &mut House<W>,
    feeds: &mut [Feed<W>],
    meter: &mut M,
) -> Result<(), HouseError>
    requires ready { Ready house.old feeds.old }
    ensures ready { Ready house.new feeds.new }
    ensures feeds { KeepsFeeds feeds.old feeds.new }
    ensures steps { ServesBy W.meaning M.may_tell house.old house.new }
    ensures taken { OnOk result (All (IsTaken house.new) feeds.new) }
    ensures halts { IfErr result (λ error. Halts error house.new) }
{
    for index in 0..feeds.len() {
        take_ring(house, &mut feeds[index], meter)?;
    }
    Ok(())
}

/// Takes what stands in the ring of one feed. Returns the error that stopped it, if there is one.
fn take_ring<W: Work, M: Meter>(
    house: &mut House<W>,
    feed: &mut Feed<W>,
    meter: &mut M,
) -> Result<(), HouseError>
    requires opened { IsOpened (rings_of house.old) feed.old.client }
    ensures feed { KeepsFeed feed.old feed.new }
    ensures steps { ServesBy W.meaning M.may_tell house.old house.new }
    ensures taken { OnOk result (IsTaken house.new feed.new) }
    ensures halts { IfErr result (λ error. Halts error house.new) }
{
    for _ in 0..settle_feed(house, feed) {
        take_message(house, &feed.client, meter)?;
    }
    Ok(())
}

/// Takes the next message of a client, and drains first if the backlog of its server is full. Returns the error that
/// stopped it, if there is one.
fn take_message<W: Work, M: Meter>(
    house: &mut House<W>,
    client: &Client<W>,
    meter: &mut M,
) -> Result<(), HouseError>
    requires opened { IsOpened (rings_of house.old) client.now }
    ensures steps { ServesBy W.meaning M.may_tell house.old house.new }
    ensures taken { OnOk result ((n : ℕ) → Standing house.old client.now (suc n)
        → Standing house.new client.now n) }
    ensures halts { IfErr result (λ error. Halts error house.new) }
{
    let server = client.server();
    match house.poll(server) {
        Poll::Full => {
            house.drain_metered(meter)?;
            memory_for(house.poll(server))
        }
        poll => memory_for(poll),
    }
}

/// Returns [`HouseError::OutOfMemory`] if the poll found no memory, else `Ok`.
fn memory_for(poll: Poll) -> Result<(), HouseError>
    ensures { MatchResult result (λ _. poll ≢ Poll.OutOfMemory) (λ error. error
        ≡ HouseError.OutOfMemory) }
{
    match poll {
        Poll::OutOfMemory => Err(HouseError::OutOfMemory),
        _ => Ok(()),
    }
}

/// Settles all feeds. Nothing is popped, so what the house has seen of each ring stays.
fn settle_all<W: Work>(house: &mut House<W>, feeds: &mut [Feed<W>])
    requires ready { Ready house.old feeds.old }
    ensures ready { Ready house.new feeds.new }
    ensures feeds { KeepsFeeds feeds.old feeds.new }
    ensures looked { LooksOnly house.old house.new }
    ensures received { All (ReceivesFirst house.new) feeds.new }
    ensures taken { All (IsTaken house.old) feeds.old → All (IsTaken house.new) feeds.new }
{
    for index in 0..feeds.len() {
        settle_feed(house, &mut feeds[index]);
    }
}

/// Settles one feed. Returns how many messages stand in its ring.
fn settle_feed<W: Work>(house: &mut House<W>, feed: &mut Feed<W>) -> u64
    requires opened { IsOpened (rings_of house.old) feed.old.client }
    ensures feed { KeepsFeed feed.old feed.new }
    ensures looked { LooksOnly house.old house.new }
    ensures standing { Standing house.new feed.new.client result }
    ensures taken { IsTaken house.old feed.old → IsTaken house.new feed.new }
{
    house.settle(&mut feed.client)
}

/// Returns whether all feeds are done.
fn all_done<W: Work>(feeds: &[Feed<W>]) -> bool
    ensures { IsTrue result ↔ All IsDone feeds.now }
{
    for feed in feeds {
        if !feed.done() {
            return false;
        }
    }
    true
}
