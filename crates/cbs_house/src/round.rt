//! A round: the senders and the house take turns at once.

ghost use Rattle.std.specs.Prelude.{◌≡◌, ◌+◌, ◌*◌, ◌≤◌, ◌↔◌, length, IsTrue};
ghost use Rattle.std.specs.List.{All};
ghost use Rattle.std.specs.Thread.{IsSync, IsSend};
ghost use Rattle.cbs_house.specs.Feeds.{KeepsFeeds, EachSendsAtMost, SendsFeeds, servers_of, all_sent};
ghost use Rattle.cbs_clients.specs.Houses.{core_of, IsHouseOnTime, IsHousePaced};
ghost use Rattle.cbs_host.specs.Meters.{NothingBeyond, NeverCharges};
ghost use Rattle.cbs_core.specs.Held.{IsClosed};
ghost use Rattle.cbs_house.specs.Rounds.{Ready, TakesTurn, TakesTurns};
ghost use Rattle.cbs_rate.specs.Limits.{most_servers};

use crate::at_work::AtWork;
use crate::feed::Feed;
use crate::senders::send_all;
use cbs_clients::{Gate, House, Meter, NoMeter, Pause, poll_each};
use cbs_job::Work;
use std::thread::{Threads, join_mut};
use std::time::Clock;

/// The messages that a round moved, ends included.
#[derive(Clone, Copy, Debug, PartialEq, Eq)]
pub struct Round {
    /// The number of messages that the feeds sent.
    pub sent: u64,
    /// The number of messages that the house took, from all servers' rings.
    pub took: u64,
}

/// Lets the senders of all feeds and the house take turns, all at once. Returns how many messages were sent and taken.
///
/// A sender's turn asks the gate. If the gate returns true, the sender tries the next message once. A sender stops when
/// its feed is done, or after `turns` turns.
///
/// A turn of the house polls each server once, in order, and passes each result to the gate. Then the turn runs once.
/// The house stops when the end of every feed was taken, or after `turns` turns.
///
/// Nothing is refused: a poll that is out of memory pops nothing, and the next turn polls again. If the system makes no
/// thread, the two sides, or some senders, take their turns one after the other.
///
/// After turns that did nothing a side yields, and sleeps now and then, for at most 2 milliseconds. The runtime's clock
/// serves for this alone: no time is read.
///
/// There are at most 64 feeds, each with a client that was opened with this house; `turns` is at most 1000000000.
pub fn serve_round<R: Threads + Clock + Sync, G: Gate + Sync, W: Work + Send>(
    rt: &R,
    house: &mut House<W>,
    feeds: &mut [Feed<W>],
    turns: u64,
    gate: &G,
) -> Round
    requires ready { Ready house.old feeds.old }
    requires turns { turns ≤ 1000000000 }
    ensures ready { Ready house.new feeds.new }
    ensures feeds { KeepsFeeds feeds.old feeds.new }
    ensures each { EachSendsAtMost turns feeds.old feeds.new }
    ensures counts { (all_sent feeds.new ≡ all_sent feeds.old + result.sent)
        × (result.sent ≤ turns * length feeds.old)
        × (result.took ≤ turns * length (core_of house.old).faces) }
    ensures took { TakesTurns W.meaning NothingBeyond turns (servers_of feeds.old) house.old
        house.new result.took }
    ensures on_time { IsHouseOnTime house.old → IsHouseOnTime house.new }
    ensures paced { IsHousePaced house.old → IsHousePaced house.new }
{
    serve_round_metered(rt, house, feeds, turns, gate, &mut NoMeter)
}

/// Lets the senders of all feeds and the house take turns, all at once, as [`serve_round`] does, with a meter. After
/// each unit its server is charged what the meter returns, as by [`House::run_metered`]. Returns how many messages were
/// sent and taken.
///
/// The meter is asked on the calling thread. There are at most 64 feeds, each with a client that was opened with this
/// house; `turns` is at most 1000000000.
pub fn serve_round_metered<R: Threads + Clock + Sync, G: Gate + Sync, W: Work + Send, M: Meter>(
    rt: &R,
    house: &mut House<W>,
    feeds: &mut [Feed<W>],
    turns: u64,
    gate: &G,
    meter: &mut M,
) -> Round
    requires ready { Ready house.old feeds.old }
    requires turns { turns ≤ 1000000000 }
    ensures ready { Ready house.new feeds.new }
    ensures feeds { KeepsFeeds feeds.old feeds.new }
    ensures each { EachSendsAtMost turns feeds.old feeds.new }
    ensures counts { (all_sent feeds.new ≡ all_sent feeds.old + result.sent)
        × (result.sent ≤ turns * length feeds.old)
        × (result.took ≤ turns * length (core_of house.old).faces) }
    ensures took { TakesTurns W.meaning M.may_tell turns (servers_of feeds.old) house.old house.new
        result.took }
    ensures on_time { NeverCharges M.may_tell → IsHouseOnTime house.old → IsHouseOnTime house.new }
    ensures paced { IsHousePaced house.old → IsHousePaced house.new }
{
    let mut servers = [0u16; 64];
    let wanted = servers_of(feeds, &mut servers);
    let at_work = AtWork::all(feeds.len() as u64);
    let (sent, took) = both_sides(rt, gate, turns, wanted, &at_work, feeds, house, meter);
    Round { sent, took }
}

/// Returns the servers of the feeds, in order, in the buffer `servers`.
fn servers_of<'a, W: Work>(feeds: &[Feed<W>], servers: &'a mut [u16; 64]) -> &'a [u16]
    requires { length feeds.now ≤ most_servers }
    ensures { result.now ≡ servers_of feeds.now }
{
    for (index, feed) in feeds.iter().enumerate() {
        servers[index] = feed.client.server();
    }
    &servers[..feeds.len()]
}

// The two sides at once: the senders, and the house. A separate function: its closures require no more than its own
// contract gives.
fn both_sides<R: Threads + Clock + Sync, G: Gate + Sync, W: Work + Send, M: Meter>(
    rt: &R,
    gate: &G,
    turns: u64,
    wanted: &[u16],
    at_work: &AtWork,
    feeds: &mut [Feed<W>],
    house: &mut House<W>,
    meter: &mut M,
) -> (u64, u64)
    requires few { length feeds.old ≤ most_servers }
    requires turns { turns ≤ 1000000000 }
    ensures sends { SendsFeeds turns feeds.old feeds.new }
    ensures sent { all_sent feeds.new ≡ all_sent feeds.old + result.0 }
    ensures most { result.0 ≤ turns * length feeds.old }
    ensures took { TakesTurns W.meaning M.may_tell turns wanted.now house.old house.new result.1 }
    ensures few { result.1 ≤ turns * length (core_of house.old).faces }
{
    join_mut(
        rt,
        &mut || -> u64
            requires { IsSync R.row × IsSync G.row × IsSend W.row
                × (length feeds.now ≤ most_servers) × (turns ≤ 1000000000) }
            ensures { SendsFeeds turns feeds.entry.now feeds.exit.now
                × (all_sent feeds.exit.now ≡ all_sent feeds.entry.now + result)
                × (result ≤ turns * length feeds.entry.now) }
        { send_all(rt, gate, turns, at_work, feeds) },
        &mut || -> u64
            requires { turns ≤ 1000000000 }
            ensures { TakesTurns W.meaning M.may_tell turns wanted.entry.now house.entry.now
                house.exit.now result × (result ≤ turns * length (core_of house.entry.now).faces) }
        {
            let took = house_turns(rt, gate, turns, wanted, at_work, house, meter);
            at_work.house_leaves();
            took
        },
    )
}

/// Takes the turns of the house, until the wanted servers are closed, or `turns` times. After turns that take no
/// message the house rests, while a sender is at work. Returns how many messages the house took.
fn house_turns<R: Clock, G: Gate, W: Work, M: Meter>(
    rt: &R,
    gate: &G,
    turns: u64,
    wanted: &[u16],
    at_work: &AtWork,
    house: &mut House<W>,
    meter: &mut M,
) -> u64
    requires { turns ≤ 1000000000 }
    ensures turns { TakesTurns W.meaning M.may_tell turns wanted.now house.old house.new result }
    ensures few { result ≤ turns * length (core_of house.old).faces }
{
    let mut took = 0;
    let mut pause = Pause::new();
    for _ in 0..turns {
        if all_closed(house, wanted) {
            break;
        }
        let tick = house.now();
        let taken = house_turn(gate, house, meter);
        took += taken;
        if taken > 0 {
            pause.moved();
        } else if house.now() > tick {
            pause.ran();
        } else {
            at_work.house_rests(rt, &mut pause);
        }
    }
    took
}

/// Returns whether all these servers are closed.
fn all_closed<W: Work>(house: &House<W>, servers: &[u16]) -> bool
    ensures { IsTrue result ↔ All (IsClosed (core_of house.now)) servers.now }
{
    servers.iter().all(|server| house.is_closed(*server))
}

/// Takes one turn of the house: polls each server once, runs once, and pays for the unit. Returns how many messages the
/// house took.
fn house_turn<G: Gate, W: Work, M: Meter>(gate: &G, house: &mut House<W>, meter: &mut M) -> u64
    ensures turn { TakesTurn W.meaning M.may_tell house.old house.new result }
    ensures few { result ≤ length (core_of house.old).faces }
    ensures most { result ≤ most_servers }
{
    let polls = poll_each(gate, house);
    house.run_metered(meter);
    polls.took
}
