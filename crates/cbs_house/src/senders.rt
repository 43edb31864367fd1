//! The senders' side of a round.

ghost use Rattle.std.specs.Prelude.{◌≡◌, ◌+◌, ◌*◌, ◌<◌, ◌≤◌, length};
ghost use Rattle.std.specs.Thread.{IsSync, IsSend};
ghost use Rattle.cbs_clients.specs.Clients.{sent_by};
ghost use Rattle.cbs_house.specs.Feeds.{KeepsFeed, SendsFeeds, all_sent};
ghost use Rattle.cbs_rate.specs.Limits.{most_servers};

use crate::at_work::AtWork;
use crate::feed::Feed;
use cbs_clients::{Gate, Pause};
use cbs_job::Work;
use std::thread::{Threads, join_mut};
use std::time::Clock;

/// Lets one sender take turns until its feed is done, or `turns` times. After turns that send nothing the sender rests,
/// while the house is at work. Returns how many messages it sent.
fn send_turns<R: Clock, W: Work, G: Gate>(
    rt: &R,
    feed: &mut Feed<W>,
    gate: &G,
    turns: u64,
    at_work: &AtWork,
) -> u64
    ensures kept { KeepsFeed feed.old feed.new }
    ensures count { length (sent_by feed.new.client) ≡ length (sent_by feed.old.client) + result }
    ensures most { result ≤ turns }
{
    let mut sent = 0;
    let mut pause = Pause::new();
    for _ in 0..turns {
        if feed.done() {
            break;
        }
        if feed.turn(gate) {
            sent += 1;
            pause.moved();
        } else {
            at_work.sender_rests(rt, &mut pause);
        }
    }
    sent
}

/// Lets the senders of all feeds take turns at once, each in its own branch of a tree of joins. Returns how many
/// messages they sent.
#[cycle(senders)]
pub fn send_all<R: Threads + Clock + Sync, G: Gate + Sync, W: Work + Send>(
    rt: &R,
    gate: &G,
    turns: u64,
    at_work: &AtWork,
    feeds: &mut [Feed<W>],
) -> u64
    requires few { length feeds.old ≤ most_servers }
    requires turns { turns ≤ 1000000000 }
    ensures sends { SendsFeeds turns feeds.old feeds.new }
    ensures count { all_sent feeds.new ≡ all_sent feeds.old + result }
    ensures most { result ≤ turns * length feeds.old }
{
    if feeds.len() < 2 {
        return match feeds.first_mut() {
            Some(feed) => {
                let sent = send_turns(rt, feed, gate, turns, at_work);
                at_work.sender_leaves();
                sent
            }
            None => 0,
        };
    }
    let (front, back) = feeds.split_at_mut(feeds.len() / 2);
    let (a, b) = send_both(rt, gate, turns, at_work, front, back);
    a + b
}

// The senders of two parts, at once. A separate function: its closures require no more than its own contract gives.
#[cycle(senders)]
fn send_both<R: Threads + Clock + Sync, G: Gate + Sync, W: Work + Send>(
    rt: &R,
    gate: &G,
    turns: u64,
    at_work: &AtWork,
    front: &mut [Feed<W>],
    back: &mut [Feed<W>],
) -> (u64, u64)
    requires few { (length front.old + length back.old ≤ most_servers) × (0 < length front.old)
        × (0 < length back.old) }
    requires turns { turns ≤ 1000000000 }
    ensures sends { SendsFeeds turns front.old front.new × SendsFeeds turns back.old back.new }
    ensures count { (all_sent front.new ≡ all_sent front.old + result.0)
        × (all_sent back.new ≡ all_sent back.old + result.1) }
    ensures most { (result.0 ≤ turns * length front.old) × (result.1 ≤ turns * length back.old) }
{
    join_mut(
        rt,
        &mut || -> u64
            requires { IsSync R.row × IsSync G.row × IsSend W.row
                × (length front.now ≤ most_servers) × (turns ≤ 1000000000) }
            ensures { SendsFeeds turns front.entry.now front.exit.now
                × (all_sent front.exit.now ≡ all_sent front.entry.now + result)
                × (result ≤ turns * length front.entry.now) }
        { send_all(rt, gate, turns, at_work, front) },
        &mut || -> u64
            requires { IsSync R.row × IsSync G.row × IsSend W.row × (length back.now ≤ most_servers)
                × (turns ≤ 1000000000) }
            ensures { SendsFeeds turns back.entry.now back.exit.now
                × (all_sent back.exit.now ≡ all_sent back.entry.now + result)
                × (result ≤ turns * length back.entry.now) }
        { send_all(rt, gate, turns, at_work, back) },
    )
}
