//! A client with the jobs that it still has to send.

ghost use Rattle.std.specs.Prelude.{◌≡◌, MatchResult, length, map};
ghost use Rattle.cbs_house.specs.Feeds.{client_of, unsent_jobs};

use cbs_clients::{Client, Gate};
use cbs_job::{Task, Work};
use std::alloc::{Allocator, Global};
use std::collections::VecDeque;

/// A client, and the jobs that it still has to send, in order. After the jobs the client ends.
///
/// A feed that is dropped drops its client, which then ends. The jobs that were not sent are lost, and the server
/// closes once all that was sent is taken.
pub struct Feed<W: Work, A: Allocator = Global> {
    pub(crate) client: Client<W, A>,
    pub(crate) jobs: VecDeque<Task<W>, A>,
}

// An owner of a feed calls this one function at each exit, instead of the drops of all fields.
impl<W: Work, A: Allocator> Drop for Feed<W, A> {
    fn drop(self) {
        let Feed { client: _, jobs: _ } = self;
    }
}

impl<W: Work, A: Allocator> Feed<W, A> {
    ghost use Rattle.std.specs.Prelude.{◌≡◌, ◌+◌, ◌⊎◌, true, false, IsTrue, ◌↔◌, length, if◌then◌else◌};
    ghost use Rattle.std.specs.Borrow.{sem};
    ghost use Rattle.cbs_house.specs.Lends.{lends_client};
    ghost use Rattle.cbs_clients.specs.Clients.{sent_by, HasNoSlot};
    ghost use Rattle.cbs_house.specs.Feeds.{client_of, unsent_jobs, has_ended, IsDone, KeepsFeed};

    /// Returns a feed of these jobs, in order. It takes no memory.
    pub fn new(client: Client<W, A>, jobs: Vec<Task<W>, A>) -> Feed<W, A>
        ensures client { client_of result ≡ client }
        ensures left { unsent_jobs result ≡ jobs.items }
    {
        Feed {
            client,
            jobs: VecDeque::from(jobs),
        }
    }

    /// Returns the client, to be read or settled.
    pub fn client(&mut self) -> &mut Client<W, A>
        ensures* writes_back { sem 𝓛 (lends_client W.row A.row W.Work A.Allocator self.entry
            result) }
        ensures value { result.now ≡ client_of self.old }
    {
        &mut self.client
    }

    /// Returns how many jobs are not sent yet.
    pub fn left(&self) -> u64
        ensures { result ≡ length (unsent_jobs self.now) }
    {
        self.jobs.len() as u64
    }

    /// Returns whether all is sent: no job is left, and the client has ended.
    pub fn done(&self) -> bool
        ensures { IsTrue result ↔ IsDone self.now }
    {
        self.jobs.is_empty() && self.client.ended()
    }

    /// Takes one turn: asks the gate, and if it returns true, tries the next message. Returns whether a message was
    /// sent.
    pub(crate) fn turn<G: Gate>(&mut self, gate: &G) -> bool
        ensures kept { KeepsFeed self.old self.new }
        ensures count { length (sent_by self.new.client)
            ≡ length (sent_by self.old.client) + (if result then 1 else 0) }
        ensures refused { result ≡ false → (has_ended self.new ≡ true)
            ⊎ (G.may_hold_back gate.now ⊎ HasNoSlot self.new.client) }
    {
        if self.client.ended() {
            return false;
        }
        let may_send = gate.before_send(self.client.server(), self.client.sent());
        if !may_send || !self.client.has_slot() {
            return false;
        }
        match self.jobs.pop_front() {
            Some(task) => {
                self.client.send_reserved(task);
            }
            None => self.client.end_reserved(),
        }
        true
    }
}

/// Clients and lists of jobs, handed back because no feeds were made of them.
#[derive(Drop)]
pub struct FeedsRefused<W: Work, A: Allocator = Global> {
    /// The clients, as they were given.
    pub clients: Vec<Client<W, A>, A>,
    /// The lists of jobs, as they were given.
    pub lists: Vec<Vec<Task<W>, A>, A>,
}

/// Returns a feed for each client, with the list of jobs at the client's place. There must be as many lists as clients.
///
/// If no memory is found for the list of feeds, the clients and the lists come back.
pub fn feeds_of<W: Work, A: Allocator + Copy>(
    alloc: A,
    clients: Vec<Client<W, A>, A>,
    lists: Vec<Vec<Task<W>, A>, A>,
) -> Result<Vec<Feed<W, A>, A>, FeedsRefused<W, A>>
    requires { length lists.items ≡ length clients.items }
    ensures clients { MatchResult result (λ feeds. map client_of feeds.items
        ≡ clients.items) (λ refused. refused.clients ≡ clients) }
    ensures jobs { MatchResult result (λ feeds. map unsent_jobs feeds.items
        ≡ map (λ jobs. jobs.items) lists.items) (λ refused. refused.lists ≡ lists) }
{
    let Ok(mut feeds) = Vec::with_capacity(alloc, clients.len()) else {
        return Err(FeedsRefused { clients, lists });
    };
    let mut lists = VecDeque::from(lists);
    for client in clients {
        let jobs = lists.pop_front().unwrap();
        feeds.push_reserved(Feed::new(client, jobs));
    }
    Ok(feeds)
}
