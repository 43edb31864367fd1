//! A client: the sending end of a ring.

ghost use Rattle.std.specs.Prelude.{◌≡◌, ◌<◌, true, false, [], ◌∷◌, ◌++◌, length};
ghost use Rattle.rtrb.specs.Ring.{sent, known_free};
ghost use Rattle.cbs_clients.specs.Messages.{jobs_among, has_end, end_is_last};
ghost use Rattle.cbs_clients.specs.declared.message.Message.TheVariants.{End};

use crate::error::SendError;
use crate::marks::Mark;
use crate::message::Message;
use cbs_host::Pause;
use cbs_job::{Task, Work};
use rtrb::Producer;
use std::alloc::{Allocator, Global};
use std::time::Clock;

/// The client of one server. It sends jobs over a ring of its own, from any thread, and never waits.
///
/// A client that is dropped ends, so its server closes once all that the client sent is taken. A slot of the ring is
/// kept for that end. A client that ended before sends nothing more when it is dropped.
pub struct Client<W: Work, A: Allocator = Global> {
    pub(crate) server: u16,
    // The number of jobs sent.
    count: u64,
    ended: bool,
    pub(crate) ring: Producer<Message<W>, A>,
    mark: Mark<A>,
    ghost counted: { count ≡ length (jobs_among (sent ring)) },
    ghost marked: { ended ≡ has_end (sent ring) },
    ghost last: { end_is_last (sent ring) ≡ true },
    ghost kept: { 0 < known_free ring },
}

impl<W: Work, A: Allocator> Drop for Client<W, A> {
    fn drop(self) {
        let Client {
            server: _,
            count: _,
            ended,
            mut ring,
            mark,
        } = self;
        end_at_last(ended, &mut ring);
        mark.leave();
    }
}

/// Sends the end for a client that is dropped, unless the client has ended. The kept slot takes the end.
#[tactic(auto, using(crate::proofs::Messages::pushed))]
fn end_at_last<W: Work, A: Allocator>(ended: bool, ring: &mut Producer<Message<W>, A>)
    requires marked { ended ≡ has_end (sent ring.old) }
    requires last { end_is_last (sent ring.old) ≡ true }
    requires kept { 0 < known_free ring.old }
    ensures ended { has_end (sent ring.new) ≡ true }
    ensures last { end_is_last (sent ring.new) ≡ true }
    ensures before { ended ≡ true → sent ring.new ≡ sent ring.old }
    ensures now { ended ≡ false → sent ring.new ≡ sent ring.old ++ End ∷ [] }
{
    if !ended {
        ring.push_reserved(Message::End);
    }
}

/// A job that was not sent, handed back.
#[derive(Drop)]
pub struct SendRefused<W: Work> {
    /// The reason of the refusal.
    pub error: SendError,
    /// The job, as it was given.
    pub task: Task<W>,
}

impl<W: Work, A: Allocator> Client<W, A> {
    ghost use Rattle.std.specs.Prelude.{◌≡◌, ◌<◌, ◌≤◌, ◌+◌, ◌-◌, ◌^◌, true, false, [], ◌∷◌, ◌++◌, length, IsTrue, ◌↔◌, ◌⊎◌};
    ghost use Rattle.rtrb.specs.Ring.{sent, known_free};
    ghost use Rattle.cbs_clients.specs.Messages.{jobs_among, has_end, end_is_last};
    ghost use Rattle.cbs_clients.specs.Rings.{producer_ring};
    ghost use Rattle.cbs_clients.specs.Calls.{LooksAtRing, SendOf, EndOf};
    ghost use Rattle.cbs_clients.specs.Clients.{server_of, ring_of, sent_by, free, slots_of, HasSlot, HasNoSlot, SameClient};
    ghost use Rattle.cbs_clients.specs.declared.message.Message.TheVariants.{Job, End};

    /// Returns the client of a server, with its end of a new ring, and the mark of its server.
    pub(crate) fn new(server: u16, ring: Producer<Message<W>, A>, mark: Mark<A>) -> Client<W, A>
        requires { (sent ring ≡ []) × (0 < known_free ring) }
        ensures server { server_of result ≡ server }
        ensures ring { ring_of result ≡ producer_ring ring }
        ensures sent { sent_by result ≡ [] }
        ensures free { free result ≡ known_free ring - 1 }
    {
        Client {
            server,
            count: 0,
            ended: false,
            ring,
            mark,
        }
    }

    /// Returns the number of the client's server.
    pub fn server(&self) -> u16
        ensures { result ≡ server_of self.now }
    {
        self.server
    }

    /// Returns how many jobs the client has sent.
    pub fn sent(&self) -> u64
        ensures { result ≡ length (jobs_among (sent_by self.now)) }
    {
        self.count
    }

    /// Returns how many messages of the client wait in its ring, not taken yet: the slots that are not known to be
    /// free. The client reads the ring anew. If the house polls meanwhile, fewer messages may wait when the call
    /// returns.
    pub fn waiting(&mut self) -> u64
        ensures looked { LooksAtRing self.old self.new }
        ensures value { result + free self.new ≡ slots_of self.new }
    {
        (self.ring.capacity() - self.ring.slots()) as u64
    }

    /// Returns whether the client's house was dropped. What the client sent is then lost with the house, except what
    /// the house had taken. No contract speaks of the result.
    pub fn house_is_gone(&mut self) -> bool
        ensures looked { LooksAtRing self.old self.new }
    {
        self.ring.is_abandoned()
    }

    /// Returns whether the client has ended: it sends no further job.
    pub fn ended(&self) -> bool
        ensures ended { result ≡ has_end (sent_by self.now) }
        ensures last { end_is_last (sent_by self.now) ≡ true }
    {
        self.ended
    }

    /// Returns how many slots of the ring are free, read anew: the ring will take this many messages, with the end
    /// among them. The house may free more slots at any time.
    pub fn free(&mut self) -> u64
        ensures looked { LooksAtRing self.old self.new }
        ensures value { result ≡ free self.new }
    {
        (self.ring.slots() - 1) as u64
    }

    /// Returns whether a slot is free for the next message, besides the kept slot.
    fn ring_has_slot(&mut self) -> bool
        ensures looked { LooksAtRing self.old self.new }
        ensures slot { IsTrue result ↔ (0 < free self.new) }
    {
        self.ring.cached_slots() > 1 || self.ring.slots() > 1
    }

    /// Returns whether a slot is free for the next message, and one more job can be counted.
    pub fn has_slot(&mut self) -> bool
        ensures looked { LooksAtRing self.old self.new }
        ensures slot { result ≡ true → HasSlot self.new }
        ensures none { result ≡ false → HasNoSlot self.new }
    {
        self.count < u64::MAX && self.ring_has_slot()
    }

    /// Sends a job. Returns the job's number among the sent jobs of the client.
    ///
    /// Refuses, in this order: [`SendError::Ended`] if the client has ended; [`SendError::RingFull`] if the ring has no
    /// free slot, or the client has sent `u64::MAX` jobs. A refusal hands the job back, and nothing was sent.
    #[tactic(auto, using(crate::proofs::Messages::pushed))]
    pub fn send(&mut self, task: Task<W>) -> Result<u64, SendRefused<W>>
        ensures { SendOf task self.old result self.new }
    {
        if self.ended {
            return Err(SendRefused {
                error: SendError::Ended,
                task,
            });
        }
        if !self.has_slot() {
            return Err(SendRefused {
                error: SendError::RingFull,
                task,
            });
        }
        Ok(self.send_reserved(task))
    }

    /// Sends a job, and returns its number. A slot must be known to be free for the job.
    #[tactic(auto, using(crate::proofs::Messages::pushed))]
    pub fn send_reserved(&mut self, task: Task<W>) -> u64
        requires unended { has_end (sent_by self.old) ≡ false }
        requires slot { HasSlot self.old }
        ensures same { SameClient self.old self.new }
        ensures number { result ≡ length (jobs_among (sent_by self.old)) }
        ensures sent { sent_by self.new ≡ sent_by self.old ++ Job task ∷ [] }
        ensures free { free self.old ≡ free self.new + 1 }
    {
        self.ring.push_reserved(Message::Job(task));
        self.mark.leave();
        let number = self.count;
        self.count += 1;
        number
    }

    /// Sends the end, which closes the server once the house takes it, after the jobs. After the end the client sends
    /// nothing.
    ///
    /// Refuses, in this order: [`SendError::Ended`] if the client has ended; [`SendError::RingFull`] if the ring has no
    /// free slot. After a refusal nothing was sent.
    #[tactic(auto, using(crate::proofs::Messages::pushed))]
    pub fn end(&mut self) -> Result<(), SendError>
        ensures { EndOf self.old result self.new }
    {
        if self.ended {
            return Err(SendError::Ended);
        }
        if !self.ring_has_slot() {
            return Err(SendError::RingFull);
        }
        self.end_reserved();
        Ok(())
    }

    /// Sends the end. A slot must be known to be free for the end.
    #[tactic(auto, using(crate::proofs::Messages::pushed))]
    pub fn end_reserved(&mut self)
        requires unended { has_end (sent_by self.old) ≡ false }
        requires slot { 0 < free self.old }
        ensures same { SameClient self.old self.new }
        ensures sent { sent_by self.new ≡ sent_by self.old ++ End ∷ [] }
        ensures free { free self.old ≡ free self.new + 1 }
    {
        self.ring.push_reserved(Message::End);
        self.mark.leave();
        self.ended = true;
    }

    /// Sends a job as [`send`](Client::send) does, and tries again while the ring is full. It tries `tries` times in
    /// all, and at least once. After each try that failed it yields, and sleeps for at most 2 milliseconds now and
    /// then.
    ///
    /// Refuses as `send` does: by [`SendError::Ended`] at once, and by [`SendError::RingFull`] after the last try. A
    /// refusal hands the job back, and nothing was sent.
    pub fn send_within<R: Clock>(
        &mut self,
        rt: &R,
        task: Task<W>,
        tries: u64,
    ) -> Result<u64, SendRefused<W>>
        ensures { SendOf task self.old result self.new }
    {
        let mut task = task;
        let mut pause = Pause::new();
        for _try in 1..tries {
            match self.send(task) {
                Err(refused) if refused.error == SendError::RingFull => task = refused.task,
                answer => return answer,
            }
            pause.idle(rt);
        }
        self.send(task)
    }

    /// Sends the end as [`end`](Client::end) does, and tries again while the ring is full, as
    /// [`send_within`](Client::send_within) does.
    ///
    /// Refuses as `end` does: by [`SendError::Ended`] at once, and by [`SendError::RingFull`] after the last try. After
    /// a refusal nothing was sent.
    pub fn end_within<R: Clock>(&mut self, rt: &R, tries: u64) -> Result<(), SendError>
        ensures { EndOf self.old result self.new }
    {
        let mut pause = Pause::new();
        for _try in 1..tries {
            let answer = self.end();
            if answer != Err(SendError::RingFull) {
                return answer;
            }
            pause.idle(rt);
        }
        self.end()
    }
}
