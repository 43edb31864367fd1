//! The house's ends of the rings.

ghost use Rattle.std.specs.Prelude.{◌≤◌, length};
ghost use Rattle.cbs_rate.specs.Limits.{most_servers};
ghost use Rattle.cbs_clients.specs.Marks.{KnowsNoOthers};

use crate::client::Client;
use crate::marks::{Marked, Marks};
use crate::message::Message;
use cbs_job::Work;
use rtrb::{Consumer, Producer};
use std::alloc::{Allocator, Global};

/// The house's ends of the rings, by server.
#[derive(Drop)]
pub struct Rings<W: Work, A: Allocator = Global> {
    pub(crate) ends: Vec<Consumer<Message<W>, A>, A>,
    pub(crate) marks: Marks<A>,
    // The servers that may have a message in their rings, by the marks that were taken.
    pub(crate) marked: Marked,
    ghost few: { length ends.items ≤ most_servers },
    ghost quiet: { KnowsNoOthers marked ends.items },
}

impl<W: Work, A: Allocator> Rings<W, A> {
    ghost use Rattle.std.specs.Prelude.{ℕ, ◌≡◌, ◌≢◌, ◌<◌, ◌≤◌, ◌+◌, [], ◌∷◌, ◌++◌, length, slice_get, Some, IfSome, IfNone, IsTrue, ◌↔◌};
    ghost use Rattle.rtrb.specs.Ring.{sent, ProducerLooked};
    ghost use Rattle.cbs_clients.specs.Rings.{producer_ring, rings_in, received_in, known_in, KnowsNone, Looked};
    ghost use Rattle.cbs_clients.specs.Clients.{server_of, sent_by, free, SameClient, IsOpened};

    /// Returns how many rings there are.
    pub fn len(&self) -> usize
        ensures { result ≡ length (rings_in self.now) }
    {
        self.ends.len()
    }

    /// Returns whether no message is seen in a server's ring. It reads the ring anew only if all messages seen before
    /// are taken, since each such read takes a cache line from the sender.
    #[tactic(auto, using(crate::proofs::RingLooks::ringed))]
    pub fn is_empty(&mut self, server: usize) -> bool
        requires { server < length (rings_in self.old) }
        ensures looked { Looked self.old self.new }
        ensures value { IsTrue result ↔ (length (known_in self.new server) ≡ 0) }
    {
        let end = &mut self.ends[server];
        let empty = end.is_empty();
        if !empty {
            self.marked = self.marked.add(server);
        }
        empty
    }

    /// Takes the marks that clients left, and keeps them.
    pub fn take_marks(&mut self)
        ensures { self.new.ends ≡ self.old.ends }
    {
        self.marked = self.marked.with(self.marks.take());
    }

    /// Returns the first server from `first` on that may have a message in its ring, or `None` if there is none.
    pub fn first_marked(&self, first: u16) -> Option<u16>
        ensures some { IfSome result (λ server. (first ≤ server)
            × (server < length (rings_in self.now)) × KnowsNone self.now first server) }
        ensures none { IfNone result (KnowsNone self.now first (length (rings_in self.now))) }
    {
        let server = self.marked.first_from(first)?;
        if usize::from(server) < self.ends.len() {
            Some(server)
        } else {
            None
        }
    }

    /// Forgets the mark of a server if no message of it is known. Its ring must have been looked at since the marks
    /// were taken.
    pub fn unmark(&mut self, server: u16)
        requires { server < length (rings_in self.old) }
        ensures { self.new.ends ≡ self.old.ends }
    {
        let index = usize::from(server);
        if self.ends[index].cached_slots() == 0 {
            self.marked = self.marked.remove(index);
        }
    }

    /// Pops the next message of a server and returns it. The message must have been seen.
    pub fn take(&mut self, server: u16) -> Message<W>
        requires { 0 < length (known_in self.old server) }
        ensures rings { rings_in self.new ≡ rings_in self.old }
        ensures received { received_in self.new server ≡ received_in self.old server
            ++ result ∷ [] }
        ensures known { known_in self.old server ≡ result ∷ known_in self.new server }
        ensures others { (s : ℕ) → s ≢ server → (received_in self.new s ≡ received_in self.old s)
            × (known_in self.new s ≡ known_in self.old s) }
    {
        self.take_at(usize::from(server))
    }

    #[tactic(auto, using(crate::proofs::RingLooks::ringed))]
    fn take_at(&mut self, server: usize) -> Message<W>
        requires { 0 < length (known_in self.old server) }
        ensures rings { rings_in self.new ≡ rings_in self.old }
        ensures received { received_in self.new server ≡ received_in self.old server
            ++ result ∷ [] }
        ensures known { known_in self.old server ≡ result ∷ known_in self.new server }
        ensures others { (s : ℕ) → s ≢ server → (received_in self.new s ≡ received_in self.old s)
            × (known_in self.new s ≡ known_in self.old s) }
    {
        let end = &mut self.ends[server];
        end.pop_known()
    }

    /// Returns how many messages wait in the ring of a server. The caller passes the other end of the ring.
    #[tactic(auto, using(crate::proofs::RingLooks::ringed))]
    fn beside(&mut self, server: usize, ring: &mut Producer<Message<W>, A>) -> usize
        requires within { server < length (rings_in self.old) }
        requires pair { slice_get (rings_in self.old) server ≡ Some (producer_ring ring.old) }
        ensures looked { Looked self.old self.new }
        ensures ring { ProducerLooked ring.old ring.new }
        ensures value { result ≡ length (known_in self.new server) }
        ensures lawful { received_in self.new server ++ known_in self.new server ≡ sent ring.new }
    {
        let end = &mut self.ends[server];
        let slots = end.slots_beside(ring);
        if slots > 0 {
            self.marked = self.marked.add(server);
        }
        slots
    }

    /// Returns how many messages wait in a client's ring.
    #[tactic(auto, using(crate::proofs::RingLooks::settled))]
    pub fn settle(&mut self, client: &mut Client<W, A>) -> usize
        requires { IsOpened (rings_in self.old) client.old }
        ensures looked { Looked self.old self.new }
        ensures client { SameClient client.old client.new
            × (sent_by client.new ≡ sent_by client.old) × (free client.old ≤ free client.new) }
        ensures value { result ≡ length (known_in self.new (server_of client.new)) }
        ensures lawful { received_in self.new (server_of client.new)
            ++ known_in self.new (server_of client.new) ≡ sent_by client.new }
    {
        let server = usize::from(client.server);
        self.beside(server, &mut client.ring)
    }
}
