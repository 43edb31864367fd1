//! Lists of values, one for each server, all in one slab.

ghost use Rattle.std.specs.Prelude.{◌≡◌, ◌+◌, ◌<◌, ◌^◌, [], ◌∷◌, ◌++◌, length, drop, replicate, option_copied, slice_get, IfOk, OnOk, IsOk};
ghost use Rattle.std.specs.Borrow.{Lends, sem};
ghost use Rattle.slab.specs.Slab.{ContainsKey, slab_len};
ghost use Rattle.cbs_queues.specs.Chains.{ends_pushed, linked};
ghost use Rattle.cbs_queues.specs.Queues.{room_of, KeepsRoom, list_at};
ghost use Rattle.cbs_lists.specs.Lists.{changed_at};

use slab::Slab;
use std::alloc::{AllocError, Allocator, Global};
use std::marker::Model;

/// A value with the key of the value after it. The last node of a list does not use its key.
#[derive(Drop)]
struct Node<T> {
    value: T,
    next: usize,
}

/// The keys of the first and the last value of a list, and its length. An empty list does not use the keys.
#[derive(Clone, Copy)]
struct Ends {
    head: usize,
    tail: usize,
    len: usize,
}

/// Lists of values, one for each server. Each list is a chain of keys in the one slab that holds all values.
#[derive(Drop)]
pub struct Chains<T, A: Allocator = Global> {
    nodes: Slab<Node<T>, A>,
    ends: Vec<Ends, A>,
}

impl<T, A: Allocator> Model for Chains<T, A> {
    ghost use Rattle.cbs_queues.specs.Queues.{Queued};

    ghost Value = { Queued T };

    ghost use Rattle.cbs_queues.specs.Chains.{lists_of, rooms_of, IsSound};

    ghost view = { λ c. record { lists = lists_of c.nodes.slots c.ends.items; rooms = rooms_of c.nodes c.ends.items } };

    ghost invariant = { λ c. IsSound c.nodes.slots c.ends.items };
}

impl<T> Node<T> {
    ghost use Rattle.cbs_queues.specs.contracts.chains.Node.{the_row};

    /// Returns the value, to be changed in place.
    fn value_mut(&mut self) -> &mut T
        ensures* lends { sem 𝓛 (Lends (the_row T.row) T.row self.entry result (λ w.
            record { value = w; next = self.old.next })) }
        ensures value { result.now ≡ self.old.value }
    {
        &mut self.value
    }
}

impl<T: Drop, A: Allocator> Chains<T, A> {
    ghost use Rattle.cbs_queues.specs.Lends.{lends_first};

    /// Returns an empty list for each of so many servers, or the error if an allocation is refused.
    pub fn new(alloc: &A, servers: u16) -> Result<Self, AllocError>
    where
        A: Clone,
        ensures empty { IfOk result (λ c. c.lists ≡ replicate servers []) }
    {
        let empty = Ends {
            head: 0,
            tail: 0,
            len: 0,
        };
        let ends = vec![in alloc.clone()?; empty; usize::from(servers)]?;
        Ok(Chains {
            nodes: Slab::new(alloc.clone()?),
            ends,
        })
    }

    /// Makes room for one more value. The next value pushed takes the room, for whichever server. Returns the error if
    /// an allocation is refused.
    pub fn reserve(&mut self, server: u16) -> Result<(), AllocError>
        requires { server < length self.old.lists }
        ensures lists { self.new.lists ≡ self.old.lists }
        ensures room { OnOk result (0 < room_of self.new.rooms server) }
        ensures kept { KeepsRoom self.old.rooms self.new.rooms }
        ensures succeeds { 0 < room_of self.old.rooms server → IsOk result }
    {
        // All servers share the room of the slab.
        let _server = server;
        self.nodes.reserve(1)
    }

    /// Puts a value at the end of a server's list. There must be room for the value.
    pub fn push(&mut self, server: u16, value: T)
        requires within { server < length self.old.lists }
        requires room { 0 < room_of self.old.rooms server }
        ensures lists { self.new.lists ≡ changed_at (λ values. values
            ++ value ∷ []) self.old.lists server }
    {
        // No list has more values than the slab's capacity, which fits a usize.
        let _capacity = self.nodes.capacity();
        let ends = self.ends[usize::from(server)];
        let key = self.nodes.insert_reserved(Node { value, next: 0 });
        self.ends[usize::from(server)] = link(&mut self.nodes, ends, key);
    }

    /// Takes the first value out of a server's list, which must not be empty, and returns it.
    pub fn pop(&mut self, server: u16) -> T
        requires some { 0 < length (list_at self.old.lists server) }
        ensures value { list_at self.old.lists server
            ≡ result ∷ drop 1 (list_at self.old.lists server) }
        ensures lists { self.new.lists ≡ changed_at (drop 1) self.old.lists server }
        ensures kept { KeepsRoom self.old.rooms self.new.rooms }
    {
        let ends = &mut self.ends[usize::from(server)];
        let node = self.nodes.remove(ends.head);
        ends.head = node.next;
        ends.len -= 1;
        node.value
    }

    /// Returns the first value of a server's list, or `None` if the list is empty.
    pub fn first(&self, server: u16) -> Option<&T>
        requires { server < length self.now.lists }
        ensures { option_copied result ≡ slice_get (list_at self.now.lists server) 0 }
    {
        let ends = self.ends[usize::from(server)];
        if ends.len == 0 {
            return None;
        }
        Some(&self.nodes[ends.head].value)
    }

    /// Returns the first value of a server's list, which must not be empty, to be changed in place.
    pub fn first_mut(&mut self, server: u16) -> &mut T
        requires some { 0 < length (list_at self.old.lists server) }
        ensures* writes_back { sem 𝓛 (lends_first T.row A.row A.Allocator self.entry server
            result) }
        ensures value { list_at self.old.lists server
            ≡ result.now ∷ drop 1 (list_at self.old.lists server) }
    {
        let head = self.ends[usize::from(server)].head;
        self.nodes[head].value_mut()
    }
}

/// Links the value at a key to the end of a list, and returns the ends that the list then has.
fn link<T, A: Allocator>(nodes: &mut Slab<Node<T>, A>, ends: Ends, key: usize) -> Ends
    requires held { 0 < ends.len → ContainsKey nodes.old ends.tail }
    requires few { ends.len + 1 < 2 ^ 64 }
    ensures ends { result ≡ ends_pushed ends key }
    ensures slots { nodes.new.slots ≡ linked nodes.old.slots ends key }
    ensures len { slab_len nodes.new ≡ slab_len nodes.old }
{
    if ends.len == 0 {
        return Ends {
            head: key,
            tail: key,
            len: 1,
        };
    }
    nodes[ends.tail].next = key;
    Ends {
        head: ends.head,
        tail: key,
        len: ends.len + 1,
    }
}
