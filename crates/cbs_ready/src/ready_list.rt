//! The list of ready servers, in the order of the choice.

ghost use Rattle.std.specs.Prelude.{◌≡◌, ◌≢◌, ◌-◌, ◌<◌, ◌≤◌, ℕ, true, false, [], length, Some, None, IfOk};
ghost use Rattle.cbs_ready.specs.ReadyList.{listed, first_of, IsOrdered};
ghost use Rattle.cbs_rate.specs.Limits.{most_servers};

use crate::entries::{Entries, Entry};
use std::alloc::{AllocError, Allocator, Global};
use std::marker::Model;

/// The ready servers with their deadlines, each once, in the order of the choice: by deadline, and of equal deadlines
/// by number. All numbers are below 64.
#[derive(Drop)]
pub struct ReadyList<A: Allocator = Global> {
    entries: Entries<A>,
}

impl<A: Allocator> Model for ReadyList<A> {
    ghost use Rattle.cbs_rate.specs.Limits.{most_servers};
    ghost use Rattle.std.specs.Prelude.{List, ◌<◌};
    ghost use Rattle.std.specs.List.{AllByRecursion};
    ghost use Rattle.cbs_ready.specs.declared.entries.Entry.{Entry};
    ghost use Rattle.cbs_ready.specs.ReadyList.{IsOrdered};

    ghost Value = { List Entry };

    ghost view = { λ r. r.entries };

    ghost invariant = { λ r. IsOrdered r.entries × AllByRecursion (λ e. e.server < most_servers) r.entries };
}

impl<A: Allocator> ReadyList<A> {
    /// Returns a list with no ready server, or the error if an allocation is refused. The list has all its memory from
    /// the start: no other call takes any.
    pub fn new(alloc: A) -> Result<Self, AllocError>
        ensures { IfOk result (λ list. list ≡ []) }
    {
        Ok(ReadyList {
            entries: Entries::new(alloc)?,
        })
    }

    /// Returns the first server in the order, or `None` if no server is ready.
    pub fn first(&self) -> Option<u16>
        ensures { result ≡ first_of self.now }
    {
        first_server(self.entries.as_slice())
    }

    /// Lists a server that was not ready, with deadline `by`. Does nothing if `by` is `None`.
    #[inline(always)]
    pub fn enter(&mut self, server: u16, by: Option<u128>)
        requires known { server < most_servers }
        requires ordered { IsOrdered self.old }
        requires absent { listed self.old server ≡ None }
        ensures ordered { IsOrdered self.new }
        ensures here { listed self.new server ≡ by }
        ensures others { (t : ℕ) → t ≢ server → listed self.new t ≡ listed self.old t }
    {
        if let Some(deadline) = by {
            self.insert(server, deadline);
        }
    }

    /// Takes a server off the list, if it was on it.
    #[inline]
    pub fn leave(&mut self, server: u16)
        ensures ordered { IsOrdered self.new }
        ensures gone { listed self.new server ≡ None }
        ensures others { (t : ℕ) → t ≢ server → listed self.new t ≡ listed self.old t }
    {
        self.entries.remove(server);
    }

    /// Changes the deadline of a server from `before` to `by`. `None` stands for a server that is not ready.
    pub fn follow(&mut self, server: u16, before: Option<u128>, by: Option<u128>)
        requires known { server < most_servers }
        requires ordered { IsOrdered self.old }
        requires before { listed self.old server ≡ before }
        ensures ordered { IsOrdered self.new }
        ensures here { listed self.new server ≡ by }
        ensures others { (t : ℕ) → t ≢ server → listed self.new t ≡ listed self.old t }
    {
        if by != before {
            self.leave(server);
            self.enter(server, by);
        }
    }

    /// Gives the first server another deadline, or takes it off the list if `by` is `None`.
    #[inline(always)]
    pub fn follow_first(&mut self, server: u16, by: Option<u128>)
        requires { first_of self.old ≡ Some server }
        ensures ordered { IsOrdered self.new }
        ensures here { listed self.new server ≡ by }
        ensures others { (t : ℕ) → t ≢ server → listed self.new t ≡ listed self.old t }
    {
        match by {
            Some(deadline) => self.postpone_first(server, deadline),
            None => self.remove_first(),
        }
    }

    /// Lists a server that becomes ready.
    #[inline]
    fn insert(&mut self, server: u16, deadline: u128)
        requires known { server < most_servers }
        requires absent { listed self.old server ≡ None }
        ensures ordered { IsOrdered self.new }
        ensures here { listed self.new server ≡ Some deadline }
        ensures others { (t : ℕ) → t ≢ server → listed self.new t ≡ listed self.old t }
    {
        self.entries.insert(Entry { deadline, server });
    }

    /// Takes the first server off the list.
    #[inline]
    fn remove_first(&mut self)
        requires { 0 < length self.old }
        ensures ordered { IsOrdered self.new }
        ensures gone { (s : ℕ) → first_of self.old ≡ Some s → listed self.new s ≡ None }
        ensures others { (t : ℕ) → first_of self.old ≢ Some t → listed self.new t
            ≡ listed self.old t }
    {
        self.entries.remove_first();
    }

    /// Gives the first server another deadline.
    #[inline]
    fn postpone_first(&mut self, server: u16, deadline: u128)
        requires { first_of self.old ≡ Some server }
        ensures ordered { IsOrdered self.new }
        ensures here { listed self.new server ≡ Some deadline }
        ensures others { (t : ℕ) → t ≢ server → listed self.new t ≡ listed self.old t }
    {
        if self.entries.len() == 1 {
            self.entries.postpone_first(deadline);
        } else {
            self.move_first(server, deadline);
        }
    }

    /// Gives the first server another deadline, and with it another place.
    // Not inlined, since most units change nothing in the list.
    #[inline(never)]
    fn move_first(&mut self, server: u16, deadline: u128)
        requires known { server < most_servers }
        requires first { first_of self.old ≡ Some server }
        ensures ordered { IsOrdered self.new }
        ensures here { listed self.new server ≡ Some deadline }
        ensures others { (t : ℕ) → t ≢ server → listed self.new t ≡ listed self.old t }
    {
        self.remove_first();
        self.insert(server, deadline);
    }
}

/// Returns the server of the first entry, or `None` if there is no entry.
fn first_server(entries: &[Entry]) -> Option<u16>
    ensures { result ≡ first_of entries.now }
{
    if entries.is_empty() {
        return None;
    }
    Some(entries[0].server)
}
