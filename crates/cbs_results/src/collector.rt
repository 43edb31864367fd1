//! The results of all servers.

ghost use Rattle.std.specs.Prelude.{ℕ, ◌≡◌, ◌<◌, ◌≤◌, ◌↔◌, length, true, false, IfOk, OnOk, OnErr, IsOk, MatchResult, MatchOption, Some, None};
ghost use Rattle.std.specs.List.{All};
ghost use Rattle.cbs_results.specs.Collected.{shelf_at, no_shelf, SameShelf, OtherShelvesSame, AllShelvesSame, Announces, TakesResult, TakesEarly, HandsOut, NeedsServer, IsWaiting, IsComplete, IsNext, take_refusal};

use crate::error::CollectError;
use crate::shelf::Shelf;
use cbs_job::Completion;
use std::alloc::{AllocError, Allocator, Global};
use std::marker::Model;

/// The results of all servers. Each server has the results of its jobs 0, 1, 2, .., in order, each once, except the
/// first ones if they were handed out. A completion is announced before it is taken, and has its place from then on.
#[derive(Drop)]
pub struct Collector<A: Allocator = Global> {
    shelves: Vec<Shelf<A>, A>,
}

impl<A: Allocator> Model for Collector<A> {
    ghost use Rattle.std.specs.Prelude.{List};
    ghost use Rattle.cbs_results.specs.Collected.{Shelved};

    ghost Value = { List Shelved };

    ghost view = { λ c. c.shelves.items };
}

impl<A: Allocator> Collector<A> {
    /// Returns a collector for `servers` servers, with no result and none announced.
    ///
    /// Refuses by [`CollectError::OutOfMemory`] if an allocation is refused.
    pub fn new(alloc: A, servers: u16) -> Result<Self, CollectError>
    where
        A: Clone,
        ensures count { IfOk result (λ c. length c ≡ servers) }
        ensures empty { IfOk result (λ c. (s : ℕ) → SameShelf no_shelf (shelf_at c s)) }
        ensures error { MatchResult result (λ _. Unit {0}) (λ e. e ≡ CollectError.OutOfMemory) }
    {
        match shelves_of(alloc, servers) {
            Ok(shelves) => Ok(Collector { shelves }),
            Err(_) => Err(CollectError::OutOfMemory),
        }
    }

    /// Makes a place for one more result: the next [`expect`](Collector::expect) of that server takes no memory. No
    /// result and no announcement changes.
    ///
    /// Refuses, in this order: [`CollectError::Stranger`] if there is no such server; [`CollectError::OutOfMemory`] if
    /// an allocation is refused, or 2^64 - 1 completions are announced.
    pub fn make_room(&mut self, server: u16) -> Result<(), CollectError>
        ensures same { AllShelvesSame self.old self.new × (length self.new ≡ length self.old) }
        ensures room { OnOk result (0 < (shelf_at self.new server).spare) }
        ensures refusal { NeedsServer self.old server result }
        ensures succeeds { 0 < (shelf_at self.old server).spare → IsOk result }
    {
        let index = usize::from(server);
        if index >= self.shelves.len() {
            return Err(CollectError::Stranger);
        }
        match self.reserve(server) {
            Ok(()) => Ok(()),
            Err(_) => Err(CollectError::OutOfMemory),
        }
    }

    /// Makes a place for one more result of a server that is there. Returns the error if an allocation is refused.
    pub fn reserve(&mut self, server: u16) -> Result<(), AllocError>
        requires { server < length self.old }
        ensures same { AllShelvesSame self.old self.new × (length self.new ≡ length self.old) }
        ensures room { OnOk result (0 < (shelf_at self.new server).spare) }
        ensures succeeds { 0 < (shelf_at self.old server).spare → IsOk result }
    {
        let shelf = &mut self.shelves[usize::from(server)];
        shelf.make_room()
    }

    /// Announces one more completion of a server. It takes no memory if [`make_room`](Collector::make_room) was called
    /// for that server since its last announcement.
    ///
    /// Refuses, in this order: [`CollectError::Stranger`] if there is no such server; [`CollectError::OutOfMemory`] if
    /// an allocation is refused, or 2^64 - 1 completions are announced. After a refusal nothing is announced.
    pub fn expect(&mut self, server: u16) -> Result<(), CollectError>
        ensures ok { OnOk result (Announces (shelf_at self.old server) (shelf_at self.new server)) }
        ensures others { OtherShelvesSame server self.old self.new
            × (length self.new ≡ length self.old) }
        ensures refused { OnErr result (AllShelvesSame self.old self.new) }
        ensures refusal { NeedsServer self.old server result }
        ensures succeeds { 0 < (shelf_at self.old server).spare → IsOk result }
    {
        self.make_room(server)?;
        self.expect_reserved(server);
        Ok(())
    }

    /// Announces one more completion of a server. There must be a place for its result.
    pub fn expect_reserved(&mut self, server: u16)
        requires within { server < length self.old }
        requires spare { 0 < (shelf_at self.old server).spare }
        ensures announced { Announces (shelf_at self.old server) (shelf_at self.new server) }
        ensures others { OtherShelvesSame server self.old self.new
            × (length self.new ≡ length self.old) }
    {
        let shelf = &mut self.shelves[usize::from(server)];
        shelf.expect_reserved();
    }

    /// Takes a completion: its result is put after the results of its server.
    ///
    /// Refuses, in this order: [`CollectError::Stranger`] if there is no such server; [`CollectError::Double`] if the
    /// job's result was taken before; [`CollectError::Early`] if an earlier job's result was not taken, or the
    /// completion was not announced. A refusal changes nothing.
    pub fn take(&mut self, done: Completion) -> Result<(), CollectError>
        ensures exact { IsOk result ↔ IsNext self.old done }
        ensures ok { OnOk result (TakesResult done.result (shelf_at self.old done.server)
            (shelf_at self.new done.server)) }
        ensures others { OtherShelvesSame done.server self.old self.new
            × (length self.new ≡ length self.old) }
        ensures refused { OnErr result (self.new ≡ self.old) }
        ensures refusal { MatchResult result (λ _. take_refusal self.old done ≡ None) (λ e.
            take_refusal self.old done ≡ Some e) }
    {
        let index = usize::from(done.server);
        if index >= self.shelves.len() {
            return Err(CollectError::Stranger);
        }
        if let Some(error) = self.shelves[index].refusal(done.seq) {
            return Err(error);
        }
        self.take_expected(done);
        Ok(())
    }

    /// Takes the next completion of a server, which must have been announced.
    pub fn take_expected(&mut self, done: Completion)
        requires { IsNext self.old done }
        ensures taken { TakesResult done.result (shelf_at self.old done.server)
            (shelf_at self.new done.server) }
        ensures others { OtherShelvesSame done.server self.old self.new
            × (length self.new ≡ length self.old) }
    {
        let shelf = &mut self.shelves[usize::from(done.server)];
        shelf.take(done.result);
    }

    /// Takes the next completion of a server, which must have been announced, and is one of a job that ended early.
    pub fn take_early(&mut self, done: Completion)
        requires { IsNext self.old done }
        ensures taken { TakesEarly done.result (shelf_at self.old done.server)
            (shelf_at self.new done.server) }
        ensures others { OtherShelvesSame done.server self.old self.new
            × (length self.new ≡ length self.old) }
    {
        let shelf = &mut self.shelves[usize::from(done.server)];
        shelf.take_early(done.result);
    }

    /// Returns whether a completion was announced and not taken.
    pub fn is_waiting(&self) -> bool
        ensures some { result ≡ true → (s : ℕ) × IsWaiting (shelf_at self.now s) }
        ensures none { result ≡ false → All IsComplete self.now }
    {
        for shelf in &self.shelves {
            if shelf.is_waiting() {
                return true;
            }
        }
        false
    }

    /// Hands out the results of a server, in order, and keeps none of them. The numbers of its completions go on. Each
    /// completion that is announced and not taken still has its place. Only these places take memory, so none is asked
    /// for if no completion is awaited.
    ///
    /// Refuses, in this order: [`CollectError::Stranger`] if there is no such server; [`CollectError::OutOfMemory`] if
    /// an allocation is refused. A refusal changes nothing.
    pub fn take_results(&mut self, server: u16) -> Result<Vec<u64, A>, CollectError>
    where
        A: Clone,
        ensures ok { IfOk result (λ results. results.items ≡ (shelf_at self.old server).results) }
        ensures handed { OnOk result (HandsOut (shelf_at self.old server)
            (shelf_at self.new server)) }
        ensures others { OtherShelvesSame server self.old self.new
            × (length self.new ≡ length self.old) }
        ensures refused { OnErr result (self.new ≡ self.old) }
        ensures refusal { NeedsServer self.old server result }
    {
        let index = usize::from(server);
        if index >= self.shelves.len() {
            return Err(CollectError::Stranger);
        }
        let shelf = &mut self.shelves[index];
        match shelf.hand_out() {
            Ok(results) => Ok(results),
            Err(_) => Err(CollectError::OutOfMemory),
        }
    }

    /// Drops the results of a server, as if they were handed out. Does nothing if there is no such server. No memory is
    /// taken.
    pub fn discard(&mut self, server: u16)
        ensures discarded { HandsOut (shelf_at self.old server) (shelf_at self.new server) }
        ensures others { OtherShelvesSame server self.old self.new
            × (length self.new ≡ length self.old) }
    {
        if let Some(shelf) = self.shelves.get_mut(usize::from(server)) {
            shelf.discard();
        }
    }

    /// Returns the results of a server that are kept, in order, or `None` if there is no such server.
    pub fn results(&self, server: u16) -> Option<&[u64]>
        ensures { MatchOption result (length self.now ≤ server) (λ r. (server < length self.now)
            × (r.now ≡ (shelf_at self.now server).results)) }
    {
        match self.shelves.get(usize::from(server)) {
            Some(shelf) => Some(shelf.results()),
            None => None,
        }
    }
}

/// Returns `servers` shelves with no result, or the error if an allocation is refused.
fn shelves_of<A: Allocator + Clone>(alloc: A, servers: u16) -> Result<Vec<Shelf<A>, A>, AllocError>
    ensures count { IfOk result (λ v. length v.items ≡ servers) }
    ensures empty { IfOk result (λ v. All (SameShelf no_shelf) v.items) }
{
    let mut shelves = Vec::with_capacity(alloc.clone()?, usize::from(servers))?;
    for _server in 0..servers {
        shelves.push(Shelf::new(alloc.clone()?))?;
    }
    Ok(shelves)
}
