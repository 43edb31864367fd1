//! The results of one server.

ghost use Rattle.std.specs.Prelude.{◌≡◌, ◌<◌, IfOk, OnOk, OnErr, IsOk, Some, None, true, false};
ghost use Rattle.cbs_results.specs.Collected.{SameShelf, Announces, TakesResult, TakesEarly, HandsOut, IsWaiting, IsComplete, shelf_refusal, no_shelf};

use crate::error::CollectError;
use std::alloc::{AllocError, Allocator, Global};
use std::marker::Model;
use std::mem::replace;

/// The results of one server. A result has a place from the time when it is announced.
#[derive(Drop)]
pub struct Shelf<A: Allocator = Global> {
    results: Vec<u64, A>,
    // The number of results taken. The last ones of them are kept.
    taken: u64,
    announced: u64,
    // Whether a result was taken that is one of a job that ended early.
    early: bool,
}

impl<A: Allocator> Model for Shelf<A> {
    ghost use Rattle.std.specs.Prelude.{◌≤◌, ◌+◌, ◌-◌, min, vec_len, vec_capacity};
    ghost use Rattle.cbs_results.specs.Collected.{Shelved};

    ghost Value = { Shelved };

    ghost view = { λ h. record {
      handed = h.taken - vec_len h.results;
      results = h.results.items;
      announced = h.announced;
      spare = min (h.taken - vec_len h.results + vec_capacity h.results) 18446744073709551615 - h.announced;
      early = h.early;
    } };

    ghost invariant = { λ h. (vec_len h.results ≤ h.taken) × (h.taken ≤ h.announced)
        × (h.announced ≤ h.taken - vec_len h.results + vec_capacity h.results) };
}

impl<A: Allocator> Shelf<A> {
    /// Returns a shelf with no result, and none announced.
    pub fn new(alloc: A) -> Shelf<A>
        ensures { SameShelf no_shelf result }
    {
        Shelf {
            results: Vec::new(alloc),
            taken: 0,
            announced: 0,
            early: false,
        }
    }

    /// Makes a place for one more result than are announced. Returns the error if an allocation is refused, or 2^64 - 1
    /// completions are announced.
    pub fn make_room(&mut self) -> Result<(), AllocError>
        ensures same { SameShelf self.old self.new }
        ensures room { OnOk result (0 < self.new.spare) }
        ensures succeeds { 0 < self.old.spare → IsOk result }
    {
        if self.announced == u64::MAX {
            return Err(AllocError);
        }
        let pending = (self.announced - self.taken) as usize;
        self.results.reserve(pending + 1)
    }

    /// Announces one more completion. There must be a place for its result.
    pub fn expect_reserved(&mut self)
        requires { 0 < self.old.spare }
        ensures { Announces self.old self.new }
    {
        self.announced += 1;
    }

    /// Returns why the result of job `seq` is not the next one, or `None` if it is the next one.
    pub fn refusal(&self, seq: u64) -> Option<CollectError>
        ensures { result ≡ shelf_refusal self.now seq }
    {
        if seq < self.taken {
            return Some(CollectError::Double);
        }
        if seq > self.taken || seq >= self.announced {
            return Some(CollectError::Early);
        }
        None
    }

    /// Takes the next result, which was announced.
    pub fn take(&mut self, output: u64)
        requires { IsWaiting self.old }
        ensures { TakesResult output self.old self.new }
    {
        self.results.push_reserved(output);
        self.taken += 1;
    }

    /// Takes the next result, which was announced, and is one of a job that ended early.
    pub fn take_early(&mut self, output: u64)
        requires { IsWaiting self.old }
        ensures { TakesEarly output self.old self.new }
    {
        self.take(output);
        self.early = true;
    }

    /// Returns whether a completion was announced and not taken.
    pub fn is_waiting(&self) -> bool
        ensures some { result ≡ true → IsWaiting self.now }
        ensures none { result ≡ false → IsComplete self.now }
    {
        self.taken != self.announced
    }

    /// Hands out the results, in order, and keeps none of them. Each completion that is announced and not taken gets a
    /// new place, and only these places take memory. Returns the error if an allocation is refused.
    pub fn hand_out(&mut self) -> Result<Vec<u64, A>, AllocError>
    where
        A: Clone,
        ensures ok { IfOk result (λ results. results.items ≡ self.old.results) }
        ensures handed { OnOk result (HandsOut self.old self.new) }
        ensures refused { OnErr result (self.new ≡ self.old) }
    {
        let pending = (self.announced - self.taken) as usize;
        let alloc = self.results.allocator().clone()?;
        let places = Vec::with_capacity(alloc, pending)?;
        Ok(replace(&mut self.results, places))
    }

    /// Drops the results, as if they were handed out, and keeps their places: no memory is taken.
    pub fn discard(&mut self)
        ensures { HandsOut self.old self.new }
    {
        self.results.clear();
    }

    /// Returns the results that are kept, in order.
    pub fn results(&self) -> &[u64]
        ensures { result.now ≡ self.now.results }
    {
        self.results.as_slice()
    }
}
