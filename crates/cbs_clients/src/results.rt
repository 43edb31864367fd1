//! The results that a house keeps, and hands out.

use crate::error::HouseError;
use crate::house::House;
use cbs_job::Work;
use cbs_results::CollectError;
use std::alloc::Allocator;

impl<W: Work, A: Allocator> House<W, A> {
    ghost use Rattle.std.specs.Prelude.{◌≡◌, ◌≤◌, ◌<◌, false, length, IfOk, IfErr, OnOk, OnErr};
    ghost use mathlib.Core.List.{IsPrefix};
    ghost use Rattle.cbs_clients.specs.Houses.{core_of, rings_of, results_of, results_due, early_of, SameHouse, HandsOutResults, KeepsBack, KeepsOf};

    /// Returns the results of a server that were not handed out, in the order of its jobs. Refuses by
    /// [`HouseError::NoSuchServer`] if there is no such server.
    pub fn results(&self, server: u16) -> Result<&[u64], HouseError>
        ensures ok { IfOk result (λ results. (server < length (core_of self.now).faces)
            × (results.now ≡ results_of self.now server)) }
        ensures error { IfErr result (λ error. (error ≡ HouseError.NoSuchServer)
            × (length (core_of self.now).faces ≤ server)) }
        // If no job of the server ended early, these results, followed by the whole results of the jobs held, are those
        // of the jobs received. Only the first ones are missing, which were handed out.
        ensures keeps { IfOk result (λ results.
            KeepsOf W.meaning self.now server results.now) }
    {
        match self.collector.results(server) {
            Some(results) => Ok(results),
            None => Err(HouseError::NoSuchServer),
        }
    }

    /// Hands out the results of a server found so far, in the order of its jobs, and keeps none of them. So a house can
    /// serve for ever in bounded memory. All calls go on as before: the numbers of jobs go on, and
    /// [`results`](House::results) returns the results found from then on. So what the calls handed out, one after
    /// another, is always a prefix of the whole results of the server's jobs, in order, if none of them ended early.
    ///
    /// Memory is taken for the places of the results of jobs that are accepted and not finished. So [`run`](House::run)
    /// and [`drain`](House::drain) need no memory. If no job is held, no memory is asked for.
    ///
    /// Refuses, in this order: [`HouseError::NoSuchServer`]; [`HouseError::OutOfMemory`] if an allocation, or a clone
    /// of the allocator, is refused. A refusal changes nothing.
    pub fn take_results(&mut self, server: u16) -> Result<Vec<u64, A>, HouseError>
    where
        A: Clone,
        ensures ok { IfOk result (λ results. results.items ≡ results_of self.old server) }
        ensures handed { OnOk result (HandsOutResults server self.old self.new) }
        // What is handed out follows the results that were handed out before.
        ensures front { early_of self.old server ≡ false → IfOk result (λ results.
            IsPrefix results.items (results_due W.meaning self.old server)) }
        ensures rings { rings_of self.new ≡ rings_of self.old }
        ensures unchanged { OnErr result (SameHouse self.old self.new) }
        ensures known { OnOk result (server < length (core_of self.old).faces) }
        ensures refused { IfErr result (KeepsBack self.old server) }
    {
        match self.collector.take_results(server) {
            Ok(results) => Ok(results),
            Err(CollectError::Stranger) => Err(HouseError::NoSuchServer),
            Err(_) => Err(HouseError::OutOfMemory),
        }
    }

    /// Drops the results of a server found so far, as if they were handed out. Does nothing if there is no such server.
    /// No memory is taken: a house whose results are dropped after each completion serves for ever in the places that
    /// it has.
    pub fn discard_results(&mut self, server: u16)
        ensures discarded { HandsOutResults server self.old self.new }
    {
        self.collector.discard(server);
    }
}
