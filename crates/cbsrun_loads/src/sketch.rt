//! A load in which servers may have no reservation yet.

ghost use Rattle.std.specs.Prelude.{◌≡◌, map, string_bytes};
ghost use Rattle.cbsrun_loads.specs.Sketches.{IsSketch};

use cbs_rate::Bound;
use cbs_rules::Mode;
use cbsrun_simulate::SourceTerms;
use std::marker::Model;

/// A budget in every period, as a file gives it, in ticks.
#[derive(Clone, Copy, PartialEq, Eq)]
pub struct Given {
    /// The budget: 1 tick up to the period.
    pub budget: u64,
    /// The period: 1 to 10^9 ticks.
    pub period: u64,
}

/// A server of a sketch.
#[derive(Clone, Copy, PartialEq, Eq)]
pub struct ServerSketch {
    /// The mode.
    pub mode: Mode,
    /// The reservation, if the file gives one.
    pub given: Option<Given>,
}

/// A sketch of a load: named servers, of which some may have no reservation yet, and sources of jobs for them.
///
/// There are at most 64 servers. The backlog is 1 to 4096, and the end is 1 to 10^12. Each source gives jobs to one of
/// the servers.
pub struct Sketch {
    pub(crate) tick: Option<u64>,
    pub(crate) names: Vec<String>,
    pub(crate) servers: Vec<ServerSketch>,
    pub(crate) bound: Bound,
    pub(crate) backlog: u64,
    pub(crate) until: u64,
    pub(crate) seed: u64,
    pub(crate) sources: Vec<SourceTerms>,
    pub(crate) listed: Vec<Vec<u64>>,
}

// Written by hand, as one call, as that of a load is.
impl Drop for Sketch {
    fn drop(self) {
        let Sketch {
            tick: _,
            names: _,
            servers: _,
            bound: _,
            backlog: _,
            until: _,
            seed: _,
            sources: _,
            listed: _,
        } = self;
    }
}

impl Model for Sketch {
    ghost use Rattle.std.specs.Prelude.{map, string_bytes};
    ghost use Rattle.cbsrun_loads.specs.Sketches.{SketchFile, IsSketch};

    ghost Value = { SketchFile };

    ghost view = { λ k. record { tick = k.tick; names = map string_bytes k.names.items; servers = k.servers.items; bound = k.bound; backlog = k.backlog; until = k.until; seed = k.seed; sources = k.sources.items; listed = map (λ v. v.items) k.listed.items } };

    ghost invariant = { λ k. IsSketch (record { tick = k.tick; names = map string_bytes k.names.items; servers = k.servers.items; bound = k.bound; backlog = k.backlog; until = k.until; seed = k.seed; sources = k.sources.items; listed = map (λ v. v.items) k.listed.items }) };
}

impl Sketch {
    /// Returns the nanoseconds of a tick, if the file says how long it is.
    pub fn tick(&self) -> Option<u64>
        ensures { result ≡ self.now.tick }
    {
        self.tick
    }

    /// Returns the names of the servers, by number.
    pub fn names(&self) -> &[String]
        ensures value { map string_bytes result.now ≡ self.now.names }
        ensures lawful { IsSketch self.now }
    {
        &self.names
    }

    /// Returns the modes of the servers, by number, and their reservations, as far as these are given.
    pub fn servers(&self) -> &[ServerSketch]
        ensures value { result.now ≡ self.now.servers }
        ensures lawful { IsSketch self.now }
    {
        &self.servers
    }

    /// Returns the bound on the total bandwidth of the servers.
    pub fn bound(&self) -> Bound
        ensures { result ≡ self.now.bound }
    {
        self.bound
    }

    /// Returns how many accepted, unfinished jobs a server may have: 1 to 4096.
    pub fn backlog(&self) -> u64
        ensures value { result ≡ self.now.backlog }
        ensures lawful { IsSketch self.now }
    {
        self.backlog
    }

    /// Returns the tick at which a simulation ends: 1 to 10^12.
    pub fn until(&self) -> u64
        ensures { result ≡ self.now.until }
    {
        self.until
    }

    /// Returns the seed of the numbers that are drawn.
    pub fn seed(&self) -> u64
        ensures { result ≡ self.now.seed }
    {
        self.seed
    }

    /// Returns the sources, in the order of the file.
    pub fn sources(&self) -> &[SourceTerms]
        ensures value { result.now ≡ self.now.sources }
        ensures lawful { IsSketch self.now }
    {
        &self.sources
    }

    /// Returns the nominal ticks of each source that the file lists, by its place: none if they are drawn.
    pub fn listed(&self) -> &[Vec<u64>]
        ensures value { map (λ v. v.items) result.now ≡ self.now.listed }
        ensures lawful { IsSketch self.now }
    {
        &self.listed
    }
}
