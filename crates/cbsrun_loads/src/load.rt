//! What a load file holds.

ghost use Rattle.std.specs.Prelude.{◌≡◌, ◌≤◌, map, string_bytes};
ghost use Rattle.cbs_rules.specs.Rules.{clock_end};
ghost use Rattle.cbsrun_loads.specs.Loads.{IsLoad, with_seed, with_until};

use cbs_rate::Plan;
use cbs_rules::{Modes, Setup};
use cbsrun_simulate::SourceTerms;
use std::marker::Model;

/// A load: named servers with their plan and modes, and sources of jobs for them.
///
/// The backlog is 1 to 4096, and the end is 1 to 10^12. Each source gives jobs to a server of the plan.
pub struct Load {
    pub(crate) tick: Option<u64>,
    pub(crate) names: Vec<String>,
    pub(crate) setup: Setup,
    pub(crate) backlog: u64,
    pub(crate) until: u64,
    pub(crate) seed: u64,
    pub(crate) sources: Vec<SourceTerms>,
    pub(crate) listed: Vec<Vec<u64>>,
}

// Written by hand, as one call. A derived `Drop` would be written out, field by field, wherever a function that owns a
// load returns.
impl Drop for Load {
    fn drop(self) {
        let Load {
            tick: _,
            names: _,
            setup: _,
            backlog: _,
            until: _,
            seed: _,
            sources: _,
            listed: _,
        } = self;
    }
}

impl Model for Load {
    ghost use Rattle.std.specs.Prelude.{map, string_bytes};
    ghost use Rattle.cbsrun_loads.specs.Loads.{LoadFile, IsLoad};

    ghost Value = { LoadFile };

    ghost view = { λ f. record { tick = f.tick; names = map string_bytes f.names.items; modes = f.setup.modes; plan = f.setup.plan; backlog = f.backlog; until = f.until; seed = f.seed; sources = f.sources.items; listed = map (λ v. v.items) f.listed.items } };

    ghost invariant = { λ f. IsLoad (record { tick = f.tick; names = map string_bytes f.names.items; modes = f.setup.modes; plan = f.setup.plan; backlog = f.backlog; until = f.until; seed = f.seed; sources = f.sources.items; listed = map (λ v. v.items) f.listed.items }) };
}

impl Load {
    /// Returns the nanoseconds of a tick, if the file says how long it is.
    pub fn tick(&self) -> Option<u64>
        ensures { result ≡ self.now.tick }
    {
        self.tick
    }

    /// Returns the names of the servers, by number: one for each server of the plan.
    pub fn names(&self) -> &[String]
        ensures value { map string_bytes result.now ≡ self.now.names }
        ensures lawful { IsLoad self.now }
    {
        &self.names
    }

    /// Returns the reservations of the servers, and the bound on their total bandwidth.
    pub fn plan(&self) -> &Plan
        ensures { result.now ≡ self.now.plan }
    {
        self.setup.plan()
    }

    /// Returns the modes of the servers, by number: one for each server of the plan.
    pub fn modes(&self) -> &Modes
        ensures { result.now ≡ self.now.modes }
    {
        self.setup.modes()
    }

    /// Returns how many accepted, unfinished jobs a server may have: 1 to 4096.
    pub fn backlog(&self) -> u64
        ensures value { result ≡ self.now.backlog }
        ensures lawful { IsLoad self.now }
    {
        self.backlog
    }

    /// Returns the tick at which a simulation ends: 1 to 10^12.
    pub fn until(&self) -> u64
        ensures value { result ≡ self.now.until }
        ensures lawful { IsLoad self.now }
    {
        self.until
    }

    /// Returns the seed of the numbers that are drawn.
    pub fn seed(&self) -> u64
        ensures { result ≡ self.now.seed }
    {
        self.seed
    }

    /// Returns the sources, in the order of the file.
    pub fn sources(&self) -> &[SourceTerms]
        ensures value { result.now ≡ self.now.sources }
        ensures lawful { IsLoad self.now }
    {
        &self.sources
    }

    /// Returns the nominal ticks of each source that the file lists, by its place: none if they are drawn.
    pub fn listed(&self) -> &[Vec<u64>]
        ensures value { map (λ v. v.items) result.now ≡ self.now.listed }
        ensures lawful { IsLoad self.now }
    {
        &self.listed
    }

    /// Returns the load with this seed in place of its own.
    pub fn with_seed(mut self, seed: u64) -> Load
        ensures { result ≡ with_seed seed self }
    {
        self.seed = seed;
        self
    }

    /// Returns the load with its end at this tick, in place of its own end: 1 to 10^12.
    pub fn with_until(mut self, until: u64) -> Load
        requires some { 1 ≤ until }
        requires few { until ≤ clock_end }
        ensures { result ≡ with_until until self }
    {
        self.until = until;
        self
    }
}
