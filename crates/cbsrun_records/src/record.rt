//! What a record holds.

ghost use Rattle.std.specs.Prelude.{◌≡◌, map, string_bytes};
ghost use Rattle.cbsrun_records.specs.Records.{IsRecord};

use cbs_rate::Plan;
use cbs_rules::{Modes, Setup};
use cbs_tape::Entry;
use std::marker::Model;

/// A record of a run: named servers with their plan and modes, and the steps that were made on them, each job as the
/// number of its units.
///
/// The backlog is 1 to 4096. Each step that names a server names one of the plan.
pub struct Record {
    pub(crate) tick: Option<u64>,
    pub(crate) names: Vec<String>,
    pub(crate) setup: Setup,
    pub(crate) backlog: u64,
    pub(crate) entries: Vec<Entry>,
}

// Written by hand, as one call: a derived `Drop` would be written out wherever a function that owns a record returns.
impl Drop for Record {
    fn drop(self) {
        let Record {
            tick: _,
            names: _,
            setup: _,
            backlog: _,
            entries: _,
        } = self;
    }
}

impl Model for Record {
    ghost use Rattle.std.specs.Prelude.{map, string_bytes};
    ghost use Rattle.cbsrun_records.specs.Records.{RecordFile, IsRecord};

    ghost Value = { RecordFile };

    ghost view = { λ f. record { tick = f.tick; names = map string_bytes f.names.items; modes = f.setup.modes; plan = f.setup.plan; backlog = f.backlog; entries = f.entries.items } };

    ghost invariant = { λ f. IsRecord (record { tick = f.tick; names = map string_bytes f.names.items; modes = f.setup.modes; plan = f.setup.plan; backlog = f.backlog; entries = f.entries.items }) };
}

impl Record {
    /// Returns the nanoseconds of a tick, if the file says how long it is.
    pub fn tick(&self) -> Option<u64>
        ensures { result ≡ self.now.tick }
    {
        self.tick
    }

    /// Returns the names of the servers, by number: one for each server of the plan.
    pub fn names(&self) -> &[String]
        ensures value { map string_bytes result.now ≡ self.now.names }
        ensures lawful { IsRecord self.now }
    {
        &self.names
    }

    /// Returns the reservations of the servers, and the bound on their total bandwidth.
    pub fn plan(&self) -> &Plan
        ensures { result.now ≡ self.now.plan }
    {
        self.setup.plan()
    }

    /// Returns the modes of the servers, by number: one for each server of the plan.
    pub fn modes(&self) -> &Modes
        ensures { result.now ≡ self.now.modes }
    {
        self.setup.modes()
    }

    /// Returns how many accepted, unfinished jobs a server may have: 1 to 4096.
    pub fn backlog(&self) -> u64
        ensures value { result ≡ self.now.backlog }
        ensures lawful { IsRecord self.now }
    {
        self.backlog
    }

    /// Returns the steps, in order. Units that ran in a row are one entry.
    pub fn entries(&self) -> &[Entry]
        ensures value { result.now ≡ self.now.entries }
        ensures lawful { IsRecord self.now }
    {
        &self.entries
    }
}
