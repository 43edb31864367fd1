//! What a task file holds.

ghost use Rattle.std.specs.Prelude.{◌≡◌};
ghost use Rattle.cbsrun_tasks.specs.TaskFiles.{IsFile};

use cbs_core::Step;
use cbs_job::FileJob;
use cbs_rate::Plan;
use cbs_rules::{Modes, Setup};
use std::marker::Model;

/// A task file: the plan and the modes of its servers, the limits of their queues, and the steps.
///
/// The backlog is 1 to 4096 and the ring is 1 to 1024. Each submit and each close names a server of the plan.
pub struct TaskFile {
    pub(crate) setup: Setup,
    pub(crate) backlog: u64,
    pub(crate) ring: u64,
    pub(crate) steps: Vec<Step<FileJob>>,
}

// Written by hand, as one call. A derived `Drop` would be written out, field by field, wherever a function that owns a
// task file returns.
impl Drop for TaskFile {
    fn drop(self) {
        let TaskFile {
            setup: _,
            backlog: _,
            ring: _,
            steps: _,
        } = self;
    }
}

impl Model for TaskFile {
    ghost use Rattle.cbsrun_tasks.specs.TaskFiles.{File, IsFile};

    ghost Value = { File };

    ghost view = { λ f. record { modes = f.setup.modes; plan = f.setup.plan; backlog = f.backlog; ring = f.ring; steps = f.steps.items } };

    ghost invariant = { λ f. IsFile (record { modes = f.setup.modes; plan = f.setup.plan; backlog = f.backlog; ring = f.ring; steps = f.steps.items }) };
}

/// The parts of a task file, taken out of it.
#[derive(Drop)]
pub struct Parts {
    /// The reservations of the servers, the bound on their total bandwidth, and the mode of each.
    pub setup: Setup,
    /// How many accepted, unfinished jobs a server may have: 1 to 4096.
    pub backlog: u64,
    /// How many messages fit into the ring of a client: 1 to 1024.
    pub ring: u64,
    /// The steps, in order.
    pub steps: Vec<Step<FileJob>>,
}

impl TaskFile {
    /// Returns the reservations of the servers, and the bound on their total bandwidth.
    pub fn plan(&self) -> &Plan
        ensures { result.now ≡ self.now.plan }
    {
        self.setup.plan()
    }

    /// Returns the modes of the servers, by number: one for each server of the plan.
    pub fn modes(&self) -> &Modes
        ensures value { result.now ≡ self.now.modes }
        ensures lawful { IsFile self.now }
    {
        self.setup.modes()
    }

    /// Returns how many accepted, unfinished jobs a server may have: 1 to 4096.
    pub fn backlog(&self) -> u64
        ensures value { result ≡ self.now.backlog }
        ensures lawful { IsFile self.now }
    {
        self.backlog
    }

    /// Returns how many messages fit into the ring of a client: 1 to 1024.
    pub fn ring(&self) -> u64
        ensures value { result ≡ self.now.ring }
        ensures lawful { IsFile self.now }
    {
        self.ring
    }

    /// Returns the steps, in order.
    pub fn steps(&self) -> &[Step<FileJob>]
        ensures { result.now ≡ self.now.steps }
    {
        &self.steps
    }

    /// Returns the parts of the file. This takes no memory.
    pub fn into_parts(self) -> Parts
        ensures value { record {
          modes = result.setup.modes;
          plan = result.setup.plan;
          backlog = result.backlog;
          ring = result.ring;
          steps = result.steps.items;
        } ≡ self }
        ensures lawful { IsFile self }
    {
        let TaskFile {
            setup,
            backlog,
            ring,
            steps,
        } = self;
        Parts {
            setup,
            backlog,
            ring,
            steps,
        }
    }
}
