//! A task file as a run: its steps are made again.

ghost use Rattle.std.specs.Prelude.{◌≡◌, IfOk};
ghost use Rattle.cbsrun_runs.specs.Tasks.{KeepsLaws, clock_of_tasks, run_of_tasks};

use crate::end::end_of;
use crate::run::Run;
use crate::steps::show_steps;
use cbs_core::{Core, Step};
use cbs_job::FileJob;
use cbs_rate::Plan;
use cbs_rules::{Modes, Setup};
use cbsrun_events::View;
use cbsrun_simulate::Range;
use cbsrun_tasks::{Parts, TaskFile};
use std::alloc::{AllocError, Global};
use std::marker::Model;
use std::mem;

/// A task file whose steps are made again, on a new core with the plan, the modes and the backlog of the file. Server S
/// is called `server S`, no job has a number of ticks within which it is to be finished, and there is no seed.
#[derive(Drop)]
pub struct Replay {
    setup: Setup,
    backlog: u64,
    ring: u64,
    steps: Vec<Step<FileJob>>,
}

impl Model for Replay {
    ghost use Rattle.cbsrun_tasks.specs.TaskFiles.{File};

    ghost Value = { File };

    ghost view = { λ r. record { modes = r.setup.modes; plan = r.setup.plan; backlog = r.backlog; ring = r.ring; steps = r.steps.items } };
}

impl Replay {
    /// Returns the run of a task file.
    pub fn of(tasks: TaskFile) -> Replay
        ensures { result ≡ tasks }
    {
        let Parts {
            setup,
            backlog,
            ring,
            steps,
        } = tasks.into_parts();
        Replay {
            setup,
            backlog,
            ring,
            steps,
        }
    }
}

impl Run for Replay {
    ghost run = { run_of_tasks };

    ghost lawful = { KeepsLaws };

    fn plan(&self) -> &Plan {
        self.setup.plan()
    }

    fn modes(&self) -> &Modes {
        self.setup.modes()
    }

    fn backlog(&self) -> u64 {
        self.backlog
    }

    fn tick(&self) -> Option<u64> {
        None
    }

    fn seed(&self) -> Option<u64> {
        None
    }

    fn name(&self, alloc: Global, server: u16) -> Result<String, AllocError> {
        let name = format!(in alloc; "server {server}")?;
        Ok(name)
    }

    fn within(&self, _server: u16) -> Option<Range> {
        None
    }

    fn until(&self) -> Option<u64> {
        None
    }

    fn show<C, V: View<C>>(
        &mut self,
        alloc: Global,
        view: &mut V,
        lent: &mut C,
    ) -> Result<u64, AllocError> {
        let Ok(mut core) = Core::of(alloc, self.setup.plan(), self.setup.modes(), self.backlog)
        else {
            return Err(AllocError);
        };
        let steps = mem::replace(&mut self.steps, Vec::new(alloc));
        show_steps(&mut core, steps, view, lent)?;
        Ok(core.now())
    }
}

/// Returns the clock after the steps of a task file, which it makes. The only error is out of memory.
pub fn clock_of(alloc: Global, tasks: TaskFile) -> Result<u64, AllocError>
    ensures { IfOk result (λ clock. clock ≡ clock_of_tasks tasks) }
{
    end_of(alloc, &mut Replay::of(tasks))
}
