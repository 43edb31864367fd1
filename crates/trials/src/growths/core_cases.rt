//! The calls of a core that take memory.

use super::wide::{WideJob, wide};
use crate::setup::setup_of;
use crate::telling::{begin, tell};
use anyhow::Result;
use cbs_core::{Core, Reply, Step};
use cbs_job::Task;
use cbs_rules::Mode;
use std::alloc::Global;

/// Returns a core of one soft server with 2 ticks in every 5.
fn core_of_one(alloc: Global) -> Result<Core<WideJob>> {
    let (plan, modes) = setup_of(&[(2, 5, Mode::Soft)])?.into_parts();
    Ok(Core::new(alloc, plan, modes, 4)?)
}

/// Prints the state of a core.
fn shows(rt: &impl Print, core: &Core<WideJob>) {
    tell(rt, "now", core.now());
    tell(rt, "ready", core.ready());
    tell(rt, "view", core.view(0));
}

/// Makes room for a job.
pub fn make_room(rt: &impl Print, alloc: Global) -> Result<()> {
    let mut core = core_of_one(alloc)?;
    begin(rt);
    makes_room(rt, "first", &mut core);
    shows(rt, &core);
    makes_room(rt, "again", &mut core);
    Ok(())
}

/// Makes room, and prints the result.
fn makes_room(rt: &impl Print, what: &str, core: &mut Core<WideJob>) {
    tell(rt, what, core.make_room(0));
}

/// Submits a job.
pub fn submit(rt: &impl Print, alloc: Global) -> Result<()> {
    let task = wide(3, 6)?;
    let mut core = core_of_one(alloc)?;
    begin(rt);
    if let Some(task) = submitted(rt, &mut core, task) {
        submitted(rt, &mut core, task);
    }
    Ok(())
}

/// Submits a job, and prints the result and the core. Returns the job if it comes back.
fn submitted(
    rt: &impl Print,
    core: &mut Core<WideJob>,
    task: Task<WideJob>,
) -> Option<Task<WideJob>> {
    let back = match core.submit(0, task) {
        Ok(number) => {
            tell(rt, "accepted", number);
            None
        }
        Err(refused) => {
            tell(rt, "came back", (refused.error, refused.task.left()));
            Some(refused.task)
        }
    };
    shows(rt, core);
    back
}

/// Returns three submits and three runs.
fn six_steps(alloc: Global) -> Result<Vec<Step<WideJob>>> {
    Ok(vec![in alloc;
        Step::Submit(0, wide(1, 1)?),
        Step::Submit(0, wide(1, 2)?),
        Step::Submit(0, wide(1, 3)?),
        Step::Run,
        Step::Run,
        Step::Run,
    ]?)
}

/// Makes a list of steps.
pub fn run_steps(rt: &impl Print, alloc: Global) -> Result<()> {
    let steps = six_steps(alloc)?;
    let mut core = core_of_one(alloc)?;
    begin(rt);
    if let Some(steps) = made(rt, &mut core, steps) {
        made(rt, &mut core, steps);
    }
    Ok(())
}

/// Makes steps, and prints the replies and the core. Returns the steps if they come back.
fn made(
    rt: &impl Print,
    core: &mut Core<WideJob>,
    steps: Vec<Step<WideJob>>,
) -> Option<Vec<Step<WideJob>>> {
    let back = match core.run_steps(steps) {
        Ok(replies) => {
            for reply in &replies {
                tell_reply(rt, reply);
            }
            None
        }
        Err(refused) => {
            tell(rt, "steps that came back", refused.steps.len());
            Some(refused.steps)
        }
    };
    shows(rt, core);
    back
}

/// Prints the reply to a submit or a run.
fn tell_reply(rt: &impl Print, reply: &Reply<WideJob>) {
    match reply {
        Reply::Accepted(number) => tell(rt, "accepted", *number),
        Reply::NotAccepted(refused) => tell(rt, "not accepted", refused.error),
        Reply::Ran(ran) => tell(rt, "ran", *ran),
        Reply::Advanced | Reply::Closed | Reply::Charged | Reply::Refused(_) => {
            tell(rt, "another reply", ())
        }
    }
}
