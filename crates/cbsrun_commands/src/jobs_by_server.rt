//! The jobs of a task file, in a list for each server.

ghost use Rattle.std.specs.Prelude.{◌≡◌, ℕ, [], ◌∷◌, ◌++◌, All, IfOk, OnOk, length, map, replicate};
ghost use Rattle.std.specs.List.{range_with_len};
ghost use Rattle.cbsrun_commands.specs.ResultLines.{jobs_for, listed};
ghost use Rattle.cbsrun_tasks.specs.TaskFiles.{IsFileStep};

use cbs_core::Step;
use cbs_job::{FileJob, Task};
use std::alloc::{AllocError, Global};

/// Returns an empty list of jobs for each of this many servers.
fn empty_lists(alloc: Global, servers: u16) -> Result<Vec<Vec<Task<FileJob>>>, AllocError>
    ensures { IfOk result (λ lists. map (λ jobs. jobs.items) lists.items ≡ replicate servers []) }
{
    let mut lists = Vec::with_capacity(alloc, usize::from(servers))?;
    for _server in 0..servers {
        lists.push(Vec::new(alloc))?;
    }
    Ok(lists)
}

/// Adds the job of a submit after the last one of its server's list. Other steps have no job.
fn add_job(lists: &mut Vec<Vec<Task<FileJob>>>, step: Step<FileJob>) -> Result<(), AllocError>
    requires { IsFileStep (length lists.old.items) step }
    ensures len { length lists.new.items ≡ length lists.old.items }
    ensures jobs { OnOk result ((s : ℕ) → listed lists.new.items s ≡ listed lists.old.items s
        ++ jobs_for s (step ∷ [])) }
{
    let Step::Submit(server, task) = step else {
        return Ok(());
    };
    lists[usize::from(server)].push(task)?;
    Ok(())
}

/// Returns the jobs that the steps submit to each server, in the order of the steps. The only error is out of memory.
pub fn jobs_by_server(
    alloc: Global,
    servers: u16,
    steps: Vec<Step<FileJob>>,
) -> Result<Vec<Vec<Task<FileJob>>>, AllocError>
    requires { All (IsFileStep servers) steps.items }
    ensures { IfOk result (λ lists. map (λ jobs. jobs.items) lists.items
        ≡ map (λ s. jobs_for s steps.items) (range_with_len 0 servers)) }
{
    let mut lists = empty_lists(alloc, servers)?;
    for step in steps {
        add_job(&mut lists, step)?;
    }
    Ok(lists)
}
