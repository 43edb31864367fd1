//! The jobs of a task file, served to clients, and their results, written to a writer.

ghost use Rattle.std.specs.Prelude.{ℕ, ◌≡◌, ◌<◌, ◌≤◌, All, IfErr, IfOk, length, map};
ghost use Rattle.std.specs.List.{range_with_len};
ghost use Rattle.cbs_core.specs.Agreement.{Agrees};
ghost use Rattle.cbs_clients.specs.Clients.{server_of};
ghost use Rattle.cbs_house.specs.Feeds.{client_of, unsent_jobs};
ghost use Rattle.cbs_clients.specs.Houses.{core_of, results_of, seat_at, new_seat};
ghost use Rattle.cbs_clients.specs.Opened.{IsUnused};
ghost use Rattle.cbs_house.specs.Rounds.{Ready};
ghost use Rattle.cbs_job.specs.FileJobs.{of_files};
ghost use Rattle.cbsrun_tasks.specs.TaskFiles.{IsFile};
ghost use Rattle.cbsrun_commands.specs.ResultLines.{jobs_for, result_lines, results_by_server};
ghost use Rattle.cbsrun_commands.specs.Verbs.{HouseStops, ServeStops, fault_of};
ghost use Rattle.cbsrun_runs.specs.Tasks.{start_of_tasks};
ghost use Rattle.cbsrun_lines.specs.Writers.{Leaves, MayWrite};

use crate::jobs_by_server::jobs_by_server;
use crate::result_lines::result_text;
use cbs_house::{Feed, House, HouseError, OpenGate, open_feeds, serve};
use cbs_job::FileJob;
use cbsrun_io::{ByteOutput, write_text};
use cbsrun_lines::RunError;
use cbsrun_tasks::{Parts, TaskFile};
use std::alloc::Global;
use std::thread::Threads;
use std::time::Clock;

/// Returns the run fault that stands for an error of the house, or `None` if none does. The errors with none never come
/// from a task file, since its numbers are in range.
fn fault_of(error: HouseError) -> Option<RunError>
    ensures { result ≡ fault_of error }
{
    match error {
        HouseError::OutOfMemory => Some(RunError::OutOfMemory),
        HouseError::ClockEnd => Some(RunError::ClockEnd),
        HouseError::Stalled => Some(RunError::Stalled),
        HouseError::BadBacklog
        | HouseError::BadRing
        | HouseError::NoSuchServer
        | HouseError::NotRunning => None,
    }
}

/// Returns a house with the plan, modes, backlog and ring of a task file. Beside it, returns a feed for each of its
/// servers, in order, with the jobs that the file submits to that server. The only error is out of memory.
fn open_file(
    alloc: Global,
    file: TaskFile,
) -> Result<(House<FileJob>, Vec<Feed<FileJob>>), HouseError>
    ensures core { IfOk result (λ opened. Agrees of_files (core_of opened.0)
        (start_of_tasks file)) }
    ensures servers { IfOk result (λ opened. map (λ f. server_of (client_of f)) opened.1.items
        ≡ range_with_len 0 (length file.plan.rates)) }
    ensures rings { IfOk result (λ opened. All (λ f.
        IsUnused file.ring (client_of f)) opened.1.items) }
    ensures jobs { IfOk result (λ opened. map unsent_jobs opened.1.items
        ≡ map (λ s. jobs_for s file.steps) (range_with_len 0 (length file.plan.rates))) }
    ensures ready { IfOk result (λ opened. Ready opened.0 opened.1.items) }
    ensures empty { IfOk result (λ opened. (s : ℕ) → seat_at opened.0 s ≡ new_seat) }
    ensures memory { IfErr result (λ error. error ≡ HouseError.OutOfMemory) }
    ensures lawful { IsFile file }
{
    let Parts {
        setup,
        backlog,
        ring,
        steps,
    } = file.into_parts();
    let (plan, modes) = setup.into_parts();
    let Ok(lists) = jobs_by_server(alloc, plan.len() as u16, steps) else {
        return Err(HouseError::OutOfMemory);
    };
    match open_feeds(alloc, plan, modes, backlog, ring, lists) {
        Ok(opened) => Ok(opened),
        Err(refused) => Err(refused.error),
    }
}

/// Returns the house of a task file, after the clients have sent all its jobs and all jobs are finished.
fn served_house<R: Threads + Clock + Sync>(
    rt: &R,
    alloc: Global,
    file: TaskFile,
) -> Result<House<FileJob>, HouseError>
    ensures servers { IfOk result (λ house. length (core_of house).faces ≡ length file.plan.rates) }
    ensures results { IfOk result (λ house. map (results_of house)
        (range_with_len 0 (length file.plan.rates)) ≡ results_by_server file) }
    ensures stops { IfErr result (HouseStops file) }
{
    let (mut house, mut feeds) = open_file(alloc, file)?;
    serve(rt, &mut house, &mut feeds, &OpenGate)?;
    Ok(house)
}

/// Serves the submits of a task file, and writes the results of each server.
///
/// The house has the plan, the modes, the backlog and the ring of the file.
///
/// Refuses with [`RunError::OutOfMemory`] if out of memory, and with [`RunError::ClockEnd`] if the clock came to its
/// end with a job unfinished. Refuses with [`RunError::Stalled`] if the clients did not send all jobs in the rounds
/// that they are given. After these three nothing is written. Refuses with [`RunError::WriteFault`] if a write fails or
/// takes no byte: then a prefix of the text is written.
pub fn serve_file<R: Threads + Clock + Sync, O: ByteOutput>(
    rt: &R,
    alloc: Global,
    file: TaskFile,
    out: &mut O,
) -> Result<(), RunError>
    requires { MayWrite (O.state out.old) }
    ensures { Leaves (result_lines file) (ServeStops file) result (O.state out.old)
        (O.state out.new) }
{
    let house = match served_house(rt, alloc, file) {
        Ok(house) => house,
        Err(error) => return Err(fault_of(error).unwrap()),
    };
    let text = result_text(alloc, &house)?;
    write_text(out, text.as_bytes())?;
    Ok(())
}
