//! The clients' side: each client on its own thread.

ghost use Rattle.std.specs.Prelude.{◌≡◌, IfOk, length};

use cbs_house::Client;
use cbs_job::{SumJob, Task};
use std::alloc::{AllocError, Global};
use std::thread::{Threads, for_each_mut};
use std::time::Clock;

/// The number of jobs that each client sends: many more than its ring and the backlog of its server hold.
pub const JOBS: u16 = 400;

/// The number of tries for a message at a full ring before a client gives up.
const TRIES: u64 = 1_000_000;

/// Returns how many units the jobs of a server have: 3 for a camera, 5 for an encoder, 1 for telemetry.
fn units_of(server: u16) -> u16 {
    match server {
        0 => 3,
        1 => 5,
        _ => 1,
    }
}

/// Returns the numbers of a client's next job, one for each unit.
fn numbers(alloc: Global, job: u16, units: u16) -> Result<Vec<u32>, AllocError>
    ensures { IfOk result (λ numbers. length numbers.items ≡ units) }
{
    let mut numbers = Vec::new(alloc);
    for unit in 0..units {
        numbers.push(100 * u32::from(job) + u32::from(unit))?;
    }
    Ok(numbers)
}

/// Makes the jobs of a client one by one and sends each, and then the end. Returns whether all were sent. Returns false
/// if memory ran out or a message could not be sent.
fn send_jobs<R: Clock>(rt: &R, alloc: Global, client: &mut Client<SumJob>) -> bool {
    let units = units_of(client.server());
    for job in 0..JOBS {
        let Ok(numbers) = numbers(alloc, job, units) else {
            return false;
        };
        let Ok(task) = Task::new(SumJob::new(numbers)) else {
            return false;
        };
        if client.send_within(rt, task, TRIES).is_err() {
            return false;
        }
    }
    client.end_within(rt, TRIES).is_ok()
}

/// Runs all clients at once, each on its own thread. Returns whether each has sent all its jobs and its end.
pub fn send_all<R: Threads + Clock + Sync>(
    rt: &R,
    alloc: Global,
    clients: &mut [Client<SumJob>],
) -> bool {
    let threads = clients.len().max(1);
    for_each_mut(
        rt,
        clients,
        threads,
        &|_, client| {
            send_jobs(rt, alloc, client);
        },
    );
    clients.iter().all(|client| client.ended())
}
