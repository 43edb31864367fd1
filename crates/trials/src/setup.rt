//! Setups and jobs on which the calls are made.

ghost use Rattle.std.specs.Prelude.{IfOk};
ghost use Rattle.cbs_house.specs.Rounds.{Ready};

use anyhow::{Result, bail, ensure};
use cbs_house::{Feed, House, open_feeds};
use cbs_job::{FileJob, MAX_UNITS, PeakJob, SumJob, Task, Work};
use cbs_rate::{Bound, Reservation};
use cbs_rules::{Mode, Setup};
use std::alloc::Global;

/// Returns a setup with no server. The servers to come may take the whole processor.
pub fn no_servers() -> Setup {
    Setup::new(Bound::new(1, 1).unwrap())
}

/// Adds a server of this budget, period and mode to a setup.
pub fn admit(setup: &mut Setup, budget: u64, period: u64, mode: Mode) -> Result<()> {
    setup.admit(Reservation::new(budget, period)?, mode)?;
    Ok(())
}

/// Returns a setup of servers, each of a budget, a period and a mode.
pub fn setup_of(servers: &[(u64, u64, Mode)]) -> Result<Setup> {
    let mut setup = no_servers();
    for &(budget, period, mode) in servers {
        admit(&mut setup, budget, period, mode)?;
    }
    Ok(setup)
}

/// Returns the task of some work.
pub fn task<W: Work>(work: W) -> Result<Task<W>> {
    match Task::new(work) {
        Ok(task) => Ok(task),
        Err(refused) => Err(refused.error.into()),
    }
}

/// Returns a task of the kind that a word names, over these numbers.
pub fn task_of(kind: &str, numbers: Vec<u32>) -> Result<Task<FileJob>> {
    ensure!(numbers.len() <= MAX_UNITS as usize, "too many numbers");
    match kind {
        "sum" => task(FileJob::Sum(SumJob::new(numbers))),
        "peak" => task(FileJob::Peak(PeakJob::new(numbers))),
        _ => bail!("neither a sum nor a peak"),
    }
}

/// Returns a task that adds these numbers up.
pub fn sum_of(alloc: Global, numbers: &[u32]) -> Result<Task<FileJob>> {
    task_of("sum", Vec::from_slice(alloc, numbers)?)
}

/// Returns a house of these servers, with this backlog and these rings, and for each server a feed of the list at its
/// place.
pub fn fed<W: Work>(
    alloc: Global,
    setup: Setup,
    backlog: u64,
    ring: u64,
    lists: Vec<Vec<Task<W>>>,
) -> Result<(House<W>, Vec<Feed<W>>)>
    ensures { IfOk result (λ r. Ready r.0 r.1.items) }
{
    ensure!(
        lists.len() == setup.plan().len(),
        "not a list of jobs for each server"
    );
    let (plan, modes) = setup.into_parts();
    match open_feeds(alloc, plan, modes, backlog, ring, lists) {
        Ok(opened) => Ok(opened),
        Err(refused) => Err(refused.error.into()),
    }
}
