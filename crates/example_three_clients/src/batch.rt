//! A batch: the jobs of each client are known beforehand, and one call serves them all. Each list has a thread that
//! sends it.

use super::{CLIENTS, setup};
use anyhow::{Result, ensure};
use cbs_house::{House, OpenGate, open_feeds, serve};
use cbs_job::{SumJob, Task};
use cbs_rules::Mode;
use std::alloc::Global;
use std::thread::Threads;
use std::time::Clock;

/// Returns jobs that add these numbers up, one number per tick.
fn list_of(alloc: Global, sums: &[[u32; 3]]) -> Result<Vec<Task<SumJob>>> {
    let mut list = Vec::new(alloc);
    for numbers in sums {
        let work = SumJob::new(Vec::from_array(alloc, *numbers)?);
        list.push(Task::new(work).map_err(|refused| refused.error)?)?;
    }
    Ok(list)
}

/// Returns the jobs of each client.
fn lists(alloc: Global) -> Result<Vec<Vec<Task<SumJob>>>> {
    let mut lists = Vec::new(alloc);
    lists.push(list_of(alloc, &[[1, 2, 3], [4, 5, 6]])?)?;
    lists.push(list_of(alloc, &[[7, 8, 9]])?)?;
    lists.push(list_of(alloc, &[[10, 20, 30], [40, 50, 60]])?)?;
    Ok(lists)
}

/// Serves all jobs. Returns the house, which has their results.
fn serve_all<R: Threads + Clock + Sync>(rt: &R, alloc: Global) -> Result<House<SumJob>> {
    let (plan, modes) = setup([Mode::Soft; 3])?.into_parts();
    let lists = lists(alloc)?;
    ensure!(lists.len() == plan.len(), "not a list for each server");
    let opened = open_feeds(alloc, plan, modes, 4, 4, lists);
    let (mut house, mut feeds) = opened.map_err(|refused| refused.error)?;
    serve(rt, &mut house, &mut feeds, &OpenGate)?;
    Ok(house)
}

/// Prints the results of a client's jobs.
fn print_results(rt: &impl Print, name: &str, results: &[u64]) -> Result<()> {
    for result in results {
        println!(rt; "{name}: {result}")?;
    }
    Ok(())
}

/// Prints the results of all jobs.
fn print_all(rt: &impl Print, house: &House<SumJob>) -> Result<()> {
    for (server, (name, _budget)) in CLIENTS.iter().enumerate() {
        print_results(rt, name, house.results(server as u16)?)?;
    }
    Ok(())
}

/// Serves all jobs, and prints their results.
pub fn run<R: Print + Threads + Clock + Sync>(rt: &R, alloc: Global) -> Result<()> {
    let house = serve_all(rt, alloc)?;
    print_all(rt, &house)
}
