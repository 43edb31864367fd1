//! The clients make their jobs as they go, many more than the rings hold. The house polls and runs until all clients
//! have ended.

ghost use Rattle.std.specs.Thread.{IsSync};

use super::clients::send_all;
use super::finished::Finished;
use super::{CLIENTS, setup};
use anyhow::{Result, ensure};
use cbs_house::{Client, House, HouseError, open_house};
use cbs_job::SumJob;
use cbs_rules::Mode;
use std::alloc::Global;
use std::thread::{Threads, join_mut};
use std::time::Clock;

/// The number of idle turns in a row for which the house waits for the clients: about 15 seconds.
const IDLE_TURNS: u64 = 1_000_000;

/// Runs the clients and the house at once, until all clients have sent all their jobs and ended.
fn run_together<R: Threads + Clock + Sync>(
    rt: &R,
    alloc: Global,
    clients: &mut [Client<SumJob>],
    house: &mut House<SumJob>,
    finished: &mut Finished,
) -> Result<()> {
    let (sent, run) = join_mut(
        rt,
        &mut || -> bool
            requires { IsSync R.row }
        { send_all(rt, alloc, clients) },
        &mut || -> Result<(), HouseError> { house.run_until_closed(rt, finished, IDLE_TURNS) },
    );
    run?;
    ensure!(sent, "a client could not send all its jobs");
    Ok(())
}

/// Returns the house and the clients, with a server for each. Telemetry gets its budget and no more; the other two may
/// have the time that is left.
fn open(alloc: Global) -> Result<(House<SumJob>, Vec<Client<SumJob>>)> {
    let modes = [Mode::Soft, Mode::Soft, Mode::Throttled];
    let (plan, modes) = setup(modes)?.into_parts();
    Ok(open_house(alloc, plan, modes, 4, 4)?)
}

/// Prints how many jobs of a client are finished, the first results, and the last one.
fn print_results(rt: &impl Print, name: &str, finished: u64, results: &[u64]) -> Result<()> {
    print!(rt; "{name}: {finished} jobs finished:")?;
    for result in results.iter().take(5) {
        print!(rt; " {result}")?;
    }
    let last = results.last().copied().unwrap_or(0);
    Ok(println!(rt; " .. {last}")?)
}

/// Runs until all clients have ended. Returns the house, which has their results.
fn run_all<R: Threads + Clock + Sync>(
    rt: &R,
    alloc: Global,
    finished: &mut Finished,
) -> Result<House<SumJob>> {
    let (mut house, mut clients) = open(alloc)?;
    run_together(rt, alloc, &mut clients, &mut house, finished)?;
    Ok(house)
}

/// Prints the results of the jobs of all clients.
fn print_all(rt: &impl Print, finished: &Finished, house: &House<SumJob>) -> Result<()> {
    for (server, (name, _budget)) in CLIENTS.iter().enumerate() {
        let server = server as u16;
        print_results(rt, name, finished.count(server), house.results(server)?)?;
    }
    Ok(())
}

/// Runs until all clients have ended, and prints the results of their jobs.
pub fn run<R: Print + Threads + Clock + Sync>(rt: &R, alloc: Global) -> Result<()> {
    let mut finished = Finished::none();
    let house = run_all(rt, alloc, &mut finished)?;
    print_all(rt, &finished, &house)
}
