//! The shortest program with a house. One client sends two jobs, the program prints by when they will be done, and
//! reads their results.
#![tactic(auto)]

use anyhow::{Context, Result};
use cbs_house::{Client, House, Poll, open_house};
use cbs_job::{SumJob, Task};
use cbs_rate::{Bound, Reservation};
use cbs_rules::{Mode, Setup};
use std::alloc::Global;

/// Sends a job that adds these two numbers up, one number per tick. Returns its number.
fn send(alloc: Global, client: &mut Client<SumJob>, numbers: [u32; 2]) -> Result<u64> {
    let work = SumJob::new(Vec::from_array(alloc, numbers)?);
    let task = Task::new(work).map_err(|refused| refused.error)?;
    let number = client.send(task).map_err(|refused| refused.error)?;
    Ok(number)
}

/// Sends two jobs, and ends.
fn send_all(alloc: Global, client: &mut Client<SumJob>) -> Result<()> {
    send(alloc, client, [2, 3])?;
    send(alloc, client, [40, 2])?;
    Ok(client.end()?)
}

/// Returns a house with one soft server, of two ticks in every five, and its client.
fn open(alloc: Global) -> Result<(House<SumJob>, Client<SumJob>)> {
    let mut setup = Setup::new(Bound::new(1, 1)?);
    setup.admit(Reservation::new(2, 5)?, Mode::Soft)?;
    let (plan, modes) = setup.into_parts();
    let (house, mut clients) = open_house(alloc, plan, modes, 4, 4)?;
    let client = clients.pop().context("a client for each server")?;
    Ok((house, client))
}

/// Takes the client's next message. If it is a job, prints by when the job is promised.
fn poll(rt: &impl Print, house: &mut House<SumJob>) -> Result<()> {
    if let Poll::Took(number) = house.poll(0) {
        let tick = house.promised(0).context("a job is held")?;
        println!(rt; "job {number} accepted: promised by tick {tick}")?;
    }
    Ok(())
}

/// Runs one unit, and prints the job that it finished, if it finished one.
fn run(rt: &impl Print, house: &mut House<SumJob>) -> Result<()> {
    let done = house.results(0)?.len();
    house.run();
    if let Some(result) = house.results(0)?.get(done) {
        println!(rt; "job {done} done at tick {}: {result}", house.now())?;
    }
    Ok(())
}

/// Takes the client's messages, and runs its jobs.
fn serve(rt: &impl Print, house: &mut House<SumJob>) -> Result<()> {
    for _message in 0..3 {
        poll(rt, house)?;
    }
    for _unit in 0..4 {
        run(rt, house)?;
    }
    Ok(())
}

fn main(rt: HostRuntime) -> Result<()> {
    let alloc = rt.alloc();
    let (mut house, mut client) = open(alloc)?;
    send_all(alloc, &mut client)?;
    serve(&rt, &mut house)
}
