//! Serves a load to clients that are delayed at random, and prints the results of each server. Whatever the delays, the
//! results are those of the server's jobs, in order.

ghost use Rattle.cbs_house.specs.Rounds.{Ready};

mod gate;

use crate::load::read_load;
use crate::setup::fed;
use anyhow::Result;
use cbs_house::{Feed, House, serve};
use cbs_job::FileJob;
use gate::RandomDelays;
use std::alloc::Global;
use std::io::{self, Input};
use std::thread::Threads;
use std::time::Clock;

/// Serves the load on standard input, and prints the results.
pub fn serve_input<R: Print + Input + Threads + Clock + Sync>(rt: &R, alloc: Global) -> Result<()> {
    let text = io::read_to_string(alloc, rt.reader())?;
    serve_load(rt, alloc, &text)
}

/// Serves the load of this text, and prints the results.
fn serve_load<R: Print + Threads + Clock + Sync>(rt: &R, alloc: Global, text: &str) -> Result<()> {
    let load = read_load(alloc, text)?;
    let gate = RandomDelays::new(load.seed);
    let (mut house, mut feeds) = fed(alloc, load.setup, load.backlog, load.ring, load.jobs)?;
    serve_and_print(rt, &mut house, &mut feeds, &gate)
}

/// Serves the feeds to their end, and prints the results.
fn serve_and_print<R: Print + Threads + Clock + Sync>(
    rt: &R,
    house: &mut House<FileJob>,
    feeds: &mut [Feed<FileJob>],
    gate: &RandomDelays,
) -> Result<()>
    requires { Ready house.old feeds.old }
{
    serve(rt, house, feeds, gate)?;
    for server in 0..house.servers() {
        print_results(rt, server, house.results(server)?)?;
    }
    Ok(())
}

/// Prints the line of a server.
fn print_results(rt: &impl Print, server: u16, results: &[u64]) -> io::Result<()> {
    print!(rt; "server {server}:")?;
    for result in results {
        print!(rt; " {result}")?;
    }
    println!(rt)
}
