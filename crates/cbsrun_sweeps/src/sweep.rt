//! Many runs of a load, and what they tell.

ghost use Rattle.std.specs.Prelude.{◌≡◌, ◌≤◌, ◌+◌, ℕ, ◌<◌, IfOk, get_or, length, slice_get};
ghost use Rattle.std.specs.Thread.{IsSync};
ghost use Rattle.cbsrun_sweeps.specs.Servers.{joined, no_sweep};
ghost use Rattle.cbsrun_sweeps.specs.Sweeps.{are_in_time, told_by, AreAfter, AreJoined, AreNone, AreSwept, IsSweep};

use crate::server::ServerSweep;
use cbsrun_loads::Load;
use cbsrun_report_text::ServerReport;
use cbsrun_runs::{NoProgress, SeededLoad, report_of};
use std::alloc::{AllocError, Global};
use std::thread::{Threads, join};

/// The most runs of a load.
pub const MOST_RUNS: u64 = 1_000_000;

/// What many runs of a load tell, one with each seed from the first one on.
#[derive(Drop)]
pub struct Sweep {
    /// The seed of the first run.
    pub first: u64,
    /// How many runs there are.
    pub runs: u64,
    /// What the runs tell of each server, by number.
    pub servers: Vec<ServerSweep>,
}

impl Sweep {
    /// Returns whether no job of any run was late or refused.
    pub fn is_in_time(&self) -> bool
        ensures { result ≡ are_in_time self.now }
    {
        self.servers.iter().all(|server| server.is_in_time())
    }
}

/// Returns what no runs tell of so many servers. The only error is out of memory.
fn no_sweeps(alloc: Global, servers: usize) -> Result<Vec<ServerSweep>, AllocError>
    ensures { IfOk result (λ sweeps. AreNone servers sweeps.items) }
{
    let mut sweeps = Vec::with_capacity(alloc, servers)?;
    for _server in 0..servers {
        sweeps.push(ServerSweep::none())?;
    }
    Ok(sweeps)
}

/// Adds one more run, with this seed and these reports of the servers.
fn add(sweeps: &mut Vec<ServerSweep>, seed: u64, servers: &[ServerReport])
    requires { length servers.now ≡ length sweeps.old.items }
    ensures { AreAfter seed servers.now sweeps.old.items sweeps.new.items }
{
    for (server, report) in servers.iter().enumerate() {
        sweeps[server] = sweeps[server].joined(ServerSweep::of_run(seed, &report.figures));
    }
}

/// Adds what later runs tell.
fn join_all(sweeps: &mut Vec<ServerSweep>, later: &[ServerSweep])
    requires { length later.now ≡ length sweeps.old.items }
    ensures { AreJoined sweeps.old.items later.now sweeps.new.items }
{
    for (server, sweep) in later.iter().enumerate() {
        sweeps[server] = sweeps[server].joined(*sweep);
    }
}

/// Returns what so many runs of a load tell, with one seed after another from the first one on. One run follows the other.
fn swept_in_turn(
    alloc: Global,
    name: &str,
    load: &Load,
    first: u64,
    runs: u64,
) -> Result<Vec<ServerSweep>, AllocError>
    requires { first + runs ≤ 18446744073709551615 }
    ensures { IfOk result (λ servers. AreSwept name.now load.now first runs servers.items) }
{
    let mut servers = no_sweeps(alloc, load.plan().len())?;
    for run in 0..runs {
        let seed = first + run;
        let mut seeded = SeededLoad { load, seed };
        let report = report_of(alloc, name, &mut seeded, &mut NoProgress)?;
        add(&mut servers, seed, &report.servers);
    }
    Ok(servers)
}

/// Returns what so many runs of a load tell, with one seed after another from the first one on. The runs are split among
/// so many threads.
#[cycle(sweep)]
fn swept_on<R: Threads + Sync>(
    rt: &R,
    threads: usize,
    alloc: Global,
    name: &str,
    load: &Load,
    first: u64,
    runs: u64,
) -> Result<Vec<ServerSweep>, AllocError>
    requires { first + runs ≤ 18446744073709551615 }
    ensures { IfOk result (λ servers. AreSwept name.now load.now first runs servers.items) }
{
    if threads < 2 || runs < 2 {
        return swept_in_turn(alloc, name, load, first, runs);
    }
    let fewer = threads / 2;
    let others = threads - fewer;
    let before = runs / 2;
    let middle = first + before;
    let after = runs - before;
    let (earlier, later) = join(
        rt,
        || -> Result<Vec<ServerSweep>, AllocError>
            requires { IsSync R.row × (first + before ≤ 18446744073709551615) }
            ensures { IfOk result (λ servers.
                AreSwept name.entry.now load.entry.now first before servers.items) }
        { swept_on(rt, fewer, alloc, name, load, first, before) },
        || -> Result<Vec<ServerSweep>, AllocError>
            requires { IsSync R.row × (middle + after ≤ 18446744073709551615) }
            ensures { IfOk result (λ servers.
                AreSwept name.entry.now load.entry.now middle after servers.items) }
        { swept_on(rt, others, alloc, name, load, middle, after) },
    );
    let mut servers = earlier?;
    join_all(&mut servers, &later?);
    Ok(servers)
}

/// Runs a load so many times, with one seed after another from the first one on, and returns what the runs tell. The
/// reports name the file `name`. The runs are split among so many threads, of which each has a part of the seeds: what is
/// told is the same for each number of threads. The only error is out of memory.
pub fn sweep_of<R: Threads + Sync>(
    rt: &R,
    threads: usize,
    alloc: Global,
    name: &str,
    load: &Load,
    first: u64,
    runs: u64,
) -> Result<Sweep, AllocError>
    requires { first + runs ≤ 18446744073709551615 }
    ensures { IfOk result (IsSweep name.now load.now first runs) }
{
    Ok(Sweep {
        first,
        runs,
        servers: swept_on(rt, threads, alloc, name, load, first, runs)?,
    })
}
