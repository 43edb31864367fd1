//! Three clients on their own threads: a camera, an encoder and telemetry. In the first part their jobs are known
//! beforehand, and one call serves them all (`batch`). In the second part each client makes its jobs as it goes
//! (`as_they_go`). The output is the same for every schedule of the threads.
#![tactic(auto)]

mod as_they_go;
mod batch;
mod clients;
mod finished;

use anyhow::Result;
use cbs_rate::{Bound, Reservation};
use cbs_rules::{Mode, Setup};

/// The clients, each with the budget of its server in every ten ticks.
const CLIENTS: [(&str, u64); 3] = [("camera", 3), ("encoder", 5), ("telemetry", 1)];

/// Returns a setup with a server for each client, each with its mode.
fn setup(modes: [Mode; 3]) -> Result<Setup> {
    let mut setup = Setup::new(Bound::new(1, 1)?);
    for ((_name, budget), mode) in CLIENTS.into_iter().zip(modes) {
        setup.admit(Reservation::new(budget, 10)?, mode)?;
    }
    Ok(setup)
}

fn main(rt: HostRuntime) -> Result<()> {
    let alloc = rt.alloc();
    println!(rt; "jobs known beforehand:")?;
    batch::run(&rt, alloc)?;
    println!(rt; "jobs made as they go:")?;
    as_they_go::run(&rt, alloc)
}
