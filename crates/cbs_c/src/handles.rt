//! Opening and freeing, and the calls that need no house.

ghost use Rattle.std.specs.Prelude.{◌≡◌, None};
ghost use Rattle.cbs_embed.specs.Handles.{held_by};
ghost use Rattle.cbs_c.specs.Openings.{OpensForC, TellsAdmission, TellsBudget};

use crate::status::{status_of, tell};
use cbs_embed::{Handle, Server, admit, greatest_budget, open};
use std::alloc::Global;

/// Opens a house with a client for each server, and returns the status.
#[unsafe(no_mangle)]
pub extern "C" fn cbs_open(
    alloc: Global,
    servers: &[Server],
    backlog: u64,
    ring: u64,
    house: &mut Handle,
    clients: &mut [Handle],
) -> u32
    ensures { OpensForC servers.now backlog ring house.old house.new clients.old clients.new
        result }
{
    status_of(open(alloc, servers, backlog, ring, house, clients))
}

/// Frees what the handle holds, if it holds anything. A client that is freed ends, unless it has ended.
#[unsafe(no_mangle)]
pub extern "C" fn cbs_free(alloc: Global, handle: &mut Handle)
    ensures { held_by handle.new ≡ None }
{
    drop(handle.take(alloc));
}

/// Returns 0 if these servers make a plan, or the status of the reason why they do not. It opens nothing.
#[unsafe(no_mangle)]
pub extern "C" fn cbs_admit(servers: &[Server]) -> u32
    ensures { TellsAdmission servers.now result }
{
    status_of(admit(servers))
}

/// Writes the greatest budget with which a server of this period would be admitted after these servers. Returns the
/// status.
#[unsafe(no_mangle)]
pub extern "C" fn cbs_greatest_budget(servers: &[Server], period: u64, out: &mut u64) -> u32
    ensures { TellsBudget servers.now period out.old result out.new }
{
    tell(out, greatest_budget(servers, period))
}
