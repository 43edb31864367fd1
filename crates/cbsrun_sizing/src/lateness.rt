//! A bound on how late overruns can make the servers of a load.

ghost use Rattle.std.specs.Prelude.{◌≡◌};
ghost use Rattle.cbsrun_sizing.specs.Lateness.{greatest_delay, BoundsLateness};

use crate::server_load::{all_charges, most_charged};
use cbsrun_loads::Load;

/// Returns a bound on how late overruns can make a server of a load, in ticks. Each unit begins less than this many
/// ticks after its server's deadline. The bound is the greatest of the delays of all servers by the others. The others
/// delay a server by at most the sum of the greatest charges for one unit, one for each of them.
pub fn greatest_delay(load: &Load) -> u64
    ensures value { result ≡ greatest_delay load.now }
    ensures bounds { BoundsLateness load.now result }
{
    let sources = load.sources();
    let servers = load.plan().len() as u16;
    let charges = all_charges(sources, servers);
    let mut greatest = 0;
    for server in 0..servers {
        let delay = charges.saturating_sub(most_charged(sources, server));
        greatest = greatest.max(delay);
    }
    greatest
}
