//! By when the jobs of a source are to be finished, if it does not say so.

ghost use Rattle.std.specs.Prelude.{◌≡◌, ◌≤◌, ◌<◌, ℕ, length, map, string_bytes, IfOk};
ghost use Rattle.toml.specs.View.{view};
ghost use Rattle.cbs_rate.specs.Limits.{most_servers};
ghost use Rattle.cbsrun_toml_tables.specs.declared.fault.FileKind.TheVariants.{OutOfMemory};
ghost use Rattle.cbsrun_toml_tables.specs.Fields.{Gives};
ghost use Rattle.cbsrun_simulate.specs.Drawing.{IsListed};
ghost use Rattle.cbsrun_simulate.specs.declared.terms.SourceTerms.{SourceTerms};
ghost use Rattle.cbsrun_entries.specs.Sources.{source_view, IsSource};
ghost use Rattle.cbsrun_loads.specs.Due.{period_at, due_in_plan, source_entry};

use cbs_rate::Plan;
use cbsrun_entries::{due_within, terms_entry};
use cbsrun_simulate::SourceTerms;
use cbsrun_toml_tables::FileKind;
use std::alloc::Global;
use toml::Value;

/// Returns the period of a server, in ticks.
fn period_at(plan: &Plan, server: u16) -> u64
    requires { server < length plan.now.rates }
    ensures { result ≡ period_at plan.now.rates server }
{
    match plan.get(server) {
        Some(reservation) => reservation.period(),
        None => unreachable!(),
    }
}

/// The servers of a file, which say by when jobs are to be finished.
pub trait Due {
    // Within how many ticks the jobs of a source are to be finished, if it does not say so.
    ghost due: { Self → SourceTerms → ℕ };

    // How many servers there are.
    ghost servers: { Self → ℕ };

    /// Returns within how many ticks the jobs of a source of these servers are to be finished, if it does not say so.
    fn due(&self, terms: &SourceTerms) -> u64
        requires { terms.now.server < servers self.now }
        ensures { result ≡ due self.now terms.now };
}

impl Due for Plan {
    ghost due = { λ plan terms. due_in_plan plan.rates terms };

    ghost servers = { λ plan. length plan.rates };

    fn due(&self, terms: &SourceTerms) -> u64 {
        period_at(self, terms.server)
    }
}

/// Returns the source of one entry, in a file with these servers: its terms, and its nominal ticks if they are listed.
pub fn source_entry<D: Due>(
    alloc: Global,
    tick: Option<u64>,
    names: &[String],
    servers: &D,
    entry: &Value,
) -> Result<(SourceTerms, Vec<u64>), FileKind>
    requires few { length names.now ≤ most_servers }
    requires named { length names.now ≡ D.servers servers.now }
    ensures value { Gives OutOfMemory source_view result
        (source_entry tick (map string_bytes names.now) (D.due servers.now) (view entry.now)) }
    ensures lawful { IfOk result (λ s. IsSource (length names.now) s.0) }
    ensures listed { IfOk result (λ s. IsListed s.0 s.1.items) }
{
    let (terms, listed) = terms_entry(alloc, tick, names, entry)?;
    Ok((due_within(servers.due(&terms), terms), listed))
}
