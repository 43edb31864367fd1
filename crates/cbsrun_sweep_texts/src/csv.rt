//! Many runs as CSV.

ghost use Rattle.std.specs.Prelude.{◌≡◌, ◌++◌, ◌<◌, IfOk, OnOk, length, map, string_bytes};
ghost use Rattle.cbsrun_sweep_texts.specs.Csv.{counts_text, line_at, server_line, sweep_csv, two_text, worst_text};

use cbsrun_sweeps::{ServerSweep, Sweep, Worst};
use cbsrun_text::append_pair;
use std::alloc::{AllocError, Global};

/// The header line: the names of the columns.
const HEADER: &str =
    "server,late_runs,late_jobs,refused_runs,refused_jobs,greatest_response,seed\n";

/// Appends two cells with numbers. The only error is out of memory.
fn append_two(text: &mut String, one: u64, other: u64) -> Result<(), AllocError>
    ensures { OnOk result (string_bytes text.new ≡ string_bytes text.old ++ two_text one other) }
{
    append_pair(text, ",", one)?;
    append_pair(text, ",", other)
}

/// Appends the cells of the counts of a server. The only error is out of memory.
#[tactic(auto, unfolding(crate::specs::Csv::counts_text))]
fn append_counts(text: &mut String, sweep: ServerSweep) -> Result<(), AllocError>
    ensures { OnOk result (string_bytes text.new ≡ string_bytes text.old ++ counts_text sweep) }
{
    append_two(text, sweep.late_in, sweep.late)?;
    append_two(text, sweep.refused_in, sweep.refused)
}

/// Appends the cells of the worst response, which are empty if there is none. The only error is out of memory.
fn append_worst(text: &mut String, worst: Option<Worst>) -> Result<(), AllocError>
    ensures { OnOk result (string_bytes text.new ≡ string_bytes text.old ++ worst_text worst) }
{
    match worst {
        Some(worst) => append_two(text, worst.response, worst.seed),
        None => text.push_str(",,"),
    }
}

/// Appends the line of a server. The only error is out of memory.
#[tactic(auto, unfolding(crate::specs::Csv::server_line))]
fn append_server(text: &mut String, name: &str, sweep: ServerSweep) -> Result<(), AllocError>
    ensures { OnOk result (string_bytes text.new ≡ string_bytes text.old
        ++ server_line name.now sweep) }
{
    text.push_str(name)?;
    append_counts(text, sweep)?;
    append_worst(text, sweep.worst)?;
    text.push_str("\n")
}

/// Appends the line of the server with this number. The only error is out of memory.
fn append_line(
    text: &mut String,
    names: &[String],
    sweeps: &[ServerSweep],
    server: usize,
) -> Result<(), AllocError>
    requires named { server < length names.now }
    requires counted { server < length sweeps.now }
    ensures { OnOk result (string_bytes text.new ≡ string_bytes text.old
        ++ line_at (map string_bytes names.now) sweeps.now server) }
{
    append_server(text, names[server].as_str(), sweeps[server])
}

/// Returns what many runs of a load tell of its servers, which have these names, as CSV: a header line, and a line for each
/// server. Times are in ticks. The only error is out of memory.
pub fn sweep_csv(alloc: Global, names: &[String], sweep: &Sweep) -> Result<String, AllocError>
    requires { length names.now ≡ length sweep.now.servers.items }
    ensures { IfOk result (λ text. string_bytes text
        ≡ sweep_csv (map string_bytes names.now) sweep.now.servers.items) }
{
    let mut text = String::from_str(alloc, HEADER)?;
    for server in 0..sweep.servers.len() {
        append_line(&mut text, names, &sweep.servers, server)?;
    }
    Ok(text)
}
