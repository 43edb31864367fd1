//! The text about many runs.

ghost use Rattle.std.specs.Prelude.{◌≡◌, ◌++◌, IfOk, OnOk, length, map, string_bytes};
ghost use Rattle.cbsrun_sweep_texts.specs.Texts.{count_text, last_seed, runs_text, seeds_text, sweep_text};

use crate::rows::rows;
use cbsrun_sweeps::Sweep;
use cbsrun_text::{append_columns, append_pair};
use std::alloc::{AllocError, Global};

/// Returns the seed of the last run.
pub(crate) fn last_seed(first: u64, runs: u64) -> u64
    ensures { result ≡ last_seed first runs }
{
    first.saturating_add(runs.saturating_sub(1))
}

/// Appends the first and the last seed. The only error is out of memory.
#[tactic(auto, unfolding(crate::specs::Texts::seeds_text))]
fn append_seeds(text: &mut String, first: u64, last: u64) -> Result<(), AllocError>
    ensures { OnOk result (string_bytes text.new ≡ string_bytes text.old
        ++ seeds_text first last) }
{
    append_pair(text, "", first)?;
    append_pair(text, " to ", last)
}

/// Appends how many runs there are of which file. The only error is out of memory.
#[tactic(auto, unfolding(crate::specs::Texts::count_text))]
fn append_count(text: &mut String, file: &str, runs: u64) -> Result<(), AllocError>
    ensures { OnOk result (string_bytes text.new ≡ string_bytes text.old
        ++ count_text file.now runs) }
{
    text.push_str(file)?;
    append_pair(text, ", ", runs)
}

/// Appends how many runs there are of which file, and the first and the last seed. The only error is out of memory.
#[tactic(auto, unfolding(crate::specs::Texts::runs_text))]
fn append_runs(text: &mut String, file: &str, first: u64, runs: u64) -> Result<(), AllocError>
    ensures { OnOk result (string_bytes text.new ≡ string_bytes text.old
        ++ runs_text file.now first runs) }
{
    append_count(text, file, runs)?;
    text.push_str(" runs, with the seeds ")?;
    append_seeds(text, first, last_seed(first, runs))
}

/// Returns the text about many runs of the load in the file `file`, whose servers have these names: a line on the runs, and
/// a table with a row for each server. Times are in milliseconds, if the nanoseconds of a tick are known. The only error
/// is out of memory.
pub fn sweep_text(
    alloc: Global,
    file: &str,
    tick: Option<u64>,
    names: &[String],
    sweep: &Sweep,
) -> Result<String, AllocError>
    requires { length names.now ≡ length sweep.now.servers.items }
    ensures { IfOk result (λ text. string_bytes text
        ≡ sweep_text file.now tick (map string_bytes names.now) sweep.now) }
{
    let rows = rows(alloc, tick, names, &sweep.servers)?;
    let mut text = String::new(alloc);
    append_runs(&mut text, file, sweep.first, sweep.runs)?;
    text.push_str("\n\n")?;
    append_columns(alloc, &mut text, &rows)?;
    Ok(text)
}
