//! Many simulations of a load: from its bytes to a status.

ghost use Rattle.std.specs.Prelude.{◌≡◌, IfOk, Ok, length, map, string_bytes};
ghost use Rattle.cbsrun_loads.specs.Loads.{LoadFile};
ghost use Rattle.cbsrun_commands.specs.Commands.{Does, EndsByAnswer};
ghost use Rattle.cbsrun_commands.specs.Outputs.{changed_load};
ghost use Rattle.cbsrun_commands.specs.Sweeps.{told_in, runs_of, sweep_command, AreRunsInTime};
ghost use Rattle.cbsrun_lines.specs.Writers.{MayWrite};

use crate::ending::{Stopped, print, status_by_answer};
use crate::reading::load_file;
use cbsrun_io::ByteOutput;
use cbsrun_loads::Load;
use cbsrun_options::{LoadSweep, Seeds, SweepForm};
use cbsrun_sweep_texts::{sweep_csv, sweep_json, sweep_text};
use cbsrun_sweeps::{Sweep, sweep_of};
use std::alloc::{AllocError, Global};
use std::thread::Threads;

/// Returns how many runs there are with these seeds.
fn runs_of(seeds: Seeds) -> u64
    ensures { result ≡ runs_of seeds }
{
    seeds.last - seeds.first + 1
}

/// Returns what is told of many runs in this form, of the load in the file `name`.
fn told_in(
    alloc: Global,
    form: SweepForm,
    name: &str,
    load: &Load,
    sweep: &Sweep,
) -> Result<String, AllocError>
    requires { length load.now.plan.rates ≡ length sweep.now.servers.items }
    ensures { IfOk result (λ text. string_bytes text ≡ told_in form name.now load.now sweep.now) }
{
    match form {
        SweepForm::Report => sweep_text(alloc, name, load.tick(), load.names(), sweep),
        SweepForm::Csv => sweep_csv(alloc, load.names(), sweep),
        SweepForm::Json => sweep_json(alloc, name, load.tick(), load.names(), sweep),
    }
}

/// Simulates the load that the bytes spell once with each seed, on so many threads, and prints what the runs tell. Returns
/// whether no job of any run was late or refused.
fn sweep<R: Threads + Sync, O: ByteOutput>(
    rt: &R,
    threads: usize,
    alloc: Global,
    memory: u64,
    asked: LoadSweep,
    name: &str,
    bytes: &[u8],
    out: &mut O,
) -> Result<bool, Stopped>
    requires { MayWrite (O.state out.old) }
    ensures printed { Does (sweep_command asked name.now) bytes.now result
        (O.state out.old) (O.state out.new) }
    ensures answer { IfOk result (λ answer. (f : LoadFile)
        × (changed_load asked.changes bytes.now ≡ Ok f)
        × AreRunsInTime asked.seeds name.now f answer) }
{
    let load = load_file(alloc, memory, asked.changes, bytes)?;
    let seeds = asked.seeds;
    let sweep = sweep_of(rt, threads, alloc, name, &load, seeds.first, runs_of(seeds))?;
    let text = told_in(alloc, asked.form, name, &load, &sweep)?;
    print(&text, out)?;
    Ok(sweep.is_in_time())
}

/// Simulates the load that the bytes spell once with each of the seeds that are asked for, and prints what the runs tell of
/// each server: in how many runs a job is late or was refused, how many jobs, and the greatest response with its seed.
/// The runs are split among so many threads, and what is printed is the same for each number of threads. The text and the
/// explanation of a fault name the file `name`. Returns the status.
///
/// The statuses are those of [`report_bytes_within`](crate::report_bytes_within). Besides, if `asked` is strict, the
/// status is 1 in the place of 0 if a job of a run is late or was refused.
pub fn sweep_bytes_within<R: Threads + Sync, O: ByteOutput, E: ByteOutput>(
    rt: &R,
    threads: usize,
    alloc: Global,
    memory: u64,
    asked: LoadSweep,
    name: &str,
    bytes: &[u8],
    out: &mut O,
    err: &mut E,
) -> u8
    requires out { MayWrite (O.state out.old) }
    requires err { MayWrite (E.state err.old) }
    ensures { EndsByAnswer (sweep_command asked name.now) (AreRunsInTime asked.seeds name.now)
        asked.strict name.now bytes.now (O.closed out.new)
        (O.state out.old) (O.state out.new) (E.state err.old) (E.state err.new) result }
{
    let ended = sweep(rt, threads, alloc, memory, asked, name, bytes, out);
    status_by_answer(
        alloc,
        memory,
        asked.strict,
        name,
        bytes,
        ended,
        out.is_closed(),
        err,
    )
}
