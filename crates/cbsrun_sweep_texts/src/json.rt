//! Many runs as JSON.

ghost use Rattle.std.specs.Prelude.{◌≡◌, ◌<◌, IfOk, length, map, string_bytes};
ghost use Rattle.std.specs.List.{range_with_len};
ghost use Rattle.serde_json.specs.View.{view, members_view};
ghost use Rattle.cbsrun_sweep_texts.specs.Json.{runs_terms, server_at, server_data, sweep_data, sweep_json, worst_pair};

use crate::text::last_seed;
use cbsrun_json::{Scalar, line_of, object_of, put_all};
use cbsrun_sweeps::{ServerSweep, Sweep, Worst};
use serde_json::{Map, Value, put};
use std::alloc::{AllocError, Global};

/// Returns the greatest response, and the seed of the first run that has it.
fn worst_pair(worst: Option<Worst>) -> Option<(u64, u64)>
    ensures { result ≡ worst_pair worst }
{
    match worst {
        Some(worst) => Some((worst.response, worst.seed)),
        None => None,
    }
}

/// Returns the object of a server with this name. The only error is out of memory.
#[tactic(auto, unfolding(crate::specs::Json::server_data))]
fn server_value(alloc: Global, name: &str, sweep: ServerSweep) -> Result<Value, AllocError>
    ensures { IfOk result (λ v. view v ≡ server_data name.now sweep) }
{
    object_of(
        alloc,
        &[
            ("name", Scalar::Text(name)),
            ("late_runs", Scalar::Whole(sweep.late_in)),
            ("late_jobs", Scalar::Whole(sweep.late)),
            ("refused_runs", Scalar::Whole(sweep.refused_in)),
            ("refused_jobs", Scalar::Whole(sweep.refused)),
            ("greatest_response", Scalar::PairIf(worst_pair(sweep.worst))),
        ],
    )
}

/// Returns the object of the server with this number. The only error is out of memory.
fn server_at(
    alloc: Global,
    names: &[String],
    sweeps: &[ServerSweep],
    server: usize,
) -> Result<Value, AllocError>
    requires named { server < length names.now }
    requires counted { server < length sweeps.now }
    ensures { IfOk result (λ v. view v
        ≡ server_at (map string_bytes names.now) sweeps.now server) }
{
    server_value(alloc, names[server].as_str(), sweeps[server])
}

/// Returns the object of each server. The only error is out of memory.
fn servers_values(
    alloc: Global,
    names: &[String],
    sweeps: &[ServerSweep],
) -> Result<Vec<Value>, AllocError>
    requires { length names.now ≡ length sweeps.now }
    ensures { IfOk result (λ values. map view values.items
        ≡ map (server_at (map string_bytes names.now) sweeps.now)
        (range_with_len 0 (length sweeps.now))) }
{
    let mut values = Vec::with_capacity(alloc, sweeps.len())?;
    for server in 0..sweeps.len() {
        values.push(server_at(alloc, names, sweeps, server)?)?;
    }
    Ok(values)
}

/// Returns which runs of which file there are, as the members of an object. The only error is out of memory.
#[tactic(auto, unfolding(crate::specs::Json::runs_terms))]
fn runs_terms(
    alloc: Global,
    file: &str,
    tick: Option<u64>,
    sweep: &Sweep,
) -> Result<Map<String, Value>, AllocError>
    ensures { IfOk result (λ members. members_view members.entries
        ≡ runs_terms file.now tick sweep.now) }
{
    let mut members = Map::new(alloc);
    put_all(
        alloc,
        &mut members,
        &[
            ("sweep", Scalar::Whole(1)),
            ("file", Scalar::Text(file)),
            ("unit", Scalar::Text("tick")),
            ("tick_nanoseconds", Scalar::WholeIf(tick)),
            ("first_seed", Scalar::Whole(sweep.first)),
            (
                "last_seed",
                Scalar::Whole(last_seed(sweep.first, sweep.runs)),
            ),
            ("runs", Scalar::Whole(sweep.runs)),
            ("in_time", Scalar::Is(sweep.is_in_time())),
        ],
    )?;
    Ok(members)
}

/// Returns the object of many runs. The only error is out of memory.
#[tactic(auto, unfolding(crate::specs::Json::sweep_data))]
fn sweep_value(
    alloc: Global,
    file: &str,
    tick: Option<u64>,
    names: &[String],
    sweep: &Sweep,
) -> Result<Value, AllocError>
    requires { length names.now ≡ length sweep.now.servers.items }
    ensures { IfOk result (λ v. view v
        ≡ sweep_data file.now tick (map string_bytes names.now) sweep.now) }
{
    let servers = servers_values(alloc, names, &sweep.servers)?;
    let mut members = runs_terms(alloc, file, tick, sweep)?;
    put(&mut members, alloc, "servers", Value::from(servers))?;
    Ok(Value::Object(members))
}

/// Returns what many runs of the load in the file `file` tell of its servers, which have these names, as JSON: one object on
/// one line, with a line feed at its end. Times are in ticks, and `tick` has the nanoseconds of a tick, if they are known. The
/// only error is out of memory.
pub fn sweep_json(
    alloc: Global,
    file: &str,
    tick: Option<u64>,
    names: &[String],
    sweep: &Sweep,
) -> Result<String, AllocError>
    requires { length names.now ≡ length sweep.now.servers.items }
    ensures { IfOk result (λ text. string_bytes text
        ≡ sweep_json file.now tick (map string_bytes names.now) sweep.now) }
{
    let value = sweep_value(alloc, file, tick, names, sweep)?;
    line_of(alloc, &value)
}
