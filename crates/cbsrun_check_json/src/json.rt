//! The object of a load.

ghost use Rattle.std.specs.Prelude.{◌≡◌, ◌<◌, length, map, IfOk, IfSome, OnOk, string_bytes};
ghost use Rattle.serde_json.specs.View.{view, members_view};
ghost use Rattle.cbsrun_sizing.specs.Lateness.{greatest_delay, BoundsLateness};
ghost use Rattle.cbsrun_sizing.specs.Recoveries.{recovery, IsMadeUpWithin};
ghost use Rattle.cbsrun_check_json.specs.Json.{check_data, load_terms, server_at, servers_data, source_of, with_promises, IsCheckJson};

use crate::plan::plan_terms;
use crate::promises::{all_in_time, promised_for};
use crate::server::{put_figures, server_terms};
use crate::source::source_value;
use cbsrun_json::{Scalar, line_of, put_all};
use cbsrun_loads::Load;
use cbsrun_simulate::SourceTerms;
use cbsrun_sizing::{
    ServerLoad, greatest_budgets, greatest_delay, least_within, recovery, server_loads,
};
use serde_json::{Map, Value, put};
use std::alloc::{AllocError, Global};

/// Returns the object of a server of a load. The only error is out of memory.
fn server_at(
    alloc: Global,
    load: &Load,
    budgets: &[u64],
    loads: &[ServerLoad],
    server: u16,
) -> Result<Value, AllocError>
    requires held { server < length load.now.plan.rates }
    requires budgets { length budgets.now ≡ length load.now.plan.rates }
    requires loads { length loads.now ≡ length load.now.plan.rates }
    ensures { IfOk result (λ v. view v ≡ server_at load.now budgets.now loads.now server) }
{
    let place = usize::from(server);
    let name = load.names()[place].as_str();
    let mode = load.modes().get(server).unwrap();
    let reservation = load.plan().get(server).unwrap();
    let within = least_within(load.sources(), server);
    let mut members = server_terms(alloc, name, mode, reservation, budgets[place])?;
    put_figures(alloc, &mut members, within, loads[place])?;
    Ok(Value::Object(members))
}

/// Returns the object of each server of a load. The only error is out of memory.
fn servers_values(
    alloc: Global,
    load: &Load,
    budgets: &[u64],
    loads: &[ServerLoad],
) -> Result<Vec<Value>, AllocError>
    requires budgets { length budgets.now ≡ length load.now.plan.rates }
    requires loads { length loads.now ≡ length load.now.plan.rates }
    ensures { IfOk result (λ values. map view values.items
        ≡ servers_data load.now budgets.now loads.now) }
{
    let servers = load.plan().len() as u16;
    let mut values = Vec::with_capacity(alloc, usize::from(servers))?;
    for server in 0..servers {
        values.push(server_at(alloc, load, budgets, loads, server)?)?;
    }
    Ok(values)
}

/// Returns the object of a source of a load. The only error is out of memory.
fn source_of(
    alloc: Global,
    load: &Load,
    loads: &[ServerLoad],
    terms: &SourceTerms,
) -> Result<Value, AllocError>
    requires { terms.now.server < length load.now.plan.rates }
    ensures { IfOk result (λ v. view v ≡ source_of load.now loads.now terms.now) }
{
    let name = load.names()[usize::from(terms.server)].as_str();
    source_value(alloc, name, promised_for(loads, terms.server), terms)
}

/// Returns the object of each source of a load. The only error is out of memory.
fn sources_values(
    alloc: Global,
    load: &Load,
    loads: &[ServerLoad],
) -> Result<Vec<Value>, AllocError>
    ensures { IfOk result (λ values. map view values.items
        ≡ map (source_of load.now loads.now) load.now.sources) }
{
    let mut values = Vec::new(alloc);
    for terms in load.sources() {
        values.push(source_of(alloc, load, loads, terms)?)?;
    }
    Ok(values)
}

/// Returns what a load in the file `name` has reserved, as the members of an object. The only error is out of memory.
#[tactic(auto, unfolding(crate::specs::Json::load_terms))]
fn load_terms(alloc: Global, name: &str, load: &Load) -> Result<Map<String, Value>, AllocError>
    ensures { IfOk result (λ members. members_view members.entries
        ≡ load_terms name.now load.now) }
{
    let mut members = plan_terms(alloc, name, load.plan())?;
    put_all(
        alloc,
        &mut members,
        &[
            ("backlog", Scalar::Whole(load.backlog())),
            ("tick_nanoseconds", Scalar::WholeIf(load.tick())),
        ],
    )?;
    Ok(members)
}

/// Puts what is promised of the jobs of a load among members, by the greatest budgets of its servers and the figures of
/// their sources. The only error is out of memory.
#[tactic(auto, unfolding(crate::specs::Json::with_promises))]
fn put_promises(
    alloc: Global,
    members: &mut Map<String, Value>,
    load: &Load,
    budgets: &[u64],
    loads: &[ServerLoad],
) -> Result<(), AllocError>
    requires budgets { length budgets.now ≡ length load.now.plan.rates }
    requires loads { length loads.now ≡ length load.now.plan.rates }
    ensures value { OnOk result (members_view members.new.entries
        ≡ with_promises load.now budgets.now loads.now (members_view members.old.entries)) }
    ensures late { OnOk result (BoundsLateness load.now (greatest_delay load.now)) }
    ensures made_up { OnOk result (IfSome (recovery load.now) (IsMadeUpWithin load.now)) }
{
    let servers = servers_values(alloc, load, budgets, loads)?;
    let sources = sources_values(alloc, load, loads)?;
    let in_time = all_in_time(loads, load.sources());
    put_all(
        alloc,
        members,
        &[
            ("in_time_always", Scalar::Is(in_time)),
            ("late_by_at_most", Scalar::Whole(greatest_delay(load))),
            ("made_up_within", Scalar::LongIf(recovery(load))),
        ],
    )?;
    put(members, alloc, "servers", Value::from(servers))?;
    put(members, alloc, "sources", Value::from(sources))?;
    Ok(())
}

/// Returns the object of a load in the file `name`, by the greatest budgets of its servers and the figures of their
/// sources. The only error is out of memory.
#[tactic(auto, unfolding(crate::specs::Json::check_data))]
fn check_value(
    alloc: Global,
    name: &str,
    load: &Load,
    budgets: &[u64],
    loads: &[ServerLoad],
) -> Result<Value, AllocError>
    requires budgets { length budgets.now ≡ length load.now.plan.rates }
    requires loads { length loads.now ≡ length load.now.plan.rates }
    ensures value { IfOk result (λ v. view v
        ≡ check_data name.now load.now budgets.now loads.now) }
    ensures late { OnOk result (BoundsLateness load.now (greatest_delay load.now)) }
    ensures made_up { OnOk result (IfSome (recovery load.now) (IsMadeUpWithin load.now)) }
{
    let mut members = load_terms(alloc, name, load)?;
    put_promises(alloc, &mut members, load, budgets, loads)?;
    Ok(Value::Object(members))
}

/// Returns what `check` tells of a load in the file `name`, as JSON: one object on one line, with a line feed at its end.
/// The only error is out of memory.
pub fn check_json(alloc: Global, name: &str, load: &Load) -> Result<String, AllocError>
    ensures { IfOk result (λ text. IsCheckJson name.now load.now (string_bytes text)) }
{
    let budgets = greatest_budgets(alloc, load.plan())?;
    let loads = server_loads(alloc, load)?;
    let value = check_value(alloc, name, load, &budgets, &loads)?;
    line_of(alloc, &value)
}
