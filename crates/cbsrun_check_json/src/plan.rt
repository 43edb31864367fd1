//! The object of a plan, by the names of its servers.

ghost use Rattle.std.specs.Prelude.{◌≡◌, ◌<◌, length, map, IfOk, string_bytes};
ghost use Rattle.std.specs.List.{range_with_len};
ghost use Rattle.serde_json.specs.View.{view, members_view};
ghost use Rattle.cbsrun_check_json.specs.Json.{named_at, plan_data, plan_terms, IsPlanJson};

use crate::server::server_terms;
use cbs_rate::Plan;
use cbs_rules::Modes;
use cbsrun_json::{Scalar, line_of, put_all};
use cbsrun_sizing::greatest_budgets;
use serde_json::{Map, Value, put};
use std::alloc::{AllocError, Global};

/// Returns what a plan in the file `name` has reserved, as the members of an object. The only error is out of memory.
#[tactic(auto, unfolding(crate::specs::Json::plan_terms))]
pub(crate) fn plan_terms(
    alloc: Global,
    name: &str,
    plan: &Plan,
) -> Result<Map<String, Value>, AllocError>
    ensures { IfOk result (λ members. members_view members.entries
        ≡ plan_terms name.now plan.now) }
{
    let bound = plan.bound();
    let reserved = plan.bandwidth();
    let mut members = Map::new(alloc);
    put_all(
        alloc,
        &mut members,
        &[
            ("check", Scalar::Whole(1)),
            ("file", Scalar::Text(name)),
            ("unit", Scalar::Text("tick")),
            ("bound", Scalar::Pair(bound.num(), bound.den())),
            ("reserved", Scalar::Pair(reserved.ticks, reserved.of)),
        ],
    )?;
    Ok(members)
}

/// Returns the object of a server of a plan. The only error is out of memory.
fn named_at(
    alloc: Global,
    names: &[String],
    modes: &Modes,
    plan: &Plan,
    budgets: &[u64],
    server: u16,
) -> Result<Value, AllocError>
    requires held { server < length plan.now.rates }
    requires named { length names.now ≡ length plan.now.rates }
    requires moded { length modes.now ≡ length plan.now.rates }
    requires counted { length budgets.now ≡ length plan.now.rates }
    ensures { IfOk result (λ v. view v
        ≡ named_at (map string_bytes names.now) modes.now plan.now budgets.now server) }
{
    let place = usize::from(server);
    let name = names[place].as_str();
    let mode = modes.get(server).unwrap();
    let reservation = plan.get(server).unwrap();
    let members = server_terms(alloc, name, mode, reservation, budgets[place])?;
    Ok(Value::Object(members))
}

/// Returns the object of each server of a plan. The only error is out of memory.
fn named_values(
    alloc: Global,
    names: &[String],
    modes: &Modes,
    plan: &Plan,
    budgets: &[u64],
) -> Result<Vec<Value>, AllocError>
    requires named { length names.now ≡ length plan.now.rates }
    requires moded { length modes.now ≡ length plan.now.rates }
    requires counted { length budgets.now ≡ length plan.now.rates }
    ensures { IfOk result (λ values. map view values.items
        ≡ map (named_at (map string_bytes names.now) modes.now plan.now budgets.now)
        (range_with_len 0 (length plan.now.rates))) }
{
    let servers = plan.len() as u16;
    let mut values = Vec::with_capacity(alloc, usize::from(servers))?;
    for server in 0..servers {
        values.push(named_at(alloc, names, modes, plan, budgets, server)?)?;
    }
    Ok(values)
}

/// Returns the object of a plan in the file `name`, by the names and the greatest budgets of its servers. The only error
/// is out of memory.
#[tactic(auto, unfolding(crate::specs::Json::plan_data))]
fn plan_value(
    alloc: Global,
    name: &str,
    names: &[String],
    modes: &Modes,
    plan: &Plan,
    budgets: &[u64],
) -> Result<Value, AllocError>
    requires named { length names.now ≡ length plan.now.rates }
    requires moded { length modes.now ≡ length plan.now.rates }
    requires counted { length budgets.now ≡ length plan.now.rates }
    ensures { IfOk result (λ v. view v
        ≡ plan_data name.now (map string_bytes names.now) modes.now plan.now budgets.now) }
{
    let servers = named_values(alloc, names, modes, plan, budgets)?;
    let mut members = plan_terms(alloc, name, plan)?;
    put(&mut members, alloc, "servers", Value::from(servers))?;
    Ok(Value::Object(members))
}

/// Returns what `check` tells of servers with these names in the file `name`, as JSON: one object on one line, with a line
/// feed at its end. `names` and `modes` have the name and the mode of each server of the plan. The only error is out of
/// memory.
pub fn check_plan_json(
    alloc: Global,
    name: &str,
    names: &[String],
    modes: &Modes,
    plan: &Plan,
) -> Result<String, AllocError>
    requires named { length names.now ≡ length plan.now.rates }
    requires moded { length modes.now ≡ length plan.now.rates }
    ensures { IfOk result (λ text. IsPlanJson name.now (map string_bytes names.now) modes.now
        plan.now (string_bytes text)) }
{
    let budgets = greatest_budgets(alloc, plan)?;
    let value = plan_value(alloc, name, names, modes, plan, &budgets)?;
    line_of(alloc, &value)
}
