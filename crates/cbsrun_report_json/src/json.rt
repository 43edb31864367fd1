//! The whole report.

ghost use Rattle.std.specs.Prelude.{◌≡◌, IfOk, map, string_bytes};
ghost use Rattle.serde_json.specs.View.{view};
ghost use Rattle.cbsrun_report_json.specs.Json.{all_in_time, server_data, report_data, report_json};

use crate::parts::Part;
use crate::server::server_value;
use cbsrun_json::{Scalar, line_of, put_all};
use cbsrun_report_text::{RunReport, ServerReport};
use serde_json::{Map, Value, put};
use std::alloc::{AllocError, Global};

/// Returns whether no server has a job that is late or was refused.
fn all_in_time(servers: &[ServerReport]) -> bool
    ensures { result ≡ all_in_time servers.now }
{
    servers.iter().all(|server| server.is_in_time())
}

/// Returns the object of each server.
fn servers_values(alloc: Global, servers: &[ServerReport]) -> Result<Vec<Value>, AllocError>
    ensures { IfOk result (λ values. map view values.items ≡ map server_data servers.now) }
{
    let mut values = Vec::with_capacity(alloc, servers.len())?;
    for server in servers {
        values.push(server_value(alloc, server)?)?;
    }
    Ok(values)
}

/// Returns the object of a whole report.
#[tactic(auto, unfolding(crate::specs::Json::report_data, crate::specs::Json::report_terms, crate::specs::Json::with_shares, crate::specs::Json::with_servers))]
fn report_value(alloc: Global, report: &RunReport) -> Result<Value, AllocError>
    ensures { IfOk result (λ v. view v ≡ report_data report.now) }
{
    let values = servers_values(alloc, &report.servers)?;
    let mut members = Map::new(alloc);
    put_all(
        alloc,
        &mut members,
        &[
            ("report", Scalar::Whole(1)),
            ("file", Scalar::Text(&report.file)),
            ("unit", Scalar::Text("tick")),
            ("clock", Scalar::Whole(report.clock)),
            ("seed", Scalar::WholeIf(report.seed)),
            ("tick_nanoseconds", Scalar::WholeIf(report.tick)),
            ("backlog", Scalar::Whole(report.backlog)),
            (
                "bound",
                Scalar::Pair(report.bound.num(), report.bound.den()),
            ),
            (
                "reserved",
                Scalar::Pair(report.reserved.ticks, report.reserved.of),
            ),
            ("in_time", Scalar::Is(all_in_time(&report.servers))),
        ],
    )?;
    put_all(
        alloc,
        &mut members,
        &[
            ("ticks", Part::Ticks(report)),
            ("jobs", Part::Jobs(&report.servers)),
        ],
    )?;
    put(&mut members, alloc, "servers", Value::from(values))?;
    Ok(Value::Object(members))
}

/// Returns a report as JSON: one object on one line, with a line feed at its end. The only error is out of memory.
pub fn report_json(alloc: Global, report: &RunReport) -> Result<String, AllocError>
    ensures { IfOk result (λ text. string_bytes text ≡ report_json report.now) }
{
    let value = report_value(alloc, report)?;
    line_of(alloc, &value)
}
