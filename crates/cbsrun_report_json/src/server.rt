//! The object of one server.

ghost use Rattle.std.specs.Prelude.{◌≡◌, IfOk};
ghost use Rattle.serde_json.specs.View.{view};
ghost use Rattle.cbsrun_report_json.specs.Json.{server_data};

use crate::parts::Part;
use cbsrun_json::{Scalar, put_all};
use cbsrun_report_text::ServerReport;
use cbsrun_text::mode_word;
use serde_json::{Map, Value};
use std::alloc::{AllocError, Global};

/// Returns the object of a server.
#[tactic(auto, unfolding(crate::specs::Json::server_data, crate::specs::Json::server_terms, crate::specs::Json::with_parts, crate::specs::Json::with_counts))]
pub(crate) fn server_value(alloc: Global, server: &ServerReport) -> Result<Value, AllocError>
    ensures { IfOk result (λ v. view v ≡ server_data server.now) }
{
    let figures = &server.figures;
    let mut members = Map::new(alloc);
    put_all(
        alloc,
        &mut members,
        &[
            ("name", Scalar::Text(&server.name)),
            ("mode", Scalar::Text(mode_word(server.mode))),
            ("budget", Scalar::Whole(server.reservation.budget())),
            ("period", Scalar::Whole(server.reservation.period())),
            ("exhaustions", Scalar::Whole(figures.used_up)),
            ("throttled_with_job_ticks", Scalar::Whole(figures.throttled)),
            ("greatest_backlog", Scalar::Whole(figures.greatest_backlog)),
        ],
    )?;
    put_all(
        alloc,
        &mut members,
        &[
            ("jobs", Part::Jobs(std::slice::from_ref(server))),
            ("within_ticks", Part::Within(server)),
            ("response_ticks", Part::Ranks(figures)),
            ("early_ticks", Part::Early(figures)),
            ("units", Part::Units(figures)),
            ("charged_ticks", Part::Charges(figures)),
        ],
    )?;
    Ok(Value::Object(members))
}
