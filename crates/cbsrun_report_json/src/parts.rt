//! The parts of a report, each an object.

ghost use Rattle.std.specs.Prelude.{◌≡◌, IfOk};
ghost use Rattle.serde_json.specs.View.{view};
ghost use Rattle.cbsrun_report_json.specs.Json.{jobs_data, within_data, units_data, ranks_data, early_data, charges_data, ticks_data, part_data};

use crate::sums::Sum;
use cbsrun_figures::Figures;
use cbsrun_json::{Scalar, ToJson, object_of, told};
use cbsrun_report_text::{RunReport, ServerReport};
use cbsrun_simulate::Range;
use serde_json::Value;
use std::alloc::{AllocError, Global};

/// Returns how many jobs of the servers came, were refused, are finished, and are late.
#[tactic(auto, unfolding(crate::specs::Json::jobs_data))]
fn jobs_value(alloc: Global, servers: &[ServerReport]) -> Result<Value, AllocError>
    ensures { IfOk result (λ v. view v ≡ jobs_data servers.now) }
{
    object_of(
        alloc,
        &[
            ("released", Scalar::Whole(Sum::Released.of(servers))),
            ("refused", Scalar::Whole(Sum::Refused.of(servers))),
            ("finished", Scalar::Whole(Sum::Finished.of(servers))),
            ("unfinished", Scalar::Whole(Sum::Unfinished.of(servers))),
            (
                "late_finished",
                Scalar::Whole(Sum::LateFinished.of(servers)),
            ),
            (
                "late_unfinished",
                Scalar::Whole(Sum::LateUnfinished.of(servers)),
            ),
        ],
    )
}

/// Returns within how many ticks jobs are to be finished, or null if that is not wanted.
#[tactic(auto, unfolding(crate::specs::Json::within_data))]
fn within_value(alloc: Global, within: Option<Range>) -> Result<Value, AllocError>
    ensures { IfOk result (λ v. view v ≡ within_data within) }
{
    let Some(range) = within else {
        return Ok(Value::Null);
    };
    object_of(
        alloc,
        &[
            ("least", Scalar::Whole(range.least())),
            ("greatest", Scalar::Whole(range.greatest())),
        ],
    )
}

/// Returns how many units a server was asked for, and how many it ran.
#[tactic(auto, unfolding(crate::specs::Json::units_data))]
fn units_value(alloc: Global, figures: &Figures) -> Result<Value, AllocError>
    ensures { IfOk result (λ v. view v ≡ units_data figures.now) }
{
    object_of(
        alloc,
        &[
            ("asked", Scalar::Whole(figures.asked)),
            ("run", Scalar::Whole(figures.run)),
        ],
    )
}

/// Returns the response times of a server, or null if no job is finished.
#[tactic(auto, unfolding(crate::specs::Json::ranks_data))]
fn ranks_value(alloc: Global, figures: &Figures) -> Result<Value, AllocError>
    ensures { IfOk result (λ v. view v ≡ ranks_data figures.now figures.now.responses) }
{
    let Some(ranks) = figures.responses else {
        return Ok(Value::Null);
    };
    let mean = Scalar::Pair(told(figures.response_total), figures.finished);
    object_of(
        alloc,
        &[
            ("least", Scalar::Whole(ranks.least)),
            ("mean", mean),
            ("median", Scalar::Whole(ranks.median)),
            ("p95", Scalar::Whole(ranks.p95)),
            ("p99", Scalar::Whole(ranks.p99)),
            ("greatest", Scalar::Whole(ranks.greatest)),
        ],
    )
}

/// Returns how many ticks earlier than promised jobs were finished, or null if no finished job had a promise.
#[tactic(auto, unfolding(crate::specs::Json::early_data))]
fn early_value(alloc: Global, figures: &Figures) -> Result<Value, AllocError>
    ensures { IfOk result (λ v. view v ≡ early_data figures.now figures.now.early_least) }
{
    let Some(least) = figures.early_least else {
        return Ok(Value::Null);
    };
    let mean = Scalar::Pair(told(figures.early_total), figures.early_count);
    object_of(
        alloc,
        &[("least", Scalar::Whole(told(least))), ("mean", mean)],
    )
}

/// Returns how many ticks a server was charged, and the greatest charge.
#[tactic(auto, unfolding(crate::specs::Json::charges_data))]
fn charges_value(alloc: Global, figures: &Figures) -> Result<Value, AllocError>
    ensures { IfOk result (λ v. view v ≡ charges_data figures.now) }
{
    object_of(
        alloc,
        &[
            ("all", Scalar::Whole(figures.charged)),
            ("greatest", Scalar::Whole(figures.greatest_charge)),
        ],
    )
}

/// Returns how many ticks of a run were run, idle and charged.
#[tactic(auto, unfolding(crate::specs::Json::ticks_data))]
fn ticks_value(alloc: Global, report: &RunReport) -> Result<Value, AllocError>
    ensures { IfOk result (λ v. view v ≡ ticks_data report.now) }
{
    object_of(
        alloc,
        &[
            ("run", Scalar::Whole(Sum::Run.of(&report.servers))),
            ("idle", Scalar::Whole(report.idle)),
            ("charged", Scalar::Whole(Sum::Charged.of(&report.servers))),
        ],
    )
}

/// A part of what is told of a server or of a run, which is an object.
#[derive(Clone, Copy)]
pub(crate) enum Part<'a> {
    /// The jobs of servers.
    Jobs(&'a [ServerReport]),
    /// Within how many ticks the jobs of a server are to be finished.
    Within(&'a ServerReport),
    /// The units of a server.
    Units(&'a Figures),
    /// The response times of a server.
    Ranks(&'a Figures),
    /// How many ticks earlier than promised the jobs of a server were finished.
    Early(&'a Figures),
    /// The charges of a server.
    Charges(&'a Figures),
    /// The ticks of a run.
    Ticks(&'a RunReport),
}

impl ToJson for Part<'_> {
    ghost shown = { λ p. part_data p };

    fn to_json(&self, alloc: Global) -> Result<Value, AllocError> {
        match *self {
            Part::Jobs(servers) => jobs_value(alloc, servers),
            Part::Within(server) => within_value(alloc, server.within),
            Part::Units(figures) => units_value(alloc, figures),
            Part::Ranks(figures) => ranks_value(alloc, figures),
            Part::Early(figures) => early_value(alloc, figures),
            Part::Charges(figures) => charges_value(alloc, figures),
            Part::Ticks(report) => ticks_value(alloc, report),
        }
    }
}
