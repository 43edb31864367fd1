//! The members of the object of a server.

ghost use Rattle.std.specs.Prelude.{◌≡◌, IfOk, OnOk};
ghost use Rattle.serde_json.specs.View.{view, members_view};
ghost use Rattle.cbsrun_check_json.specs.Json.{asked_pair, needs_none, proposal_data, remedy_data, server_terms, with_figures};

use crate::promises::{needed_backlog, reason_of};
use cbs_rate::Reservation;
use cbs_rules::Mode;
use cbsrun_json::{Scalar, object_of, put_all, told};
use cbsrun_proposals::{Proposal, Remedy};
use cbsrun_sizing::{Asked, ServerLoad};
use cbsrun_text::mode_word;
use serde_json::{Map, Value, put};
use std::alloc::{AllocError, Global};

/// Returns a proposal, the `within` that a source has to say with it, and whether it fits if so much fits at its period. If
/// there is no proposal, returns null. The only error is out of memory.
#[tactic(auto, unfolding(crate::specs::Json::proposal_data))]
fn proposal_value(
    alloc: Global,
    proposal: Option<Proposal>,
    kept: Option<u64>,
    room: u64,
) -> Result<Value, AllocError>
    ensures { IfOk result (λ v. view v ≡ proposal_data proposal kept room) }
{
    let Some(proposal) = proposal else {
        return Ok(Value::Null);
    };
    object_of(
        alloc,
        &[
            ("budget", Scalar::Whole(proposal.budget)),
            ("period", Scalar::Whole(proposal.period)),
            ("within", Scalar::WholeIf(kept)),
            ("greatest_budget", Scalar::Whole(room)),
            ("fits", Scalar::Is(proposal.budget <= room)),
        ],
    )
}

/// Returns what would do for a server, or null if its reservation and backlog do. The only error is out of memory.
#[tactic(auto, unfolding(crate::specs::Json::remedy_data))]
fn remedy_value(
    alloc: Global,
    remedy: Option<Remedy>,
    kept: Option<u64>,
    room: u64,
) -> Result<Value, AllocError>
    ensures { IfOk result (λ v. view v ≡ remedy_data remedy kept room) }
{
    let Some(remedy) = remedy else {
        return Ok(Value::Null);
    };
    let proposal = proposal_value(alloc, remedy.reservation, kept, room)?;
    let mut members = Map::new(alloc);
    put_all(
        alloc,
        &mut members,
        &[
            ("backlog", Scalar::WholeIf(remedy.backlog)),
            ("delayed_by", Scalar::WholeIf(remedy.delayed)),
        ],
    )?;
    put(&mut members, alloc, "reservation", proposal)?;
    Ok(Value::Object(members))
}

/// Returns the ticks that are asked for, and in how many ticks, if that is summed.
fn asked_pair(asked: Option<Asked>) -> Option<(u64, u64)>
    ensures { result ≡ asked_pair asked }
{
    match asked {
        Some(asked) => Some((told(asked.ticks), asked.of)),
        None => None,
    }
}

/// Returns whether no remedy is needed.
fn needs_none(remedy: Option<Remedy>) -> bool
    ensures { result ≡ needs_none remedy }
{
    remedy.is_none()
}

/// Returns what a server has, and the greatest budget that it could have at its period, as the members of an object. The
/// only error is out of memory.
#[tactic(auto, unfolding(crate::specs::Json::server_terms))]
pub(crate) fn server_terms(
    alloc: Global,
    name: &str,
    mode: Mode,
    reservation: Reservation,
    greatest: u64,
) -> Result<Map<String, Value>, AllocError>
    ensures { IfOk result (λ members. members_view members.entries
        ≡ server_terms name.now mode reservation greatest) }
{
    let mut members = Map::new(alloc);
    put_all(
        alloc,
        &mut members,
        &[
            ("name", Scalar::Text(name)),
            ("mode", Scalar::Text(mode_word(mode))),
            ("budget", Scalar::Whole(reservation.budget())),
            ("period", Scalar::Whole(reservation.period())),
            ("greatest_budget", Scalar::Whole(greatest)),
        ],
    )?;
    Ok(members)
}

/// Puts what is told of the sources of a server among its members. `within` is the least that one of them wants. The only
/// error is out of memory.
#[tactic(auto, unfolding(crate::specs::Json::with_figures))]
pub(crate) fn put_figures(
    alloc: Global,
    members: &mut Map<String, Value>,
    within: Option<u64>,
    load: ServerLoad,
) -> Result<(), AllocError>
    ensures { OnOk result (members_view members.new.entries
        ≡ with_figures within load (members_view members.old.entries)) }
{
    let in_time = needs_none(load.remedy);
    let remedy = remedy_value(alloc, load.remedy, load.kept, load.room)?;
    put_all(
        alloc,
        members,
        &[
            ("asked", Scalar::PairIf(asked_pair(load.asked))),
            ("asked_once", Scalar::Whole(load.once)),
            ("within", Scalar::WholeIf(within)),
            ("finished_within", Scalar::WholeIf(load.promised.ok())),
            ("in_time_always", Scalar::Is(in_time)),
            ("reason", Scalar::TextIf(reason_of(in_time, load.promised))),
            (
                "needed_backlog",
                Scalar::WholeIf(needed_backlog(load.promised)),
            ),
        ],
    )?;
    put(members, alloc, "remedy", remedy)?;
    Ok(())
}
