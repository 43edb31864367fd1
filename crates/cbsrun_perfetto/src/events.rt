//! The events of a trace.

ghost use Rattle.std.specs.Prelude.{◌≡◌, false, IfOk, string_bytes};
ghost use Rattle.serde_json.specs.Data.{string};
ghost use Rattle.serde_json.specs.View.{view};
ghost use Rattle.serde_json.specs.Written.{compact_text, has_float};
ghost use Rattle.cbsrun_perfetto.specs.Events.{about_data, before_text, between_text, budget_args, budget_line, came_args, finished_args, hidden_args, hidden_event, instant_line, job_args, left_out_args, left_out_event, named_args, no_args, placed_args, slice_line, unseen_line};

use crate::line::Line;
use cbsrun_chart::{ChartJob, Hidden, LeftOut, Stretch};
use cbsrun_json::{Scalar, object_of, put_all};
use serde_json::{Map, Value, put};
use std::alloc::{AllocError, Global};

/// Returns the arguments of a bar: the number of its job, and what is known of the job.
#[tactic(auto, unfolding(crate::specs::Events::job_args))]
pub(crate) fn job_args(
    alloc: Global,
    number: u64,
    job: Option<ChartJob>,
) -> Result<Value, AllocError>
    ensures { IfOk result (λ v. view v ≡ job_args number job) }
{
    let Some(job) = job else {
        return object_of(alloc, &[("job", Scalar::Whole(number))]);
    };
    object_of(
        alloc,
        &[
            ("job", Scalar::Whole(number)),
            ("arrival", Scalar::Whole(job.came)),
            ("units", Scalar::Whole(u64::from(job.units))),
            ("within", Scalar::WholeIf(job.within)),
            ("promised", Scalar::LongIf(job.promised)),
            ("finish", Scalar::WholeIf(job.finish)),
        ],
    )
}

/// Returns the arguments of the arrival of a job.
#[tactic(auto, unfolding(crate::specs::Events::came_args))]
pub(crate) fn came_args(alloc: Global, job: &ChartJob) -> Result<Value, AllocError>
    ensures value { IfOk result (λ v. view v ≡ came_args job.now) }
    ensures plain { IfOk result (λ v. has_float (view v) ≡ false) }
{
    object_of(alloc, &[("units", Scalar::Whole(u64::from(job.units)))])
}

/// Returns the arguments of the end of a job: how many ticks it took, and how many ticks late it was.
#[tactic(auto, unfolding(crate::specs::Events::finished_args))]
pub(crate) fn finished_args(alloc: Global, took: u64, late: u64) -> Result<Value, AllocError>
    ensures value { IfOk result (λ v. view v ≡ finished_args took late) }
    ensures plain { IfOk result (λ v. has_float (view v) ≡ false) }
{
    object_of(
        alloc,
        &[
            ("response", Scalar::Whole(took)),
            ("late", Scalar::Whole(late)),
        ],
    )
}

/// Returns the arguments that give a name.
#[tactic(auto, unfolding(crate::specs::Events::named_args))]
pub(crate) fn named_args(alloc: Global, name: &str) -> Result<Value, AllocError>
    ensures value { IfOk result (λ v. view v ≡ named_args name.now) }
    ensures plain { IfOk result (λ v. has_float (view v) ≡ false) }
{
    object_of(alloc, &[("name", Scalar::Text(name))])
}

/// Returns the arguments that give a place.
#[tactic(auto, unfolding(crate::specs::Events::placed_args))]
pub(crate) fn placed_args(alloc: Global, place: u64) -> Result<Value, AllocError>
    ensures value { IfOk result (λ v. view v ≡ placed_args place) }
    ensures plain { IfOk result (λ v. has_float (view v) ≡ false) }
{
    object_of(alloc, &[("sort_index", Scalar::Whole(place))])
}

/// Returns empty arguments.
pub(crate) fn no_args(alloc: Global) -> Result<Value, AllocError>
    ensures value { IfOk result (λ v. view v ≡ no_args) }
    ensures plain { IfOk result (λ v. has_float (view v) ≡ false) }
{
    object_of::<Scalar<'_>>(alloc, &[])
}

/// Returns a text as JSON.
fn quoted(alloc: Global, text: &str) -> Result<String, AllocError>
    ensures { IfOk result (λ json. string_bytes json ≡ compact_text (string text.now)) }
{
    Value::try_from_str(alloc, text)?.to_string(alloc)
}

/// Returns an event before its times: its arguments and its category.
#[tactic(auto, unfolding(crate::specs::Events::before_text))]
fn before_text(alloc: Global, cat: &str, args: &Value) -> Result<String, AllocError>
    requires { has_float (view args.now) ≡ false }
    ensures { IfOk result (λ text. string_bytes text ≡ before_text cat.now (view args.now)) }
{
    let args = args.to_string(alloc)?;
    let cat = quoted(alloc, cat)?;
    format!(in alloc; "{{\"args\":{args},\"cat\":{cat}")
}

/// Returns an event between its times: its name, phase and scope, and its thread.
#[tactic(auto, unfolding(crate::specs::Events::between_text))]
fn between_text(
    alloc: Global,
    name: &str,
    phase: &str,
    scope: &str,
    thread: u64,
) -> Result<String, AllocError>
    ensures { IfOk result (λ text. string_bytes text
        ≡ between_text name.now phase.now scope.now thread) }
{
    let name = quoted(alloc, name)?;
    format!(in alloc; ",\"name\":{name},\"ph\":\"{phase}\",\"pid\":1{scope},\"tid\":{thread}")
}

/// Returns the line of something that goes on during a stretch, on a thread.
#[tactic(auto, unfolding(crate::specs::Events::slice_line))]
pub(crate) fn slice_line(
    alloc: Global,
    name: &str,
    cat: &str,
    thread: u64,
    span: &Stretch,
    args: &Value,
) -> Result<Line, AllocError>
    requires { has_float (view args.now) ≡ false }
    ensures { IfOk result (λ line. line ≡ slice_line name.now cat.now thread
        span.now.from span.now.to (view args.now)) }
{
    let ticks = span.to.saturating_sub(span.from);
    let before = before_text(alloc, cat, args)?;
    let between = between_text(alloc, name, "X", "", thread)?;
    Ok(Line::new(span.from, Some(ticks), before, between))
}

/// Returns the line of something that happens at a tick, on a thread.
#[tactic(auto, unfolding(crate::specs::Events::instant_line))]
pub(crate) fn instant_line(
    alloc: Global,
    name: &str,
    cat: &str,
    thread: u64,
    tick: u64,
    args: &Value,
) -> Result<Line, AllocError>
    requires { has_float (view args.now) ≡ false }
    ensures { IfOk result (λ line. line ≡ instant_line name.now cat.now thread tick
        (view args.now)) }
{
    let before = before_text(alloc, cat, args)?;
    let between = between_text(alloc, name, "i", ",\"s\":\"t\"", thread)?;
    Ok(Line::new(tick, None, before, between))
}

/// Returns the line of something that is not shown. It stands at the first tick that is shown, `tick`, and is of the
/// whole process.
#[tactic(auto, unfolding(crate::specs::Events::unseen_line))]
fn unseen_line(alloc: Global, name: &str, tick: u64, args: &Value) -> Result<Line, AllocError>
    requires { has_float (view args.now) ≡ false }
    ensures { IfOk result (λ line. line ≡ unseen_line name.now tick (view args.now)) }
{
    let before = before_text(alloc, "hidden", args)?;
    let between = between_text(alloc, name, "i", ",\"s\":\"p\"", 1)?;
    Ok(Line::new(tick, None, before, between))
}

/// Returns the arguments of ticks that are not shown: how many are before and after.
#[tactic(auto, unfolding(crate::specs::Events::hidden_args))]
fn hidden_args(alloc: Global, hidden: Hidden) -> Result<Value, AllocError>
    ensures value { IfOk result (λ v. view v ≡ hidden_args hidden) }
    ensures plain { IfOk result (λ v. has_float (view v) ≡ false) }
{
    object_of(
        alloc,
        &[
            ("before", Scalar::Whole(hidden.before)),
            ("after", Scalar::Whole(hidden.after)),
        ],
    )
}

/// Returns the line of ticks that are not shown, at the first tick that is shown, `tick`.
pub(crate) fn hidden_line(alloc: Global, tick: u64, hidden: Hidden) -> Result<Line, AllocError>
    ensures { IfOk result (λ line. line ≡ hidden_event tick hidden) }
{
    let name = hidden.to_string(alloc)?;
    let args = hidden_args(alloc, hidden)?;
    unseen_line(alloc, &name, tick, &args)
}

/// Returns the arguments of servers that are not drawn: how many they are.
#[tactic(auto, unfolding(crate::specs::Events::left_out_args))]
fn left_out_args(alloc: Global, left_out: LeftOut) -> Result<Value, AllocError>
    ensures value { IfOk result (λ v. view v ≡ left_out_args left_out) }
    ensures plain { IfOk result (λ v. has_float (view v) ≡ false) }
{
    object_of(alloc, &[("servers", Scalar::Whole(left_out.servers))])
}

/// Returns the line of servers that are not drawn, at the first tick that is shown, `tick`.
pub(crate) fn left_out_line(alloc: Global, tick: u64, left_out: LeftOut) -> Result<Line, AllocError>
    ensures { IfOk result (λ line. line ≡ left_out_event tick left_out) }
{
    let name = left_out.to_string(alloc)?;
    let args = left_out_args(alloc, left_out)?;
    unseen_line(alloc, &name, tick, &args)
}

/// Returns the arguments that give a budget.
#[tactic(auto, unfolding(crate::specs::Events::budget_args))]
fn budget_args(alloc: Global, budget: u64) -> Result<Value, AllocError>
    ensures value { IfOk result (λ v. view v ≡ budget_args budget) }
    ensures plain { IfOk result (λ v. has_float (view v) ≡ false) }
{
    object_of(alloc, &[("c", Scalar::Whole(budget))])
}

/// Returns the line of a budget that holds from a tick on.
#[tactic(auto, unfolding(crate::specs::Events::budget_line))]
pub(crate) fn budget_line(
    alloc: Global,
    name: &str,
    thread: u64,
    tick: u64,
    budget: u64,
) -> Result<Line, AllocError>
    ensures { IfOk result (λ line. line ≡ budget_line name.now thread tick budget) }
{
    let name = format!(in alloc; "budget of {name}")?;
    let args = budget_args(alloc, budget)?;
    let before = before_text(alloc, "budget", &args)?;
    let between = between_text(alloc, &name, "C", "", thread)?;
    Ok(Line::new(tick, None, before, between))
}

/// Returns the event that describes a thread, such as by a name.
#[tactic(auto, unfolding(crate::specs::Events::about_data))]
fn about_value(alloc: Global, what: &str, thread: u64, args: Value) -> Result<Value, AllocError>
    ensures { IfOk result (λ v. view v ≡ about_data what.now thread (view args)) }
{
    let place = [
        ("ph", Scalar::Text("M")),
        ("pid", Scalar::Whole(1)),
        ("tid", Scalar::Whole(thread)),
        ("ts", Scalar::Whole(0)),
        ("name", Scalar::Text(what)),
    ];
    let mut members = Map::new(alloc);
    put_all(alloc, &mut members, &place)?;
    put(&mut members, alloc, "args", args)?;
    Ok(Value::Object(members))
}

/// Returns the event that describes a thread, as text.
pub(crate) fn about_text(
    alloc: Global,
    what: &str,
    thread: u64,
    args: Value,
) -> Result<String, AllocError>
    requires { has_float (view args) ≡ false }
    ensures { IfOk result (λ text. string_bytes text
        ≡ compact_text (about_data what.now thread (view args))) }
{
    about_value(alloc, what, thread, args)?.to_string(alloc)
}
