//! Steps in their plain spelling, which are read with no table for each: bare keys, `op` first, with plain numbers.

ghost use Rattle.std.specs.Prelude.{◌≡◌, ℕ, ◌<◌, ◌≤◌, codes, length, List, IfSome};
ghost use Rattle.toml.specs.Data.{string, array, Items, no_items};
ghost use Rattle.toml.specs.Parse as spec;
ghost use Rattle.cbs_rate.specs.Limits.{most_units};
ghost use Rattle.cbsrun_toml_plain.specs.Pairs.{Reads, IsValue};
ghost use Rattle.cbsrun_task_steps.specs.Plain.{op_pair, AreUnits, ReadsUnits, SpellsStep};

use crate::entries::job_of;
use crate::terms::Terms;
use cbs_core::Step;
use cbs_job::{FileJob, MAX_UNITS, Task};
use cbsrun_toml::after_element;
use cbsrun_toml_plain::{
    Layout, after_trivia, after_word, first_value, next_value, number_of, table_end,
};
use std::alloc::Global;
use toml_parser::text::{first, skip};

/// Returns the numbers of an array whose opening bracket was read, and the text after the array. Returns `None` if one
/// of them is not spelled plainly or is no unit, if there are too many, or if out of memory.
fn units_in(alloc: Global, s: &str) -> Option<(Vec<u32>, &str)>
    ensures value { (depth n : ℕ) → length s.now < n
        → IfSome result (λ p. ReadsUnits p.0.items p.1.now (spec.items (spec.val depth) n no_items
        s.now)) }
    ensures few { IfSome result (λ p. length p.0.items ≤ most_units) }
    ensures shorter { IfSome result (λ p. length p.1.now < length s.now) }
{
    let mut units = Vec::new(alloc);
    let mut rest = s;
    'items: loop {
        let start = after_trivia(rest);
        if first(start) == b']' {
            return Some((units, skip(start, 1)));
        }
        let (number, after) = number_of(start)?;
        if number > u64::from(u32::MAX) || units.len() >= MAX_UNITS as usize {
            return None;
        }
        let Ok(()) = units.push(number as u32) else {
            return None;
        };
        let Ok(next) = after_element(after, b']') else {
            return None;
        };
        rest = next;
    }
}

/// Returns the units of a job that are an array at the start of a text, and the text after the array. Returns `None`
/// as [`units_in`] does, and if there is no unit.
fn units_of(alloc: Global, s: &str) -> Option<(Vec<u32>, &str)>
    ensures value { IfSome result (λ p. (layout : Layout) → (ds : Items)
        × IsValue layout s.now (array ds) p.1.now × AreUnits p.0.items ds) }
    ensures some { IfSome result (λ p. 0 < length p.0.items) }
    ensures few { IfSome result (λ p. length p.0.items ≤ most_units) }
    ensures shorter { IfSome result (λ p. length p.1.now < length s.now) }
{
    if first(s) != b'[' {
        return None;
    }
    let (units, rest) = units_in(alloc, skip(s, 1))?;
    if units.is_empty() {
        return None;
    }
    Some((units, rest))
}

/// Returns the kind of a job that is a text at the start of a text, and what follows it. Returns `None` if no kind of a
/// job stands there.
fn kind_of(s: &str) -> Option<(&str, &str)>
    ensures value { IfSome result (λ p. (layout : Layout)
        → IsValue layout s.now (string p.0.now) p.1.now) }
    ensures shorter { IfSome result (λ p. length p.1.now < length s.now) }
{
    if let Some(rest) = after_word(s, "\"sum\"") {
        return Some(("sum", rest));
    }
    let rest = after_word(s, "\"peak\"")?;
    Some(("peak", rest))
}

/// Returns the submit whose `op` was read, and the text after it, or `None` if it is not spelled plainly or if out of
/// memory.
fn submit_step(
    alloc: Global,
    terms: Terms,
    layout: Layout,
    s: &str,
) -> Option<(Step<FileJob>, &str)>
    ensures { (text : List ℕ) → Reads layout text (op_pair (codes "submit")) s.now
        → IfSome result (λ p. SpellsStep layout terms text p.0 p.1.now) }
{
    let at_server = next_value(layout, s, "server")?;
    let (server, after_server) = number_of(at_server)?;
    if server >= terms.servers {
        return None;
    }
    let at_job = next_value(layout, after_server, "job")?;
    let (kind, after_job) = kind_of(at_job)?;
    let at_units = next_value(layout, after_job, "units")?;
    let (units, after_units) = units_of(alloc, at_units)?;
    let rest = table_end(layout, after_units)?;
    let Ok(job) = job_of(kind, units) else {
        return None;
    };
    let Ok(task) = Task::new(job) else {
        return None;
    };
    Some((Step::Submit(server as u16, task), rest))
}

/// Returns the advance whose `op` was read, and the text after it, or `None` if it is not spelled plainly.
fn advance_step(terms: Terms, layout: Layout, s: &str) -> Option<(Step<FileJob>, &str)>
    ensures { (text : List ℕ) → Reads layout text (op_pair (codes "advance")) s.now
        → IfSome result (λ p. SpellsStep layout terms text p.0 p.1.now) }
{
    let at = next_value(layout, s, "ticks")?;
    let (ticks, after) = number_of(at)?;
    if ticks > terms.format.longest_advance() {
        return None;
    }
    let rest = table_end(layout, after)?;
    Some((Step::Advance(ticks), rest))
}

/// Returns the close whose `op` was read, and the text after it, or `None` if it is not spelled plainly.
fn close_step(terms: Terms, layout: Layout, s: &str) -> Option<(Step<FileJob>, &str)>
    ensures { (text : List ℕ) → Reads layout text (op_pair (codes "close")) s.now
        → IfSome result (λ p. SpellsStep layout terms text p.0 p.1.now) }
{
    let at = next_value(layout, s, "server")?;
    let (server, after) = number_of(at)?;
    if server >= terms.servers {
        return None;
    }
    let rest = table_end(layout, after)?;
    Some((Step::Close(server as u16), rest))
}

/// Returns the step at the start of a text, and the text after it. Returns `None` if no step in its plain spelling
/// stands there.
pub fn plain_step(
    alloc: Global,
    terms: Terms,
    layout: Layout,
    s: &str,
) -> Option<(Step<FileJob>, &str)>
    ensures { IfSome result (λ p. SpellsStep layout terms s.now p.0 p.1.now) }
{
    let at = first_value(layout, s, "op")?;
    if let Some(op) = after_word(at, "\"run\"") {
        let rest = table_end(layout, op)?;
        return Some((Step::Run, rest));
    }
    if let Some(op) = after_word(at, "\"submit\"") {
        return submit_step(alloc, terms, layout, op);
    }
    if let Some(op) = after_word(at, "\"advance\"") {
        return advance_step(terms, layout, op);
    }
    if let Some(op) = after_word(at, "\"close\"") {
        return close_step(terms, layout, op);
    }
    None
}
