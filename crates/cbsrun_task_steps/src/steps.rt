//! The steps of a task file, read entry by entry. Each entry is freed after its step was taken.

ghost use Rattle.std.specs.Prelude.{◌≡◌, ◌<◌, ◌≤◌, ℕ, codes, length, [], None, Ok, IfOk, OnOk, IfErr};
ghost use Rattle.toml.specs.Data.{Data, no_items};
ghost use Rattle.toml.specs.Parse as spec;
ghost use Rattle.toml.specs.Tables.{Nodes, no_nodes, Document};
ghost use Rattle.toml.specs.View.{view};
ghost use Rattle.cbsrun_toml.specs.Reading.{IsPlace, Shortens, growing};
ghost use Rattle.cbsrun_toml_tokens.specs.declared.stop.Stop.TheVariants.{NotToml, OutOfMemory};
ghost use Rattle.cbsrun_toml_tables.specs.Fields.{seen};
ghost use Rattle.cbsrun_task_steps.specs.Entries.{step_entry, IsFileStep};
ghost use Rattle.cbsrun_task_steps.specs.Steps.{outcome, Spells, Takes, TakesEntry, TakesSection, ReadsSteps, ReadsStepTables};
ghost use Rattle.cbsrun_task_steps.specs.declared.terms.Terms.{Terms};

use crate::entries::step_entry;
use crate::plain::plain_step;
use crate::terms::Terms;
use cbs_core::Step;
use cbs_job::FileJob;
use cbsrun_toml::{Room, Stop, after_element, array_header, pairs, value};
use cbsrun_toml_plain::Layout;
use cbsrun_toml_tables::{FileFault, FileKind, Place, faulty};
use std::alloc::Global;
use toml::Value;
use toml_parser::text::{first, skip, skip_blank};

/// The steps that were read: those before the first fault, and the kind of that fault.
#[derive(Drop)]
pub struct StepsRead {
    pub steps: Vec<Step<FileJob>>,
    pub fault: Option<FileKind>,
}

impl StepsRead {
    /// Returns the steps that were read before the first entry: none.
    fn new(alloc: Global) -> StepsRead
        ensures { (terms : Terms) → Spells terms result [] }
    {
        StepsRead {
            steps: Vec::new(alloc),
            fault: None,
        }
    }

    /// Takes one more step, unless a fault was found before it.
    fn keep(&mut self, step: Step<FileJob>) -> Result<(), Stop>
        ensures kept { OnOk result ((t : Terms) (entry : Data)
            → step_entry t.format t.servers entry ≡ Ok step → IsFileStep t.servers step
            → Takes t self.old self.new entry) }
        ensures memory { IfErr result (λ e. e ≡ OutOfMemory) }
    {
        if self.fault.is_some() {
            return Ok(());
        }
        let Ok(()) = self.steps.push(step) else {
            return Err(Stop::OutOfMemory);
        };
        Ok(())
    }

    /// Takes one more entry.
    fn take(&mut self, alloc: Global, terms: Terms, entry: &Value) -> Result<(), Stop>
        ensures took { OnOk result (Takes terms self.old self.new (view entry.now)) }
        ensures memory { IfErr result (λ e. e ≡ OutOfMemory) }
    {
        match step_entry(alloc, terms.format, terms.servers, entry) {
            Ok(step) => self.keep(step)?,
            Err(kind) => {
                if kind == FileKind::OutOfMemory {
                    return Err(Stop::OutOfMemory);
                }
                if self.fault.is_none() {
                    self.fault = Some(kind);
                }
            }
        }
        Ok(())
    }

    /// Returns the steps, or the first fault: that of the entry after them.
    pub fn into_steps(self) -> Result<Vec<Step<FileJob>>, FileFault>
        ensures steps { seen (λ v. v.items) result ≡ outcome self.steps.items self.fault }
        ensures kept { IfOk result (λ v. v.items ≡ self.steps.items) }
    {
        let StepsRead { steps, fault } = self;
        match fault {
            Some(kind) => Err(faulty(Place::Step(steps.len() as u64), kind)),
            None => Ok(steps),
        }
    }
}

/// Reads one more entry of an array, and returns the text after it. A step in its plain spelling is taken with no table.
fn read_entry<'s>(
    found: &mut StepsRead,
    alloc: Global,
    terms: Terms,
    s: &'s str,
) -> Result<&'s str, Stop>
    ensures read { IfOk result (λ rest. TakesEntry terms found.old found.new s.now rest.now) }
    ensures refusal { IfErr result (λ e. e ≡ NotToml → spec.val 79 s.now ≡ None) }
    ensures shorter { IfOk result (λ rest. length rest.now < length s.now) }
{
    if let Some((step, rest)) = plain_step(alloc, terms, Layout::Inline, s) {
        found.keep(step)?;
        return Ok(rest);
    }
    let (entry, rest) = value(alloc, &mut Room::new(), s, 79)?;
    take(found, alloc, terms, entry)?;
    Ok(rest)
}

/// Reads one more table, on the lines after its header, and returns the text after it. A step in its plain spelling is
/// taken with no table.
fn read_section<'s>(
    found: &mut StepsRead,
    alloc: Global,
    terms: Terms,
    s: &'s str,
) -> Result<&'s str, Stop>
    ensures read { IfOk result (λ rest. TakesSection terms found.old found.new s.now rest.now) }
    ensures refusal { IfErr result (λ e. e ≡ NotToml → (n : ℕ) (at : Nodes → Document) → IsPlace at
        → length s.now < n → spec.lines n (at no_nodes) s.now ≡ None) }
    ensures within { IfOk result (λ rest. length rest.now ≤ length s.now) }
{
    if let Some((step, rest)) = plain_step(alloc, terms, Layout::Lines, s) {
        found.keep(step)?;
        return Ok(rest);
    }
    let (table, rest) = pairs(alloc, &mut Room::new(), s)?;
    take(found, alloc, terms, Value::Table(table))?;
    Ok(rest)
}

/// Takes one more entry, and frees it.
fn take(found: &mut StepsRead, alloc: Global, terms: Terms, entry: Value) -> Result<(), Stop>
    ensures took { OnOk result (Takes terms found.old found.new (view entry)) }
    ensures memory { IfErr result (λ e. e ≡ OutOfMemory) }
{
    found.take(alloc, terms, &entry)
}

/// Returns the steps of an array whose opening bracket was read, and the text after the array.
pub fn step_array(alloc: Global, terms: Terms, s: &str) -> Result<(StepsRead, &str), Stop>
    ensures value { (n : ℕ) → length s.now < n
        → ReadsSteps terms result (spec.items (spec.val 79) n no_items s.now) }
    ensures shorter { Shortens s.now result }
{
    let mut found = StepsRead::new(alloc);
    let mut rest = s;
    'items: loop {
        let start = skip_blank(rest, true);
        if first(start) == b']' {
            return Ok((found, skip(start, 1)));
        }
        let after = read_entry(&mut found, alloc, terms, start)?;
        rest = after_element(after, b']')?;
    }
}

/// Returns the steps of an array of tables whose first header was read. The tables go on to the end of the text.
pub fn step_tables(alloc: Global, terms: Terms, s: &str) -> Result<StepsRead, Stop>
    ensures { (n : ℕ) (root : Nodes) → length s.now < n
        → ReadsStepTables terms root result (spec.lines n (growing (codes "step") root no_items
        no_nodes) s.now) }
{
    let mut found = StepsRead::new(alloc);
    let mut rest = s;
    'tables: loop {
        let after = read_section(&mut found, alloc, terms, rest)?;
        let start = skip_blank(after, true);
        if start.is_empty() {
            return Ok(found);
        }
        let (next, body) = array_header(alloc, start)?;
        if next.as_str() != "step" {
            return Err(Stop::Unusual);
        }
        rest = body;
    }
}
