//! A record as a run: its steps are made again.

ghost use Rattle.std.specs.Prelude.{◌≡◌, true, OnOk, OnErr, All};
ghost use Rattle.std.proofs.Math.ListN.{replicate};
ghost use Rattle.cbs_steps.specs.declared.step.Step.TheVariants as step;
ghost use Rattle.cbs_tape.specs.Tapes.{all_steps, steps_of};
ghost use Rattle.cbs_units.specs.Counting.{counting};
ghost use Rattle.cbsrun_records.specs.Records.{HasUnits};
ghost use Rattle.cbsrun_runs.specs.Records.{RecordKeepsLaws, run_of_record};
ghost use Rattle.cbsrun_runs.specs.Steps.{Shows, Stops};

use crate::run::Run;
use crate::steps::show_step;
use cbs_core::{Core, Step};
use cbs_job::Task;
use cbs_rate::Plan;
use cbs_rules::Modes;
use cbs_tape::Entry;
use cbs_units::CountJob;
use cbsrun_events::View;
use cbsrun_records::Record;
use cbsrun_simulate::Range;
use std::alloc::{AllocError, Global};

/// Makes so many runs, and shows each to the view. Refuses if out of memory, or if the view fails.
fn show_runs<C, V: View<C>>(
    core: &mut Core<CountJob>,
    times: u64,
    view: &mut V,
    lent: &mut C,
) -> Result<(), AllocError>
    requires { V.ready view.old lent.old }
    ensures ready { OnOk result (V.ready view.new lent.new) }
    ensures shown { OnOk result (Shows counting V.saw (replicate times step.Run) core.old core.new
        (view.old, lent.old) (view.new, lent.new)) }
    ensures stopped { OnErr result (Stops counting V.saw V.failed (replicate times step.Run)
        core.old core.new (view.old, lent.old) (view.new, lent.new)) }
{
    for _time in 0..times {
        show_step(core, Step::Run, view, lent)?;
    }
    Ok(())
}

/// Makes the steps of an entry, and shows each to the view. Refuses if out of memory, or if the view fails.
fn show_entry<C, V: View<C>>(
    core: &mut Core<CountJob>,
    entry: Entry,
    view: &mut V,
    lent: &mut C,
) -> Result<(), AllocError>
    requires ready { V.ready view.old lent.old }
    requires units { HasUnits entry }
    ensures ready { OnOk result (V.ready view.new lent.new) }
    ensures shown { OnOk result (Shows counting V.saw (steps_of entry) core.old core.new
        (view.old, lent.old) (view.new, lent.new)) }
    ensures stopped { OnErr result (Stops counting V.saw V.failed (steps_of entry)
        core.old core.new (view.old, lent.old) (view.new, lent.new)) }
{
    match entry {
        Entry::Accepted { server, units } => {
            let Ok(task) = Task::new(CountJob { units }) else {
                unreachable!()
            };
            show_step(core, Step::Submit(u16::from(server), task), view, lent)
        }
        Entry::Units(times) => show_runs(core, times, view, lent),
        Entry::Advanced(ticks) => show_step(core, Step::Advance(ticks), view, lent),
        Entry::Charged { server, ticks } => {
            show_step(core, Step::Charge(u16::from(server), ticks), view, lent)
        }
        Entry::Closed(server) => show_step(core, Step::Close(u16::from(server)), view, lent),
    }
}

/// Makes the steps of the entries, in order, and shows each to the view. Refuses if out of memory, or if the view fails.
fn show_entries<C, V: View<C>>(
    core: &mut Core<CountJob>,
    entries: &[Entry],
    view: &mut V,
    lent: &mut C,
) -> Result<(), AllocError>
    requires ready { V.ready view.old lent.old }
    requires units { All HasUnits entries.now }
    ensures shown { OnOk result (Shows counting V.saw (all_steps entries.now) core.old core.new
        (view.old, lent.old) (view.new, lent.new)) }
    ensures stopped { OnErr result (Stops counting V.saw V.failed (all_steps entries.now)
        core.old core.new (view.old, lent.old) (view.new, lent.new)) }
{
    for entry in entries {
        show_entry(core, *entry, view, lent)?;
    }
    Ok(())
}

impl Run for Record {
    ghost run = { run_of_record };

    ghost lawful = { RecordKeepsLaws };

    ghost repeats = { true };

    fn plan(&self) -> &Plan {
        Record::plan(self)
    }

    fn modes(&self) -> &Modes {
        // Reading the names gives the proof that each server has a name, and a mode.
        let _names = Record::names(self);
        Record::modes(self)
    }

    fn backlog(&self) -> u64 {
        Record::backlog(self)
    }

    fn tick(&self) -> Option<u64> {
        Record::tick(self)
    }

    fn seed(&self) -> Option<u64> {
        None
    }

    fn name(&self, alloc: Global, server: u16) -> Result<String, AllocError> {
        String::from_str(alloc, &self.names()[usize::from(server)])
    }

    fn within(&self, _server: u16) -> Option<Range> {
        None
    }

    fn until(&self) -> Option<u64> {
        None
    }

    fn show<C, V: View<C>>(
        &mut self,
        alloc: Global,
        view: &mut V,
        lent: &mut C,
    ) -> Result<u64, AllocError> {
        let Ok(mut core) = Core::of(alloc, self.plan(), Record::modes(self), self.backlog()) else {
            return Err(AllocError);
        };
        show_entries(&mut core, self.entries(), view, lent)?;
        Ok(core.now())
    }
}
