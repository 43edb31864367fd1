//! A load as a run: its jobs are simulated.

ghost use Rattle.std.specs.Prelude.{true};
ghost use Rattle.cbsrun_loads.specs.Loads.{with_seed};
ghost use Rattle.cbsrun_runs.specs.Loads.{IsKept, run_of};

use crate::load_steps::show_load;
use crate::run::Run;
use crate::within::within_of;
use cbs_rate::Plan;
use cbs_rules::Modes;
use cbsrun_events::View;
use cbsrun_loads::Load;
use cbsrun_simulate::Range;
use std::alloc::{AllocError, Global};

impl Run for Load {
    ghost run = { run_of };

    ghost lawful = { IsKept };

    ghost repeats = { true };

    fn plan(&self) -> &Plan {
        Load::plan(self)
    }

    fn modes(&self) -> &Modes {
        // Reading the names gives the proof that each server has a name, and a mode.
        let _names = Load::names(self);
        Load::modes(self)
    }

    fn backlog(&self) -> u64 {
        Load::backlog(self)
    }

    fn tick(&self) -> Option<u64> {
        Load::tick(self)
    }

    fn seed(&self) -> Option<u64> {
        Some(Load::seed(self))
    }

    fn name(&self, alloc: Global, server: u16) -> Result<String, AllocError> {
        String::from_str(alloc, &self.names()[usize::from(server)])
    }

    fn within(&self, server: u16) -> Option<Range> {
        within_of(server, self.sources())
    }

    fn until(&self) -> Option<u64> {
        Some(Load::until(self))
    }

    fn show<C, V: View<C>>(
        &mut self,
        alloc: Global,
        view: &mut V,
        lent: &mut C,
    ) -> Result<u64, AllocError> {
        show_load(alloc, self, Load::seed(self), view, lent)?;
        Ok(Load::until(self))
    }
}

/// A load that is simulated with a seed in the place of its own. Several threads can each run one of the same load.
#[derive(Clone, Copy)]
pub struct SeededLoad<'a> {
    /// The load.
    pub load: &'a Load,
    /// The seed of the numbers that are drawn.
    pub seed: u64,
}

impl Run for SeededLoad<'_> {
    ghost run = { λ s. run_of (with_seed s.seed s.load.now) };

    ghost lawful = { λ s. IsKept (with_seed s.seed s.load.now) };

    ghost repeats = { true };

    fn plan(&self) -> &Plan {
        self.load.plan()
    }

    fn modes(&self) -> &Modes {
        Run::modes(self.load)
    }

    fn backlog(&self) -> u64 {
        self.load.backlog()
    }

    fn tick(&self) -> Option<u64> {
        self.load.tick()
    }

    fn seed(&self) -> Option<u64> {
        Some(self.seed)
    }

    fn name(&self, alloc: Global, server: u16) -> Result<String, AllocError> {
        self.load.name(alloc, server)
    }

    fn within(&self, server: u16) -> Option<Range> {
        self.load.within(server)
    }

    fn until(&self) -> Option<u64> {
        Some(self.load.until())
    }

    fn show<C, V: View<C>>(
        &mut self,
        alloc: Global,
        view: &mut V,
        lent: &mut C,
    ) -> Result<u64, AllocError> {
        show_load(alloc, self.load, self.seed, view, lent)?;
        Ok(self.load.until())
    }
}
