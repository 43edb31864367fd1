//! Runs: servers, and the steps that are made on them, which can be shown.

ghost use Rattle.std.specs.Prelude.{◌≡◌, ◌<◌, [], Bool, false, IfOk, IfSome, OnErr, OnOk, Some, length, slice_get, string_bytes};
ghost use Rattle.std.specs.Bool.{OnTrue};
ghost use Rattle.cbsrun_runs.specs.Runs.{Shown, AreInOrder, HasServers, SameServers, SawSome};

use cbs_rate::Plan;
use cbs_rules::Modes;
use cbsrun_events::View;
use cbsrun_simulate::Range;
use std::alloc::{AllocError, Global};

/// A run that can be shown: servers, and the steps that are made on them. A load whose jobs are simulated is a run, and
/// so is a task file whose steps are made again.
pub trait Run {
    // The servers, and the steps.
    ghost run: { Self → Shown };

    // What the rules give of such a run, besides its steps.
    ghost lawful: { Self → Type 0 } = { λ _. Unit {0} };

    // Whether showing the run leaves it as it was, so that it shows the same again.
    ghost repeats: { Bool } = { false };

    /// Returns the reservations of the servers, and the bound on their total bandwidth.
    fn plan(&self) -> &Plan
        ensures { result.now ≡ (run self.now).plan };

    /// Returns the modes of the servers, by number.
    fn modes(&self) -> &Modes
        ensures value { result.now ≡ (run self.now).modes }
        ensures servers { HasServers (run self.now) };

    /// Returns how many accepted, unfinished jobs a server may have.
    fn backlog(&self) -> u64
        ensures { result ≡ (run self.now).backlog };

    /// Returns the nanoseconds of a tick, or `None` if the file does not say how long a tick is.
    fn tick(&self) -> Option<u64>
        ensures { result ≡ (run self.now).tick };

    /// Returns the seed of the numbers that are drawn, or `None` if none are.
    fn seed(&self) -> Option<u64>
        ensures { result ≡ (run self.now).seed };

    /// Returns the name of a server. The only error is out of memory.
    fn name(&self, alloc: Global, server: u16) -> Result<String, AllocError>
        requires { server < length (run self.now).plan.rates }
        ensures { IfOk result (λ name. Some (string_bytes name)
            ≡ slice_get (run self.now).names server) };

    /// Returns within how many ticks the jobs of a server are to be finished: from the least of these numbers to the
    /// greatest. Returns `None` if that is not wanted of any of its jobs.
    fn within(&self, server: u16) -> Option<Range>
        ensures { result ≡ (run self.now).within server };

    /// Returns the tick at which the steps end, if it is known before they are made.
    fn until(&self) -> Option<u64>
        ensures { IfSome result (λ end. end ≡ (run self.now).end) };

    /// Makes the steps, and shows each to the view. Returns the tick at which they end. The view has to be ready. A load
    /// is unchanged, and can be shown again. A task file can be shown once.
    ///
    /// Refuses if out of memory, or if the view fails. The view has then seen the first steps, up to some step. It may
    /// have failed to see the last of these.
    fn show<C, V: View<C>>(
        &mut self,
        alloc: Global,
        view: &mut V,
        lent: &mut C,
    ) -> Result<u64, AllocError>
        requires { V.ready view.old lent.old }
        ensures end { IfOk result (λ end. end ≡ (run self.old).end) }
        ensures seen { OnOk result ((first : (V × C)) → V.saw first (view.old, lent.old) []
            → V.saw first (view.new, lent.new) (run self.old).seen) }
        ensures stopped { OnErr result ((first : (V × C)) → V.saw first (view.old, lent.old) []
            → SawSome V.saw V.failed first (view.new, lent.new) (run self.old).seen) }
        ensures in_order { OnOk result (AreInOrder (run self.old)) }
        ensures lawful { OnOk result (lawful self.old) }
        ensures servers { OnOk result (SameServers (run self.old) (run self.new)) }
        ensures leaves { OnTrue repeats (self.new ≡ self.old) };
}
