//! The sink of completions.

ghost use Rattle.std.specs.Prelude.{◌≡◌};
ghost use Rattle.cbs_job.specs.declared.completion.Completion.{Completion};

use cbs_job::Completion;

/// A sink is given each completion, as it comes. It is called on the house's thread, between two turns, so the house
/// does nothing meanwhile.
pub trait Sink {
    /// What a completion does to the sink. If a sink does not say otherwise, nothing is known about it.
    ghost hears: { Self → Completion → Self → Type 0 } = { λ _ _ _. Unit {0} };

    /// Takes a completion.
    fn tell(&mut self, done: Completion)
        ensures { hears self.old done self.new };
}

/// The sink that leaves the completions to the results of the house.
#[derive(Clone, Copy, Debug)]
pub struct NoSink;

impl Sink for NoSink {
    ghost hears = { λ old done new. new ≡ old };

    fn tell(&mut self, _done: Completion) {}
}
