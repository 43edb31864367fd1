//! The views of a run.

ghost use Rattle.std.specs.Prelude.{List, ◌∷◌, OnOk, OnErr};
ghost use Rattle.cbsrun_events.specs.declared.seen.Seen.{Seen};

use crate::seen::Seen;
use std::alloc::AllocError;

/// A view that sees each step of a run, in order. `C` is what the view is lent for that, such as a writer. A view that
/// needs nothing has `()`.
pub trait View<C> {
    /// The condition under which the view may see a step, with what it is lent.
    ghost ready: { Self → C → Type 0 } = { λ _ _. Unit {0} };

    /// What the view and what it is lent held first, and what they hold after the view saw these steps, the newest
    /// first.
    ghost saw: { (Self × C) → (Self × C) → List Seen → Type 0 };

    /// What they held first, and what they hold after the view failed to see the newest of these steps.
    ghost failed: { (Self × C) → (Self × C) → List Seen → Type 0 } = { λ _ _ _. Unit {0} };

    /// Sees a step. An error ends the run. The error means out of memory, or another failure that the view keeps
    /// itself.
    fn see(&mut self, lent: &mut C, seen: Seen) -> Result<(), AllocError>
        requires { ready self.old lent.old }
        ensures ready { OnOk result (ready self.new lent.new) }
        ensures saw { OnOk result ((first : (Self × C)) (all : List Seen)
            → saw first (self.old, lent.old) all
            → saw first (self.new, lent.new) (seen ∷ all)) }
        ensures failed { OnErr result ((first : (Self × C)) (all : List Seen)
            → saw first (self.old, lent.old) all
            → failed first (self.new, lent.new) (seen ∷ all)) };
}
