//! The tick at which a run ends.

ghost use Rattle.std.specs.Prelude.{◌≡◌, IfOk};
ghost use Rattle.std.specs.Bool.{OnTrue};

use crate::run::Run;
use cbsrun_events::{Seen, View};
use std::alloc::{AllocError, Global};

/// A view that ignores all that it sees.
#[derive(Drop)]
struct Blind;

impl View<()> for Blind {
    ghost saw = { λ first now seen. Unit {0} };

    fn see(&mut self, _lent: &mut (), _seen: Seen) -> Result<(), AllocError> {
        Ok(())
    }
}

/// Returns the tick at which a run ends, whose steps it makes. A load and a record are unchanged. The only error is out of
/// memory.
pub fn end_of<R: Run>(alloc: Global, run: &mut R) -> Result<u64, AllocError>
    ensures end { IfOk result (λ end. end ≡ (R.run run.old).end) }
    ensures leaves { OnTrue R.repeats (run.new ≡ run.old) }
{
    run.show(alloc, &mut Blind, &mut ())
}
