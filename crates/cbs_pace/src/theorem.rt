//! The theorem about the units of a server.

ghost use Rattle.std.specs.Prelude.{List, ℕ, ◌<◌};
ghost use Rattle.cbs_pace.specs.Ledgers.{IsPaid, Ledger, with_units};

use crate::rounding::Rounding;

/// States that whatever units a server gets, they are paid for, in any window of them. The function
/// does nothing. Its contract is the theorem, for whoever charges each unit what
/// [`Tick::charge`](crate::Tick::charge) returns.
pub fn all_paid(rounding: Rounding, tick: u64)
    requires { 0 < tick }
    ensures { (before : Ledger) → (units : List ℕ)
        → IsPaid rounding tick before (with_units rounding tick before units) }
{
    let _ = (rounding, tick);
}
